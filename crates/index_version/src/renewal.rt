//! What is mapped again.
ghost use Rattle.std.specs.Prelude.{◌≡◌, ◌+◌, ◌≤◌, IfOk, length, map};
ghost use Rattle.spec_data.specs.Folding.{folded};
ghost use Rattle.index_tree.specs.Mapper.{mapper_of};
ghost use Rattle.index_definition.specs.DefinitionView.{definition_view};
ghost use Rattle.reference_track.specs.Folded.{by_folded};
ghost use Rattle.index_version.specs.Meaning.{Means};
ghost use Rattle.index_version.specs.Renewed.{ArePaired, AreRenewed, mapped_among};

use crate::asking::all_answers;
use crate::kept::Kept;
use crate::table::Table;
use index_definition::Definition;
use map_stage::Mapper;
use raven_base::{NoMemory, Steps};
use raven_value::Id;
use std::alloc::Global;
use std::sync::ledger::Ledger;
use std::thread::Threads;

/// What is stored once these ids are mapped again, over a table, and no others. The map is asked for those of them that are
/// mapped there, before anything is stored: each of these questions is counted, also if no memory is found for an answer.
pub fn renewed<R: Threads + Sync, M: Mapper + Sync, L: Ledger>(
    rt: &R,
    alloc: Global,
    kept: &Kept,
    ids: &[Id],
    table: &Table,
    definition: &Definition,
    mapper: &M,
    steps: &mut Steps<L>,
) -> Result<Kept, NoMemory>
    requires means { Means (M.meaning mapper.now) (definition_view definition.now.body) }
    ensures results { IfOk result (λ new. AreRenewed (mapper_of (definition_view definition.now.body)) table.now (map folded ids.now) (by_folded kept.now.given) (by_folded new.given)) }
    ensures pairs { IfOk result (λ new. ArePaired (mapper_of (definition_view definition.now.body)) table.now (map folded ids.now) kept.now.referrers new.referrers) }
    ensures counted { IfOk result (λ _. steps.new.maps ≡ steps.old.maps + length (mapped_among (mapper_of (definition_view definition.now.body)) table.now (map folded ids.now))) }
    ensures maps { steps.new.maps ≤ steps.old.maps + length (mapped_among (mapper_of (definition_view definition.now.body)) table.now (map folded ids.now)) }
    ensures merges { steps.new.merges ≡ steps.old.merges }
    ensures reads { steps.new.reads ≡ steps.old.reads }
{
    let all = all_answers(rt, alloc, ids, table, definition, mapper, steps)?;
    let mut new = kept.copy()?;
    for answer in all {
        new = new.put(alloc, answer.id, answer.given?)?;
    }
    Ok(new)
}
