//! What the map gives for the documents of a batch, which several threads ask it for.
ghost use Rattle.std.specs.Prelude.{◌≡◌, ◌+◌, ◌≤◌, Some, IfOk, cond, is_some, length, map, option_map};
ghost use Rattle.std.specs.FinMap.{get};
ghost use Rattle.std.specs.List.{All, AllZip};
ghost use Rattle.raven_base.specs.Counts.{one_map_more};
ghost use Rattle.spec_data.specs.Folding.{folded};
ghost use Rattle.index_tree.specs.Mapper.{mapper_of};
ghost use Rattle.index_definition.specs.DefinitionView.{definition_view};
ghost use Rattle.index_version.specs.Asked.{IsAnswer, IsAnswered, IsQuestion, given_by};
ghost use Rattle.index_version.specs.Kept.{given_at};
ghost use Rattle.index_version.specs.Meaning.{Means};
ghost use Rattle.index_version.specs.Renewed.{mapped_among};

use crate::given::Given;
use crate::mapping::mapped_collection;
use crate::table::Table;
use index_definition::{DefBody, Definition};
use map_stage::{Lookup, Mapper, Ticket};
use raven_base::{NoMemory, Steps};
use raven_value::{Id, Row};
use rayon::prelude::*;
use std::alloc::Global;
use std::sync::ledger::Ledger;
use std::thread::Threads;

/// How few documents are worth threads, of which `rayon` starts one for each processor.
const LEAST_BATCH: usize = 256;

/// How few bytes the text of a map may have that is worth several threads. What a shorter one computes takes less time than threads lose
/// that take memory beside one another.
const LEAST_TEXT: usize = 512;

/// An id that is asked for: the document that is to be mapped, if there is one, with the ticket for its map; and then what was given.
#[derive(Drop)]
pub struct Asked<'a> {
    pub id: &'a Id,
    pub about: Option<(&'a Row, Ticket)>,
    pub given: Result<Option<Given>, NoMemory>,
}

impl<'a> Asked<'a> {
    /// The question for an id. Its map is counted here.
    fn of<L: Ledger>(
        id: &'a Id,
        table: &'a Table,
        definition: &Definition,
        steps: &mut Steps<L>,
    ) -> Asked<'a>
        ensures id { result.id.now ≡ id.now }
        ensures question { IsQuestion (mapper_of (definition_view definition.now.body)) table.now result }
        ensures counted { steps.new ≡ cond (is_some (given_at (mapper_of (definition_view definition.now.body)) table.now (folded id.now))) (one_map_more steps.old) steps.old }
    {
        let about = match mapped_row(id, table, definition) {
            Some(row) => Some((row, Ticket::of(steps))),
            None => None,
        };
        Asked {
            id,
            about,
            given: Ok(None),
        }
    }

    /// Asks the map.
    fn answer<M: Mapper>(&mut self, alloc: Global, table: &Table, mapper: &M)
        ensures { IsAnswer (λ d. M.meaning mapper.now d (get table.now)) self.old self.new }
    {
        self.given = match self.about.take() {
            Some((row, ticket)) => given_for(alloc, row, table, mapper, ticket),
            None => Ok(None),
        };
    }
}

/// The document of an id, if it is mapped.
fn mapped_row<'a>(id: &Id, table: &'a Table, definition: &Definition) -> Option<&'a Row>
    ensures { option_map (λ row. given_by (λ d. (mapper_of (definition_view definition.now.body)).meaning d table.now) row.now) result ≡ given_at (mapper_of (definition_view definition.now.body)) table.now (folded id.now) }
{
    let row = table.find(id)?;
    if row.collection != *mapped_collection(definition) {
        return None;
    }
    Some(row)
}

fn given_for<M: Mapper>(
    alloc: Global,
    row: &Row,
    table: &Table,
    mapper: &M,
    ticket: Ticket,
) -> Result<Option<Given>, NoMemory>
    ensures { IfOk result (λ given. given ≡ Some (given_by (λ d. M.meaning mapper.now d (get table.now)) row.now)) }
{
    let mapped = mapper.map(alloc, row, table, ticket)?;
    Ok(Some(Given::of(row.id.clone()?, mapped)))
}

/// The questions for these ids, in their order. All maps are counted before the first one is made.
fn questions<'a, L: Ledger>(
    alloc: Global,
    ids: &'a [Id],
    table: &'a Table,
    definition: &Definition,
    steps: &mut Steps<L>,
) -> Result<Vec<Asked<'a>>, NoMemory>
    ensures ids { IfOk result (λ all. map (λ a. a.id.now) all.items ≡ ids.now) }
    ensures questions { IfOk result (λ all. All (IsQuestion (mapper_of (definition_view definition.now.body)) table.now) all.items) }
    ensures counted { IfOk result (λ _. steps.new.maps ≡ steps.old.maps + length (mapped_among (mapper_of (definition_view definition.now.body)) table.now (map folded ids.now))) }
    ensures maps { steps.new.maps ≤ steps.old.maps + length (mapped_among (mapper_of (definition_view definition.now.body)) table.now (map folded ids.now)) }
    ensures merges { steps.new.merges ≡ steps.old.merges }
    ensures reads { steps.new.reads ≡ steps.old.reads }
{
    let mut all = Vec::with_capacity(alloc, ids.len())?;
    for id in ids {
        all.push(Asked::of(id, table, definition, steps))?;
    }
    Ok(all)
}

/// Asks the map for one document after another.
fn answer_each<M: Mapper>(alloc: Global, asked: &mut [Asked<'_>], table: &Table, mapper: &M)
    ensures { AllZip (IsAnswer (λ d. M.meaning mapper.now d (get table.now))) asked.old asked.new }
{
    for one in asked {
        one.answer(alloc, table, mapper);
    }
}

/// Asks the map in a thread for each processor.
fn answer_in_threads<R: Threads + Sync, M: Mapper + Sync>(
    rt: &R,
    alloc: Global,
    asked: &mut [Asked<'_>],
    table: &Table,
    mapper: &M,
)
    ensures { AllZip (IsAnswer (λ d. M.meaning mapper.now d (get table.now))) asked.old asked.new }
{
    par_for_each_mut(
        rt,
        asked,
        |_place: usize, one: &mut Asked<'_>|
            ensures { IsAnswer (λ d. M.meaning mapper.entry.now d (get table.entry.now)) one.old one.new }
        { one.answer(alloc, table, mapper) },
    );
}

/// Whether to map so many documents in several threads.
fn is_worth_threads(documents: usize, definition: &Definition) -> bool {
    match &definition.body {
        DefBody::Static { map_text, .. } => {
            documents >= LEAST_BATCH && map_text.as_str().len() >= LEAST_TEXT
        }
        _ => false,
    }
}

/// Asks the map, in several threads if that is worth it.
fn answer_all<R: Threads + Sync, M: Mapper + Sync>(
    rt: &R,
    alloc: Global,
    asked: &mut [Asked<'_>],
    table: &Table,
    definition: &Definition,
    mapper: &M,
)
    ensures { AllZip (IsAnswer (λ d. M.meaning mapper.now d (get table.now))) asked.old asked.new }
{
    if is_worth_threads(asked.len(), definition) {
        answer_in_threads(rt, alloc, asked, table, mapper);
    } else {
        answer_each(alloc, asked, table, mapper);
    }
}

/// What the map gives for each of these ids, in their order. The map is asked for those of them that are mapped: each is counted, also if
/// no memory is found. If there are enough of them, and the map is long enough, several threads ask it; the answers are those that one
/// thread gets.
pub fn all_answers<'a, R: Threads + Sync, M: Mapper + Sync, L: Ledger>(
    rt: &R,
    alloc: Global,
    ids: &'a [Id],
    table: &'a Table,
    definition: &Definition,
    mapper: &M,
    steps: &mut Steps<L>,
) -> Result<Vec<Asked<'a>>, NoMemory>
    requires means { Means (M.meaning mapper.now) (definition_view definition.now.body) }
    ensures ids { IfOk result (λ all. map (λ a. a.id.now) all.items ≡ ids.now) }
    ensures answered { IfOk result (λ all. All (IsAnswered (mapper_of (definition_view definition.now.body)) table.now) all.items) }
    ensures counted { IfOk result (λ _. steps.new.maps ≡ steps.old.maps + length (mapped_among (mapper_of (definition_view definition.now.body)) table.now (map folded ids.now))) }
    ensures maps { steps.new.maps ≤ steps.old.maps + length (mapped_among (mapper_of (definition_view definition.now.body)) table.now (map folded ids.now)) }
    ensures merges { steps.new.merges ≡ steps.old.merges }
    ensures reads { steps.new.reads ≡ steps.old.reads }
{
    let mut all = questions(alloc, ids, table, definition, steps)?;
    answer_all(rt, alloc, &mut all, table, definition, mapper);
    Ok(all)
}
