//! Finding documents by a field.
ghost use Rattle.std.specs.Prelude.{◌≡◌, IfOk, length};
ghost use Rattle.spec_server.specs.Answers.{answer_find, has_reduce as spec_has_reduce, ids_found as spec_ids_found, is_stale as spec_is_stale};
ghost use Rattle.index_definition.specs.DefinitionView.{definition_view};
ghost use Rattle.spec_server.specs.Replies.{Found as FoundIds};
ghost use Rattle.spec_index.specs.World.{serving as spec_serving};
ghost use Rattle.raven_reply.specs.ReplyView.{reply_view};
ghost use Rattle.rql_eval.specs.Pages.{ReadsAtMost};
ghost use Rattle.raven_snapshot.specs.Asked.{ReadsWhatItCounts};

use crate::entries::IndexEntries;
use crate::snapshot::Snapshot;
use doc_store::Store;
use index_definition::{DefBody, Definition};
use index_version::IndexVersion;
use query_replies::is_stale;
use raven_base::{NoMemory, Steps};
use raven_reply::{Reply, no_index};
use raven_value::{Ids, Name, Scalar, Test, Text};
use rql_eval::ids_that_meet;
use rql_plan::{Condition, ConditionKind};
use side_by_side::Slot;
use std::alloc::Global;
use std::sync::ledger::Ledger;

/// Whether the definition groups its entries: by a reduce, or as an automatic index with groups does.
#[tactic(auto, using(crate::proofs::Asking::grouped))]
pub fn has_reduce(definition: &Definition) -> bool
    ensures { result ≡ spec_has_reduce (definition_view definition.now.body) }
{
    match &definition.body {
        DefBody::Static { reduce, .. } => reduce.is_some(),
        DefBody::Auto(shape) => shape.groups.is_some(),
    }
}

// The ids of what is found: the rows of a reduce have none.
#[tactic(auto, using(crate::proofs::Asking::texts))]
fn ids_found<L: Ledger>(
    alloc: Global,
    version: &IndexVersion,
    field: &Text,
    words: &Text,
    steps: &mut Steps<L>,
) -> Result<Ids, NoMemory>
    ensures ids { IfOk result (λ ids. ids ≡ spec_ids_found version.now.version.definition version.now.version.table field.now words.now) }
    ensures reads { IfOk result (λ ids. ReadsAtMost (length ids) steps.old steps.new) }
{
    if has_reduce(version.definition()) {
        return Ok(Ids::new(alloc));
    }
    let test = Test::Is(Scalar::Text(words.clone()?));
    let condition = Condition::of(alloc, ConditionKind::Has(field.clone()?, test))?;
    let entries = IndexEntries::of(version);
    ids_that_meet(alloc, &entries, &condition, steps)
}

fn found<L: Ledger>(
    alloc: Global,
    store: &Store,
    slot: &Slot,
    field: &Text,
    words: &Text,
    steps: &mut Steps<L>,
) -> Result<Reply, NoMemory>
    ensures reply { IfOk result (λ reply. reply_view reply ≡ FoundIds (spec_ids_found slot.now.version.definition slot.now.version.table field.now words.now) slot.now.version.etag (spec_is_stale store.now slot.now)) }
    ensures reads { IfOk result (λ reply. ReadsWhatItCounts (reply_view reply) steps.old steps.new) }
{
    let version = &slot.version;
    let ids = ids_found(alloc, version, field, words, steps)?;
    Ok(Reply::Found {
        ids,
        index_etag: version.etag(),
        is_stale: is_stale(store, version, None),
    })
}

impl<'w> Snapshot<'w> {
    /// The documents of an index whose field is that text, without regard to case, and whether the index lags. An index that groups has rows
    /// in place of documents, and so finds none.
    ///
    /// Only entries that are found are read.
    pub fn find<L: Ledger>(
        &self,
        alloc: Global,
        index: &Name,
        field: &Text,
        words: &Text,
        steps: &mut Steps<L>,
    ) -> Result<Reply, NoMemory>
        ensures reply { IfOk result (λ reply. reply_view reply ≡ answer_find self.now index.now field.now words.now (spec_serving self.now.slots index.now)) }
        ensures reads { IfOk result (λ reply. ReadsWhatItCounts (reply_view reply) steps.old steps.new) }
    {
        match self.slots.serving(index) {
            Some(slot) => found(alloc, self.store, slot, field, words, steps),
            None => no_index(alloc, index),
        }
    }
}
