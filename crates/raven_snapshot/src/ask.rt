//! Answers to queries.
ghost use Rattle.std.specs.Prelude.{◌≡◌, ◌++◌, IfOk, Option, codes, false, true};
ghost use Rattle.spec_query.specs.Binding as is;
ghost use Rattle.spec_query.specs.Binding.{check as spec_check};
ghost use Rattle.spec_query.specs.Query.{OfCollection, is_whole as spec_is_whole};
ghost use Rattle.spec_index.specs.Reduces.{reduce_of};
ghost use Rattle.spec_index.specs.World.{serving as spec_serving};
ghost use Rattle.spec_server.specs.Asking.{Answered as AnsweredIs, Ready, answer_ask, answer_by, answer_from_collection, answer_from_index, answer_of as spec_answer_of, answer_picked, found_by, unless_refused};
ghost use Rattle.spec_server.specs.Shown.{shown as spec_shown};
ghost use Rattle.raven_reply.specs.ReplyView.{reply_view};
ghost use Rattle.index_version.specs.Entries.{all_entries};
ghost use Rattle.rql_eval.specs.FoundView.{found_view};
ghost use Rattle.rql_eval.specs.Pages.{ReadsAtMost};
ghost use Rattle.rql_plan.specs.RefusalView.{Refuses};
ghost use Rattle.index_definition.specs.ShapeView.{shape_view};
ghost use Rattle.spec_index.specs.Optimiser.{pick as spec_pick};
ghost use Rattle.raven_snapshot.specs.AnsweredView.{answered_view};
ghost use Rattle.raven_snapshot.specs.Asked.{ReadsToAnswer, ReadsWhatItCounts};

use crate::answered::Answered;
use crate::entries::IndexEntries;
use crate::find::has_reduce;
use crate::snapshot::Snapshot;
use doc_store::Store;
use doc_txn::BaseId;
use index_definition::Shape;
use index_version::IndexVersion;
use query_optimizer::{Choice, pick};
use query_replies::{ShownBy, StoreRows, answer_of, is_stale, refused};
use raven_base::{NoMemory, Steps};
use raven_reply::{Reply, no_index};
use raven_value::{Name, Text};
use rql_eval::{Found, find, find_all, find_in_rows, page_len};
use rql_plan::{Plan, PlanRefusal, QueryAsk, bind, check, plan_for_collection, shape_of};
use rql_tree::Origin;
use side_by_side::{Slot, serving_in};
use std::alloc::Global;
use std::sync::ledger::Ledger;

// The answer, unless the query is refused whatever it is about.
fn unless(alloc: Global, ask: &QueryAsk, answered: Answered) -> Result<Answered, NoMemory>
    ensures { IfOk result (λ told. answered_view told ≡ unless_refused (answered_view answered) (spec_check ask.now)) }
{
    match check(alloc, ask) {
        Ok(()) => Ok(answered),
        Err(refusal) => Ok(Answered::Reply(refused(refusal)?)),
    }
}

// The name under which a collection is answered.
fn collection_name(alloc: Global, collection: &Text) -> Result<Text, NoMemory>
    ensures { IfOk result (λ name. name ≡ codes "collection/" ++ collection.now) }
{
    let mut name = String::from_str(alloc, "collection/")?;
    name.push_str(collection.as_str())?;
    Text::of_string(name)
}

// What is found in an index: among its entries or, if it groups them, among the rows of its groups.
#[tactic(auto, using(crate::proofs::Asking::findings))]
fn found_in<L: Ledger>(
    alloc: Global,
    store: &Store,
    base: &BaseId,
    version: &IndexVersion,
    plan: &Plan,
    steps: &mut Steps<L>,
) -> Result<Found, NoMemory>
    ensures found { IfOk result (λ found. found_view found ≡ found_by (reduce_of version.now.version.definition) (spec_shown base.now) plan.now (all_entries version.now.version) store.now) }
    ensures reads { IfOk result (λ found. ReadsAtMost found.total steps.old steps.new) }
{
    let rows = StoreRows { store };
    let show = ShownBy { base };
    if has_reduce(version.definition()) {
        let groups = version.rows(alloc)?;
        return find_in_rows(alloc, plan, groups.as_slice(), &rows, &show);
    }
    let entries = IndexEntries::of(version);
    find(alloc, plan, &entries, &rows, &show, steps)
}

impl<'w> Snapshot<'w> {
    // The answer of an index, if the query fits its definition.
    #[tactic(auto, using(crate::proofs::Asking::answers))]
    fn ask_slot<L: Ledger>(
        &self,
        alloc: Global,
        ask: &QueryAsk,
        slot: &Slot,
        steps: &mut Steps<L>,
    ) -> Result<Reply, NoMemory>
        ensures reply { IfOk result (λ reply. reply_view reply ≡ answer_by slot.now.version.table self.now ask.now slot.now) }
        ensures reads { IfOk result (λ reply. ReadsWhatItCounts (reply_view reply) steps.old steps.new) }
    {
        let version = &slot.version;
        let plan = match bind(alloc, ask, version.definition()) {
            Ok(plan) => plan,
            Err(refusal) => return refused(refusal),
        };
        let found = found_in(alloc, self.store, self.base, version, &plan, steps)?;
        let is_stale = is_stale(self.store, version, ask.cutoff);
        let name = Text::of(alloc, slot.name.as_str())?;
        Ok(answer_of(found, version.etag(), name, is_stale))
    }

    /// What a query finds in the index of a name, whatever its origin.
    #[tactic(auto, using(crate::proofs::Asking::answers))]
    pub fn ask_named<L: Ledger>(
        &self,
        alloc: Global,
        ask: &QueryAsk,
        name: &Name,
        steps: &mut Steps<L>,
    ) -> Result<Reply, NoMemory>
        ensures reply { IfOk result (λ reply. reply_view reply ≡ answer_from_index self.now ask.now name.now (spec_serving self.now.slots name.now)) }
        ensures reads { IfOk result (λ reply. ReadsWhatItCounts (reply_view reply) steps.old steps.new) }
    {
        match self.slots.serving(name) {
            Some(slot) => self.ask_slot(alloc, ask, slot, steps),
            None => no_index(alloc, name),
        }
    }

    // The answer of the index that a query names.
    #[tactic(auto, using(crate::proofs::Asking::answers))]
    fn ask_index<L: Ledger>(
        &self,
        alloc: Global,
        ask: &QueryAsk,
        name: &Text,
        steps: &mut Steps<L>,
    ) -> Result<Answered, NoMemory>
        ensures answer { IfOk result (λ answered. answered_view answered ≡ unless_refused (Ready (answer_from_index self.now ask.now name.now (spec_serving self.now.slots name.now))) (spec_check ask.now)) }
        ensures reads { IfOk result (λ answered. ReadsToAnswer (answered_view answered) steps.old steps.new) }
    {
        match serving_in(self.slots.list(), name.as_str()) {
            Some(slot) => Ok(Answered::Reply(self.ask_slot(alloc, ask, slot, steps)?)),
            None => {
                let name = name.clone()?;
                unless(alloc, ask, Answered::Reply(Reply::NoIndex { name }))
            }
        }
    }

    // A whole collection is answered from the store, which no index lags behind.
    #[tactic(auto, using(crate::proofs::Asking::collections))]
    fn ask_whole(&self, alloc: Global, ask: &QueryAsk, collection: &Text) -> Result<Reply, NoMemory>
        requires whole { spec_is_whole ask.now.query ≡ true }
        ensures { IfOk result (λ reply. Ready (reply_view reply) ≡ unless_refused (Ready (answer_from_collection self.now ask.now collection.now)) (spec_check ask.now)) }
    {
        let plan = match plan_for_collection(alloc, ask) {
            Ok(plan) => plan,
            Err(refusal) => return refused(refusal),
        };
        let total = self.store.documents_in(collection) as u64;
        let size = page_len(&plan, total);
        let page = self
            .store
            .documents_page(alloc, collection, plan.start(), size)?;
        let rows = StoreRows { store: self.store };
        let show = ShownBy { base: self.base };
        let found = find_all(alloc, &plan, page.as_slice(), total, &rows, &show)?;
        let name = collection_name(alloc, collection)?;
        Ok(answer_of(found, self.store.last(), name, false))
    }

    // The answer of an automatic index that suits this shape, or that one has to be made.
    #[tactic(auto, using(crate::proofs::Asking::answers))]
    fn ask_picked<L: Ledger>(
        &self,
        alloc: Global,
        ask: &QueryAsk,
        shape: &Shape,
        steps: &mut Steps<L>,
    ) -> Result<Answered, NoMemory>
        ensures answer { IfOk result (λ answered. answered_view answered ≡ unless_refused (answer_picked self.now ask.now (spec_pick (shape_view shape.now) self.now.store self.now.slots)) (spec_check ask.now)) }
        ensures reads { IfOk result (λ answered. ReadsToAnswer (answered_view answered) steps.old steps.new) }
    {
        match pick(alloc, self.store, self.slots.list(), shape)? {
            Choice::Use(slot) => Ok(Answered::Reply(self.ask_slot(alloc, ask, slot, steps)?)),
            Choice::Make(shape) => unless(alloc, ask, Answered::MustMake(shape)),
        }
    }

    fn ask_collection<L: Ledger>(
        &self,
        alloc: Global,
        ask: &QueryAsk,
        collection: &Text,
        steps: &mut Steps<L>,
    ) -> Result<Answered, NoMemory>
        requires origin { ask.now.query.origin ≡ OfCollection collection.now }
        ensures answer { IfOk result (λ answered. answered_view answered ≡ answer_ask self.now ask.now) }
        ensures reads { IfOk result (λ answered. ReadsToAnswer (answered_view answered) steps.old steps.new) }
    {
        match shape_of(alloc, &ask.query)? {
            Some(shape) => self.ask_picked(alloc, ask, &shape, steps),
            None => Ok(Answered::Reply(self.ask_whole(alloc, ask, collection)?)),
        }
    }

    /// What a query finds, with the etag of the index that answers it and whether that lags behind the store, up to the query's
    /// cutoff. A query on a whole collection is answered from the store itself, and another one on a collection by the automatic index that
    /// was picked, or by none if one has to be made.
    ///
    /// In an index that does not group no more entries are read than meet the condition, so no more rows are read than are counted.
    #[tactic(auto, using(crate::proofs::Asking::origins))]
    pub fn ask<L: Ledger>(
        &self,
        alloc: Global,
        ask: &QueryAsk,
        steps: &mut Steps<L>,
    ) -> Result<Answered, NoMemory>
        ensures answer { IfOk result (λ answered. answered_view answered ≡ answer_ask self.now ask.now) }
        ensures reads { IfOk result (λ answered. ReadsToAnswer (answered_view answered) steps.old steps.new) }
    {
        match &ask.query.origin {
            Origin::Index(name) => self.ask_index(alloc, ask, name, steps),
            Origin::Collection(collection) => self.ask_collection(alloc, ask, collection, steps),
        }
    }
}
