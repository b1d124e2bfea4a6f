//! What an index of several maps answers.
ghost use Rattle.std.specs.Prelude.{◌≡◌, IfOk, Some, map, slice_get};
ghost use Rattle.index_tree.specs.declared.reduce_query.ReduceQuery.{ReduceQuery};
ghost use Rattle.spec_server.specs.Asking.{found_by};
ghost use Rattle.spec_server.specs.Replies.{NoIndex as NoIndexOf};
ghost use Rattle.spec_server.specs.Several.{all_entries, answer_named as spec_answer_named, answer_parts as spec_answer_parts, answer_several, other_part as spec_other_part, recorded, unless_other};
ghost use Rattle.spec_server.specs.Shown.{shown as spec_shown};
ghost use Rattle.index_version.specs.Together.{HaveReduce};
ghost use Rattle.raven_reply.specs.ReplyView.{reply_view};
ghost use Rattle.rql_eval.specs.FoundView.{found_view};

use crate::parts::{is_one_stale, least_etag, other_part, parts_of, versions_of};
use index_version::rows_together;
use query_replies::{ShownBy, StoreRows, answer_of, refused};
use raven_base::NoMemory;
use raven_reply::Reply;
use raven_value::Text;
use rql_eval::{Found, find_in_rows};
use rql_plan::{Plan, QueryAsk, bind, check};
use rql_tree::Origin;
use side_by_side::{Parts, Slot};
use std::alloc::Global;

// What is found among the rows of all entries of these parts, if they have one reduce.
fn found_together(
    alloc: Global,
    world: &Parts,
    parts: &[&Slot],
    plan: &Plan,
) -> Result<Found, NoMemory>
    ensures { IfOk result (λ found. (query : ReduceQuery) → HaveReduce query (map (λ s. s.now.version) parts.now) → found_view found ≡ found_by (Some query) (spec_shown world.now.setting.base) plan.now (all_entries recorded (map (λ s. s.now) parts.now)) world.now.store) }
{
    let versions = versions_of(alloc, parts)?;
    let rows = rows_together(alloc, &versions)?;
    let documents = StoreRows { store: world.store };
    let show = ShownBy { base: world.base };
    find_in_rows(alloc, plan, rows.as_slice(), &documents, &show)
}

fn no_index(name: &Text) -> Result<Reply, NoMemory>
    ensures { IfOk result (λ reply. reply_view reply ≡ NoIndexOf name.now) }
{
    Ok(Reply::NoIndex {
        name: name.clone()?,
    })
}

// The answer of these parts, if they have one reduce and the query fits the definition of the first.
fn answer_from(
    alloc: Global,
    world: &Parts,
    ask: &QueryAsk,
    name: &Text,
    first: &Slot,
    parts: &[&Slot],
) -> Result<Reply, NoMemory>
    requires first { slice_get (map (λ s. s.now) parts.now) 0 ≡ Some first.now }
    ensures { IfOk result (λ reply. reply_view reply ≡ unless_other recorded world.now ask.now name.now first.now (map (λ s. s.now) parts.now) (spec_other_part first.now (map (λ s. s.now) parts.now))) }
{
    match other_part(first, parts) {
        Some(other) => {
            return Ok(Reply::NotOneReduce {
                number: other.number,
            });
        }
        None => {}
    }
    let plan = match bind(alloc, ask, first.version.definition()) {
        Ok(plan) => plan,
        Err(refusal) => return refused(refusal),
    };
    let found = found_together(alloc, world, parts, &plan)?;
    let etag = least_etag(first, parts);
    let is_stale = is_one_stale(world.store, parts, ask.cutoff);
    Ok(answer_of(found, etag, name.clone()?, is_stale))
}

// The answer of these parts. One alone is no index of several maps.
fn answer_parts(
    alloc: Global,
    world: &Parts,
    ask: &QueryAsk,
    name: &Text,
    parts: &[&Slot],
) -> Result<Reply, NoMemory>
    ensures { IfOk result (λ reply. reply_view reply ≡ spec_answer_parts recorded world.now ask.now name.now (map (λ s. s.now) parts.now)) }
{
    let [first, _second, ..] = parts else {
        return no_index(name);
    };
    answer_from(alloc, world, ask, name, first, parts)
}

// The answer of the index that a query names. A collection is no index of several maps.
fn answer_named(alloc: Global, world: &Parts, ask: &QueryAsk) -> Result<Reply, NoMemory>
    ensures { IfOk result (λ reply. reply_view reply ≡ spec_answer_named recorded world.now ask.now) }
{
    match &ask.query.origin {
        Origin::Index(name) => {
            let parts = parts_of(alloc, world.slots.list(), name.as_str())?;
            answer_parts(alloc, world, ask, name, &parts)
        }
        Origin::Collection(collection) => no_index(collection),
    }
}

/// What an index of several maps answers: what is found among the rows that the reduce of its parts gives for the entries of all of
/// them. Nothing of it is stored but its parts.
pub fn ask(alloc: Global, parts: &Parts, ask: &QueryAsk) -> Result<Reply, NoMemory>
    ensures { IfOk result (λ reply. reply_view reply ≡ answer_several parts.now ask.now) }
{
    match check(alloc, ask) {
        Ok(()) => answer_named(alloc, parts, ask),
        Err(refusal) => refused(refusal),
    }
}
