//! The summary of a measurement.
ghost use Rattle.std.specs.Prelude.{◌≡◌, FitsSigned, IfOk, codes, string_bytes};
ghost use Rattle.std.specs.Int.{w64};
ghost use Rattle.spec_measure.specs.Requests.{rows_ask as spec_rows_ask};
ghost use Rattle.raven_measure.specs.Defining.{MakesNothing};
ghost use Rattle.spec_measure.specs.Summary.{printed_summary, summary_by as spec_summary_by, summary_of as spec_summary_of, total_at as spec_total_at, total_of as spec_total_of};
ghost use Rattle.spec_data.specs.Members.{member_of};
ghost use Rattle.spec_server.specs.Requests.{Ask};
ghost use Rattle.spec_server.specs.Answers.{count_documents};
ghost use Rattle.spec_desk.specs.Lived.{machine_in};
ghost use Rattle.raven_value.specs.View.{data_of};
ghost use Rattle.raven_reply.specs.ReplyView.{reply_view};
ghost use Rattle.raven_measure.specs.Summaries.{summary_view};

use crate::definition::INDEX;
use crate::making::Measured;
use raven_base::NoMemory;
use raven_json::Shown;
use raven_ports::Keeper;
use raven_request::Request;
use raven_value::{Members, Paths, Text, Value};
use raven_world::{Reply, World};
use rql_plan::QueryAsk;
use rql_tree::{Columns, Origin, Query, Sorts};
use std::alloc::Global;
use std::thread::Threads;

/// How often to look for an answer that is not stale, at most.
const MAX_LOOKS: u32 = 64;

/// What a measurement comes to.
#[derive(Drop)]
struct Summary {
    batches: u64,
    docs: u64,
    groups: u64,
    is_stale: bool,
    total: i128,
}

// The query for all rows of the index. It names the index, so it makes none.
#[tactic(auto, using(crate::proofs::Asked::asking))]
fn rows_ask(alloc: Global) -> Result<QueryAsk, NoMemory>
    ensures ask { IfOk result (λ ask. ask ≡ spec_rows_ask) }
    ensures makes_nothing { IfOk result (λ ask. MakesNothing (Ask ask)) }
{
    let query = Query {
        origin: Origin::Index(Text::of(alloc, INDEX)?),
        groups: Paths::new(alloc),
        cond: None,
        sorts: Sorts::new(alloc),
        columns: Columns::new(alloc),
        includes: Paths::new(alloc),
    };
    Ok(QueryAsk {
        query,
        parameters: Members::new(alloc),
        start: 0,
        size: None,
        cutoff: None,
        wait: false,
        looks: MAX_LOOKS,
    })
}

fn total_at(row: &Value) -> i128
    ensures total { result ≡ spec_total_at (member_of (codes "Total") (data_of row.now)) }
    ensures fits { FitsSigned w64 result }
{
    match row.get("Total") {
        Some(Value::Num(total)) => i128::from(*total),
        _ => 0,
    }
}

fn total_of(alloc: Global, rows: &[Shown]) -> Result<i128, NoMemory>
    ensures { IfOk result (λ total. total ≡ spec_total_of rows.now) }
{
    let mut total = 0;
    for row in rows {
        let value = row.to_value(alloc)?;
        total += total_at(&value);
    }
    Ok(total)
}

// How many documents there are but for those of the server.
fn documents_of(world: &World) -> u64
    ensures { result ≡ count_documents world.now.store }
{
    let counts = world.parts().store.counts_beside("@indexes");
    u64::from(counts.documents)
}

// The summary after so many batches and with so many documents, by the answer to the query for all rows.
fn summary_by(alloc: Global, batches: u64, docs: u64, answer: &Reply) -> Result<Summary, NoMemory>
    ensures { IfOk result (λ summary. summary_view summary ≡ spec_summary_by batches docs (reply_view answer.now)) }
{
    match answer {
        Reply::Answer {
            is_stale,
            results,
            total_results,
            ..
        } => Ok(Summary {
            batches,
            docs,
            groups: *total_results,
            is_stale: *is_stale,
            total: total_of(alloc, results.as_slice())?,
        }),
        _ => Ok(Summary {
            batches,
            docs,
            groups: 0,
            is_stale: false,
            total: 0,
        }),
    }
}

fn summary_of<R: Threads + Sync, K: Keeper>(
    rt: &R,
    alloc: Global,
    measured: &Measured<K>,
) -> Result<Summary, NoMemory>
    ensures { IfOk result (λ summary. summary_view summary ≡ spec_summary_of measured.now.moved (machine_in measured.now.live)) }
{
    let live = measured.live();
    let ask = rows_ask(alloc)?;
    let course = live.course(rt, alloc, 0, Request::Ask { ask })?;
    let docs = documents_of(live.world());
    summary_by(alloc, measured.batches(), docs, &course.reply)
}

// A summary as one line.
fn printed(alloc: Global, summary: &Summary) -> Result<String, NoMemory>
    ensures { IfOk result (λ line. string_bytes line ≡ printed_summary (summary_view summary.now)) }
{
    let Summary {
        batches,
        docs,
        groups,
        is_stale,
        total,
    } = summary;
    Ok(format!(in alloc;
        "{{\"Batches\":{batches},\"Docs\":{docs},\"Groups\":{groups},\"IsStale\":{is_stale},\"Total\":{total}}}\n"
    )?)
}

/// The summary of a measurement, as one line.
pub fn summary_line<R: Threads + Sync, K: Keeper>(
    rt: &R,
    alloc: Global,
    measured: &Measured<K>,
) -> Result<String, NoMemory>
    ensures { IfOk result (λ line. string_bytes line ≡ printed_summary (spec_summary_of measured.now.moved (machine_in measured.now.live))) }
{
    let summary = summary_of(rt, alloc, measured)?;
    printed(alloc, &summary)
}
