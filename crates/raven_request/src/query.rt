//! A query, in JSON or as its text alone.
ghost use Rattle.std.specs.Prelude.{◌≡◌, option_map};
ghost use Rattle.spec_data.specs.Data.{entries_of};
ghost use Rattle.raven_value.specs.View.{data_of};
ghost use Rattle.spec_server.specs.Requests.{Ask};
ghost use Rattle.spec_server.specs.Texts.{Querying, asked_to_query, asked_to_query_several, asking_in as spec_asking_in, asking_of, asking_of_body as spec_asking_of_body, asking_with as spec_asking_with, beside_in as spec_beside_in, cutoff_member as spec_cutoff_member, looks_member as spec_looks_member, parameters_member as spec_parameters_member, plain_asking, query_member as spec_query_member, size_member as spec_size_member, start_member as spec_start_member, wait_member as spec_wait_member, whole_ask};
ghost use Rattle.raven_request.specs.RequestRead.{Asks, AsksBy};
ghost use Rattle.raven_request.specs.RequestView.{Reads, asking_view};

use crate::body::{bad_member, json_of, taken};
use crate::request::{ReadRefusal, Request};
use raven_value::{Members, Text, Value};
use rql_parser::{RqlRefusal, parse};
use rql_plan::QueryAsk;
use rql_tree::Query;
use std::alloc::Global;

/// How often to look for an answer that is not stale, at most.
const MAX_LOOKS: u32 = 64;

/// What is asked beside the text of a query.
#[derive(Drop)]
struct Asking {
    parameters: Members,
    start: i64,
    size: Option<i64>,
    cutoff: Option<u64>,
    wait: bool,
    looks: u32,
}

// What is asked if the text stands alone.
fn plain(alloc: Global) -> Asking
    ensures { asking_view result ≡ plain_asking }
{
    Asking {
        parameters: Members::new(alloc),
        start: 0,
        size: None,
        cutoff: None,
        wait: false,
        looks: MAX_LOOKS,
    }
}

#[tactic(auto, using(crate::proofs::Readings::members))]
fn query_member(alloc: Global, value: Option<&Value>) -> Result<Text, ReadRefusal>
    ensures { Reads (λ text. text) result (spec_query_member (option_map (λ v. data_of v.now) value.entry)) }
{
    match value {
        Some(Value::Text(text)) => Ok(text.clone()?),
        _ => Err(bad_member(alloc, "Query")),
    }
}

#[tactic(auto, using(crate::proofs::Querying::parameters))]
fn parameters_member(alloc: Global, value: Option<Value>) -> Result<Members, ReadRefusal>
    ensures { Reads (λ parameters. parameters) result (spec_parameters_member (option_map (λ v. data_of v) value)) }
{
    match value {
        None => Ok(Members::new(alloc)),
        Some(Value::Map(parameters)) => Ok(parameters),
        Some(_) => Err(bad_member(alloc, "QueryParameters")),
    }
}

#[tactic(auto, using(crate::proofs::Readings::members))]
fn start_member(alloc: Global, value: Option<&Value>) -> Result<i64, ReadRefusal>
    ensures { Reads (λ start. start) result (spec_start_member (option_map (λ v. data_of v.now) value.entry)) }
{
    match value {
        None => Ok(0),
        Some(Value::Num(start)) => Ok(*start),
        Some(_) => Err(bad_member(alloc, "Start")),
    }
}

#[tactic(auto, using(crate::proofs::Readings::members))]
fn size_member(alloc: Global, value: Option<&Value>) -> Result<Option<i64>, ReadRefusal>
    ensures { Reads (λ size. size) result (spec_size_member (option_map (λ v. data_of v.now) value.entry)) }
{
    match value {
        None => Ok(None),
        Some(Value::Num(size)) => Ok(Some(*size)),
        Some(_) => Err(bad_member(alloc, "PageSize")),
    }
}

#[tactic(auto, using(crate::proofs::Readings::members))]
fn cutoff_member(alloc: Global, value: Option<&Value>) -> Result<Option<u64>, ReadRefusal>
    ensures { Reads (λ cutoff. cutoff) result (spec_cutoff_member (option_map (λ v. data_of v.now) value.entry)) }
{
    match value {
        None => Ok(None),
        Some(Value::Num(etag)) if *etag >= 0 => Ok(Some(*etag as u64)),
        Some(_) => Err(bad_member(alloc, "CutoffEtag")),
    }
}

#[tactic(auto, using(crate::proofs::Readings::members))]
fn wait_member(alloc: Global, value: Option<&Value>) -> Result<bool, ReadRefusal>
    ensures { Reads (λ waits. waits) result (spec_wait_member (option_map (λ v. data_of v.now) value.entry)) }
{
    match value {
        None => Ok(false),
        Some(Value::Flag(wait)) => Ok(*wait),
        Some(_) => Err(bad_member(alloc, "WaitForNonStaleResults")),
    }
}

#[tactic(auto, using(crate::proofs::Readings::members))]
fn looks_member(alloc: Global, value: Option<&Value>) -> Result<u32, ReadRefusal>
    ensures { Reads (λ looks. looks) result (spec_looks_member (option_map (λ v. data_of v.now) value.entry)) }
{
    match value {
        None => Ok(MAX_LOOKS),
        Some(Value::Num(looks)) if *looks >= 1 && *looks <= i64::from(MAX_LOOKS) => {
            Ok(*looks as u32)
        }
        Some(_) => Err(bad_member(alloc, "Looks")),
    }
}

// What is asked beside the text, with these parameters.
#[tactic(auto, using(crate::proofs::Readings::readings))]
fn asking_with(alloc: Global, parameters: Members, members: &Members) -> Result<Asking, ReadRefusal>
    ensures { Reads asking_view result (spec_asking_with parameters (entries_of members.now)) }
{
    let start = start_member(alloc, members.get("Start"))?;
    let size = size_member(alloc, members.get("PageSize"))?;
    let cutoff = cutoff_member(alloc, members.get("CutoffEtag"))?;
    let wait = wait_member(alloc, members.get("WaitForNonStaleResults"))?;
    let looks = looks_member(alloc, members.get("Looks"))?;
    Ok(Asking {
        parameters,
        start,
        size,
        cutoff,
        wait,
        looks,
    })
}

// What is asked beside the text. The parameters are moved out of the body.
#[tactic(auto, using(crate::proofs::Querying::beside))]
fn beside_in(alloc: Global, mut members: Members) -> Result<Asking, ReadRefusal>
    ensures { Reads asking_view result (spec_beside_in (entries_of members)) }
{
    let parameters = taken(alloc, &mut members, "QueryParameters")?;
    let parameters = parameters_member(alloc, parameters)?;
    asking_with(alloc, parameters, &members)
}

#[tactic(auto, using(crate::proofs::Readings::readings))]
fn asking_in(alloc: Global, members: Members) -> Result<(Text, Asking), ReadRefusal>
    ensures { Reads (λ asked. (asked.0, asking_view asked.1)) result (spec_asking_in (entries_of members)) }
{
    let text = query_member(alloc, members.get("Query"))?;
    let asking = beside_in(alloc, members)?;
    Ok((text, asking))
}

#[tactic(auto, using(crate::proofs::Readings::members))]
fn asking_of_body(alloc: Global, value: Value) -> Result<(Text, Asking), ReadRefusal>
    ensures { Reads (λ asked. (asked.0, asking_view asked.1)) result (spec_asking_of_body (data_of value)) }
{
    match value {
        Value::Map(members) => asking_in(alloc, members),
        _ => Err(bad_member(alloc, "body")),
    }
}

fn with_query(query: Query, asking: Asking) -> QueryAsk
    ensures { result ≡ whole_ask (asking_view asking) query }
{
    QueryAsk {
        query,
        parameters: asking.parameters,
        start: asking.start,
        size: asking.size,
        cutoff: asking.cutoff,
        wait: asking.wait,
        looks: asking.looks,
    }
}

// The query that the text says.
#[tactic(auto, using(crate::proofs::Requesting::requesting))]
fn query_by(alloc: Global, text: &str, asking: Asking) -> Result<QueryAsk, ReadRefusal>
    ensures { AsksBy Ask (Querying text.now (asking_view asking)) result }
{
    match parse(alloc, text) {
        Ok(query) => Ok(with_query(query, asking)),
        Err(RqlRefusal::At { at, kind }) => Err(ReadRefusal::BadQuery { at, kind }),
        Err(RqlRefusal::NoMemory) => Err(ReadRefusal::NoMemory),
    }
}

/// The query that this object says, with its parameters and its page. Its members are read first, and then its text by the grammar. The
/// parameters are moved out of it.
#[tactic(auto, using(crate::proofs::Requesting::requesting))]
pub fn ask_of(alloc: Global, value: Value) -> Result<QueryAsk, ReadRefusal>
    ensures { AsksBy Ask (asked_to_query (spec_asking_of_body (data_of value))) result }
{
    let (text, asking) = asking_of_body(alloc, value)?;
    query_by(alloc, text.as_str(), asking)
}

/// The request to answer the query of this text alone.
#[tactic(auto, using(crate::proofs::Requesting::requesting))]
pub fn query_of(alloc: Global, text: &str) -> Result<Request, ReadRefusal>
    ensures { Asks (Querying text.now plain_asking) result }
{
    let ask = query_by(alloc, text, plain(alloc))?;
    Ok(Request::Ask { ask })
}

/// The request to answer the query of this JSON.
#[tactic(auto, using(crate::proofs::Requesting::requesting))]
pub fn query_of_json(alloc: Global, json: &[u8]) -> Result<Request, ReadRefusal>
    ensures { Asks (asked_to_query (asking_of json.now)) result }
{
    let value = json_of(alloc, json)?;
    let ask = ask_of(alloc, value)?;
    Ok(Request::Ask { ask })
}

/// The request to answer the query of this JSON by an index of several maps.
#[tactic(auto, using(crate::proofs::Masking::masking))]
pub fn mask_of_json(alloc: Global, json: &[u8]) -> Result<Request, ReadRefusal>
    ensures { Asks (asked_to_query_several (asking_of json.now)) result }
{
    let value = json_of(alloc, json)?;
    let ask = ask_of(alloc, value)?;
    Ok(Request::Mask { ask })
}
