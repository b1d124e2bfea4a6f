//! What a line asks.
ghost use Rattle.std.specs.Prelude.{◌≡◌, ◌==◌, None, Some, [], false, length};
ghost use Rattle.std.specs.Str.{IsUtf8};
ghost use Rattle.spec_server.specs.Words.{argument_and_rest};
ghost use Rattle.spec_server.specs.Commands.{delete_if_of as spec_delete_if_of, put_if_of as spec_put_if_of, put_of as spec_put_of};
ghost use Rattle.spec_server.specs.Reading.{auto_of as spec_auto_of, by_command, drop_of as spec_drop_of, find_of as spec_find_of, get_of as spec_get_of, pump_of as spec_pump_of, pump_read, request_of as spec_request_of, stale_of as spec_stale_of, switch_of as spec_switch_of};
ghost use Rattle.spec_server.specs.Texts.{Asked, asked_of};
ghost use Rattle.raven_request.specs.RequestRead.{Asks};
ghost use Rattle.raven_request.specs.RequestView.{Reads, request_view};
ghost use Rattle.raven_script.specs.LineView.{Answers, AsksLine, word_asked};

use crate::request::Line;
use crate::words::{is_collection, is_field, max_of, parts, word_and_rest};
use crate::workers::{publish, read};
use doc_txn::Expect;
use raven_request::{
    ReadRefusal, Request, bulk_of, define_of, delete_of, id_of, mask_of_json, multi_of, name_of,
    put_of, query_of, query_of_json,
};
use raven_value::Text;
use std::alloc::Global;

#[tactic(auto, using(raven_request::proofs::Readings::readings))]
fn put(alloc: Global, more: &str) -> Result<Request, ReadRefusal>
    ensures { Reads request_view result (spec_put_of more.now) }
{
    match parts(more) {
        Ok((id, body)) => put_of(alloc, id, Expect::Any, body.as_bytes()),
        Err(refusal) => Err(refusal),
    }
}

#[tactic(auto, using(raven_request::proofs::Readings::readings))]
fn put_if(alloc: Global, more: &str) -> Result<Request, ReadRefusal>
    ensures { Reads request_view result (spec_put_if_of more.now) }
{
    let (id, rest) = parts(more)?;
    match parts(rest) {
        Ok((vector, body)) => {
            let expected = Expect::Vector(Text::of(alloc, vector)?);
            put_of(alloc, id, expected, body.as_bytes())
        }
        Err(refusal) => Err(refusal),
    }
}

#[tactic(auto, using(raven_request::proofs::Readings::readings))]
fn delete_if(alloc: Global, more: &str) -> Result<Request, ReadRefusal>
    ensures { Reads request_view result (spec_delete_if_of more.now) }
{
    match parts(more) {
        Ok((vector, id)) => {
            let expected = Expect::Vector(Text::of(alloc, vector)?);
            delete_of(alloc, expected, id)
        }
        Err(refusal) => Err(refusal),
    }
}

#[tactic(auto, using(raven_request::proofs::Readings::readings))]
fn get(alloc: Global, more: &str) -> Result<Request, ReadRefusal>
    ensures { Reads request_view result (spec_get_of more.now) }
{
    match id_of(alloc, more) {
        Ok(id) => Ok(Request::Get { id }),
        Err(refusal) => Err(refusal),
    }
}

#[tactic(auto, using(raven_request::proofs::Readings::readings))]
fn auto(alloc: Global, more: &str) -> Result<Request, ReadRefusal>
    ensures { Reads request_view result (spec_auto_of more.now) }
{
    let (collection, field) = parts(more)?;
    if !is_collection(collection) || !is_field(field.as_bytes()) {
        return Err(ReadRefusal::UnknownLine);
    }
    Ok(Request::Auto {
        collection: Text::of(alloc, collection)?,
        field: Text::of(alloc, field)?,
    })
}

// Each index catches up by one batch.
#[tactic(auto, using(raven_request::proofs::Readings::readings))]
fn pump_all(more: &str) -> Result<Request, ReadRefusal>
    ensures { Reads request_view result (pump_read more.now None) }
{
    match max_of(more) {
        Ok(max) => Ok(Request::Pump { max, index: None }),
        Err(refusal) => Err(refusal),
    }
}

// One index catches up by one batch. The number is read before the name.
#[tactic(auto, using(raven_request::proofs::Readings::readings))]
fn pump_one(alloc: Global, max: &str, index: &str) -> Result<Request, ReadRefusal>
    ensures { Reads request_view result (pump_read [] (Some (max.now, index.now))) }
{
    let max = max_of(max)?;
    match name_of(alloc, index) {
        Ok(name) => Ok(Request::Pump {
            max,
            index: Some(name),
        }),
        Err(refusal) => Err(refusal),
    }
}

#[tactic(auto, using(crate::proofs::PumpLemmas::pumps))]
fn pump(alloc: Global, more: &str) -> Result<Request, ReadRefusal>
    ensures { Reads request_view result (spec_pump_of more.now) }
{
    match word_and_rest(more) {
        Some((max, index)) => pump_one(alloc, max, index),
        None => pump_all(more),
    }
}

#[tactic(auto, using(raven_request::proofs::Readings::readings))]
fn find(alloc: Global, more: &str) -> Result<Request, ReadRefusal>
    ensures { Reads request_view result (spec_find_of more.now) }
{
    let (index, rest) = parts(more)?;
    let (field, words) = parts(rest)?;
    match name_of(alloc, index) {
        Ok(index) => Ok(Request::Find {
            index,
            field: Text::of(alloc, field)?,
            text: Text::of(alloc, words)?,
        }),
        Err(refusal) => Err(refusal),
    }
}

#[tactic(auto, using(raven_request::proofs::Readings::readings))]
fn drop_index(alloc: Global, more: &str) -> Result<Request, ReadRefusal>
    ensures { Reads request_view result (spec_drop_of more.now) }
{
    match name_of(alloc, more) {
        Ok(name) => Ok(Request::Remove { name }),
        Err(refusal) => Err(refusal),
    }
}

#[tactic(auto, using(raven_request::proofs::Readings::readings))]
fn stale(alloc: Global, more: &str) -> Result<Request, ReadRefusal>
    ensures { Reads request_view result (spec_stale_of more.now) }
{
    match name_of(alloc, more) {
        Ok(name) => Ok(Request::Stale { name, cutoff: None }),
        Err(refusal) => Err(refusal),
    }
}

#[tactic(auto, using(raven_request::proofs::Readings::readings))]
fn switch(alloc: Global, more: &str) -> Result<Request, ReadRefusal>
    ensures { Reads request_view result (spec_switch_of more.now) }
{
    match name_of(alloc, more) {
        Ok(name) => Ok(Request::Switch { name }),
        Err(refusal) => Err(refusal),
    }
}

// The request of this first word and what follows it.
fn request_of(alloc: Global, word: &str, more: &str) -> Result<Request, ReadRefusal>
    ensures { Reads request_view result (by_command word.now more.now) }
{
    match word {
        "PUT" => put(alloc, more),
        "PUTIF" => put_if(alloc, more),
        "DEL" => delete_of(alloc, Expect::Any, more),
        "DELIF" => delete_if(alloc, more),
        "BULK" => bulk_of(alloc, more.as_bytes()),
        "GET" => get(alloc, more),
        "DROP" => drop_index(alloc, more),
        "AUTO" => auto(alloc, more),
        "PUMP" => pump(alloc, more),
        "FIND" => find(alloc, more),
        "SWITCH" => switch(alloc, more),
        "STALE" => stale(alloc, more),
        _ => Err(ReadRefusal::UnknownLine),
    }
}

// The request that one word is.
fn lone_request(text: &str) -> Result<Request, ReadRefusal>
    ensures { argument_and_rest text.now ≡ None → Reads request_view result (spec_request_of text.now) }
{
    match text {
        "STATS" => Ok(Request::Stats),
        "INDEXES" => Ok(Request::Indexes),
        "TIDY" => Ok(Request::Tidy),
        "CLEAN" => Ok(Request::Clean),
        _ => Err(ReadRefusal::UnknownLine),
    }
}

// A line with this request.
fn asking(request: Result<Request, ReadRefusal>) -> Result<Line, ReadRefusal>
    ensures { (asked : Asked) → Asks asked request → AsksLine asked result }
{
    match request {
        Ok(request) => Ok(Line::Do(request)),
        Err(refusal) => Err(refusal),
    }
}

// What a line of this first word asks.
#[tactic(auto, using(crate::proofs::Asking::asking))]
fn by_word(alloc: Global, word: &str, rest: &str) -> Result<Line, ReadRefusal>
    ensures { AsksLine (word_asked word.now rest.now) result }
{
    match word {
        "INDEX" => asking(define_of(alloc, rest.as_bytes())),
        "QUERY" => asking(query_of(alloc, rest)),
        "ASK" => asking(query_of_json(alloc, rest.as_bytes())),
        "MULTI" => asking(multi_of(alloc, rest.as_bytes())),
        "MASK" => asking(mask_of_json(alloc, rest.as_bytes())),
        "READ" => read(alloc, rest),
        "PUBLISH" => publish(rest),
        _ => asking(request_of(alloc, word, rest)),
    }
}

// What a text asks that has a byte.
fn text_line(alloc: Global, text: &str) -> Result<Line, ReadRefusal>
    ensures { (length text.now == 0) ≡ false → IsUtf8 text.now → AsksLine (asked_of text.now) result }
{
    match word_and_rest(text) {
        Some((word, rest)) => by_word(alloc, word, rest),
        None => asking(lone_request(text)),
    }
}

/// What a line of a script asks: nothing, exactly if it has no bytes. If it defines an index or asks a query, it asks what its texts say, or is
/// refused as they are.
pub fn line(alloc: Global, bytes: &[u8]) -> Result<Option<Line>, ReadRefusal>
    ensures { Answers (asked_of bytes.now) result }
{
    if bytes.is_empty() {
        return Ok(None);
    }
    let Ok(text) = str::from_utf8(bytes) else {
        return Err(ReadRefusal::UnknownLine);
    };
    match text_line(alloc, text) {
        Ok(line) => Ok(Some(line)),
        Err(refusal) => Err(refusal),
    }
}
