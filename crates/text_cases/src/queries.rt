//! The answers to lines with queries.
use anyhow::Result;
use raven_base::NoMemory;
use rql_parser::{RqlRefusal, parse};
use rql_print::print;
use std::alloc::Global;

/// The canonical text of a query, or why the text is none.
pub fn query_answer(alloc: Global, text: &str) -> Result<String> {
    match parse(alloc, text) {
        Ok(query) => {
            let text = print(alloc, &query)?;
            let text = text.as_str();
            Ok(format!(in alloc; "    query {text}\n")?)
        }
        Err(RqlRefusal::At { at, kind }) => {
            Ok(format!(in alloc; "    refused Query {at} {kind:?}\n")?)
        }
        Err(RqlRefusal::NoMemory) => Err(NoMemory)?,
    }
}
