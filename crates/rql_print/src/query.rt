//! Queries.
ghost use Rattle.std.specs.Prelude.{◌≡◌, ◌++◌, IfOk, OnOk, string_bytes};
ghost use Rattle.rql_print.specs.Print.{printed, rows_text, shown_text};

use crate::clauses::{add_order, add_paths, add_select, add_source, add_where};
use raven_base::NoMemory;
use raven_value::Text;
use rql_tree::Query;
use std::alloc::Global;

// Which rows are found.
fn add_rows(alloc: Global, out: &mut String, query: &Query) -> Result<(), NoMemory>
    ensures { OnOk result (string_bytes out.new ≡ string_bytes out.old ++ rows_text query.now) }
{
    add_source(out, &query.origin)?;
    add_paths(out, " group by ", query.groups.as_slice())?;
    add_where(alloc, out, &query.cond)
}

// What is shown of them, and in which order.
fn add_shown(out: &mut String, query: &Query) -> Result<(), NoMemory>
    ensures { OnOk result (string_bytes out.new ≡ string_bytes out.old ++ shown_text query.now) }
{
    add_order(out, query.sorts.as_slice())?;
    add_select(out, query.columns.as_slice())?;
    add_paths(out, " include ", query.includes.as_slice())
}

/// The canonical text of a query: one text among all that spell it. A tree that no text spells, as one with a parameter whose
/// name is none, is printed by the same rules, and what is printed is then no text of it.
pub fn print(alloc: Global, query: &Query) -> Result<Text, NoMemory>
    ensures { IfOk result (λ text. text ≡ printed query.now) }
{
    let mut out = String::new(alloc);
    add_rows(alloc, &mut out, query)?;
    add_shown(&mut out, query)?;
    Text::of_string(out)
}
