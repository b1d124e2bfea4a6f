//! The clauses of a query, each with the space before it.
ghost use Rattle.std.specs.Prelude.{◌≡◌, ◌++◌, [], OnOk, codes, if◌then◌else◌, map, string_bytes};
ghost use Rattle.spec_query.specs.Printing.{path_text};
ghost use Rattle.rql_print.specs.Print.{clause, column_text, name_text, sort_text, source_text, where_text};
ghost use Rattle.rql_tree.specs.View.{origin_of};

use crate::conditions::add_condition;
use raven_base::NoMemory;
use raven_value::{Path, Text};
use rql_tree::{Column, Cond, Origin, Sort, add, add_field, add_part, add_path, add_quoted};
use std::alloc::Global;

/// Adds what a query is about.
pub fn add_source(out: &mut String, origin: &Origin) -> Result<(), NoMemory>
    ensures { OnOk result (string_bytes out.new ≡ string_bytes out.old ++ source_text (origin_of origin.now)) }
{
    match origin {
        Origin::Index(name) => {
            add(out, "from index ")?;
            add_quoted(out, name.as_str())
        }
        Origin::Collection(name) => {
            add(out, "from ")?;
            add_part(out, name.as_str())
        }
    }
}

/// Adds a clause of paths, which begins with this word.
pub fn add_paths(out: &mut String, word: &str, paths: &[Path]) -> Result<(), NoMemory>
    ensures { OnOk result (string_bytes out.new ≡ string_bytes out.old ++ clause word.now (map path_text paths.now)) }
{
    let mut lead = word;
    for path in paths {
        add(out, lead)?;
        add_path(out, path)?;
        lead = ", ";
    }
    Ok(())
}

/// Adds the condition, if there is one.
pub fn add_where(alloc: Global, out: &mut String, cond: &Option<Cond>) -> Result<(), NoMemory>
    ensures { OnOk result (string_bytes out.new ≡ string_bytes out.old ++ where_text cond.now) }
{
    match cond {
        Some(cond) => {
            add(out, " where ")?;
            add_condition(alloc, out, cond)
        }
        None => Ok(()),
    }
}

fn add_if(out: &mut String, wanted: bool, text: &str) -> Result<(), NoMemory>
    ensures { OnOk result (string_bytes out.new ≡ string_bytes out.old ++ (if wanted then text.now else [])) }
{
    if wanted { add(out, text) } else { Ok(()) }
}

fn add_sort(out: &mut String, sort: &Sort) -> Result<(), NoMemory>
    ensures { OnOk result (string_bytes out.new ≡ string_bytes out.old ++ sort_text sort.now) }
{
    add_field(out, &sort.field)?;
    add_if(out, sort.long, " as long")?;
    add_if(out, sort.desc, " desc")
}

/// Adds the keys of the order, if there are some.
pub fn add_order(out: &mut String, sorts: &[Sort]) -> Result<(), NoMemory>
    ensures { OnOk result (string_bytes out.new ≡ string_bytes out.old ++ clause (codes " order by ") (map sort_text sorts.now)) }
{
    let mut lead = " order by ";
    for sort in sorts {
        add(out, lead)?;
        add_sort(out, sort)?;
        lead = ", ";
    }
    Ok(())
}

fn add_name(out: &mut String, name: &Option<Text>) -> Result<(), NoMemory>
    ensures { OnOk result (string_bytes out.new ≡ string_bytes out.old ++ name_text name.now) }
{
    match name {
        Some(name) => {
            add(out, " as ")?;
            add(out, name.as_str())
        }
        None => Ok(()),
    }
}

fn add_column(out: &mut String, column: &Column) -> Result<(), NoMemory>
    ensures { OnOk result (string_bytes out.new ≡ string_bytes out.old ++ column_text column.now) }
{
    add_field(out, &column.field)?;
    add_name(out, &column.name)
}

/// Adds the columns, if there are some.
pub fn add_select(out: &mut String, columns: &[Column]) -> Result<(), NoMemory>
    ensures { OnOk result (string_bytes out.new ≡ string_bytes out.old ++ clause (codes " select ") (map column_text columns.now)) }
{
    let mut lead = " select ";
    for column in columns {
        add(out, lead)?;
        add_column(out, column)?;
        lead = ", ";
    }
    Ok(())
}
