//! Maps.
ghost use Rattle.std.specs.Prelude.{◌≡◌, ◌++◌, IfOk, OnOk, flat_map, map, string_bytes};
ghost use Rattle.index_grammar.specs.MapReading.{map_text};
ghost use Rattle.index_print.specs.Print.{clause, listed, member, origin, printed_map};
ghost use Rattle.index_print.specs.ReadBack.{ReadsBack};
ghost use Rattle.index_print.specs.Spellable.{IsSpellableMap};
ghost use Rattle.index_tokens.specs.Tokens.{tokens_of};

use crate::expressions::add_expression;
use crate::quoting::add;
use index_tree::{Clause, Clauses, MapMember, MapMembers, MapQuery};
use raven_base::NoMemory;
use raven_value::Text;
use std::alloc::Global;

fn add_origin(out: &mut String, var: &str, collection: &str) -> Result<(), NoMemory>
    ensures { OnOk result (string_bytes out.new ≡ string_bytes out.old ++ origin var.now collection.now) }
{
    add(out, "from ")?;
    add(out, var)?;
    add(out, " in docs.")?;
    add(out, collection)
}

// With the space before it.
fn add_clause(alloc: Global, out: &mut String, part: &Clause) -> Result<(), NoMemory>
    ensures { OnOk result (string_bytes out.new ≡ string_bytes out.old ++ clause part.now) }
{
    match part {
        Clause::Where(test) => {
            add(out, " where ")?;
            add_expression(alloc, out, test)
        }
        Clause::Let { var, value } => {
            add(out, " let ")?;
            add(out, var.as_str())?;
            add(out, " = ")?;
            add_expression(alloc, out, value)
        }
    }
}

fn add_clauses(alloc: Global, out: &mut String, clauses: &Clauses) -> Result<(), NoMemory>
    ensures { OnOk result (string_bytes out.new ≡ string_bytes out.old ++ flat_map clause clauses.now) }
{
    for part in clauses.as_slice() {
        add_clause(alloc, out, part)?;
    }
    Ok(())
}

fn add_member(alloc: Global, out: &mut String, field: &MapMember) -> Result<(), NoMemory>
    ensures { OnOk result (string_bytes out.new ≡ string_bytes out.old ++ member field.now) }
{
    add(out, field.name.as_str())?;
    add(out, " = ")?;
    add_expression(alloc, out, &field.value)
}

fn add_members(alloc: Global, out: &mut String, members: &MapMembers) -> Result<(), NoMemory>
    ensures { OnOk result (string_bytes out.new ≡ string_bytes out.old ++ listed (map member members.now)) }
{
    let mut later = false;
    for field in members.as_slice() {
        if later {
            add(out, ", ")?;
        }
        add_member(alloc, out, field)?;
        later = true;
    }
    Ok(())
}

/// The canonical spelling of a map: one text among all that spell it. A tree that no text spells, as one with a name that is none, a number
/// below 0 or no member, is printed by the same rules, and what is printed is then no text of it.
pub fn print_map(alloc: Global, query: &MapQuery) -> Result<Text, NoMemory>
    ensures text { IfOk result (λ text. text ≡ printed_map query.now) }
    // It is read as the same map, unless it is past a limit.
    ensures reads_back { IfOk result (λ text. IsSpellableMap query.now → ReadsBack query.now (map_text 0 (tokens_of text))) }
{
    let mut out = String::new(alloc);
    add_origin(&mut out, query.var.as_str(), query.collection.as_str())?;
    add_clauses(alloc, &mut out, &query.clauses)?;
    add(&mut out, " select new { ")?;
    add_members(alloc, &mut out, &query.members)?;
    add(&mut out, " }")?;
    Text::of_string(out)
}
