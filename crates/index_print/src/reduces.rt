//! Reduces.
ghost use Rattle.std.specs.Prelude.{◌≡◌, ◌++◌, IfOk, OnOk, map, string_bytes};
ghost use Rattle.index_print.specs.Print.{fold, fold_member, fold_name as spec_fold_name, fold_value, grouping, key, key_part, listed, part, printed_reduce};
ghost use Rattle.index_print.specs.ReadBack.{ReadsBackReduce};
ghost use Rattle.index_print.specs.Spellable.{IsSpellableReduce};
ghost use Rattle.index_tokens.specs.Tokens.{tokens_of};
ghost use Rattle.reduce_grammar.specs.ReduceReading.{reduce_text};

use crate::quoting::add;
use index_tree::{FoldKind, FoldMember, FoldMembers, FoldValue, ReduceQuery, Texts};
use raven_base::NoMemory;
use raven_value::Text;
use std::alloc::Global;

fn add_part(out: &mut String, var: &str, name: &str) -> Result<(), NoMemory>
    ensures { OnOk result (string_bytes out.new ≡ string_bytes out.old ++ part var.now name.now) }
{
    add(out, var)?;
    add(out, ".")?;
    add(out, name)
}

fn add_parts(out: &mut String, var: &str, names: &Texts) -> Result<(), NoMemory>
    ensures { OnOk result (string_bytes out.new ≡ string_bytes out.old ++ listed (map (part var.now) names.now)) }
{
    let mut later = false;
    for name in names.as_slice() {
        if later {
            add(out, ", ")?;
        }
        add_part(out, var, name.as_str())?;
        later = true;
    }
    Ok(())
}

fn add_key(out: &mut String, var: &str, names: &Texts) -> Result<(), NoMemory>
    ensures { OnOk result (string_bytes out.new ≡ string_bytes out.old ++ key var.now names.now) }
{
    if let [only] = names.as_slice() {
        return add_part(out, var, only.as_str());
    }
    add(out, "new { ")?;
    add_parts(out, var, names)?;
    add(out, " }")
}

fn add_grouping(out: &mut String, var: &str, names: &Texts) -> Result<(), NoMemory>
    ensures { OnOk result (string_bytes out.new ≡ string_bytes out.old ++ grouping var.now names.now) }
{
    add(out, "from ")?;
    add(out, var)?;
    add(out, " in results group ")?;
    add(out, var)?;
    add(out, " by ")?;
    add_key(out, var, names)
}

fn fold_name(kind: FoldKind) -> &'static str
    ensures { result.now ≡ spec_fold_name kind }
{
    match kind {
        FoldKind::Sum => "Sum",
        FoldKind::Min => "Min",
        FoldKind::Max => "Max",
    }
}

fn add_key_part(out: &mut String, names: &Texts, name: &str) -> Result<(), NoMemory>
    ensures { OnOk result (string_bytes out.new ≡ string_bytes out.old ++ key_part names.now name.now) }
{
    if names.len() == 1 {
        return add(out, ".Key");
    }
    add(out, ".Key.")?;
    add(out, name)
}

fn add_fold(out: &mut String, kind: FoldKind, var: &str, field: &str) -> Result<(), NoMemory>
    ensures { OnOk result (string_bytes out.new ≡ string_bytes out.old ++ fold kind var.now field.now) }
{
    add(out, ".")?;
    add(out, fold_name(kind))?;
    add(out, "(")?;
    add(out, var)?;
    add(out, " => ")?;
    add_part(out, var, field)?;
    add(out, ")")
}

fn add_value(
    out: &mut String,
    group: &str,
    names: &Texts,
    value: &FoldValue,
) -> Result<(), NoMemory>
    ensures { OnOk result (string_bytes out.new ≡ string_bytes out.old ++ fold_value group.now names.now value.now) }
{
    add(out, group)?;
    match value {
        FoldValue::Key(name) => add_key_part(out, names, name.as_str()),
        FoldValue::Fold { kind, var, field } => add_fold(out, *kind, var.as_str(), field.as_str()),
        FoldValue::Quotient {
            var,
            field,
            by_var,
            by,
        } => {
            add_fold(out, FoldKind::Sum, var.as_str(), field.as_str())?;
            add(out, " / ")?;
            add(out, group)?;
            add_fold(out, FoldKind::Sum, by_var.as_str(), by.as_str())
        }
    }
}

fn add_member(
    out: &mut String,
    group: &str,
    names: &Texts,
    field: &FoldMember,
) -> Result<(), NoMemory>
    ensures { OnOk result (string_bytes out.new ≡ string_bytes out.old ++ fold_member group.now names.now field.now) }
{
    add(out, field.name.as_str())?;
    add(out, " = ")?;
    add_value(out, group, names, &field.value)
}

fn add_members(
    out: &mut String,
    group: &str,
    names: &Texts,
    members: &FoldMembers,
) -> Result<(), NoMemory>
    ensures { OnOk result (string_bytes out.new ≡ string_bytes out.old ++ listed (map (fold_member group.now names.now) members.now)) }
{
    let mut later = false;
    for field in members.as_slice() {
        if later {
            add(out, ", ")?;
        }
        add_member(out, group, names, field)?;
        later = true;
    }
    Ok(())
}

/// The canonical spelling of a reduce: one text among all that spell it. A tree that no text spells, as one with a name that is none or no
/// part of the key, is printed by the same rules, and what is printed is then no text of it.
pub fn print_reduce(alloc: Global, query: &ReduceQuery) -> Result<Text, NoMemory>
    ensures text { IfOk result (λ text. text ≡ printed_reduce query.now) }
    // It is read as the same reduce, unless it is past a limit.
    ensures reads_back { IfOk result (λ text. IsSpellableReduce query.now → ReadsBackReduce query.now (reduce_text 0 (tokens_of text))) }
{
    let mut out = String::new(alloc);
    add_grouping(&mut out, query.var.as_str(), &query.key)?;
    add(&mut out, " into ")?;
    add(&mut out, query.group.as_str())?;
    add(&mut out, " select new { ")?;
    add_members(&mut out, query.group.as_str(), &query.key, &query.members)?;
    add(&mut out, " }")?;
    Text::of_string(out)
}
