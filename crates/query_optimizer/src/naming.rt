//! What an automatic index is called.
ghost use Rattle.std.specs.Prelude.{◌≡◌, ◌++◌, ◌<◌, ◌≤◌, ◌^◌, IfOk, OnOk, codes, decimal, insert, length, map, string_bytes};
ghost use Rattle.std.specs.Ordering.{is_gt};
ghost use Rattle.spec_data.specs.Folding.{key_cmp};
ghost use Rattle.index_definition.specs.ShapeView.{shape_view};
ghost use Rattle.index_tree.specs.Mapper.{joined};
ghost use Rattle.spec_index.specs.Optimiser.{and_between, first_free as spec_first_free, name_of, plain_name as spec_plain_name, reduced_by, value_names as spec_value_names, with_name};

use crate::free_name::first_free;
use index_definition::{Shape, joined_name};
use raven_base::NoMemory;
use raven_value::{IdRefusal, MAX_INDEX_NAME, Name, Path, Text};
use side_by_side::Slot;
use std::alloc::Global;

fn joined_names(alloc: Global, paths: &[Path]) -> Result<Vec<Text>, NoMemory>
    ensures { IfOk result (λ names. names.items ≡ map joined paths.now) }
{
    let mut names = Vec::new(alloc);
    for path in paths {
        names.push(joined_name(alloc, path)?)?;
    }
    Ok(names)
}

// Whether the bytes of a name are behind those of another.
fn is_behind(name: &Text, other: &Text) -> bool
    ensures { result ≡ is_gt (key_cmp name.now other.now) }
{
    name.cmp(other).is_gt()
}

// The place of a name before the first that is not below it.
#[tactic(auto, using(crate::proofs::Listed::places))]
fn place_of(names: &[Text], name: &Text) -> usize
    ensures within { result ≤ length names.now }
    ensures place { with_name name.now names.now ≡ insert names.now result name.now }
{
    let mut i = 0;
    while i < names.len() {
        if !is_behind(name, &names[i]) {
            return i;
        }
        i += 1;
    }
    i
}

// Puts `Count` before the first name that is not below it.
fn add_count(alloc: Global, names: &mut Vec<Text>) -> Result<(), NoMemory>
    ensures { OnOk result (names.new.items ≡ with_name (codes "Count") names.old.items) }
{
    let count = Text::of(alloc, "Count")?;
    let i = place_of(names, &count);
    names.insert(i, count)?;
    Ok(())
}

// The names of the values that it keeps.
fn value_names(alloc: Global, shape: &Shape) -> Result<Vec<Text>, NoMemory>
    ensures { IfOk result (λ names. names.items ≡ spec_value_names (shape_view shape.now)) }
{
    let mut names = joined_names(alloc, shape.fields.as_slice())?;
    if shape.groups.is_some() {
        add_count(alloc, &mut names)?;
    }
    Ok(names)
}

// Adds names with `And` between them.
fn add_names(text: &mut String, names: &[Text]) -> Result<(), NoMemory>
    ensures { OnOk result (string_bytes text.new ≡ string_bytes text.old ++ and_between names.now) }
{
    let Some((first, more)) = names.split_first() else {
        return Ok(());
    };
    text.push_str(first.as_str())?;
    for name in more {
        text.push_str("And")?;
        text.push_str(name.as_str())?;
    }
    Ok(())
}

// Adds the names of the groups, if there are any.
fn add_groups(alloc: Global, text: &mut String, shape: &Shape) -> Result<(), NoMemory>
    ensures { OnOk result (string_bytes text.new ≡ string_bytes text.old ++ reduced_by (shape_view shape.now)) }
{
    let Some(groups) = &shape.groups else {
        return Ok(());
    };
    text.push_str("ReducedBy")?;
    let names = joined_names(alloc, groups.as_slice())?;
    add_names(text, &names)
}

// The name that tells the collection, the values and the groups.
fn plain_name(alloc: Global, shape: &Shape) -> Result<String, NoMemory>
    ensures { IfOk result (λ text. string_bytes text ≡ spec_plain_name (shape_view shape.now)) }
{
    let mut text = String::from_str(alloc, "Auto/")?;
    text.push_str(shape.collection.as_str())?;
    text.push_str("/By")?;
    let names = value_names(alloc, shape)?;
    add_names(&mut text, &names)?;
    add_groups(alloc, &mut text, shape)?;
    Ok(text)
}

fn auto_number(alloc: Global, number: u64) -> Result<String, NoMemory>
    ensures { IfOk result (λ text. string_bytes text ≡ codes "Auto/" ++ decimal number) }
{
    let mut text = String::from_str(alloc, "Auto/")?;
    text.push_str(number.to_string(alloc)?.as_str())?;
    Ok(text)
}

fn numbered_name(alloc: Global, slots: &[Slot], number: u64) -> Result<Name, NoMemory>
    requires { length slots.now < 2 ^ 32 }
    ensures { IfOk result (λ name. name ≡ spec_first_free (codes "Auto/" ++ decimal number) slots.now) }
{
    let free = first_free(alloc, slots, auto_number(alloc, number)?)?;
    match Name::new(alloc, free.as_str()) {
        Ok(name) => Ok(name),
        Err(refusal) => Err(refusal.memory_alone()),
    }
}

/// The name of a new automatic index, whose number is this. It tells what the index keeps, unless that is too long or has a control
/// character, and no index serves it.
pub fn auto_name(
    alloc: Global,
    slots: &[Slot],
    number: u64,
    shape: &Shape,
) -> Result<Name, NoMemory>
    requires { length slots.now < 2 ^ 32 }
    ensures { IfOk result (λ name. name ≡ name_of slots.now number (shape_view shape.now)) }
{
    let plain = first_free(alloc, slots, plain_name(alloc, shape)?)?;
    if plain.len() <= MAX_INDEX_NAME {
        match Name::new(alloc, plain.as_str()) {
            Ok(name) => return Ok(name),
            Err(IdRefusal::NoMemory) => return Err(NoMemory),
            Err(_) => {}
        }
    }
    numbered_name(alloc, slots, number)
}
