//! The names of the fields that paths lead to.
ghost use Rattle.std.specs.Prelude.{◌≡◌, ◌++◌, ◌∷◌, IfOk, map};
ghost use Rattle.index_definition.specs.Reading.{shape_names as spec_shape_names};
ghost use Rattle.index_tree.specs.Mapper.{count_name, joined, sum_name as spec_sum_name};

use crate::shape::Shape;
use raven_base::NoMemory;
use raven_value::{Names, Path, Text};
use std::alloc::Global;

/// The name of the field that a path leads to: its parts with a dot between them.
pub fn joined_name(alloc: Global, path: &Path) -> Result<Text, NoMemory>
    ensures { IfOk result (λ name. name ≡ joined path.now) }
{
    let [first, more @ ..] = path.as_slice() else {
        unreachable!()
    };
    let mut name = String::from_str(alloc, first.as_str())?;
    for part in more {
        name.push_str(".")?;
        name.push_str(part.as_str())?;
    }
    Text::of_string(name)
}

/// The name of the count of a group.
pub const COUNT_NAME: &str = "count()";

/// The name of the sum of what a path leads to.
pub fn sum_name(alloc: Global, path: &Path) -> Result<Text, NoMemory>
    ensures { IfOk result (λ name. name ≡ spec_sum_name path.now) }
{
    let mut name = String::from_str(alloc, "sum(")?;
    name.push_str(joined_name(alloc, path)?.as_str())?;
    name.push_str(")")?;
    Text::of_string(name)
}

// The names of the fields of a group: those by which it groups, the count, and the sums.
fn group_names(alloc: Global, groups: &[Path], sums: &[Path]) -> Result<Names, NoMemory>
    ensures { IfOk result (λ names. names ≡ map joined groups.now ++ count_name ∷ map spec_sum_name sums.now) }
{
    let mut names = joined_names(alloc, groups)?;
    names.push(Text::of(alloc, COUNT_NAME)?)?;
    for sum in sums {
        names.push(sum_name(alloc, sum)?)?;
    }
    Ok(names)
}

/// The names of the fields of an automatic index.
pub fn shape_names(alloc: Global, shape: &Shape) -> Result<Names, NoMemory>
    ensures { IfOk result (λ names. names ≡ spec_shape_names shape.now.groups shape.now.fields) }
{
    match &shape.groups {
        None => joined_names(alloc, shape.fields.as_slice()),
        Some(groups) => group_names(alloc, groups.as_slice(), shape.fields.as_slice()),
    }
}

fn joined_names(alloc: Global, paths: &[Path]) -> Result<Names, NoMemory>
    ensures { IfOk result (λ names. names ≡ map joined paths.now) }
{
    let mut names = Names::new(alloc);
    for path in paths {
        names.push(joined_name(alloc, path)?)?;
    }
    Ok(names)
}
