//! The names of fields.
ghost use Rattle.std.specs.Prelude.{◌≡◌, IfOk, MatchOption};
ghost use Rattle.std.specs.Str.{bytes_eq};
ghost use Rattle.index_tree.specs.Mapper.{joined};
ghost use Rattle.spec_query.specs.Binding.{column_name as spec_column_name};
ghost use Rattle.spec_query.specs.Query.{Sum as SumOf};
ghost use Rattle.spec_query.specs.Results.{field_name as spec_field_name};
ghost use Rattle.rql_plan.specs.Naming.{IsNoPart, IsPartThen};
ghost use Rattle.rql_tree.specs.View.{field_of};

use index_definition::{joined_name, sum_name};
use raven_base::NoMemory;
use raven_value::{Path, Text};
use rql_tree::Field;
use std::alloc::Global;

/// The name of a field in an index: a path joined by dots, `count()`, or `sum(..)` with the joined path in it.
pub fn field_name(alloc: Global, field: &Field) -> Result<Text, NoMemory>
    ensures { IfOk result (λ name. name ≡ spec_field_name (field_of field.now)) }
{
    match field {
        Field::Path(path) => joined_name(alloc, path),
        Field::Count => Text::of(alloc, "count()"),
        Field::Sum(path) => sum_name(alloc, path),
    }
}

/// The name of a column to which the query gives none.
pub fn column_name(alloc: Global, field: &Field) -> Result<Text, NoMemory>
    ensures { IfOk result (λ name. name ≡ spec_column_name (field_of field.now)) }
{
    match field {
        Field::Path(path) => joined_name(alloc, path),
        Field::Count => Text::of(alloc, "Count"),
        Field::Sum(path) => joined_name(alloc, path),
    }
}

// What stands behind the part and a dot.
#[tactic(auto, using(crate::proofs::Joined::fronts))]
fn behind<'a>(part: &str, name: &'a [u8]) -> Option<&'a [u8]>
    ensures { MatchOption result (IsNoPart part.now name.now) (λ rest. IsPartThen part.now name.now rest.now) }
{
    name.strip_prefix(part.as_bytes())?.strip_prefix(b".")
}

#[tactic(auto, using(crate::proofs::Joined::joins))]
fn is_joined(path: &Path, name: &[u8]) -> bool
    ensures { result ≡ bytes_eq (joined path.now) name.now }
{
    let mut rest = name;
    let mut parts = path.as_slice();
    while let Some((part, more)) = parts.split_first() {
        if more.is_empty() {
            return part.as_str().as_bytes() == rest;
        }
        let Some(next) = behind(part.as_str(), rest) else {
            return false;
        };
        rest = next;
        parts = more;
    }
    rest.is_empty()
}

#[tactic(auto, using(crate::proofs::Joined::sums))]
fn is_sum(path: &Path, name: &[u8]) -> bool
    ensures { result ≡ bytes_eq (spec_field_name (SumOf path.now)) name.now }
{
    let Some(inner) = name.strip_prefix(b"sum(") else {
        return false;
    };
    match inner.strip_suffix(b")") {
        Some(inner) => is_joined(path, inner),
        None => false,
    }
}

/// Whether this is the name of the field in an index.
pub fn is_named(field: &Field, name: &Text) -> bool
    ensures { result ≡ bytes_eq (spec_field_name (field_of field.now)) name.now }
{
    match field {
        Field::Path(path) => is_joined(path, name.as_str().as_bytes()),
        Field::Count => "count()" == name.as_str(),
        Field::Sum(path) => is_sum(path, name.as_str().as_bytes()),
    }
}
