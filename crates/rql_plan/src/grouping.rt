//! Which field needs other groups than the query has.
ghost use Rattle.std.specs.Prelude.{◌≡◌, IfOk, find, option_map};
ghost use Rattle.std.specs.Cmp.Lexicographic.{pointwise};
ghost use Rattle.std.specs.Str.{bytes_eq};
ghost use Rattle.spec_query.specs.Fields.{has_path as spec_has_path, is_of_group as spec_is_of_group, is_ungrouped as spec_is_ungrouped, not_grouped as spec_not_grouped};
ghost use Rattle.rql_plan.specs.View.{lent_field, lent_fields};
ghost use Rattle.rql_tree.specs.View.{field_of};

use crate::fields::{add_selected, asked_fields};
use raven_base::NoMemory;
use raven_value::Path;
use rql_tree::{Field, Origin, Query};
use std::alloc::Global;

fn is_same(path: &Path, other: &Path) -> bool
    ensures { result ≡ pointwise bytes_eq path.now other.now }
{
    path.as_slice() == other.as_slice()
}

fn has_path(paths: &[Path], path: &Path) -> bool
    ensures { result ≡ spec_has_path paths.now path.now }
{
    paths.iter().any(|other| is_same(path, other))
}

/// Whether it is a count or a sum.
pub fn is_of_group(field: &Field) -> bool
    ensures { result ≡ spec_is_of_group (field_of field.now) }
{
    match field {
        Field::Path(_) => false,
        Field::Count => true,
        Field::Sum(_) => true,
    }
}

#[tactic(auto, using(crate::proofs::Groups::groups))]
fn is_ungrouped(groups: &[Path], field: &Field) -> bool
    ensures { result ≡ spec_is_ungrouped groups.now (field_of field.now) }
{
    if groups.is_empty() {
        return is_of_group(field);
    }
    match field {
        Field::Path(path) => !has_path(groups, path),
        Field::Count => false,
        Field::Sum(_) => false,
    }
}

fn first_ungrouped<'a>(groups: &[Path], fields: &[&'a Field]) -> Option<&'a Field>
    ensures { option_map lent_field result ≡ find (spec_is_ungrouped groups.now) (lent_fields fields.now) }
{
    for field in fields {
        if is_ungrouped(groups, field) {
            return Some(*field);
        }
    }
    None
}

/// The first field of a query on a collection that needs other groups.
pub fn not_grouped<'a>(alloc: Global, query: &'a Query) -> Result<Option<&'a Field>, NoMemory>
    ensures { IfOk result (λ field. option_map lent_field field ≡ spec_not_grouped query.now) }
{
    if let Origin::Index(_) = &query.origin {
        return Ok(None);
    }
    let mut fields = asked_fields(alloc, query)?;
    add_selected(query, &mut fields)?;
    Ok(first_ungrouped(query.groups.as_slice(), &fields))
}
