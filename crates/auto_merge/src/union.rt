//! The shape that takes in the fields of others.
ghost use Rattle.std.specs.Prelude.{◌≡◌, IfOk, OnOk, Some, map};
ghost use Rattle.spec_index.specs.Optimiser.{fields_alike};
ghost use Rattle.index_definition.specs.Order.{with_paths};
ghost use Rattle.index_definition.specs.ShapeView.{shape_view};
ghost use Rattle.auto_merge.specs.Widening.{fields_by, union_by, widened_by};

use crate::compare::is_alike;
use index_definition::{MAX_FIELDS, OrderedPaths, Shape};
use raven_base::NoMemory;
use raven_value::Paths;
use std::alloc::Global;

// Puts the fields of another in, if it is alike.
fn put_alike(
    alloc: Global,
    shape: &Shape,
    other: &Shape,
    fields: &mut OrderedPaths,
) -> Result<(), NoMemory>
    ensures { OnOk result (fields.new ≡ with_paths (fields_alike (shape_view shape.now) (Some (shape_view other.now))) fields.old) }
{
    if !is_alike(other, shape) {
        return Ok(());
    }
    fields.put_all(alloc, other.fields.as_slice())
}

// The fields of the shape and of those of the others that are alike, unless an index cannot have so many. It looks at no further one as soon
// as there are too many.
fn union_of(alloc: Global, shape: &Shape, others: &[&Shape]) -> Result<Option<Paths>, NoMemory>
    ensures { IfOk result (λ fields. fields ≡ union_by (shape_view shape.now) (map (λ s. shape_view s.now) others.now)) }
{
    let mut fields = OrderedPaths::new(alloc);
    let mut i = others.len();
    while i > 0 {
        i -= 1;
        put_alike(alloc, shape, others[i], &mut fields)?;
        if fields.len() > MAX_FIELDS {
            return Ok(None);
        }
    }
    fields.put_all(alloc, shape.fields.as_slice())?;
    if fields.are_too_wide() {
        return Ok(None);
    }
    Ok(Some(fields.into_paths(alloc)?))
}

// A copy of the shape with other fields.
fn with_fields(shape: &Shape, fields: Paths) -> Result<Shape, NoMemory>
    ensures { IfOk result (λ new. shape_view new ≡ fields_by (shape_view shape.now) fields) }
{
    let groups = match &shape.groups {
        Some(groups) => Some(groups.clone()?),
        None => None,
    };
    Ok(Shape {
        collection: shape.collection.clone()?,
        groups,
        fields,
    })
}

/// The shape with the fields of those of the others that have the same collection and groups or, if these are too many, the shape as it is.
pub fn widen(alloc: Global, shape: &Shape, others: &[&Shape]) -> Result<Shape, NoMemory>
    ensures { IfOk result (λ wide. shape_view wide ≡ widened_by (shape_view shape.now) (map (λ s. shape_view s.now) others.now)) }
{
    let fields = match union_of(alloc, shape, others)? {
        Some(fields) => fields,
        None => shape.fields.clone()?,
    };
    with_fields(shape, fields)
}
