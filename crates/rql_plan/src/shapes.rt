//! What a query asks of an automatic index.
ghost use Rattle.std.specs.Prelude.{◌≡◌, IfOk, map, option_copied, option_map};
ghost use Rattle.std.specs.List.{filter_map};
ghost use Rattle.index_definition.specs.ShapeView.{shape_view};
ghost use Rattle.spec_query.specs.Query.{is_empty, is_whole as spec_is_whole};
ghost use Rattle.spec_server.specs.Shapes.{grouped_shape as spec_grouped_shape, path_in as spec_path_in, plain_shape as spec_plain_shape, shape_asked, sum_in as spec_sum_in};
ghost use Rattle.rql_plan.specs.Shapes.{shape_if_any};
ghost use Rattle.rql_plan.specs.View.{lent_fields};
ghost use Rattle.rql_tree.specs.View.{field_of};

use crate::fields::{add_selected, asked_fields};
use index_definition::{Shape, in_order};
use raven_base::NoMemory;
use raven_value::{Path, Text};
use rql_tree::{Field, Origin, Query};
use std::alloc::Global;

fn lent<'a>(alloc: Global, paths: &'a [Path]) -> Result<Vec<&'a Path>, NoMemory>
    ensures { IfOk result (λ all. map (λ p. p.now) all.items ≡ paths.now) }
{
    let mut all = Vec::new(alloc);
    for path in paths {
        all.push(path)?;
    }
    Ok(all)
}

fn path_in(field: &Field) -> Option<&Path>
    ensures { option_copied result ≡ spec_path_in (field_of field.now) }
{
    match field {
        Field::Path(path) => Some(path),
        Field::Count => None,
        Field::Sum(_) => None,
    }
}

fn sum_in(field: &Field) -> Option<&Path>
    ensures { option_copied result ≡ spec_sum_in (field_of field.now) }
{
    match field {
        Field::Path(_) => None,
        Field::Count => None,
        Field::Sum(path) => Some(path),
    }
}

fn paths_in<'a>(alloc: Global, fields: &[&'a Field]) -> Result<Vec<&'a Path>, NoMemory>
    ensures { IfOk result (λ all. map (λ p. p.now) all.items ≡ filter_map spec_path_in (lent_fields fields.now)) }
{
    let mut all = Vec::new(alloc);
    for field in fields {
        if let Some(path) = path_in(field) {
            all.push(path)?;
        }
    }
    Ok(all)
}

fn sums_in<'a>(alloc: Global, fields: &[&'a Field]) -> Result<Vec<&'a Path>, NoMemory>
    ensures { IfOk result (λ all. map (λ p. p.now) all.items ≡ filter_map spec_sum_in (lent_fields fields.now)) }
{
    let mut all = Vec::new(alloc);
    for field in fields {
        if let Some(path) = sum_in(field) {
            all.push(path)?;
        }
    }
    Ok(all)
}

fn has_no_groups(query: &Query) -> bool
    ensures { result ≡ is_empty query.now.groups }
{
    query.groups.is_empty()
}

fn has_no_order(query: &Query) -> bool
    ensures { result ≡ is_empty query.now.sorts }
{
    query.sorts.is_empty()
}

fn is_whole(query: &Query) -> bool
    ensures { result ≡ spec_is_whole query.now }
{
    if let Origin::Index(_) = &query.origin {
        return false;
    }
    has_no_groups(query) && query.cond.is_none() && has_no_order(query)
}

fn plain_shape(alloc: Global, query: &Query, collection: &Text) -> Result<Shape, NoMemory>
    ensures { IfOk result (λ shape. shape_view shape ≡ spec_plain_shape collection.now query.now) }
{
    let asked = asked_fields(alloc, query)?;
    let fields = paths_in(alloc, &asked)?;
    Ok(Shape {
        collection: collection.clone()?,
        groups: None,
        fields: in_order(alloc, &fields)?,
    })
}

fn grouped_shape(alloc: Global, query: &Query, collection: &Text) -> Result<Shape, NoMemory>
    ensures { IfOk result (λ shape. shape_view shape ≡ spec_grouped_shape collection.now query.now) }
{
    let mut named = asked_fields(alloc, query)?;
    add_selected(query, &mut named)?;
    let groups = lent(alloc, query.groups.as_slice())?;
    let sums = sums_in(alloc, &named)?;
    Ok(Shape {
        collection: collection.clone()?,
        groups: Some(in_order(alloc, &groups)?),
        fields: in_order(alloc, &sums)?,
    })
}

fn shape_in(alloc: Global, query: &Query, collection: &Text) -> Result<Shape, NoMemory>
    ensures { IfOk result (λ shape. shape_view shape ≡ shape_asked collection.now query.now) }
{
    if has_no_groups(query) {
        plain_shape(alloc, query, collection)
    } else {
        grouped_shape(alloc, query, collection)
    }
}

/// What a query asks of an automatic index. A query on an index that it names, and one on a whole collection, ask for none.
pub fn shape_of(alloc: Global, query: &Query) -> Result<Option<Shape>, NoMemory>
    ensures { IfOk result (λ shape. option_map shape_view shape ≡ shape_if_any query.now) }
{
    let Origin::Collection(name) = &query.origin else {
        return Ok(None);
    };
    if is_whole(query) {
        return Ok(None);
    }
    Ok(Some(shape_in(alloc, query, name)?))
}
