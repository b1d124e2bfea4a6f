//! Which field an index does not have.
ghost use Rattle.std.specs.Prelude.{◌≡◌, ◌++◌, IfOk, OnOk, filter, find, map, not, option_map};
ghost use Rattle.spec_query.specs.Fields.{is_offered as spec_is_offered, is_to_be_offered as spec_is_to_be_offered, not_offered as spec_not_offered};
ghost use Rattle.index_definition.specs.DefinitionView.{automatic, definition_view};
ghost use Rattle.spec_query.specs.Offering.{offered_of};
ghost use Rattle.rql_plan.specs.View.{lent_field, lent_fields};
ghost use Rattle.rql_tree.specs.View.{field_of};

use crate::fields::asked_fields;
use crate::grouping::is_of_group;
use crate::naming::is_named;
use index_definition::{DefBody, Definition, Shape, shape_names};
use index_tree::{FoldMember, MapMember};
use raven_base::NoMemory;
use raven_value::Names;
use rql_tree::{Column, Field, Origin, Query};
use std::alloc::Global;
use std::marker::Model;

/// The fields of an index.
struct Offered {
    names: Names,

    /// Whether they are those of groups.
    reduced: bool,
}

// Opaque drop: see raven_base.
impl Drop for Offered {
    fn drop(self) {
        let Offered {
            names: _names,
            reduced: _reduced,
        } = self;
    }
}

impl Model for Offered {
    ghost use Rattle.spec_query.specs.Fields as fields;
    ghost use Rattle.rql_plan.specs.Codes.{offered_code};

    ghost Value = { fields.Offered };

    ghost coded = { offered_code };

    ghost view = { λ a. record { names = a.names; reduced = a.reduced } };
}

fn map_names(alloc: Global, members: &[MapMember]) -> Result<Names, NoMemory>
    ensures { IfOk result (λ names. names ≡ map (λ m. m.name) members.now) }
{
    let mut names = Names::new(alloc);
    for member in members {
        names.push(member.name.clone()?)?;
    }
    Ok(names)
}

fn reduce_names(alloc: Global, members: &[FoldMember]) -> Result<Names, NoMemory>
    ensures { IfOk result (λ names. names ≡ map (λ m. m.name) members.now) }
{
    let mut names = Names::new(alloc);
    for member in members {
        names.push(member.name.clone()?)?;
    }
    Ok(names)
}

fn of_shape(alloc: Global, shape: &Shape) -> Result<Offered, NoMemory>
    ensures { IfOk result (λ offered. offered ≡ offered_of (automatic shape.now.collection shape.now.groups shape.now.fields)) }
{
    let names = shape_names(alloc, shape)?;
    Ok(Offered {
        names,
        reduced: shape.groups.is_some(),
    })
}

impl Offered {
    fn of(alloc: Global, body: &DefBody) -> Result<Offered, NoMemory>
        ensures { IfOk result (λ offered. offered ≡ offered_of (definition_view body.now)) }
    {
        match body {
            DefBody::Static {
                map,
                reduce: None,
                ..
            } => Ok(Offered {
                names: map_names(alloc, map.members.as_slice())?,
                reduced: false,
            }),
            DefBody::Static {
                reduce: Some(reduce),
                ..
            } => Ok(Offered {
                names: reduce_names(alloc, reduce.members.as_slice())?,
                reduced: true,
            }),
            DefBody::Auto(shape) => of_shape(alloc, shape),
        }
    }

    fn has(&self, field: &Field) -> bool
        ensures { result ≡ spec_is_offered self.now (field_of field.now) }
    {
        let names = self.names.as_slice();
        names.iter().any(|name| is_named(field, name))
    }

    // Whether a field of `select` has to be one of these.
    fn is_to_have(&self, field: &Field) -> bool
        ensures { result ≡ spec_is_to_be_offered self.now (field_of field.now) }
    {
        self.reduced || is_of_group(field)
    }

    fn add_selected<'a>(
        &self,
        columns: &'a [Column],
        fields: &mut Vec<&'a Field>,
    ) -> Result<(), NoMemory>
        ensures { OnOk result (lent_fields fields.new.items ≡ lent_fields fields.old.items ++ filter (spec_is_to_be_offered self.now) (map (λ c. c.field) columns.now)) }
    {
        for column in columns {
            if self.is_to_have(&column.field) {
                fields.push(&column.field)?;
            }
        }
        Ok(())
    }

    fn first_missing<'a>(&self, fields: &[&'a Field]) -> Option<&'a Field>
        ensures { option_map lent_field result ≡ find (λ field. not (spec_is_offered self.now field)) (lent_fields fields.now) }
    {
        for field in fields {
            if !self.has(field) {
                return Some(*field);
            }
        }
        None
    }
}

/// The first field of a query on an index that the definition does not have.
pub fn not_offered<'a>(
    alloc: Global,
    query: &'a Query,
    definition: &Definition,
) -> Result<Option<&'a Field>, NoMemory>
    ensures { IfOk result (λ field. option_map lent_field field ≡ spec_not_offered (offered_of (definition_view definition.now.body)) query.now) }
{
    let Origin::Index(_) = &query.origin else {
        return Ok(None);
    };
    let offered = Offered::of(alloc, &definition.body)?;
    let mut fields = asked_fields(alloc, query)?;
    offered.add_selected(query.columns.as_slice(), &mut fields)?;
    Ok(offered.first_missing(&fields))
}
