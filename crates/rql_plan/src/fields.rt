//! The fields that a query names, in the order of its text.
ghost use Rattle.std.specs.Prelude.{◌≡◌, ◌++◌, IfOk, OnOk, [], map, option_map, unwrap_or};
ghost use Rattle.spec_query.specs.Fields.{asked_fields as spec_asked_fields, cond_fields, selected_fields};
ghost use Rattle.rql_plan.specs.View.{lent_fields};

use raven_base::NoMemory;
use rql_tree::{Cond, CondKind, Field, Query, Sort};
use std::alloc::Global;

#[cycle(fields)]
fn add_fields<'a>(cond: &'a Cond, fields: &mut Vec<&'a Field>) -> Result<(), NoMemory>
    ensures { OnOk result (lent_fields fields.new.items ≡ lent_fields fields.old.items ++ cond_fields cond.now) }
{
    match cond.kind() {
        CondKind::Or(left, right) => {
            add_fields(left, fields)?;
            add_fields(right, fields)
        }
        CondKind::And(left, right) => {
            add_fields(left, fields)?;
            add_fields(right, fields)
        }
        CondKind::Not(inner) => add_fields(inner, fields),
        CondKind::Exact(inner) => add_fields(inner, fields),
        CondKind::True => Ok(()),
        CondKind::Starts(field, _) => Ok(fields.push(field)?),
        CondKind::Exists(field) => Ok(fields.push(field)?),
        CondKind::Compare(field, _, _) => Ok(fields.push(field)?),
        CondKind::Between(field, _, _) => Ok(fields.push(field)?),
        CondKind::In(field, _) => Ok(fields.push(field)?),
    }
}

fn add_where<'a>(cond: &'a Option<Cond>, fields: &mut Vec<&'a Field>) -> Result<(), NoMemory>
    ensures { OnOk result (lent_fields fields.new.items ≡ lent_fields fields.old.items ++ unwrap_or (option_map cond_fields cond.now) []) }
{
    match cond {
        Some(cond) => add_fields(cond, fields),
        None => Ok(()),
    }
}

fn add_sorts<'a>(sorts: &'a [Sort], fields: &mut Vec<&'a Field>) -> Result<(), NoMemory>
    ensures { OnOk result (lent_fields fields.new.items ≡ lent_fields fields.old.items ++ map (λ s. s.field) sorts.now) }
{
    for sort in sorts {
        fields.push(&sort.field)?;
    }
    Ok(())
}

/// Those of the condition and of the order.
pub fn asked_fields<'a>(alloc: Global, query: &'a Query) -> Result<Vec<&'a Field>, NoMemory>
    ensures { IfOk result (λ fields. lent_fields fields.items ≡ spec_asked_fields query.now) }
{
    let mut fields = Vec::new(alloc);
    add_where(&query.cond, &mut fields)?;
    add_sorts(query.sorts.as_slice(), &mut fields)?;
    Ok(fields)
}

/// Adds those of `select`.
pub fn add_selected<'a>(query: &'a Query, fields: &mut Vec<&'a Field>) -> Result<(), NoMemory>
    ensures { OnOk result (lent_fields fields.new.items ≡ lent_fields fields.old.items ++ selected_fields query.now) }
{
    for column in query.columns.as_slice() {
        fields.push(&column.field)?;
    }
    Ok(())
}
