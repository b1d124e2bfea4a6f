//! Plans.
ghost use Rattle.std.specs.Prelude.{◌≡◌, [], IfOk, map, option_map, nat_abs, unwrap_or};
ghost use Rattle.spec_query.specs.Binding.{column_name as spec_column_name, columns_of as spec_columns_of, key_of as spec_key_of, plan_of as spec_plan_of, plain_column as spec_plain_column, selected_column as spec_selected_column};
ghost use Rattle.spec_query.specs.Query.{At as AtOf};
ghost use Rattle.rql_tree.specs.View.{field_of};

use crate::ask::QueryAsk;
use crate::condition::Condition;
use crate::naming::{column_name, field_name};
use crate::values::bound_where;
use raven_base::{NoMemory, Sequence};
use raven_value::{Path, Paths, Text};
use rql_tree::{Column, Field, Query, Sort};
use std::alloc::Global;
use std::marker::Model;

/// A key of an order, by the name of its field in the index.
pub struct SortKey {
    pub field: Text,
    /// Whether values are compared as numbers, and not as texts.
    pub long: bool,
    /// Whether the greatest value comes first.
    pub desc: bool,
}

// Opaque drop: see raven_base.
impl Drop for SortKey {
    fn drop(self) {
        let SortKey {
            field: _field,
            long: _long,
            desc: _desc,
        } = self;
    }
}

/// A field of the results, under its name there.
pub struct Selected {
    pub name: Text,
    pub field: Field,
}

// Opaque drop: see raven_base.
impl Drop for Selected {
    fn drop(self) {
        let Selected {
            name: _name,
            field: _field,
        } = self;
    }
}

/// Keys of an order, the first one first.
pub type SortKeys = Sequence<SortKey>;

/// Fields of the results, in order.
pub type SelectedFields = Sequence<Selected>;

/// A query with values in place of its parameters, for an index that has the fields that it names. `bind` alone makes one.
pub struct Plan {
    condition: Condition,
    order: SortKeys,
    columns: SelectedFields,
    includes: Paths,
    start: u64,
    size: Option<u64>,
}

// Opaque drop: see raven_base.
impl Drop for Plan {
    fn drop(self) {
        let Plan {
            condition: _condition,
            order: _order,
            columns: _columns,
            includes: _includes,
            start: _start,
            size: _size,
        } = self;
    }
}

impl Model for SortKey {
    ghost use Rattle.spec_query.specs.Sorting as sorting;
    ghost use Rattle.rql_plan.specs.Codes.{key_code};

    ghost Value = { sorting.SortKey };

    ghost coded = { key_code };

    ghost view = { λ a. record { field = a.field; long = a.long; desc = a.desc } };
}

impl Model for Selected {
    ghost use Rattle.spec_query.specs.Plan as plan;
    ghost use Rattle.rql_plan.specs.Codes.{selected_code};

    ghost Value = { plan.Selected };

    ghost coded = { selected_code };

    ghost use Rattle.rql_tree.specs.View.{field_of};

    ghost view = { λ a. record { name = a.name; field = field_of a.field } };
}

impl Model for Plan {
    ghost use Rattle.spec_query.specs.Plan as plan;
    ghost use Rattle.rql_plan.specs.Codes.{plan_code};

    ghost Value = { plan.Plan };

    ghost coded = { plan_code };

    ghost view = { λ a. record { condition = a.condition; order = a.order; columns = a.columns; includes = a.includes; start = a.start; size = a.size } };
}

impl Plan {
    /// Which rows are found.
    pub fn condition(&self) -> &Condition
        ensures { result.now ≡ self.now.condition }
    {
        &self.condition
    }

    /// The keys of their order. Without keys they stay in the order of the index.
    pub fn order(&self) -> &[SortKey]
        ensures { result.now ≡ self.now.order }
    {
        self.order.as_slice()
    }

    /// What is shown of a row. Without columns it is the whole document, or all fields of the row.
    pub fn columns(&self) -> &[Selected]
        ensures { result.now ≡ self.now.columns }
    {
        self.columns.as_slice()
    }

    /// The paths that lead to the ids of included documents.
    pub fn includes(&self) -> &[Path]
        ensures { result.now ≡ self.now.includes }
    {
        self.includes.as_slice()
    }

    /// How many rows are left out before the page.
    pub fn start(&self) -> u64
        ensures { result ≡ self.now.start }
    {
        self.start
    }

    /// How many rows the page has at most. Without it the page goes to the end.
    pub fn size(&self) -> Option<u64>
        ensures { result ≡ self.now.size }
    {
        self.size
    }
}

fn key_of(alloc: Global, sort: &Sort) -> Result<SortKey, NoMemory>
    ensures { IfOk result (λ key. key ≡ spec_key_of sort.now) }
{
    Ok(SortKey {
        field: field_name(alloc, &sort.field)?,
        long: sort.long,
        desc: sort.desc,
    })
}

fn order_of(alloc: Global, sorts: &[Sort]) -> Result<SortKeys, NoMemory>
    ensures { IfOk result (λ keys. keys ≡ map spec_key_of sorts.now) }
{
    let mut keys = SortKeys::new(alloc);
    for sort in sorts {
        keys.push(key_of(alloc, sort)?)?;
    }
    Ok(keys)
}

fn plain_column(alloc: Global, field: Field) -> Result<Selected, NoMemory>
    ensures { IfOk result (λ column. column ≡ spec_plain_column (field_of field)) }
{
    let name = column_name(alloc, &field)?;
    Ok(Selected { name, field })
}

// The name that the query gives to a column, or its own.
fn name_of(alloc: Global, column: &Column) -> Result<Text, NoMemory>
    ensures { IfOk result (λ name. name ≡ unwrap_or column.now.name (spec_column_name column.now.field)) }
{
    match &column.name {
        Some(name) => Ok(name.clone()?),
        None => column_name(alloc, &column.field),
    }
}

fn selected_column(alloc: Global, column: &Column) -> Result<Selected, NoMemory>
    ensures { IfOk result (λ selected. selected ≡ spec_selected_column column.now) }
{
    Ok(Selected {
        name: name_of(alloc, column)?,
        field: column.field.clone()?,
    })
}

fn selected_columns(alloc: Global, columns: &[Column]) -> Result<SelectedFields, NoMemory>
    ensures { IfOk result (λ selected. selected ≡ map spec_selected_column columns.now) }
{
    let mut selected = SelectedFields::new(alloc);
    for column in columns {
        selected.push(selected_column(alloc, column)?)?;
    }
    Ok(selected)
}

fn path_columns(alloc: Global, groups: &[Path]) -> Result<SelectedFields, NoMemory>
    ensures { IfOk result (λ selected. selected ≡ map (λ path. spec_plain_column (AtOf path)) groups.now) }
{
    let mut selected = SelectedFields::new(alloc);
    for path in groups {
        selected.push(plain_column(alloc, Field::Path(path.clone()?))?)?;
    }
    Ok(selected)
}

// Without `select`.
#[tactic(auto, using(crate::proofs::Columns::columns))]
fn group_columns(alloc: Global, groups: &[Path]) -> Result<SelectedFields, NoMemory>
    ensures { IfOk result (λ selected. selected ≡ spec_columns_of groups.now []) }
{
    if groups.is_empty() {
        return Ok(SelectedFields::new(alloc));
    }
    let mut selected = path_columns(alloc, groups)?;
    selected.push(plain_column(alloc, Field::Count)?)?;
    Ok(selected)
}

#[tactic(auto, using(crate::proofs::Columns::columns))]
fn columns_of(
    alloc: Global,
    groups: &[Path],
    columns: &[Column],
) -> Result<SelectedFields, NoMemory>
    ensures { IfOk result (λ selected. selected ≡ spec_columns_of groups.now columns.now) }
{
    if columns.is_empty() {
        group_columns(alloc, groups)
    } else {
        selected_columns(alloc, columns)
    }
}

fn size_of(size: Option<i64>) -> Option<u64>
    ensures { result ≡ option_map nat_abs size }
{
    match size {
        Some(size) => Some(size.unsigned_abs()),
        None => None,
    }
}

/// The plan of what is asked, of which nothing is refused.
pub(crate) fn plan_of(alloc: Global, ask: &QueryAsk) -> Result<Plan, NoMemory>
    ensures { IfOk result (λ plan. plan ≡ spec_plan_of ask.now) }
{
    let query: &Query = &ask.query;
    Ok(Plan {
        condition: bound_where(alloc, &ask.parameters, &query.cond)?,
        order: order_of(alloc, query.sorts.as_slice())?,
        columns: columns_of(alloc, query.groups.as_slice(), query.columns.as_slice())?,
        includes: query.includes.clone()?,
        start: ask.start.unsigned_abs(),
        size: size_of(ask.size),
    })
}
