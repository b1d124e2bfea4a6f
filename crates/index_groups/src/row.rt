//! The row of a group.
ghost use Rattle.std.specs.Prelude.{◌≡◌, [], IfOk, map};
ghost use Rattle.raven_value.specs.ScalarView.{scalar_view};
ghost use Rattle.spec_index.specs.Folds.{addend};
ghost use Rattle.index_groups.specs.Cells.{cell_at, divided, part_at, row_from, value_from};

use crate::key::GroupKey;
use crate::plan::{RowField, Source};
use map_stage::Entry;
use raven_base::{NoMemory, Sequence};
use raven_value::Scalar;
use reduce_folds::{Cell, Cells, addend};
use std::alloc::Global;

fn part_at(parts: &[Scalar], place: usize) -> Result<Scalar, NoMemory>
    ensures { IfOk result (λ value. scalar_view value ≡ part_at (map scalar_view parts.now) place) }
{
    match parts.get(place) {
        Some(part) => Ok(part.clone()?),
        None => Ok(Scalar::Null),
    }
}

fn cell_at(cells: &[Cell], place: usize) -> Result<Scalar, NoMemory>
    ensures { IfOk result (λ value. scalar_view value ≡ cell_at cells.now place) }
{
    match cells.get(place) {
        Some(cell) => Ok(cell.value().clone()?),
        None => Ok(Scalar::Null),
    }
}

fn sum_at(cells: &[Cell], place: usize) -> i128
    ensures { result ≡ addend (cell_at cells.now place) }
{
    match cells.get(place) {
        Some(cell) => addend(cell.value()),
        None => 0,
    }
}

/// One sum divided by another, cut towards zero, or null if the second is 0. The quotient always fits: no sum is -2^127.
fn divided(sum: i128, by: i128) -> Scalar
    ensures { scalar_view result ≡ divided sum by }
{
    match sum.checked_div(by) {
        Some(quotient) => Scalar::Num(quotient),
        None => Scalar::Null,
    }
}

fn value_of(parts: &[Scalar], cells: &[Cell], source: &Source) -> Result<Scalar, NoMemory>
    ensures { IfOk result (λ scalar. scalar_view scalar ≡ value_from (map scalar_view parts.now) cells.now source.now) }
{
    match source {
        Source::Part(place) => part_at(parts, *place),
        Source::Cell(place) => cell_at(cells, *place),
        Source::Quotient(quotient) => {
            Ok(divided(sum_at(cells, quotient.sum), sum_at(cells, quotient.by)))
        }
    }
}

/// The row of a key and of the cells of its group.
pub fn row_of(
    alloc: Global,
    plan: &[RowField],
    key: &GroupKey,
    cells: &[Cell],
) -> Result<Entry, NoMemory>
    ensures { IfOk result (λ row. row ≡ row_from key.now cells.now [] plan.now) }
{
    let parts = key.parts();
    let mut row = Entry::new(alloc);
    for field in plan {
        row.put(field.name.clone()?, value_of(parts, cells, &field.source)?)?;
    }
    Ok(row)
}

/// The rows of these keys and cells.
pub fn rows_of(
    alloc: Global,
    plan: &[RowField],
    groups: Vec<(GroupKey, Cells)>,
) -> Result<Sequence<Entry>, NoMemory>
    ensures { IfOk result (λ rows. rows ≡ map (λ g. row_from g.0 g.1 [] plan.now) groups.items) }
{
    let mut rows = Sequence::new(alloc);
    for group in groups {
        rows.push(row_of(alloc, plan, &group.0, group.1.as_slice())?)?;
    }
    Ok(rows)
}
