//! One value of a row.
ghost use Rattle.std.specs.Prelude.{◌≡◌, IfOk};
ghost use Rattle.raven_value.specs.ScalarView.{scalar_view};
ghost use Rattle.reduce_folds.specs.Cells.{joined, kind_rank, lifted, merged_cell, no_value};

use crate::values::{addend, greatest, least, sum};
use index_tree::FoldKind;
use raven_base::{Exact, NoMemory};
use raven_value::Scalar;
use std::alloc::AllocError;
use std::cmp::Ordering;
use std::marker::Model;

/// What the values of a field come to. Only folds make cells.
pub struct Cell {
    kind: FoldKind,
    value: Scalar,
}

// Opaque drop: see raven_base.
impl Drop for Cell {
    fn drop(self) {
        let Cell {
            kind: _kind,
            value: _value,
        } = self;
    }
}

impl Model for Cell {
    ghost use Rattle.std.specs.Coded.{coded×};
    ghost use Rattle.spec_data.specs.Codes.{scalar_code};
    ghost use Rattle.raven_value.specs.ScalarView.{scalar_view};
    ghost use Rattle.index_tree.specs.Definitions.{kind_code};
    ghost use Rattle.reduce_folds.specs.Cells as is;

    ghost Value = { is.Cell };

    ghost coded = { coded× kind_code scalar_code };

    ghost view = { λ a. (a.kind, scalar_view a.value) };
}

impl Clone for Cell {
    ghost is_clone = { λ cell copy. copy ≡ cell };

    fn clone(&self) -> Result<Cell, AllocError> {
        Ok(Cell {
            kind: self.kind,
            value: self.value.clone()?,
        })
    }
}

impl Exact for Cell {
    ghost exact = { λ x y same. same };
}

impl Cell {
    /// The values as one: a sum is a number, modulo 2^128.
    pub fn value(&self) -> &Scalar
        ensures { scalar_view result.now ≡ self.now.1 }
    {
        &self.value
    }
}

/// The cell of one value.
pub fn cell_of(kind: FoldKind, value: &Scalar) -> Result<Cell, NoMemory>
    ensures { IfOk result (λ cell. cell ≡ (kind, lifted kind (scalar_view value.now))) }
{
    Ok(Cell {
        kind,
        value: match kind {
            FoldKind::Sum => Scalar::Num(addend(value)),
            FoldKind::Min => value.clone()?,
            FoldKind::Max => value.clone()?,
        },
    })
}

/// The cell of no values.
pub fn no_cell(kind: FoldKind) -> Cell
    ensures { result ≡ (kind, no_value kind) }
{
    Cell {
        kind,
        value: match kind {
            FoldKind::Sum => Scalar::Num(0),
            FoldKind::Min => Scalar::Null,
            FoldKind::Max => Scalar::Null,
        },
    }
}

/// The values of two cells of one kind together.
fn joined(kind: FoldKind, a: &Scalar, b: &Scalar) -> Result<Scalar, NoMemory>
    ensures { IfOk result (λ value. scalar_view value ≡ joined kind (scalar_view a.now) (scalar_view b.now)) }
{
    Ok(match kind {
        FoldKind::Sum => Scalar::Num(sum(a, b)),
        FoldKind::Min => least(a, b).clone()?,
        FoldKind::Max => greatest(a, b).clone()?,
    })
}

fn kind_rank(kind: FoldKind) -> u8
    ensures { result ≡ kind_rank kind }
{
    match kind {
        FoldKind::Sum => 0,
        FoldKind::Min => 1,
        FoldKind::Max => 2,
    }
}

/// Two cells together. Those of one fold are of one kind; else that of the later kind stays.
pub fn merged_cell(a: &Cell, b: &Cell) -> Result<Cell, NoMemory>
    ensures { IfOk result (λ cell. cell ≡ merged_cell a.now b.now) }
{
    match kind_rank(a.kind).cmp(&kind_rank(b.kind)) {
        Ordering::Less => Ok(b.clone()?),
        Ordering::Equal => Ok(Cell {
            kind: a.kind,
            value: joined(a.kind, &a.value, &b.value)?,
        }),
        Ordering::Greater => Ok(a.clone()?),
    }
}
