//! The fold of several fields.
ghost use Rattle.std.specs.Prelude.{◌≡◌, IfOk};
ghost use Rattle.reduce_folds.specs.Cells.{merged_row, no_row, row_of};
ghost use Rattle.reduce_folds.specs.CellLaws.{row_assoc, row_comm, row_unit, row_unit-none};

use crate::cell::{Cell, merged_cell, no_cell};
use crate::field_fold::FieldFold;
use crate::fields::HasFields;
use raven_base::{Exact, NoMemory, Sequence, Shared, Steps};
use reduce_tree::Fold;
use std::alloc::{AllocError, Global};
use std::marker::Model;
use std::sync::ledger::Ledger;

/// Folds each of some fields.
pub struct RowFold {
    pub fields: Sequence<FieldFold>,
}

// Opaque drop: see raven_base.
impl Drop for RowFold {
    fn drop(self) {
        let RowFold { fields: _fields } = self;
    }
}

/// The cells of a row, in the order of the fields of its fold. Only a fold makes rows. A clone shares the cells.
pub struct Cells {
    cells: Shared<Sequence<Cell>>,
}

// Opaque drop: see raven_base.
impl Drop for Cells {
    fn drop(self) {
        let Cells { cells: _cells } = self;
    }
}

impl Model for Cells {
    ghost use Rattle.std.specs.Prelude.{List};
    ghost use Rattle.std.specs.Coded.{coded×, coded_list};
    ghost use Rattle.spec_data.specs.Codes.{scalar_code};
    ghost use Rattle.index_tree.specs.Definitions.{kind_code};
    ghost use Rattle.reduce_folds.specs.Cells as is;

    ghost Value = { List is.Cell };

    ghost coded = { coded_list (coded× kind_code scalar_code) };

    ghost view = { λ a. a.cells };
}

impl Cells {
    /// The cells as a slice.
    pub fn as_slice(&self) -> &[Cell]
        ensures { result.now ≡ self.now }
    {
        self.cells.get().as_slice()
    }

    /// These cells and others together, cell by cell, as their fold merges them.
    pub fn together(&self, alloc: Global, others: &Cells) -> Result<Cells, NoMemory>
        ensures { IfOk result (λ cells. cells ≡ merged_row self.now others.now) }
    {
        let cells = merged_row(alloc, self.as_slice(), others.as_slice())?;
        Ok(Cells {
            cells: Shared::of(alloc, cells)?,
        })
    }
}

impl Clone for Cells {
    ghost is_clone = { λ row copy. copy ≡ row };

    fn clone(&self) -> Result<Cells, AllocError> {
        Ok(Cells {
            cells: self.cells.clone()?,
        })
    }
}

impl Exact for Cells {
    ghost exact = { λ x y same. same };
}

/// The cells of an entry.
fn row_of<E: HasFields>(
    alloc: Global,
    fields: &[FieldFold],
    entry: &E,
) -> Result<Sequence<Cell>, NoMemory>
    ensures { IfOk result (λ cells. cells ≡ row_of fields.now (E.fields entry.now)) }
{
    let mut cells = Sequence::new(alloc);
    for field in fields {
        cells.push(field.cell(entry)?)?;
    }
    Ok(cells)
}

/// The cells of no entries.
fn no_row(alloc: Global, fields: &[FieldFold]) -> Result<Sequence<Cell>, NoMemory>
    ensures { IfOk result (λ cells. cells ≡ no_row fields.now) }
{
    let mut cells = Sequence::new(alloc);
    for field in fields {
        cells.push(no_cell(field.kind))?;
    }
    Ok(cells)
}

/// Two rows together, cell by cell. Those of one fold are of one length; else the rest of the longer one stays.
fn merged_row(alloc: Global, a: &[Cell], b: &[Cell]) -> Result<Sequence<Cell>, NoMemory>
    ensures { IfOk result (λ cells. cells ≡ merged_row a.now b.now) }
{
    let mut cells = Sequence::new(alloc);
    let mut at = 0;
    while at < a.len() && at < b.len() {
        cells.push(merged_cell(&a[at], &b[at])?)?;
        at += 1;
    }
    cells.extend(&a[at..])?;
    cells.extend(&b[at..])?;
    Ok(cells)
}

impl<E: HasFields> Fold<E> for RowFold {
    type Row = Cells;

    ghost lifted = { λ fold entry. row_of fold.fields (E.fields entry) };

    ghost none = { λ fold. no_row fold.fields };

    ghost merged = { merged_row };

    ghost associative = { row_assoc };

    ghost commutative = { row_comm };

    ghost unital = { λ fold entry. row_unit fold.fields (E.fields entry) };

    ghost unital_none = { λ fold. row_unit-none fold.fields };

    fn lift(&self, alloc: Global, entry: &E) -> Result<Cells, NoMemory> {
        let cells = row_of(alloc, self.fields.as_slice(), entry)?;
        Ok(Cells {
            cells: Shared::of(alloc, cells)?,
        })
    }

    fn unit(&self, alloc: Global) -> Result<Cells, NoMemory> {
        let cells = no_row(alloc, self.fields.as_slice())?;
        Ok(Cells {
            cells: Shared::of(alloc, cells)?,
        })
    }

    fn merge<L: Ledger>(
        &self,
        alloc: Global,
        a: &Cells,
        b: &Cells,
        steps: &mut Steps<L>,
    ) -> Result<Cells, NoMemory> {
        steps.merge_done();
        a.together(alloc, b)
    }
}
