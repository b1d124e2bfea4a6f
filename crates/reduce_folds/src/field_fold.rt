//! The fold of one field.
ghost use Rattle.std.specs.Prelude.{◌≡◌, IfOk};
ghost use Rattle.reduce_folds.specs.Cells.{cell_of, merged_cell, no_cell};
ghost use Rattle.reduce_folds.specs.CellLaws.{cell_assoc, cell_comm, cell_unit, cell_unit-none};

use crate::cell::{Cell, cell_of, merged_cell, no_cell};
use crate::fields::HasFields;
use index_tree::FoldKind;
use raven_base::{NoMemory, Steps};
use raven_value::Text;
use reduce_tree::Fold;
use std::alloc::Global;
use std::sync::ledger::Ledger;

/// Folds the values of one field: their sum, their least or their greatest. A missing field is as null.
pub struct FieldFold {
    pub kind: FoldKind,
    pub field: Text,
}

// Opaque drop: see raven_base.
impl Drop for FieldFold {
    fn drop(self) {
        let FieldFold {
            kind: _kind,
            field: _field,
        } = self;
    }
}

impl FieldFold {
    /// The cell of an entry.
    pub fn cell<E: HasFields>(&self, entry: &E) -> Result<Cell, NoMemory>
        ensures { IfOk result (λ cell. cell ≡ cell_of self.now (E.fields entry.now)) }
    {
        match entry.field(&self.field) {
            Some(value) => cell_of(self.kind, value),
            None => Ok(no_cell(self.kind)),
        }
    }
}

impl<E: HasFields> Fold<E> for FieldFold {
    type Row = Cell;

    ghost lifted = { λ fold entry. cell_of fold (E.fields entry) };

    ghost none = { no_cell };

    ghost merged = { merged_cell };

    ghost associative = { cell_assoc };

    ghost commutative = { cell_comm };

    ghost unital = { λ fold entry. cell_unit fold (E.fields entry) };

    ghost unital_none = { cell_unit-none };

    fn lift(&self, _alloc: Global, entry: &E) -> Result<Cell, NoMemory> {
        self.cell(entry)
    }

    fn unit(&self, _alloc: Global) -> Result<Cell, NoMemory> {
        Ok(no_cell(self.kind))
    }

    fn merge<L: Ledger>(
        &self,
        _alloc: Global,
        a: &Cell,
        b: &Cell,
        steps: &mut Steps<L>,
    ) -> Result<Cell, NoMemory> {
        steps.merge_done();
        merged_cell(a, b)
    }
}
