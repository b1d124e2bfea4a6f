//! Conditions.
ghost use Rattle.std.specs.Prelude.{◌≡◌, IfOk};
ghost use Rattle.rql_tree.specs.View.{cond_of};

use crate::field::Field;
use crate::operand::{CompareOp, Operand, Operands};
use raven_base::{Exact, NoMemory};
use std::alloc::{AllocError, Global};
use std::marker::Model;

/// A condition on the fields of a row, seen by contracts as a plain tree.
#[cycle(condition)]
pub struct Cond {
    kind: Box<CondKind>,
}

// Opaque drop: see raven_base.
impl Drop for Cond {
    #[cycle(dropped)]
    fn drop(self) {
        let Cond { kind: _kind } = self;
    }
}

/// What a condition is.
#[cycle(condition)]
pub enum CondKind {
    /// `.. or ..`
    Or(Cond, Cond),
    /// `.. and ..`
    And(Cond, Cond),
    /// `not ..`
    Not(Cond),
    /// `exact(..)`: inside it texts are compared by their bytes.
    Exact(Cond),
    /// `true`
    True,
    /// `startsWith(..)`
    Starts(Field, Operand),
    /// `exists(..)`
    Exists(Field),
    /// A field, a sign and what it is compared with.
    Compare(Field, CompareOp, Operand),
    /// `.. between .. and ..`
    Between(Field, Operand, Operand),
    /// `.. in (..)`
    In(Field, Operands),
}

// Opaque drop: see raven_base.
impl Drop for CondKind {
    #[cycle(dropped)]
    fn drop(self) {
        match self {
            CondKind::Or(_first, _second) => {}
            CondKind::And(_first, _second) => {}
            CondKind::Not(_value) => {}
            CondKind::Exact(_value) => {}
            CondKind::True => {}
            CondKind::Starts(_first, _second) => {}
            CondKind::Exists(_value) => {}
            CondKind::Compare(_first, _second, _third) => {}
            CondKind::Between(_first, _second, _third) => {}
            CondKind::In(_first, _second) => {}
        }
    }
}

impl Model for Cond {
    ghost use Rattle.spec_query.specs.Query as query;
    ghost use Rattle.rql_tree.specs.Codes.{cond_code};

    ghost Value = { query.Cond };

    ghost coded = { cond_code };

    ghost use Rattle.rql_tree.specs.View.{cond_of};

    ghost view = { λ a. cond_of a.kind.value };

    ghost use Rattle.rql_tree.specs.Codes.{height};

    ghost size = { height };
}

// In a box of its own.
fn boxed(alloc: Global, kind: CondKind) -> Result<Cond, AllocError>
    ensures { IfOk result (λ cond. cond ≡ cond_of kind) }
{
    Ok(Cond {
        kind: Box::new(alloc, kind)?,
    })
}

impl Cond {
    /// A condition of this kind.
    pub fn of(alloc: Global, kind: CondKind) -> Result<Cond, NoMemory>
        ensures { IfOk result (λ cond. cond ≡ cond_of kind) }
    {
        Ok(boxed(alloc, kind)?)
    }

    /// What it is.
    pub fn kind(&self) -> &CondKind
        ensures { cond_of result.now ≡ self.now }
    {
        &self.kind
    }
}
