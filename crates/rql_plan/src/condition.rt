//! Conditions without parameters.
ghost use Rattle.std.specs.Prelude.{◌≡◌, IfOk};
ghost use Rattle.rql_plan.specs.View.{condition_of};

use raven_base::NoMemory;
use raven_value::{Test, Text};
use std::alloc::Global;
use std::marker::Model;

/// What a query asks of the fields of an entry, seen by contracts as a plain tree.
#[cycle(condition)]
pub struct Condition {
    kind: Box<ConditionKind>,
}

// Opaque drop: see raven_base.
impl Drop for Condition {
    #[cycle(dropped)]
    fn drop(self) {
        let Condition { kind: _kind } = self;
    }
}

/// What a condition is.
#[cycle(condition)]
pub enum ConditionKind {
    Or(Condition, Condition),
    And(Condition, Condition),
    Not(Condition),
    /// Inside it texts are compared by their bytes.
    Exact(Condition),
    /// It is always met.
    Always,
    /// The field of this name meets the test.
    Has(Text, Test),
}

// Opaque drop: see raven_base.
impl Drop for ConditionKind {
    #[cycle(dropped)]
    fn drop(self) {
        match self {
            ConditionKind::Or(_first, _second) => {}
            ConditionKind::And(_first, _second) => {}
            ConditionKind::Not(_value) => {}
            ConditionKind::Exact(_value) => {}
            ConditionKind::Always => {}
            ConditionKind::Has(_first, _second) => {}
        }
    }
}

impl Model for Condition {
    ghost use Rattle.spec_query.specs.Condition as query;
    ghost use Rattle.rql_plan.specs.Codes.{condition_code};

    ghost Value = { query.Condition };

    ghost coded = { condition_code };

    ghost use Rattle.rql_plan.specs.View.{condition_of};

    ghost view = { λ a. condition_of a.kind.value };

    ghost use Rattle.rql_plan.specs.Codes.{height};

    ghost size = { height };
}

impl Condition {
    /// A condition of this kind.
    pub fn of(alloc: Global, kind: ConditionKind) -> Result<Condition, NoMemory>
        ensures { IfOk result (λ condition. condition ≡ condition_of kind) }
    {
        Ok(Condition {
            kind: Box::new(alloc, kind)?,
        })
    }

    /// What it is.
    pub fn kind(&self) -> &ConditionKind
        ensures { condition_of result.now ≡ self.now }
    {
        &self.kind
    }
}
