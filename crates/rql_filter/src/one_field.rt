//! Conditions whose tests are all on one field, as conditions on the value of that field.
ghost use Rattle.std.specs.Prelude.{◌≡◌, ◌++◌, Bool, IsNone, OnOk, Some, [], false, option_map};
ghost use Rattle.raven_value.specs.ScalarView.{scalar_view};
ghost use Rattle.rql_filter.specs.OneField as spec;

use raven_base::NoMemory;
use raven_value::{Scalar, Test, Text, matches};
use rql_plan::{Condition, ConditionKind};
use term_index::ValueCondition;

/// The field of the first test of a condition, if it has a test.
pub fn field_of(condition: &Condition) -> Option<&Text>
    ensures { IsNone result → (exact : Bool) → spec.tests_of condition.now exact ≡ [] }
{
    match condition.kind() {
        ConditionKind::Or(left, right) | ConditionKind::And(left, right) => match field_of(left) {
            Some(field) => Some(field),
            None => field_of(right),
        },
        ConditionKind::Not(inner) | ConditionKind::Exact(inner) => field_of(inner),
        ConditionKind::Always => None,
        ConditionKind::Has(field, _) => Some(field),
    }
}

/// Whether all tests of a condition are on this field.
pub fn is_on(condition: &Condition, field: &Text) -> bool
    ensures { result ≡ spec.is_on field.now condition.now }
{
    match condition.kind() {
        ConditionKind::Or(left, right) | ConditionKind::And(left, right) => {
            is_on(left, field) && is_on(right, field)
        }
        ConditionKind::Not(inner) | ConditionKind::Exact(inner) => is_on(inner, field),
        ConditionKind::Always => true,
        ConditionKind::Has(name, _) => field == name,
    }
}

/// Adds the tests of a condition, each with whether it compares texts by their bytes.
pub fn add_tests<'c>(
    condition: &'c Condition,
    exact: bool,
    tests: &mut Vec<(&'c Test, bool)>,
) -> Result<(), NoMemory>
    ensures { OnOk result (spec.lent_tests tests.new.items ≡ spec.lent_tests tests.old.items ++ spec.tests_of condition.now exact) }
{
    match condition.kind() {
        ConditionKind::Or(left, right) | ConditionKind::And(left, right) => {
            add_tests(left, exact, tests)?;
            add_tests(right, exact, tests)
        }
        ConditionKind::Not(inner) => add_tests(inner, exact, tests),
        ConditionKind::Exact(inner) => add_tests(inner, true, tests),
        ConditionKind::Always => Ok(()),
        ConditionKind::Has(_, test) => Ok(tests.push((test, exact))?),
    }
}

/// Whether a condition is met if the field of all its tests has this value, or is missing if there is no value. Texts are
/// compared by their bytes if the condition is inside an `exact`.
pub fn is_met_by(condition: &Condition, exact: bool, value: Option<&Scalar>) -> bool
    ensures { result ≡ spec.met_by condition.now exact (option_map (λ v. scalar_view v.now) value.entry) }
{
    match condition.kind() {
        ConditionKind::Or(left, right) => {
            is_met_by(left, exact, value) || is_met_by(right, exact, value)
        }
        ConditionKind::And(left, right) => {
            is_met_by(left, exact, value) && is_met_by(right, exact, value)
        }
        ConditionKind::Not(inner) => !is_met_by(inner, exact, value),
        ConditionKind::Exact(inner) => is_met_by(inner, true, value),
        ConditionKind::Always => true,
        ConditionKind::Has(_, test) => match value {
            Some(value) => matches(test, exact, value),
            None => false,
        },
    }
}

/// The values for which a condition has another answer than for an entry without the field of its tests.
#[derive(Drop)]
pub struct Differing<'c> {
    pub condition: &'c Condition,
    /// Whether an entry without the field meets the condition.
    pub missing: bool,
}

impl<'c> ValueCondition for Differing<'c> {
    ghost meets = { λ d v. spec.differs d.missing (spec.met_by d.condition.now false (Some v)) };

    fn is_met(&self, value: &Scalar) -> bool {
        is_met_by(self.condition, false, Some(value)) != self.missing
    }
}
