//! The values of a field in an order.
ghost use Rattle.std.specs.Prelude.{◌≡◌, IfOk, IfSome, drop, filter, length, map, take};
ghost use Rattle.spec_data.specs.Folding.{folded};
ghost use Rattle.spec_query.specs.Sorting.{sorted};
ghost use Rattle.raven_value.specs.ScalarView.{test_view};
ghost use Rattle.term_index.specs.Decided.{Decide};
ghost use Rattle.term_index.specs.Ordered.{by_value, values_named};

use crate::counting::ValueCondition;
use crate::terms::Terms;
use raven_base::NoMemory;
use raven_value::{Ids, Test};
use std::alloc::Global;

/// How values are compared: as numbers if `long`, or as texts; from the greatest on if `desc`.
#[derive(Clone, Copy)]
pub struct ValueOrder {
    pub long: bool,
    pub desc: bool,
}

impl Terms {
    /// How many ids have a value in a field.
    pub fn len_of(&self, field: &str) -> u64
        ensures { result ≡ length (values_named field.now self.now) }
    {
        match self.column(field) {
            Some(column) => column.len(),
            None => 0,
        }
    }

    /// Of the ids whose values in a field meet a condition, those after the first `start`, `size` at most, in this order of their
    /// values; ids of equal values are in order. The condition is one that these tests decide, each with whether it compares texts
    /// exactly. A field that is not known has no ids.
    ///
    /// No clause says when there are ids. Usually there are none only if the terms are not in that order: if it is not known without a
    /// walk which values meet the condition, as `count` says it; if there are others between them; or if not all of them are null or
    /// numbers in an order of numbers, null or texts in one of texts.
    ///
    /// It takes what `count` takes, some searches more for each value of the page if it goes from the greatest on, and then time that
    /// grows with the number of ids found. The ids before them are not read.
    pub fn in_order<C: ValueCondition>(
        &self,
        alloc: Global,
        field: &str,
        tests: &[(&Test, bool)],
        condition: &C,
        order: ValueOrder,
        start: u64,
        size: u64,
    ) -> Result<Option<Ids>, NoMemory>
        requires { Decide (map (λ t. (test_view t.0.now, t.1)) tests.now) (C.meets condition.now) }
        ensures { IfOk result (λ found. IfSome found (λ ids.
            map folded ids ≡ map (λ e. e.0) (take size (drop start (sorted (by_value order.long order.desc)
            (filter (λ e. C.meets condition.now e.1) (values_named field.now self.now))))))) }
    {
        match self.column(field) {
            Some(column) => column.in_order(alloc, tests, condition, order, start, size),
            None => Ok(Some(Ids::new(alloc))),
        }
    }
}
