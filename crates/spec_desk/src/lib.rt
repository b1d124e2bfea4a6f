//! Definitions of what answers requests on one value: the value and when one is later, a step of the machine on it with what its keeper did, what
//! a look takes away, and receipts. With the laws of these, and the lemmas of steps that code needs.
#![tactic(auto)]

mod laws;

pub use laws::{
    asking_goes_on, courses_may_be_made, one_change_is_made_or_not,
    only_some_requests_make_several_changes, parts_are_left_by_steps, publications_may_be_made,
    settled_courses_are_steps, settled_publications_are_steps, to_follow_is_an_order,
};
