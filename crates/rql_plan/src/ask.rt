//! What is asked.
use raven_value::Members;
use rql_tree::Query;
use std::marker::Model;

/// A query, the values of its parameters and its page.
pub struct QueryAsk {
    pub query: Query,

    /// The values of the parameters, under their names without the `$`.
    pub parameters: Members,

    /// How many rows are left out before the page.
    pub start: i64,

    /// How many rows the page has at most. Without it the page goes to the end.
    pub size: Option<i64>,

    /// Rows past this etag make no answer stale.
    pub cutoff: Option<u64>,

    /// Whether to wait for an answer that is not stale.
    pub wait: bool,

    /// How often to look for one, from 1 to 64.
    pub looks: u32,
}

// Opaque drop: see raven_base.
impl Drop for QueryAsk {
    fn drop(self) {
        let QueryAsk {
            query: _query,
            parameters: _parameters,
            start: _start,
            size: _size,
            cutoff: _cutoff,
            wait: _wait,
            looks: _looks,
        } = self;
    }
}

impl Model for QueryAsk {
    ghost use Rattle.spec_query.specs.Query.{Ask};
    ghost use Rattle.rql_plan.specs.Codes.{ask_code};

    ghost Value = { Ask };

    ghost coded = { ask_code };

    ghost view = { λ a. record { query = a.query; parameters = a.parameters; start = a.start; size = a.size; cutoff = a.cutoff; waits = a.wait; looks = a.looks } };
}
