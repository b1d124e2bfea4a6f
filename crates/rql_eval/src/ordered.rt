//! The ids of a page with an order, from the terms.
ghost use Rattle.std.specs.Prelude.{◌≡◌, IfOk, IfSome, length, map};
ghost use Rattle.spec_data.specs.Folding.{folded};
ghost use Rattle.spec_query.specs.Plan.{meeting, page};
ghost use Rattle.rql_filter.specs.Entries.{ids_of};

use raven_base::NoMemory;
use raven_value::Ids;
use rql_filter::{Entries, matching_in_order};
use rql_plan::Plan;
use std::alloc::Global;

/// The ids of the page of a query with an order, if the terms of a field have that order. No entry is read.
///
/// They are looked for if the order has one key. `matching_in_order` says if they are found.
pub fn ids_in_order<E: Entries>(
    alloc: Global,
    plan: &Plan,
    entries: &E,
    total: u64,
) -> Result<Option<Ids>, NoMemory>
    requires { total ≡ length (meeting plan.now (E.entries entries.now)) }
    ensures { IfOk result (λ page_ids. IfSome page_ids (λ ids. map folded ids ≡ map folded (ids_of (page plan.now (E.entries entries.now))))) }
{
    match plan.order() {
        [key] => {
            let size = plan.size().unwrap_or(total);
            matching_in_order(alloc, entries, plan.condition(), key, plan.start(), size)
        }
        _ => Ok(None),
    }
}
