//! How a query gets its parameters and becomes a plan, why it is refused, and what it asks of an automatic index.
#![tactic(auto)]

mod ask;
mod binding;
mod condition;
mod fields;
mod grouping;
mod naming;
mod offered;
mod parameters;
mod plan;
mod refusal;
mod shapes;
mod values;

pub use ask::QueryAsk;
pub use binding::{bind, check, plan_for_collection};
pub use condition::{Condition, ConditionKind};
pub use naming::field_name;
pub use plan::{Plan, Selected, SelectedFields, SortKey, SortKeys};
pub use refusal::PlanRefusal;
pub use shapes::shape_of;
