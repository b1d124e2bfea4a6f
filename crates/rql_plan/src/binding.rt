//! How a query becomes a plan.
ghost use Rattle.std.specs.Prelude.{◌≡◌, ◌&&◌, IfErr, IfOk, None, Ok, pos, unwrap_or};
ghost use Rattle.spec_query.specs.Binding.{bind as spec_bind, check as spec_check, is_in_page as spec_is_in_page, plan_of as spec_plan_of, refusal_of};
ghost use Rattle.index_definition.specs.DefinitionView.{definition_view};
ghost use Rattle.spec_query.specs.Offering.{offered_of};
ghost use Rattle.rql_plan.specs.RefusalView.{Refuses};

use crate::ask::QueryAsk;
use crate::grouping::not_grouped;
use crate::offered::not_offered;
use crate::parameters::parameter_refused;
use crate::plan::{Plan, plan_of};
use crate::refusal::PlanRefusal;
use index_definition::Definition;
use raven_base::NoMemory;
use raven_value::Text;
use rql_tree::{Query, print_field};
use std::alloc::Global;

/// The greatest start and the greatest size of a page.
const MAX_PAGE: i64 = 2_147_483_647;

fn is_in_page(number: i64) -> bool
    ensures { result ≡ spec_is_in_page number }
{
    0 <= number && number <= MAX_PAGE
}

fn has_page(ask: &QueryAsk) -> bool
    ensures { result ≡ (spec_is_in_page ask.now.start && spec_is_in_page (unwrap_or ask.now.size (pos 0))) }
{
    is_in_page(ask.start) && is_in_page(ask.size.unwrap_or(0))
}

/// Tests what needs no definition: the parameters, the groups and the page, in this order. The first place in the text that is
/// refused is named.
#[tactic(auto, using(crate::proofs::Causes::checks))]
pub fn check(alloc: Global, ask: &QueryAsk) -> Result<(), PlanRefusal>
    ensures ok { IfOk result (λ _. spec_check ask.now ≡ None) }
    ensures refused { IfErr result (λ refusal. Refuses refusal (spec_check ask.now)) }
{
    let query: &Query = &ask.query;
    if let Some(name) = parameter_refused(&ask.parameters, &query.cond) {
        return Err(PlanRefusal::NoParameter {
            name: Text::of(alloc, name)?,
        });
    }
    if let Some(field) = not_grouped(alloc, query)? {
        return Err(PlanRefusal::NotGrouped {
            name: print_field(alloc, field)?,
        });
    }
    if has_page(ask) {
        Ok(())
    } else {
        Err(PlanRefusal::BadPage)
    }
}

/// The plan of a query for the index of a definition. It tests what `check` does, and then whether the definition has the
/// fields that a query on an index names.
#[tactic(auto, using(crate::proofs::Causes::binds))]
pub fn bind(alloc: Global, ask: &QueryAsk, definition: &Definition) -> Result<Plan, PlanRefusal>
    ensures ok { IfOk result (λ plan. spec_bind ask.now (offered_of (definition_view definition.now.body)) ≡ Ok plan) }
    ensures refused { IfErr result (λ refusal. Refuses refusal (refusal_of ask.now (offered_of (definition_view definition.now.body)))) }
{
    if let Err(refusal) = check(alloc, ask) {
        return Err(refusal);
    }
    if let Some(field) = not_offered(alloc, &ask.query, definition)? {
        return Err(PlanRefusal::NoField {
            name: print_field(alloc, field)?,
        });
    }
    Ok(plan_of(alloc, ask)?)
}

/// The plan of a query on a collection, where there is no definition that may lack a field. It tests what `check` does.
pub fn plan_for_collection(alloc: Global, ask: &QueryAsk) -> Result<Plan, PlanRefusal>
    ensures passed { IfOk result (λ _. spec_check ask.now ≡ None) }
    ensures plan { IfOk result (λ plan. plan ≡ spec_plan_of ask.now) }
    ensures refused { IfErr result (λ refusal. Refuses refusal (spec_check ask.now)) }
{
    if let Err(refusal) = check(alloc, ask) {
        return Err(refusal);
    }
    Ok(plan_of(alloc, ask)?)
}
