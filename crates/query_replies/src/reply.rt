//! The reply to a query, of what is found or why it is refused.
ghost use Rattle.std.specs.Prelude.{◌≡◌, IfOk, Option};
ghost use Rattle.spec_query.specs.Binding as is;
ghost use Rattle.spec_server.specs.Asking.{Answered as AnsweredIs, Ready, answer_of as spec_answer_of, unless_refused};
ghost use Rattle.raven_reply.specs.ReplyView.{reply_view};
ghost use Rattle.rql_eval.specs.FoundView.{found_view};
ghost use Rattle.rql_plan.specs.RefusalView.{Refuses};

use raven_base::NoMemory;
use raven_reply::Reply;
use raven_value::Text;
use rql_eval::Found;
use rql_plan::PlanRefusal;

/// The reply of what is found.
pub fn answer_of(found: Found, index_etag: u64, index_name: Text, is_stale: bool) -> Reply
    ensures { reply_view result ≡ spec_answer_of (found_view found) index_etag index_name is_stale }
{
    let Found {
        total,
        results,
        includes,
        ..
    } = found;
    Reply::Answer {
        includes,
        index_etag,
        index_name,
        is_stale,
        results,
        total_results: total,
    }
}

/// The reply to a query that is refused.
#[tactic(auto, using(crate::proofs::Refusals::refusals))]
pub fn refused(refusal: PlanRefusal) -> Result<Reply, NoMemory>
    ensures { IfOk result (λ reply. (other : AnsweredIs) (cause : Option is.PlanRefusal) → Refuses refusal cause → Ready (reply_view reply) ≡ unless_refused other cause) }
{
    match refusal {
        PlanRefusal::NoParameter { name } => Ok(Reply::NoParameter { name }),
        PlanRefusal::NotGrouped { name } => Ok(Reply::NotGrouped { name }),
        PlanRefusal::BadPage => Ok(Reply::BadPage),
        PlanRefusal::NoField { name } => Ok(Reply::NoField { name }),
        PlanRefusal::NoMemory => Err(NoMemory),
    }
}
