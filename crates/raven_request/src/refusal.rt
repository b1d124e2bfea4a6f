//! The replies to what is refused before the database is asked.
ghost use Rattle.std.specs.Prelude.{◌≡◌, IfOk, None, OnErr, Some};
ghost use Rattle.spec_data.specs.Faults.{Fault};
ghost use Rattle.spec_server.specs.Texts.{Asked};
ghost use Rattle.spec_server.specs.Script.{fault_reply};
ghost use Rattle.raven_value.specs.Refusal.{fault_in};
ghost use Rattle.raven_reply.specs.ReplyView.{reply_view};
ghost use Rattle.raven_request.specs.RequestRead.{IsRefusal, IsRefusedFor};
ghost use Rattle.raven_request.specs.RequestView.{IsOutOfMemory};

use crate::request::ReadRefusal;
use raven_base::NoMemory;
use raven_reply::Reply;
use raven_value::IdRefusal;

// The reply to a text that is not a valid id, or not a valid name.
fn reply_to_fault(refusal: IdRefusal) -> Result<Reply, NoMemory>
    ensures reply { IfOk result (λ reply. (fault : Fault) → fault_in refusal ≡ Some fault → reply_view reply ≡ fault_reply fault) }
    ensures err { OnErr result (fault_in refusal ≡ None) }
{
    match refusal {
        IdRefusal::Empty => Ok(Reply::Empty),
        IdRefusal::TooLong { len } => Ok(Reply::TooLong { len }),
        IdRefusal::Control { at } => Ok(Reply::Control { at }),
        IdRefusal::NoMemory => Err(NoMemory),
    }
}

/// The reply that says why what is asked is refused. Only the refusal for memory has none.
#[tactic(auto, using(crate::proofs::Refused::refusals))]
pub fn reply_to_refusal(refusal: ReadRefusal) -> Result<Reply, NoMemory>
    ensures reply { IfOk result (λ reply. (asked : Asked) → IsRefusedFor asked refusal → IsRefusal asked (reply_view reply)) }
    ensures err { OnErr result (IsOutOfMemory refusal) }
{
    match refusal {
        ReadRefusal::UnknownLine => Ok(Reply::UnknownLine),
        ReadRefusal::NotJson => Ok(Reply::NotJson),
        ReadRefusal::NumberNotWhole => Ok(Reply::NumberNotWhole),
        ReadRefusal::TooDeep => Ok(Reply::TooDeep),
        ReadRefusal::BadId(refusal) => reply_to_fault(refusal),
        ReadRefusal::BadName(refusal) => reply_to_fault(refusal),
        ReadRefusal::BadMember { name } => Ok(Reply::BadMember { name }),
        ReadRefusal::BadDefinition { part, at, kind } => Ok(Reply::Lang {
            part,
            at: at as u64,
            kind,
        }),
        ReadRefusal::BadQuery { at, kind } => Ok(Reply::Rql {
            at: at as u64,
            kind,
        }),
        ReadRefusal::NoMemory => Err(NoMemory),
    }
}
