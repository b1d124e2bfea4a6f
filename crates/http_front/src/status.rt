//! The status of a reply.
ghost use Rattle.std.specs.Prelude.{◌≡◌};
ghost use Rattle.spec_http.specs.Answers as spec;
ghost use Rattle.raven_reply.specs.ReplyView.{reply_view};

use http::StatusCode;
use raven_reply::Reply;

/// The status of the response with this reply.
pub fn status_of(reply: &Reply) -> StatusCode
    ensures { result ≡ spec.status_of (reply_view reply.now) }
{
    match reply {
        Reply::Put { .. } | Reply::Bulk { .. } | Reply::Index { .. } => StatusCode::CREATED,
        Reply::Deleted { .. } | Reply::Removed { .. } => StatusCode::NO_CONTENT,
        Reply::Document { .. }
        | Reply::Found { .. }
        | Reply::Answer { .. }
        | Reply::Pumped { .. }
        | Reply::Switched { .. }
        | Reply::Tidied { .. }
        | Reply::Defined { .. }
        | Reply::CleanDone { .. }
        | Reply::Held { .. }
        | Reply::Published { .. }
        | Reply::Stale { .. }
        | Reply::Indexes { .. }
        | Reply::Stats { .. } => StatusCode::OK,
        Reply::NoDocument { .. } | Reply::NoIndex { .. } | Reply::NoReplacement => {
            StatusCode::NOT_FOUND
        }
        Reply::TooLarge { .. } => StatusCode::PAYLOAD_TOO_LARGE,
        Reply::CollectionChanged { .. } | Reply::Conflict { .. } | Reply::NotFresh { .. } => {
            StatusCode::CONFLICT
        }
        Reply::StoreFull { .. }
        | Reply::EtagsSpent { .. }
        | Reply::TooManyIndexes
        | Reply::NotesFull => StatusCode::INSUFFICIENT_STORAGE,
        Reply::KeeperFault { .. } => StatusCode::SERVICE_UNAVAILABLE,
        Reply::UnknownLine
        | Reply::NotJson
        | Reply::NumberNotWhole
        | Reply::TooDeep
        | Reply::Empty
        | Reply::TooLong { .. }
        | Reply::Control { .. }
        | Reply::BadMember { .. }
        | Reply::NotOneReduce { .. }
        | Reply::Rql { .. }
        | Reply::NoParameter { .. }
        | Reply::NotGrouped { .. }
        | Reply::BadPage
        | Reply::NoField { .. }
        | Reply::Lang { .. }
        | Reply::ReservedName
        | Reply::NameTooLong { .. }
        | Reply::NothingHeld
        | Reply::Gone { .. }
        | Reply::Passed { .. }
        | Reply::Cleaned { .. }
        | Reply::ReservedId { .. } => StatusCode::BAD_REQUEST,
    }
}
