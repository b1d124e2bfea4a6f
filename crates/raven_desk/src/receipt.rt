//! What a desk gives for a request.
use crate::shot::Shot;
use raven_world::Reply;

/// The reply to a request, and the world on which it was answered. If the request waited, `earlier` has the looks before the last one, each of which
/// was stale.
#[derive(Drop)]
pub struct Receipt {
    pub shot: Shot,
    pub earlier: Vec<Shot>,
    pub reply: Reply,
}
