//! Replies about the name of an index.
ghost use Rattle.std.specs.Prelude.{◌≡◌, IfOk};
ghost use Rattle.spec_server.specs.Replies.{Index as IndexOf, NoIndex as NoIndexOf};
ghost use Rattle.raven_reply.specs.ReplyView.{reply_view};

use crate::reply::Reply;
use raven_base::NoMemory;
use raven_value::{Name, Text};
use std::alloc::Global;

/// The reply if no index serves the name.
pub fn no_index(alloc: Global, name: &Name) -> Result<Reply, NoMemory>
    ensures { IfOk result (λ reply. reply_view reply ≡ NoIndexOf name.now) }
{
    Ok(Reply::NoIndex {
        name: Text::of(alloc, name.as_str())?,
    })
}

/// The reply that reports the name of an index.
pub fn index_reply(name: &Name) -> Result<Reply, NoMemory>
    ensures { IfOk result (λ reply. reply_view reply ≡ IndexOf name.now) }
{
    Ok(Reply::Index {
        name: name.clone()?,
    })
}
