//! Printed replies.
ghost use Rattle.std.specs.Prelude.{◌≡◌, IfOk, OnErr, ◌⊎◌};
ghost use Rattle.spec_server.specs.Replies.{Reply as ReplyIs, printed as spec_printed};
ghost use Rattle.raven_reply.specs.ReplyView.{reply_view};
ghost use Rattle.spec_desk.specs.Lived.{Follows};
ghost use Rattle.spec_desk.specs.Stepped.{IsMadeInPart, IsStopped, MayMake, Stays, reply_after};
ghost use Rattle.raven_desk.specs.CourseView.{course_view};
ghost use Rattle.raven_desk.specs.SettledView.{settled_view};
ghost use Rattle.raven_run.specs.Answering.{IsSettled};

use raven_base::NoMemory;
use raven_desk::{Course, Live, Settled};
use raven_ports::Keeper;
use raven_reply::{Reply, reply_text};
use std::alloc::Global;

/// The reply with its line end.
pub(crate) fn printed(alloc: Global, reply: &Reply) -> Result<Vec<u8>, NoMemory>
    ensures { IfOk result (λ bytes. bytes.items ≡ spec_printed (reply_view reply.now)) }
{
    let mut text = reply_text(alloc, reply)?;
    text.push(b'\n')?;
    Ok(text)
}

// What is written after the changes of a course: this text if all were made.
fn text_after(alloc: Global, settled: Settled, text: Vec<u8>) -> Result<Vec<u8>, NoMemory>
    ensures told { (reply : ReplyIs) → text.items ≡ spec_printed reply
        → IfOk result (λ told. told.items ≡ spec_printed (reply_after (settled_view settled) reply)) }
    ensures lacks { OnErr result (IsStopped (settled_view settled)) }
{
    match settled {
        Settled::All => Ok(text),
        Settled::Stopped { before, after } => printed(alloc, &Reply::KeeperFault { before, after }),
    }
}

/// Makes the changes of a course, and returns its printed reply, or that for a keeper that failed. The reply is printed before the keeper is asked,
/// so that nothing is stored whose reply finds no memory. That for a failed keeper is printed after: then the changes before stand.
pub(crate) fn settled<K: Keeper>(
    alloc: Global,
    live: &mut Live<K>,
    course: Course,
) -> Result<Vec<u8>, NoMemory>
    requires { MayMake live.old (course_view course).changes }
    ensures settled { IfOk result (λ text. IsSettled (course_view course) live.old live.new text.items) }
    ensures lacks { OnErr result (Stays live.old live.new ⊎ IsMadeInPart (course_view course).changes live.old live.new) }
    ensures later { Follows live.old live.new }
{
    let Course { reply, changes } = course;
    let text = printed(alloc, &reply)?;
    let settled = live.settle(changes)?;
    text_after(alloc, settled, text)
}
