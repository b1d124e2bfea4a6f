//! One request over HTTP.
ghost use Rattle.std.specs.Prelude.{IfOk};
ghost use Rattle.std.specs.Thread.{IsSync};
ghost use Rattle.spec_http.specs.Requests.{asked_over_http};
ghost use Rattle.spec_desk.specs.Receipts.{GoesOn};
ghost use Rattle.http_desk.specs.Answers.{AnswersOverHttp};

use http_front::{answer, answer_to_refusal, asked};
use http_parts::Routes;
use http_read::HttpRequest;
use raven_base::{Bytes, NoMemory};
use raven_desk::Desk;
use std::alloc::Global;

/// Answers a request from a desk with the bytes of a whole response. A request that asks nothing of the database of this name does not reach the desk.
/// `close` says that the connection is closed after the response.
pub fn ask_desk<R, D: Desk<R>>(
    rt: &R,
    alloc: Global,
    routes: &Routes,
    desk: &mut D,
    database: &str,
    request: &HttpRequest,
    close: bool,
) -> Result<Bytes, NoMemory>
    requires { IsSync R.row }
    ensures answered { IfOk result (λ bytes. AnswersOverHttp D.link D.standing desk.old (asked_over_http database.now request.now) close bytes desk.new) }
    ensures goes_on { GoesOn (D.standing desk.old) (D.standing desk.new) }
    ensures same { D.same desk.old desk.new }
{
    match asked(alloc, routes, database, request) {
        Ok(asks) => {
            let receipt = desk.ask(rt, alloc, asks)?;
            answer(alloc, &receipt.reply, close)
        }
        Err(refusal) => answer_to_refusal(alloc, refusal, close),
    }
}
