//! What answers requests.
ghost use Rattle.std.specs.Prelude.{◌≡◌, Bool, IfOk, List, ℕ};
ghost use Rattle.http_read.specs.declared.request.HttpRequest as asked;

use http_read::HttpRequest;
use raven_base::{Bytes, NoMemory};
use std::alloc::Global;

/// What answers requests, as a database of one caller, or one thread of a server.
pub trait Answering {
    /// What its calls need of its type: if they start threads, that these may share its runtime.
    ghost callable: { Type 0 };

    /// Whether it answers a request with this whole response and is then this. The flag is whether the connection is closed after the response.
    ghost answers: { Self → asked.HttpRequest → Bool → List ℕ → Self → Type 0 };

    /// What holds of it before and after each call, also if memory runs out.
    ghost keeps: { Self → Self → Type 0 };

    /// Answers a request with the bytes of a whole response.
    fn ask(&mut self, alloc: Global, request: &HttpRequest, close: bool) -> Result<Bytes, NoMemory>
        requires { callable }
        ensures answered { IfOk result (λ bytes. answers self.old request.now close bytes self.new) }
        ensures kept { keeps self.old self.new };

    /// `keeps` is reflexive: it holds of no call.
    ghost keeps_none: { (x : Self) → keeps x x };

    /// `keeps` is transitive: it holds of several calls if it holds of each.
    ghost keeps_more: { (x y z : Self) → keeps x y → keeps y z → keeps x z };
}
