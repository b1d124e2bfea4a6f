//! Desks.
ghost use Rattle.std.specs.Prelude.{◌≡◌, ◌<◌, ◌≤◌, MatchBool, IsTrue, ◌∷◌, [], ℕ, List, Option, IfErr, IfOk, OnErr};
ghost use Rattle.std.specs.Thread.{IsSync};
ghost use Rattle.spec_server.specs.Requests.{Ask, Do};
ghost use Rattle.spec_server.specs.WellFormed.{IsWellFormed};
ghost use Rattle.raven_reply.specs.ReplyView.{reply_view};
ghost use Rattle.raven_request.specs.RequestView.{request_view};
ghost use Rattle.spec_desk.specs.Lacking.{IsUnanswered, LacksOnce, StopsCatchingUp};
ghost use Rattle.spec_desk.specs.Lived.{Follows, Lived};
ghost use Rattle.spec_desk.specs.Receipts.{GoesOn, HasCaughtUp, IsAsked, LooksOnce, Standing, looks_in, looks_of, says_stale as spec_says_stale};
ghost use Rattle.raven_desk.specs.ReceiptView.{receipt_view};

use crate::receipt::Receipt;
use crate::shot::Shot;
use raven_base::NoMemory;
use raven_request::Request;
use raven_world::Reply;
use rql_plan::QueryAsk;
use std::alloc::Global;

// How often a query looks at most.
fn looks_at(ask: &QueryAsk) -> u32
    ensures { result ≡ looks_in ask.now }
{
    if ask.wait { ask.looks } else { 1 }
}

fn says_stale(reply: &Reply) -> bool
    ensures { result ≡ spec_says_stale (reply_view reply.now) }
{
    match reply {
        Reply::Answer { is_stale, .. } => *is_stale,
        _ => false,
    }
}

// Whether a desk that may look so often again does.
fn looks_again(reply: &Reply, left: u32) -> bool
    ensures { MatchBool result ((0 < left) × IsTrue (spec_says_stale (reply_view reply.now))) (IsTrue (spec_says_stale (reply_view reply.now)) → left ≡ 0) }
{
    left > 0 && says_stale(reply)
}

// The query that a request asks, or the request, which then looks once.
fn query_in(request: Request) -> Result<QueryAsk, Request>
    ensures query { IfOk result (λ ask. request_view request ≡ Ask ask) }
    ensures other { IfErr result (λ other. (request_view other ≡ request_view request) × (looks_of (request_view request) ≡ 1)) }
{
    match request {
        Request::Ask { ask } => Ok(ask),
        other => Err(other),
    }
}

/// What answers requests, and knows the values that it has seen. `R` is the runtime that its calls are given: one of threads that they may share, and for a
/// desk that waits for others one that may wait.
pub trait Desk<R> {
    // What a look may find, where that value was seen last.
    ghost link: { Lived → Lived → Type 0 };

    ghost standing: { Self → Standing };

    // What never changes of a desk.
    ghost same: { Self → Self → Type 0 };

    /// One look with a request that is not repeated, and the reply.
    fn do_once(
        &mut self,
        rt: &R,
        alloc: Global,
        request: Request,
    ) -> Result<(Shot, Reply), NoMemory>
        requires shared { IsSync R.row }
        requires formed { IsWellFormed (Do (request_view request)) }
        ensures looked { IfOk result (λ o. LooksOnce link (standing self.old) (request_view request) o.0 (reply_view o.1) (standing self.new)) }
        ensures lacked { OnErr result (LacksOnce link (standing self.old) (request_view request) (standing self.new)) }
        ensures goes_on { GoesOn (standing self.old) (standing self.new) }
        ensures same { same self.old self.new };

    /// One look with a query, and the reply.
    fn look_once(
        &mut self,
        rt: &R,
        alloc: Global,
        ask: &QueryAsk,
    ) -> Result<(Shot, Reply), NoMemory>
        requires { IsWellFormed (Do (Ask ask.now)) }
        ensures looked { IfOk result (λ o. LooksOnce link (standing self.old) (Ask ask.now) o.0 (reply_view o.1) (standing self.new)) }
        ensures lacked { OnErr result (LacksOnce link (standing self.old) (Ask ask.now) (standing self.new)) }
        ensures goes_on { GoesOn (standing self.old) (standing self.new) }
        ensures same { same self.old self.new };

    /// Waits a while between two looks.
    fn pause(&self);

    /// Lets the indexes catch up after a request.
    fn catch_up(&mut self, rt: &R, alloc: Global) -> Result<(), NoMemory>
        requires { IsSync R.row }
        ensures went { IfOk result (λ _. (x : Lived) → (standing self.old).seen ≡ x ∷ [] → HasCaughtUp x (standing self.old) (standing self.new)) }
        ensures lacked { OnErr result ((x : Lived) → (standing self.old).seen ≡ x ∷ [] → StopsCatchingUp x (standing self.old) (standing self.new)) }
        ensures goes_on { GoesOn (standing self.old) (standing self.new) }
        ensures same { same self.old self.new };

    ghost link_same: { (x : Lived) → link x x };

    ghost link_later: { (x y : Lived) → link x y → Follows x y };

    ghost same_here: { (x : Self) → same x x };

    ghost same_on: { (x y z : Self) → same x y → same y z → same x z };

    /// Answers a request that looks once.
    final fn ask_once(
        &mut self,
        rt: &R,
        alloc: Global,
        request: Request,
    ) -> Result<Receipt, NoMemory>
        requires shared { IsSync R.row }
        requires formed { IsWellFormed (Do (request_view request)) }
        requires once { looks_of (request_view request) ≡ 1 }
        ensures asked { IfOk result (λ r. IsAsked link (standing self.old) (request_view request) (receipt_view r) (standing self.new)) }
        ensures lacked { OnErr result (IsUnanswered link (standing self.old) (request_view request) (standing self.new)) }
        ensures goes_on { GoesOn (standing self.old) (standing self.new) }
        ensures same { same self.old self.new }
    {
        let earlier = Vec::new(alloc);
        let (shot, reply) = self.do_once(rt, alloc, request)?;
        self.catch_up(rt, alloc)?;
        Ok(Receipt {
            shot,
            earlier,
            reply,
        })
    }

    /// Answers a query. If it waits for its index, it looks again, up to the number of its looks. A look that finds no index makes it, and a later
    /// one uses it.
    final fn ask_query(
        &mut self,
        rt: &R,
        alloc: Global,
        ask: &QueryAsk,
    ) -> Result<Receipt, NoMemory>
        requires shared { IsSync R.row }
        requires formed { IsWellFormed (Do (Ask ask.now)) }
        requires some { 1 ≤ looks_in ask.now }
        ensures asked { IfOk result (λ r. IsAsked link (standing self.old) (Ask ask.now) (receipt_view r) (standing self.new)) }
        ensures lacked { OnErr result (IsUnanswered link (standing self.old) (Ask ask.now) (standing self.new)) }
        ensures goes_on { GoesOn (standing self.old) (standing self.new) }
        ensures same { same self.old self.new }
    {
        let mut left = looks_at(ask) - 1;
        let mut earlier = Vec::new(alloc);
        let (mut shot, mut reply) = self.look_once(rt, alloc, ask)?;
        while looks_again(&reply, left) {
            left -= 1;
            earlier.push(shot)?;
            self.pause();
            let (next, answer) = self.look_once(rt, alloc, ask)?;
            shot = next;
            reply = answer;
        }
        self.catch_up(rt, alloc)?;
        Ok(Receipt {
            shot,
            earlier,
            reply,
        })
    }

    /// Answers a request. A query that waits for its index looks again, up to the number of its looks.
    final fn ask(&mut self, rt: &R, alloc: Global, request: Request) -> Result<Receipt, NoMemory>
        requires shared { IsSync R.row }
        requires formed { IsWellFormed (Do (request_view request)) }
        requires some { 1 ≤ looks_of (request_view request) }
        ensures asked { IfOk result (λ r. IsAsked link (standing self.old) (request_view request) (receipt_view r) (standing self.new)) }
        ensures lacked { OnErr result (IsUnanswered link (standing self.old) (request_view request) (standing self.new)) }
        ensures goes_on { GoesOn (standing self.old) (standing self.new) }
        ensures same { same self.old self.new }
    {
        match query_in(request) {
            Ok(ask) => self.ask_query(rt, alloc, &ask),
            Err(other) => self.ask_once(rt, alloc, other),
        }
    }
}
