//! One request, answered on one value.
ghost use Rattle.std.specs.Prelude.{◌≡◌, ◌⊎◌, IfOk, OnErr, false};
ghost use Rattle.spec_server.specs.Requests.{Ask, Do, makes_several};
ghost use Rattle.spec_server.specs.Machine.{course_of as spec_course_of};
ghost use Rattle.spec_server.specs.WellFormed.{IsWellFormed};
ghost use Rattle.raven_reply.specs.ReplyView.{reply_view};
ghost use Rattle.raven_request.specs.RequestView.{request_view};
ghost use Rattle.spec_desk.specs.Lived.{Follows};
ghost use Rattle.spec_desk.specs.Stepped.{IsMadeInPart, IsStep, Makes, MayMake, Stays, reply_after as spec_reply_after};
ghost use Rattle.raven_desk.specs.CourseView.{course_view};
ghost use Rattle.raven_desk.specs.SettledView.{settled_view};

use crate::course::{Course, course_of, course_of_query};
use crate::live::Live;
use crate::settling::Settled;
use raven_base::NoMemory;
use raven_ports::Keeper;
use raven_request::Request;
use raven_world::Reply;
use rql_plan::QueryAsk;
use std::alloc::Global;
use std::thread::Threads;

// The reply, if this one is due once all changes are made.
fn reply_after(settled: Settled, due: Reply) -> Reply
    ensures { reply_view result ≡ spec_reply_after (settled_view settled) (reply_view due) }
{
    match settled {
        Settled::All => due,
        Settled::Stopped { before, after } => Reply::KeeperFault { before, after },
    }
}

impl<K: Keeper> Live<K> {
    /// What the request does at this moment, in microseconds since 1970, before the keeper is asked: all its changes and their stored rows are
    /// made here. Its documents are moved into the new world.
    pub fn course<R: Threads + Sync>(
        &self,
        rt: &R,
        alloc: Global,
        now: u64,
        request: Request,
    ) -> Result<Course, NoMemory>
        requires { IsWellFormed (Do (request_view request)) }
        ensures course { IfOk result (λ c. course_view c ≡ spec_course_of self.now.world now (request_view request)) }
        ensures may { IfOk result (λ c. MayMake self.now c.changes.items) }
    {
        course_of(rt, alloc, self.world.get(), now, request)
    }

    // Settles a course, and returns its reply, or the one for a keeper that failed.
    fn finish(&mut self, course: Course) -> Result<Reply, NoMemory>
        requires may { MayMake self.old (course_view course).changes }
        ensures made { IfOk result (λ reply.
            Makes self.old.keeper.count (course_view course).changes (course_view course).reply self.old (reply_view reply) self.new) }
        ensures later { Follows self.old self.new }
        ensures lacks { OnErr result (IsMadeInPart (course_view course).changes self.old self.new) }
        ensures fronts { self.new.fronts ≡ self.old.fronts }
    {
        let Course { reply, changes } = course;
        let settled = self.settle(changes)?;
        Ok(reply_after(settled, reply))
    }

    /// The step of the machine: `course`, and then `settle`. If the keeper fails or memory runs out, nothing changes. Of a request that makes
    /// several changes, those before stand: `lacks` says so, and what the reply for a failed keeper leaves is in `IsStep`.
    pub fn step<R: Threads + Sync>(
        &mut self,
        rt: &R,
        alloc: Global,
        now: u64,
        request: Request,
    ) -> Result<Reply, NoMemory>
        requires { IsWellFormed (Do (request_view request)) }
        ensures stepped { IfOk result (λ reply. IsStep now (request_view request) self.old (reply_view reply) self.new) }
        ensures later { Follows self.old self.new }
        ensures lacks { OnErr result
            (Stays self.old self.new ⊎ IsMadeInPart (spec_course_of self.old.world now (request_view request)).changes self.old self.new) }
        ensures alone { OnErr result (makes_several (request_view request) ≡ false → Stays self.old self.new) }
        ensures fronts { self.new.fronts ≡ self.old.fronts }
    {
        let course = self.course(rt, alloc, now, request)?;
        self.finish(course)
    }

    // What a query does, before the keeper is asked.
    fn query_course(&self, alloc: Global, now: u64, ask: &QueryAsk) -> Result<Course, NoMemory>
        requires { IsWellFormed (Do (Ask ask.now)) }
        ensures course { IfOk result (λ c. course_view c ≡ spec_course_of self.now.world now (Ask ask.now)) }
        ensures may { IfOk result (λ c. MayMake self.now c.changes.items) }
    {
        course_of_query(alloc, self.world.get(), now, ask)
    }

    /// The step of a query, which is lent, so that it can be asked again. If it needs an automatic index, that is made first.
    pub fn ask(&mut self, alloc: Global, now: u64, ask: &QueryAsk) -> Result<Reply, NoMemory>
        requires { IsWellFormed (Do (Ask ask.now)) }
        ensures stepped { IfOk result (λ reply. IsStep now (Ask ask.now) self.old (reply_view reply) self.new) }
        ensures later { Follows self.old self.new }
        ensures err { OnErr result (Stays self.old self.new) }
        ensures fronts { self.new.fronts ≡ self.old.fronts }
    {
        let course = self.query_course(alloc, now, ask)?;
        self.finish(course)
    }
}
