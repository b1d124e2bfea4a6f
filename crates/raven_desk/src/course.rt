//! What a request does to a world: its reply, and its changes, which are not made yet.
ghost use Rattle.std.specs.Prelude.{◌≡◌, ◌≤◌, IfOk, Some, length, true};
ghost use Rattle.raven_value.specs.View.{data_of};
ghost use Rattle.spec_store.specs.Commit.{Put as PutOf};
ghost use Rattle.doc_txn.specs.CommandView.{command_view, expect_view};
ghost use Rattle.spec_server.specs.Requests.{Ask, Auto, Do, Find};
ghost use Rattle.spec_server.specs.Courses.{cleaning, only_reply, storing};
ghost use Rattle.spec_server.specs.Batches.{clean_course, pump_for};
ghost use Rattle.spec_server.specs.Machine.{course_of as spec_course_of};
ghost use Rattle.spec_server.specs.WellFormed.{IsWellFormed, is_body};
ghost use Rattle.raven_request.specs.RequestView.{request_view};
ghost use Rattle.raven_world.specs.WorldView.{answer_view, change_view};
ghost use Rattle.raven_reply.specs.ReplyView.{reply_view};
ghost use Rattle.raven_desk.specs.CourseView.{course_view};

use crate::defining::{define, define_parts};
use crate::making::{make, make_for};
use crate::tidying::tidied;
use doc_keeper::all_kept;
use doc_txn::{Command, Expect};
use multi_map::ask;
use raven_base::{NoMemory, Shared, Steps};
use raven_ports::KeptRows;
use raven_request::Request;
use raven_snapshot::{Answered, Snapshot};
use raven_value::{Id, Name, Rows, Shallow, Text, Value};
use raven_world::{Change, Cleaning, Reply, World, WorldFault};
use rql_plan::QueryAsk;
use std::alloc::Global;
use std::marker::{Brand, Model};
use std::sync::ledger::{Blank, Ledger};
use std::thread::Threads;

/// What the keeper is asked for a change that has rows.
#[derive(Drop)]
pub(crate) enum Asks {
    /// To store the rows, which are these as it takes them.
    Store(KeptRows),

    /// To remove the tombstones up to this etag, which are the rows.
    Clean(u64),
}

/// A change that is not made yet: its rows, what the keeper is asked for them, and the world once it has done that. It has all the memory that
/// it takes to make it.
pub struct Pending {
    pub(crate) rows: Rows,
    pub(crate) asks: Asks,
    pub(crate) world: Shared<World>,
}

// Opaque drop: see raven_base.
impl Drop for Pending {
    fn drop(self) {
        let Pending {
            rows: _rows,
            asks: _asks,
            world: _world,
        } = self;
    }
}

impl Model for Pending {
    ghost use Rattle.spec_server.specs.Courses as is;
    ghost use Rattle.spec_desk.specs.Codes.{change_code};
    ghost use Rattle.raven_desk.specs.AsksView.{IsAskedFor, cleans_in};

    ghost Value = { is.Change };

    ghost coded = { change_code };

    ghost view = { λ p. record { rows = p.rows; cleans = cleans_in p.asks; world = p.world } };

    ghost invariant = { λ p. IsAskedFor p.rows p.asks };
}

impl Pending {
    /// The world once the keeper has done what it is asked.
    pub(crate) fn world(&self) -> &World
        ensures { result.now ≡ self.now.world }
    {
        self.world.get()
    }

    /// The same world, taken out.
    pub(crate) fn into_world(self) -> Shared<World>
        ensures { result ≡ self.world }
    {
        let Pending {
            rows: _rows,
            asks: _asks,
            world,
        } = self;
        world
    }
}

/// The reply to a request, and the changes that it makes, each of the world that the one before it leaves. The reply is due if all are made. Only a
/// TIDY and a MULTI make several.
#[derive(Drop)]
pub struct Course {
    pub reply: Reply,
    pub changes: Vec<Pending>,
}

pub(crate) fn unchanged(alloc: Global, reply: Reply) -> Course
    ensures { course_view result ≡ only_reply (reply_view reply) }
{
    Course {
        reply,
        changes: Vec::new(alloc),
    }
}

/// A change that stores these rows, and leaves this world.
pub(crate) fn make_pending(alloc: Global, rows: Rows, world: World) -> Result<Pending, NoMemory>
    ensures { IfOk result (λ pending. pending ≡ storing rows world) }
{
    let asks = Asks::Store(all_kept(alloc, &rows)?);
    let world = Shared::of(alloc, world)?;
    Ok(Pending { rows, asks, world })
}

// A change that removes these tombstones, which are those up to this etag, and leaves this world.
fn make_cleaning(
    alloc: Global,
    tombstones: Rows,
    upto: u64,
    world: World,
) -> Result<Pending, NoMemory>
    ensures { IfOk result (λ pending. pending ≡ cleaning tombstones upto world) }
{
    let world = Shared::of(alloc, world)?;
    Ok(Pending {
        rows: tombstones,
        asks: Asks::Clean(upto),
        world,
    })
}

// How many tombstones these are. A world has fewer than 2^32 rows.
fn count_of(tombstones: &Rows, world: &World) -> u32
    requires { length tombstones.now ≤ length world.now.store.rows }
    ensures { result ≡ length tombstones.now }
{
    let most = world.parts().store.len() as usize;
    tombstones.len().min(most) as u32
}

// What a CLEAN does: one change, for which the keeper is asked if a tombstone goes.
#[tactic(auto, using(crate::proofs::Cleanings::cleanings))]
fn cleaned(alloc: Global, world: &World) -> Result<Course, NoMemory>
    ensures { IfOk result (λ course. course_view course ≡ clean_course world.now) }
{
    let Cleaning {
        world: left,
        gone,
        upto,
    } = world.clean(alloc)?;
    let cleaned = count_of(&gone, world);
    let mut changes = Vec::new(alloc);
    changes.push(make_cleaning(alloc, gone, upto, left)?)?;
    Ok(Course {
        reply: Reply::CleanDone { cleaned, upto },
        changes,
    })
}

fn changed(alloc: Global, change: Change) -> Result<Course, NoMemory>
    ensures { IfOk result (λ course. course_view course ≡ change_view change) }
{
    let Change { world, rows, reply } = change;
    let mut changes = Vec::new(alloc);
    changes.push(make_pending(alloc, rows, world)?)?;
    Ok(Course { reply, changes })
}

fn changed_or_refused(alloc: Global, answer: Result<Change, WorldFault>) -> Result<Course, NoMemory>
    ensures { IfOk result (λ course. answer_view answer ≡ Some (course_view course)) }
{
    match answer {
        Ok(change) => changed(alloc, change),
        Err(WorldFault::Refused(reply)) => Ok(unchanged(alloc, reply)),
        Err(WorldFault::NoMemory) => Err(NoMemory),
    }
}

// The automatic index of a collection by one field, or the change that makes one.
#[tactic(auto, using(crate::proofs::Picked::picking))]
fn picked(
    alloc: Global,
    world: &World,
    now: u64,
    collection: &Text,
    field: &Text,
) -> Result<Course, NoMemory>
    ensures { IfOk result (λ course. course_view course ≡ spec_course_of world.now now (Auto collection.now field.now)) }
{
    match Snapshot::of(world.parts()).auto(alloc, collection, field)? {
        Answered::Reply(reply) => Ok(unchanged(alloc, reply)),
        Answered::MustMake(shape) => changed_or_refused(alloc, make(alloc, world, shape, now)),
    }
}

// A batch for each index, or for the one that is named. Nobody reads the counter.
fn pumped<R: Threads + Sync, L: Ledger>(
    rt: &R,
    alloc: Global,
    world: &World,
    max: u32,
    index: Option<Name>,
    blank: Blank,
) -> Result<Course, NoMemory>
    requires name { blank.name ≡ L.name }
    requires parts { blank.parts ≡ L.parts }
    requires enough { 3 ≤ blank.parts }
    ensures { IfOk result (λ course. course_view course ≡ pump_for world.now max index) }
{
    let mut steps = Steps::<L>::new(blank);
    let change = world.pump(rt, alloc, max, index.as_ref(), &mut steps);
    changed_or_refused(alloc, change)
}

// What a look for a text finds. Nobody reads the counter.
fn found<L: Ledger>(
    alloc: Global,
    seen: &Snapshot<'_>,
    index: &Name,
    field: &Text,
    text: &Text,
    blank: Blank,
) -> Result<Course, NoMemory>
    requires name { blank.name ≡ L.name }
    requires parts { blank.parts ≡ L.parts }
    requires enough { 3 ≤ blank.parts }
    ensures { IfOk result (λ course. course_view course ≡ spec_course_of seen.now 0 (Find index.now field.now text.now)) }
{
    let mut steps = Steps::<L>::new(blank);
    Ok(unchanged(alloc, seen.find(alloc, index, field, text, &mut steps)?))
}

// What a query finds, or the change that makes its index first. Nobody reads the counter.
#[tactic(auto, using(crate::proofs::Picked::asking))]
fn asked<L: Ledger>(
    alloc: Global,
    world: &World,
    now: u64,
    ask: &QueryAsk,
    blank: Blank,
) -> Result<Course, NoMemory>
    requires name { blank.name ≡ L.name }
    requires parts { blank.parts ≡ L.parts }
    requires enough { 3 ≤ blank.parts }
    ensures { IfOk result (λ course. course_view course ≡ spec_course_of world.now now (Ask ask.now)) }
{
    let mut steps = Steps::<L>::new(blank);
    match Snapshot::of(world.parts()).ask(alloc, ask, &mut steps)? {
        Answered::Reply(reply) => Ok(unchanged(alloc, reply)),
        Answered::MustMake(shape) => {
            let answer = make_for(alloc, world, ask, shape, now, &mut steps);
            changed_or_refused(alloc, answer)
        }
    }
}

/// What a query does to the world at this moment: nothing, or it makes the automatic index that it needs.
pub(crate) fn course_of_query(
    alloc: Global,
    world: &World,
    now: u64,
    ask: &QueryAsk,
) -> Result<Course, NoMemory>
    requires { IsWellFormed (Do (Ask ask.now)) }
    ensures { IfOk result (λ course. course_view course ≡ spec_course_of world.now now (Ask ask.now)) }
{
    asked::<Brand>(alloc, world, now, ask, Blank::new(3))
}

// The command that puts this document.
#[tactic(auto, using(crate::proofs::Bodies::bodies))]
fn putting(id: Id, expected: Expect, body: Value) -> Command
    requires { is_body (data_of body) ≡ true }
    ensures { command_view result ≡ PutOf id (expect_view expected) (data_of body) }
{
    Command::Put {
        id,
        expected,
        body: Shallow::of(body),
    }
}

/// What the request does to the world at this moment. Its documents are moved into the new world.
pub fn course_of<R: Threads + Sync>(
    rt: &R,
    alloc: Global,
    world: &World,
    now: u64,
    request: Request,
) -> Result<Course, NoMemory>
    requires { IsWellFormed (Do (request_view request)) }
    ensures { IfOk result (λ course. course_view course ≡ spec_course_of world.now now (request_view request)) }
{
    let seen = Snapshot::of(world.parts());
    match request {
        Request::Put { id, expected, body } => {
            let command = putting(id, expected, body);
            changed_or_refused(alloc, world.commit_one(alloc, command, now))
        }
        Request::Delete { id, expected } => {
            let command = Command::Delete { id, expected };
            changed_or_refused(alloc, world.commit_one(alloc, command, now))
        }
        Request::Bulk { commands } => {
            changed_or_refused(alloc, world.commit(alloc, commands, now))
        }
        Request::Get { id } => Ok(unchanged(alloc, seen.get(alloc, &id)?)),
        Request::Auto { collection, field } => picked(alloc, world, now, &collection, &field),
        Request::Find { index, field, text } => {
            found::<Brand>(alloc, &seen, &index, &field, &text, Blank::new(3))
        }
        Request::Ask { ask } => course_of_query(alloc, world, now, &ask),
        Request::Define { definition } => {
            changed_or_refused(alloc, define(alloc, world, definition, now))
        }
        Request::Multi { parts } => define_parts(alloc, world, parts, now),
        Request::Remove { name } => changed_or_refused(alloc, world.remove(alloc, &name, now)),
        Request::Mask { ask: question } => Ok(unchanged(
            alloc,
            ask(alloc, &world.parts(), &question)?,
        )),
        Request::Pump { max, index } => {
            pumped::<R, Brand>(rt, alloc, world, max, index, Blank::new(3))
        }
        Request::Switch { name } => changed_or_refused(alloc, world.switch(alloc, &name, now)),
        Request::Tidy => tidied(alloc, world, now),
        Request::Clean => cleaned(alloc, world),
        Request::Stale { name, cutoff } => Ok(unchanged(alloc, seen.stale(alloc, &name, cutoff)?)),
        Request::Indexes => Ok(unchanged(alloc, seen.indexes(alloc)?)),
        Request::Stats => Ok(unchanged(alloc, seen.stats())),
    }
}
