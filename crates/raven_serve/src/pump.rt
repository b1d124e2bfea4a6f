//! Pumps: batches of all indexes, until each front is at its end.
ghost use Rattle.std.specs.Prelude.{◌≡◌, ◌≤◌};
ghost use Rattle.raven_serve.specs.Fronts.{SamePass};

use raven_base::{NoMemory, Steps};
use raven_desk::{Live, Shot};
use raven_ports::{Clock, Keeper};
use raven_pump::{Turned, turn_index};
use raven_turn::{Pass, Turn};
use serve_ports::Gate;
use std::alloc::Global;
use std::marker::Brand;
use std::sync::Wait;
use std::sync::ledger::{Blank, Ledger};
use std::thread::Threads;
use turn_desk::{clean, tidy};

/// The most rows of one batch.
const BATCH: u32 = 1024;

// What came of a round, or of the part of it that was made.
#[derive(Clone, Copy)]
enum Round {
    /// No front is left, so there will be no further round.
    Last,

    /// Some batch was published.
    Moved,

    /// None was.
    Still,

    /// Memory ran out.
    Lacking,
}

// The round after one batch more.
fn with_batch(round: Round, turned: Result<Turned, NoMemory>) -> Round {
    match (round, turned) {
        (_, Err(NoMemory)) => Round::Lacking,
        (Round::Still, Ok(Turned::Moved { .. })) => Round::Moved,
        (other, _) => other,
    }
}

// Makes one batch for each index of the world of a look, beginning with the one at this place, counted round.
fn batches<R: Threads + Wait + Sync, K: Keeper, G: Gate, L: Ledger>(
    rt: &R,
    alloc: Global,
    turn: &Turn<Live<K>>,
    pass: &mut Pass<Live<K>>,
    shot: &Shot,
    begin: u32,
    gate: &G,
    blank: Blank,
) -> Round
    requires own { pass.old.turn ≡ turn.now.turn }
    requires name { blank.name ≡ L.name }
    requires parts { blank.parts ≡ L.parts }
    requires enough { 3 ≤ blank.parts }
    ensures same { SamePass pass.old pass.new }
{
    let mut steps = Steps::<L>::new(blank);
    let mut round = Round::Still;
    let seen = shot.world().parts();
    let slots = seen.slots.list();
    let mut at = begin as usize;
    for _ in 0..slots.len() {
        at %= slots.len();
        let slot = &slots[at];
        let number = slot.number;
        let turned = turn_index(rt, alloc, turn, pass, number, BATCH, gate, &mut steps);
        round = with_batch(round, turned);
        at += 1;
    }
    round
}

// Whether a CLEAN is worth a hold, by the look of the round: there is something to clean, and each index that lags has read something. The first batch of an
// index is the one that a cleaning can overtake, again and again: so no CLEAN is made before it is published.
fn may_clean(shot: &Shot) -> bool {
    let seen = shot.world().parts();
    seen.has_to_clean() && !seen.has_unread()
}

// Makes a Tidy, and a CLEAN if the look of the round is for one.
fn keep_up<R: Threads + Wait + Sync, K: Keeper, C: Clock>(
    rt: &R,
    alloc: Global,
    turn: &Turn<Live<K>>,
    pass: &mut Pass<Live<K>>,
    shot: &Shot,
    clock: &C,
) -> Result<(), NoMemory>
    requires own { pass.old.turn ≡ turn.now.turn }
    ensures same { SamePass pass.old pass.new }
{
    tidy(rt, alloc, turn, pass, clock)?;
    if may_clean(shot) {
        clean(rt, alloc, turn, pass, clock)?;
    }
    Ok(())
}

// Makes a look, one batch for each index there, a Tidy, and perhaps a CLEAN.
fn make_round<R: Threads + Wait + Sync, K: Keeper + Drop, C: Clock, G: Gate>(
    rt: &R,
    alloc: Global,
    turn: &Turn<Live<K>>,
    pass: &mut Pass<Live<K>>,
    begin: u32,
    clock: &C,
    gate: &G,
) -> Round
    requires own { pass.old.turn ≡ turn.now.turn }
    ensures same { SamePass pass.old pass.new }
{
    let Ok(shot) = turn.look(rt, alloc, pass) else {
        return Round::Lacking;
    };
    if shot.fronts() == 0 {
        return Round::Last;
    }
    let made = batches::<R, K, G, Brand>(rt, alloc, turn, pass, &shot, begin, gate, Blank::new(3));
    match keep_up(rt, alloc, turn, pass, &shot, clock) {
        Ok(()) => made,
        Err(NoMemory) => Round::Lacking,
    }
}

/// Makes one batch for each index, then a Tidy, and a CLEAN if there is something to clean and no index waits for its first batch, round after round, until
/// no front is left. Each round begins with the index at this place, counted round. It naps after a round that published no batch or ran out of memory.
pub(crate) fn pump<R: Threads + Wait + Sync, K: Keeper + Drop, C: Clock, G: Gate>(
    rt: &R,
    alloc: Global,
    turn: &Turn<Live<K>>,
    pass: Pass<Live<K>>,
    begin: u32,
    clock: &C,
    gate: &G,
) -> Pass<Live<K>>
    requires own { pass.turn ≡ turn.now.turn }
    ensures same { SamePass pass result }
{
    let mut pass = pass;
    for _ in rt.forever() {
        match make_round(rt, alloc, turn, &mut pass, begin, clock, gate) {
            Round::Last => return pass,
            Round::Moved => {}
            Round::Still | Round::Lacking => clock.nap(),
        }
    }
    unreachable!()
}
