//! What one thread does at a turn.
ghost use Rattle.std.specs.Prelude.{◌≡◌, ◌≤◌, ◌+◌};

use crate::job::Job;
use crate::rising::{Raise, Rising};
use raven_turn::{Pass, Turn};
use std::alloc::Global;
use std::sync::Wait;

/// The work of one thread: the same number of rounds by each of two passes. A round is a look and a raise.
#[derive(Drop)]
pub struct Shift<'a, V: Rising> {
    pub turn: &'a Turn<V>,
    pub pass: Pass<V>,
    pub alloc: Global,
    pub tag: u64,
    pub rounds: u32,
    pub ghost own: { pass.turn ≡ turn.now.turn },
    pub ghost two: { 2 ≤ pass.shares },
}

/// What a thread gives back: its pass, and what it did.
#[derive(Drop)]
pub struct Report<V: Rising> {
    pub pass: Pass<V>,
    pub work: Work,
}

/// How often a thread raised the value and how often it looked at it, and whether each look of a pass showed at least
/// as much as the look before.
#[derive(Drop)]
pub struct Work {
    pub raised: u64,
    pub looked: u64,
    pub rose: bool,
}

impl<'a, V: Rising> Job for Shift<'a, V> {
    ghost use Rattle.std.specs.Prelude.{◌≡◌, ◌+◌};

    type Out = Report<V>;

    // The pass has made as much more as the report says.
    ghost done = { λ shift report. (report.pass.turn ≡ shift.pass.turn) × (report.pass.shares ≡ shift.pass.shares)
        × (report.pass.made ≡ shift.pass.made + report.work.raised) };

    fn run<R: Wait>(self, rt: &R) -> Report<V> {
        let Shift {
            turn,
            mut pass,
            alloc,
            tag,
            rounds,
        } = self;
        let mut other = turn.split(&mut pass);
        let mine = take_turns(rt, alloc, turn, &mut pass, tag, rounds);
        let more = take_turns(rt, alloc, turn, &mut other, tag, rounds);
        let work = Work {
            raised: mine.raised + more.raised,
            looked: mine.looked + more.looked,
            rose: mine.rose && more.rose,
        };
        Report {
            pass: turn.join(pass, other),
            work,
        }
    }
}

// Some rounds by one pass.
fn take_turns<V: Rising, R: Wait>(
    rt: &R,
    alloc: Global,
    turn: &Turn<V>,
    pass: &mut Pass<V>,
    tag: u64,
    rounds: u32,
) -> Work
    requires own { pass.old.turn ≡ turn.now.turn }
    ensures own { (pass.new.turn ≡ pass.old.turn) × (pass.new.shares ≡ pass.old.shares) }
    ensures made { pass.new.made ≡ pass.old.made + result.raised }
    ensures bound { (result.raised ≤ rounds) × (result.looked ≤ rounds) }
{
    let mut raised = 0u64;
    let mut looked = 0u64;
    let mut last = 0;
    let mut rose = true;
    for _ in 0..rounds {
        if let Ok(shot) = turn.look(rt, alloc, pass) {
            looked += 1;
            let number = V::number(shot);
            rose = rose && last <= number;
            last = number;
        }
        if turn.with(rt, pass, Raise { alloc, tag }) {
            raised += 1;
        }
    }
    Work {
        raised,
        looked,
        rose,
    }
}
