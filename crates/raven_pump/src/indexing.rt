//! A turn of an index.
ghost use Rattle.std.specs.Prelude.{◌≡◌, ◌≤◌, IfOk, OnErr, option_to_list};
ghost use Rattle.std.specs.Result.{is_ok};
ghost use Rattle.spec_desk.specs.Lacking.{StaysOnce};
ghost use Rattle.spec_desk.specs.Lived.{Follows, Lived};
ghost use Rattle.spec_desk.specs.Receipts.{AllLink, Onward};
ghost use Rattle.spec_index.specs.World.{numbered};
ghost use Rattle.spec_server.specs.Sound.{Sound};
ghost use Rattle.slot_batches.specs.Batches.{CountFew};
ghost use Rattle.raven_pump.specs.Turning.{Turns};

use crate::publish::Publish;
use crate::turned::Turned;
use raven_base::{NoMemory, Steps};
use raven_desk::Live;
use raven_ports::Keeper;
use raven_turn::{Pass, Turn};
use serve_ports::{Gate, Point};
use slot_batches::read;
use std::alloc::Global;
use std::sync::Wait;
use std::sync::ledger::Ledger;
use std::thread::Threads;

/// Reads a batch of at most `max` rows for the index of this number, on a look and after its hold, and publishes it in one hold, in the world that is there by
/// then. The gate is told once the batch was read, and before it is published.
///
/// A batch counts the maps, merges and reads of `CountFew` for the index that the look found; if that found none, nothing is counted.
pub fn turn_index<K: Keeper, G: Gate, R: Threads + Wait + Sync, L: Ledger>(
    rt: &R,
    alloc: Global,
    turn: &Turn<Live<K>>,
    pass: &mut Pass<Live<K>>,
    number: u64,
    max: u32,
    gate: &G,
    steps: &mut Steps<L>,
) -> Result<Turned, NoMemory>
    requires own { pass.old.turn ≡ turn.now.turn }
    requires some { 1 ≤ max }
    ensures turned { (x : Lived) × AllLink Follows pass.old.seen x
        × CountFew x.world.store max (option_to_list (numbered x.world.slots number)) (is_ok result) steps.old steps.new
        × IfOk result (λ t. Sound x.world × Turns number max x t pass.new.seen) }
    ensures lacked { OnErr result (StaysOnce pass.old.seen pass.new.seen) }
    ensures onward { Onward pass.old.seen pass.new.seen }
    ensures same { (pass.new.turn ≡ pass.old.turn) × (pass.new.shares ≡ pass.old.shares) × (pass.new.made ≡ pass.old.made) }
{
    let shot = turn.look(rt, alloc, pass)?;
    let seen = shot.world().parts();
    let Some(slot) = seen.slots.numbered(number) else {
        return Ok(Turned::Gone);
    };
    let next = read(rt, alloc, seen.store, slot, max, steps)?;
    let Some(version) = next else {
        return Ok(Turned::Idle);
    };
    gate.at(Point::AfterRead);
    gate.at(Point::BeforePublish);
    let (_found, turned) = turn.with(
        rt,
        pass,
        Publish {
            alloc,
            number,
            version,
        },
    )?;
    Ok(turned)
}
