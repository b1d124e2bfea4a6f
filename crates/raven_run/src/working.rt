//! What is answered to the lines of workers.
ghost use Rattle.std.specs.Prelude.{◌≡◌, ◌≤◌, ℕ, IfOk, OnErr, OnOk, option_map};
ghost use Rattle.raven_ports.specs.States.{KeeperState};
ghost use Rattle.raven_world.specs.Publishing.{IsRead};
ghost use Rattle.spec_desk.specs.Lived.{machine_with};
ghost use Rattle.spec_server.specs.Requests.{Publish, Read};
ghost use Rattle.spec_server.specs.Replies.{Held as HeldIs, printed as spec_printed};
ghost use Rattle.spec_server.specs.Sound.{Sound};
ghost use Rattle.raven_run.specs.Answering.{IsHandled};
ghost use Rattle.raven_run.specs.Holding.{MayAllWait, after_read, all_held, read_to};

use crate::printing::{printed, settled};
use crate::workers::Workers;
use raven_base::{NoMemory, Steps};
use raven_desk::Live;
use raven_ports::Keeper;
use raven_reply::Reply;
use raven_value::{Name, Text};
use raven_world::{Batch, World};
use std::alloc::Global;
use std::marker::Brand;
use std::sync::ledger::{Blank, Ledger};
use std::thread::Threads;

// The next batch of the index that serves the name. Nobody reads the counter.
fn batch_of<R: Threads + Sync, L: Ledger>(
    rt: &R,
    alloc: Global,
    world: &World,
    max: u32,
    index: &Name,
    blank: Blank,
) -> Result<Option<Batch>, NoMemory>
    requires name { blank.name ≡ L.name }
    requires parts { blank.parts ≡ L.parts }
    requires enough { 3 ≤ blank.parts }
    ensures { IfOk result (IsRead world.now max index.now) }
{
    let mut steps = Steps::<L>::new(blank);
    world.read(rt, alloc, max, index, &mut steps)
}

// The reply is printed before the worker holds anything.
fn hold(alloc: Global, workers: &mut Workers, worker: u8, batch: Batch) -> Result<Vec<u8>, NoMemory>
    ensures written { IfOk result (λ text. text.items ≡ spec_printed (HeldIs batch.from (read_to batch.from (option_map (λ v. v.value) batch.version)))) }
    ensures holds { OnOk result (workers.new ≡ after_read worker batch.number (option_map (λ v. v.value) batch.version) workers.old) }
    ensures kept { OnErr result (workers.new ≡ workers.old) }
{
    let Batch {
        number,
        from,
        version,
    } = batch;
    let to = match &version {
        Some(version) => version.etag(),
        None => from,
    };
    let text = printed(alloc, &Reply::Held { from, to })?;
    workers.hold(alloc, worker, number, version)?;
    Ok(text)
}

/// READ: the worker reads a batch of the index and holds it. If memory runs out, it holds what it held.
pub(crate) fn read<R: Threads + Sync>(
    rt: &R,
    alloc: Global,
    world: &World,
    workers: &mut Workers,
    worker: u8,
    max: u32,
    index: &Name,
) -> Result<Vec<u8>, NoMemory>
    requires sound { Sound world.now }
    requires waits { MayAllWait world.now workers.old }
    ensures handled { (keeper : KeeperState) (now : ℕ) → IfOk result (λ text. IsHandled (Read worker max index.now) now keeper keeper
        (record { world = world.now; held = all_held workers.old }) (record { world = world.now; held = all_held workers.new }) text.items) }
    ensures kept { OnErr result (workers.new ≡ workers.old) }
    ensures waits { MayAllWait world.now workers.new }
{
    match batch_of::<R, Brand>(rt, alloc, world, max, index, Blank::new(3))? {
        Some(batch) => hold(alloc, workers, worker, batch),
        None => {
            let name = Text::of(alloc, index.as_str())?;
            printed(alloc, &Reply::NoIndex { name })
        }
    }
}

/// PUBLISH: the batch that the worker holds is published or refused, and then it holds nothing. If memory runs out, nothing changes, and the worker
/// holds what it held.
pub(crate) fn publish<K: Keeper>(
    alloc: Global,
    live: &mut Live<K>,
    workers: &mut Workers,
    worker: u8,
) -> Result<Vec<u8>, NoMemory>
    requires waits { MayAllWait live.old.world workers.old }
    ensures handled { (now : ℕ) → IfOk result (λ text. IsHandled (Publish worker) now live.old.keeper live.new.keeper
        (machine_with live.old (all_held workers.old)) (machine_with live.new (all_held workers.new)) text.items) }
    ensures kept { OnErr result ((workers.new ≡ workers.old) × (live.new.world ≡ live.old.world) × (live.new.keeper.held ≡ live.old.keeper.held)) }
    ensures waits { MayAllWait live.new.world workers.new }
{
    let Some(held) = workers.held_by(worker) else {
        return printed(alloc, &Reply::NothingHeld);
    };
    let (number, version) = held.batch()?;
    let course = live.publication(alloc, number, version)?;
    let others = workers.without(alloc, worker)?;
    let text = settled(alloc, live, course)?;
    *workers = others;
    Ok(text)
}
