//! One batch of an index, and one of each index.
ghost use Rattle.std.specs.Prelude.{◌≡◌, ℕ, ◌++◌, ◌∷◌, [], IfOk, IfSome, OnOk, cond, map, option_copied, option_map, option_to_list};
ghost use Rattle.std.specs.Result.{is_ok};
ghost use Rattle.spec_server.specs.Batches.{after_batch, or_as_before, pumping as spec_pumping};
ghost use Rattle.spec_store.specs.Store.{Store};
ghost use Rattle.spec_index.specs.World.{batch};
ghost use Rattle.side_by_side.specs.Naming.{IsNamedAs};
ghost use Rattle.side_by_side.specs.Standing.{with_slots};
ghost use Rattle.slot_batches.specs.Batches.{CountFew, after_batch_of, chosen};

use doc_store::Store;
use index_batch::next;
use index_version::{DefinitionMapper, IndexVersion};
use raven_base::{NoMemory, Steps};
use raven_reply::{Pumping, Pumpings};
use raven_value::Name;
use side_by_side::{Slot, Slots, is_named};
use std::alloc::Global;
use std::sync::Arc;
use std::sync::ledger::Ledger;
use std::thread::Threads;

// The version after the next batch of an index, or nothing if there is nothing to take in.
fn next_version<R: Threads + Sync, L: Ledger>(
    rt: &R,
    alloc: Global,
    store: &Store,
    slot: &Slot,
    max: u32,
    steps: &mut Steps<L>,
) -> Result<Option<IndexVersion>, NoMemory>
    ensures version { IfOk result (λ next. option_map (λ v. v.version) next ≡ batch slot.now.version store.now max) }
    ensures named { IfOk result (λ next. IfSome next (λ v. IsNamedAs slot.now.name v.name)) }
    ensures bounds { CountFew store.now max (slot.now ∷ []) (is_ok result) steps.old steps.new }
{
    let version = &slot.version;
    let mapper = DefinitionMapper {
        definition: version.definition(),
    };
    next(rt, alloc, version, store, &mapper, max, steps)
}

/// The version after the next batch of an index, of at most `max` rows, or nothing if the index has seen all that it reads.
/// A document is mapped at most once. Entries are merged only for a definition with a reduce.
#[tactic(auto, using(crate::proofs::Counting::counted))]
pub fn read<R: Threads + Sync, L: Ledger>(
    rt: &R,
    alloc: Global,
    store: &Store,
    slot: &Slot,
    max: u32,
    steps: &mut Steps<L>,
) -> Result<Option<Arc<IndexVersion>>, NoMemory>
    ensures version { IfOk result (λ read. option_map (λ v. v.value.version) read ≡ batch slot.now.version store.now max) }
    ensures named { IfOk result (λ read. IfSome read (λ v. IsNamedAs slot.now.name v.value.name)) }
    ensures bounds { CountFew store.now max (slot.now ∷ []) (is_ok result) steps.old steps.new }
{
    match next_version(rt, alloc, store, slot, max, steps)? {
        Some(version) => Ok(Some(Arc::new(alloc, version)?)),
        None => Ok(None),
    }
}

// The slot with what was read for it, and how far that brought it.
fn brought_to(slot: &Slot, read: Option<Arc<IndexVersion>>) -> Result<(Slot, Pumping), NoMemory>
    requires { IfSome read (λ v. IsNamedAs slot.now.name v.value.name) }
    ensures slot { IfOk result (λ new. new.0 ≡ record { number = slot.now.number; name = slot.now.name; version = or_as_before slot.now.version (option_map (λ v. v.value.version) read); row = slot.now.row }) }
    ensures pumped { IfOk result (λ new. new.1 ≡ record { from = slot.now.version.etag; index = slot.now.name; to = (or_as_before slot.now.version (option_map (λ v. v.value.version) read)).etag }) }
{
    let version = match read {
        Some(version) => version,
        None => slot.version.clone()?,
    };
    let pumping = Pumping {
        from: slot.version.etag(),
        index: slot.name.clone()?,
        to: version.etag(),
    };
    let new = Slot {
        number: slot.number,
        name: slot.name.clone()?,
        version,
        row: slot.row,
    };
    Ok((new, pumping))
}

// The slot after a batch, and how far that brought it.
#[tactic(auto, using(crate::proofs::Counting::counted))]
fn advanced<R: Threads + Sync, L: Ledger>(
    rt: &R,
    alloc: Global,
    store: &Store,
    slot: &Slot,
    max: u32,
    steps: &mut Steps<L>,
) -> Result<(Slot, Pumping), NoMemory>
    ensures slot { IfOk result (λ new. new.0 ≡ after_batch store.now max slot.now) }
    ensures pumped { IfOk result (λ new. new.1 ≡ spec_pumping store.now max slot.now) }
    ensures bounds { CountFew store.now max (slot.now ∷ []) (is_ok result) steps.old steps.new }
{
    let version = read(rt, alloc, store, slot, max, steps)?;
    brought_to(slot, version)
}

// Whether a batch is made of the slot.
fn is_chosen(slot: &Slot, index: Option<&Name>) -> bool
    ensures batch { chosen (option_copied index.entry) (slot.now ∷ []) ≡ cond result (slot.now ∷ []) [] }
    ensures after { (S : Store) (max : ℕ) → after_batch_of (option_copied index.entry) S max slot.now ≡ cond result (after_batch S max slot.now) slot.now }
{
    match index {
        Some(name) => is_named(slot, name.as_str()),
        None => true,
    }
}

// The slot, after a batch if one is made of it, and how far that brought it.
#[tactic(auto, using(crate::proofs::Counting::counted))]
fn advanced_if<R: Threads + Sync, L: Ledger>(
    rt: &R,
    alloc: Global,
    store: &Store,
    slot: &Slot,
    max: u32,
    index: Option<&Name>,
    steps: &mut Steps<L>,
) -> Result<(Slot, Option<Pumping>), NoMemory>
    ensures slot { IfOk result (λ new. new.0 ≡ after_batch_of (option_copied index.entry) store.now max slot.now) }
    ensures pumped { IfOk result (λ new. option_to_list new.1 ≡ map (spec_pumping store.now max) (chosen (option_copied index.entry) (slot.now ∷ []))) }
    ensures bounds { CountFew store.now max (chosen (option_copied index.entry) (slot.now ∷ [])) (is_ok result) steps.old steps.new }
{
    if !is_chosen(slot, index) {
        return Ok((slot.clone()?, None));
    }
    let (new, pumping) = advanced(rt, alloc, store, slot, max, steps)?;
    Ok((new, Some(pumping)))
}

fn add(pumped: &mut Pumpings, pumping: Option<Pumping>) -> Result<(), NoMemory>
    ensures { OnOk result (pumped.new ≡ pumped.old ++ option_to_list pumping) }
{
    if let Some(pumping) = pumping {
        pumped.push(pumping)?;
    }
    Ok(())
}

fn all_advanced<R: Threads + Sync, L: Ledger>(
    rt: &R,
    alloc: Global,
    store: &Store,
    slots: &[Slot],
    max: u32,
    index: Option<&Name>,
    steps: &mut Steps<L>,
) -> Result<(Vec<Slot>, Pumpings), NoMemory>
    ensures slots { IfOk result (λ new. new.0.items ≡ map (after_batch_of (option_copied index.entry) store.now max) slots.now) }
    ensures pumped { IfOk result (λ new. new.1 ≡ map (spec_pumping store.now max) (chosen (option_copied index.entry) slots.now)) }
    ensures bounds { CountFew store.now max (chosen (option_copied index.entry) slots.now) (is_ok result) steps.old steps.new }
{
    let mut new = Vec::with_capacity(alloc, slots.len())?;
    let mut pumped = Pumpings::new(alloc);
    for slot in slots {
        let (brought, pumping) = advanced_if(rt, alloc, store, slot, max, index, steps)?;
        new.push(brought)?;
        add(&mut pumped, pumping)?;
    }
    Ok((new, pumped))
}

/// Each index, or each that serves the name, after one batch of at most `max` rows, and how far it brought each of these, in order.
/// A document that several of them map counts for each, and so does a row that several of them read.
#[tactic(auto, using(crate::proofs::Counting::counted))]
pub fn bring_on<R: Threads + Sync, L: Ledger>(
    rt: &R,
    alloc: Global,
    store: &Store,
    slots: &Slots,
    max: u32,
    index: Option<&Name>,
    steps: &mut Steps<L>,
) -> Result<(Slots, Pumpings), NoMemory>
    ensures slots { IfOk result (λ new. new.0 ≡ with_slots slots.now (map (after_batch_of (option_copied index.entry) store.now max) slots.now.slots)) }
    ensures pumped { IfOk result (λ new. new.1 ≡ map (spec_pumping store.now max) (chosen (option_copied index.entry) slots.now.slots)) }
    ensures bounds { CountFew store.now max (chosen (option_copied index.entry) slots.now.slots) (is_ok result) steps.old steps.new }
{
    let (new, pumped) = all_advanced(rt, alloc, store, slots.list(), max, index, steps)?;
    Ok((slots.with_list(alloc, new)?, pumped))
}
