//! Which automatic index answers a query.
ghost use Rattle.std.specs.Prelude.{◌≡◌, IfOk, IfSome, Some, filter, option_map};
ghost use Rattle.spec_store.specs.Store as model;
ghost use Rattle.spec_index.specs.Optimiser.{beats as spec_beats, best, better as spec_better, covers, pick as spec_pick, slot_shape};
ghost use Rattle.index_definition.specs.ShapeView.{shape_view};
ghost use Rattle.query_optimizer.specs.ChoiceView.{IsTested, choice_view, slot_of};

use crate::widths::{can_answer, shapes_of, width};
use auto_merge::widen;
use doc_store::Store;
use index_definition::Shape;
use raven_base::NoMemory;
use side_by_side::Slot;
use std::alloc::Global;

/// What answers a query that asks for an automatic index.
#[derive(Drop)]
pub enum Choice<'a> {
    /// This index.
    Use(&'a Slot),

    /// A new index of this shape.
    Make(Shape),
}

// An index, and whether it is fresh. The store is asked once for it.
#[derive(Drop)]
struct Candidate<'a> {
    slot: &'a Slot,
    fresh: bool,
}

fn tested<'a>(store: &Store, slot: &'a Slot) -> Candidate<'a>
    ensures slot { result.slot.now ≡ slot.now }
    ensures fresh { IsTested store.now result }
{
    Candidate {
        slot,
        fresh: !slot.is_stale(store),
    }
}

// Whether the first is fresh and the other is not or, if there is no such difference, has fewer fields.
fn beats(a: &Candidate, b: &Candidate) -> bool
    ensures { (S : model.Store) → IsTested S a.now → IsTested S b.now → result ≡ spec_beats S a.now.slot.now b.now.slot.now }
{
    (a.fresh && !b.fresh) || ((a.fresh || !b.fresh) && width(a.slot) < width(b.slot))
}

// The index, unless the best of the later ones beats it.
fn better<'a>(candidate: Candidate<'a>, later: Option<Candidate<'a>>) -> Candidate<'a>
    ensures best { (S : model.Store) → IsTested S candidate.entry → IfSome later.entry (IsTested S) → Some (slot_of result) ≡ spec_better S candidate.entry.slot.now (option_map slot_of later.entry) }
    ensures tested { (S : model.Store) → IsTested S candidate.entry → IfSome later.entry (IsTested S) → IsTested S result }
{
    let Some(other) = later else {
        return candidate;
    };
    if beats(&other, &candidate) {
        other
    } else {
        candidate
    }
}

// The best of the indexes that can answer the query.
fn best_of<'a>(store: &Store, slots: &'a [Slot], shape: &Shape) -> Option<Candidate<'a>>
    ensures { option_map slot_of result ≡ best store.now (filter (λ s. covers (slot_shape s) (shape_view shape.now)) slots.now) }
{
    let mut found: Option<Candidate<'a>> = None;
    let mut i = slots.len();
    while i > 0 {
        i -= 1;
        let slot = &slots[i];
        if can_answer(slot, shape) {
            found = Some(better(tested(store, slot), found));
        }
    }
    found
}

/// The best of the indexes that can answer a query of this shape: it is fresh if there is a fresh one, and then it has the fewest fields. If
/// there is none, the shape of a new index, which takes in the fields of the others.
pub fn pick<'a>(
    alloc: Global,
    store: &Store,
    slots: &'a [Slot],
    shape: &Shape,
) -> Result<Choice<'a>, NoMemory>
    ensures { IfOk result (λ choice. choice_view choice ≡ spec_pick (shape_view shape.now) store.now slots.now) }
{
    if let Some(best) = best_of(store, slots, shape) {
        return Ok(Choice::Use(best.slot));
    }
    let shapes = shapes_of(alloc, slots)?;
    Ok(Choice::Make(widen(alloc, shape, &shapes)?))
}
