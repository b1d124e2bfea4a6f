//! The shapes of live indexes.
ghost use Rattle.std.specs.Prelude.{◌≡◌, IfOk, map};
ghost use Rattle.std.specs.List.{filter_map};
ghost use Rattle.spec_index.specs.Optimiser.{covers as spec_covers, slot_shape, width as spec_width};
ghost use Rattle.index_definition.specs.ShapeView.{shape_view};

use auto_merge::covers;
use index_definition::Shape;
use raven_base::NoMemory;
use side_by_side::Slot;
use std::alloc::Global;

/// Whether the index can answer a query that asks for this shape.
pub fn can_answer(slot: &Slot, shape: &Shape) -> bool
    ensures { result ≡ spec_covers (slot_shape slot.now) (shape_view shape.now) }
{
    match slot.shape() {
        Some(own) => covers(own, shape),
        None => false,
    }
}

/// How many fields it has, 0 if it is not automatic.
pub fn width(slot: &Slot) -> usize
    ensures { result ≡ spec_width slot.now }
{
    match slot.shape() {
        Some(shape) => shape.fields.len(),
        None => 0,
    }
}

/// The shapes of those that are automatic.
pub fn shapes_of<'a>(alloc: Global, slots: &'a [Slot]) -> Result<Vec<&'a Shape>, NoMemory>
    ensures { IfOk result (λ shapes. map (λ s. shape_view s.now) shapes.items ≡ filter_map slot_shape slots.now) }
{
    let mut shapes = Vec::new(alloc);
    for slot in slots {
        if let Some(shape) = slot.shape() {
            shapes.push(shape)?;
        }
    }
    Ok(shapes)
}
