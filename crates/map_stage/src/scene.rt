//! What is at hand while a document is mapped.
ghost use Rattle.std.specs.Prelude.{◌≡◌, IfOk};
ghost use Rattle.index_tree.specs.Evaluate.{value_of};
ghost use Rattle.map_stage.specs.HeldView.{held_of};
ghost use Rattle.map_stage.specs.Reached.{bindings_of};

use crate::held::Held;
use raven_base::NoMemory;
use raven_value::Text;
use std::alloc::Global;

/// A name and its value.
pub struct Binding<'a> {
    pub name: &'a Text,
    pub value: Held<'a>,
}

// Opaque drop: see raven_base.
impl<'a> Drop for Binding<'a> {
    fn drop(self) {
        let Binding {
            name: _name,
            value: _value,
        } = self;
    }
}

/// The memory, the rows that loads find, and the names bound so far, the latest last.
#[derive(Drop)]
pub struct Scene<'a, T> {
    pub alloc: Global,
    pub rows: &'a T,
    pub bound: Vec<Binding<'a>>,
}

/// The value that the name was bound to last, or null.
pub fn value_of<'a>(bound: &[Binding<'a>], name: &Text) -> Result<Held<'a>, NoMemory>
    ensures { IfOk result (λ held. held_of held ≡ value_of name.now (bindings_of bound.now)) }
{
    for binding in bound.iter().rev() {
        if *name == *binding.name {
            return binding.value.copy();
        }
    }
    Ok(Held::Null)
}
