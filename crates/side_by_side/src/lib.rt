//! The live indexes of a database side by side: which one serves a name, and how one is defined, removed, and replaced by another that was
//! built beside it.
#![tactic(auto)]

mod change;
mod define;
mod lists;
mod naming;
mod note;
mod parts;
mod remove;
mod retire;
mod slot;
mod slots;
mod switch;
mod waiting;

pub use change::{SlotChange, SlotRefusal};
pub use lists::serving_in;
pub use naming::{index_id, is_reserved_name, with_number};
pub use note::Note;
pub use parts::Parts;
pub use retire::Retirement;
pub use slot::{Slot, is_named};
pub use slots::Slots;
