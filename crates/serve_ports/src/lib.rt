//! What a server with threads uses of the outside: doors, at which connections come in, and gates.
#![tactic(auto)]

mod calls;
mod door;
mod gate;
mod mem_door;

pub use calls::Calls;
pub use door::Door;
pub use gate::{Gate, OpenGate, Point};
pub use mem_door::MemDoor;
