//! The grammar of maps: which tokens spell which map, and at which token any other text is refused.
#![tactic(auto)]

mod laws;
mod spelled;

pub use laws::maps_are_read_exactly;
pub use spelled::{Origin, PlacedMember, PlacedMembers, SpelledMap};
