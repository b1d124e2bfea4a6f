//! Names that no index has.
ghost use Rattle.std.specs.Prelude.{◌≡◌, ◌<◌, ◌^◌, IfOk, is_some, length, string_bytes};
ghost use Rattle.spec_index.specs.Optimiser.{first_free as spec_first_free};
ghost use Rattle.spec_index.specs.World.{serving as spec_serving};

use raven_base::NoMemory;
use side_by_side::{Slot, serving_in, with_number};
use std::alloc::Global;

// Whether some index serves the name.
fn is_served(slots: &[Slot], name: &str) -> bool
    ensures { result ≡ is_some (spec_serving slots.now name.now) }
{
    serving_in(slots, name).is_some()
}

/// The name, or with the least number from 2 on behind it that no index serves.
#[tactic(auto, using(crate::proofs::Clean::tries))]
pub fn first_free(alloc: Global, slots: &[Slot], name: String) -> Result<String, NoMemory>
    requires { length slots.now < 2 ^ 32 }
    ensures { IfOk result (λ text. string_bytes text ≡ spec_first_free (string_bytes name) slots.now) }
{
    if !is_served(slots, name.as_str()) {
        return Ok(name);
    }
    for tries in 0..slots.len() {
        let text = with_number(alloc, name.as_str(), tries as u64 + 2)?;
        if !is_served(slots, text.as_str()) {
            return Ok(text);
        }
    }
    with_number(alloc, name.as_str(), slots.len() as u64 + 2)
}
