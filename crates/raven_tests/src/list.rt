//! A list that only grows.
ghost use Rattle.std.specs.Prelude.{◌≡◌, [], length};

use crate::rising::Rising;
use raven_base::{NoMemory, Sequence};
use raven_turn::Grows;
use std::alloc::Global;
use std::marker::Model;

/// The tags of all that were added, in order. Contracts see it as their list.
#[derive(Drop)]
pub struct Entries {
    tags: Sequence<u64>,
}

impl Model for Entries {
    ghost use Rattle.std.specs.Prelude.{ℕ, List};

    ghost Value = { List ℕ };

    ghost view = { λ e. e.tags };
}

impl Entries {
    /// No tags.
    pub fn new(alloc: Global) -> Entries
        ensures { result ≡ [] }
    {
        Entries {
            tags: Sequence::new(alloc),
        }
    }

    /// The tags as a slice.
    pub fn as_slice(&self) -> &[u64]
        ensures { result.now ≡ self.now }
    {
        self.tags.as_slice()
    }
}

impl Grows for Entries {
    ghost use Rattle.std.specs.Prelude.{◌≡◌, length};
    ghost use Rattle.raven_tests.specs.Begins.{Begins, begins_itself, begins_on, begins_shorter};

    type Shot = usize;

    ghost later = { Begins };

    ghost made = { length };

    ghost shows = { λ x shot. shot ≡ length x };

    fn shot(&self, _alloc: Global) -> Result<usize, NoMemory> {
        Ok(self.tags.len())
    }

    ghost reflexive = { begins_itself };

    ghost transitive = { begins_on };

    ghost no_less = { begins_shorter };
}

impl Rising for Entries {
    fn raise(&mut self, _alloc: Global, tag: u64) -> bool {
        self.tags.push(tag).is_ok()
    }

    fn number(shot: usize) -> u64 {
        shot as u64
    }
}
