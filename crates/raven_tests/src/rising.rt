//! Values that grow by one, and the act that makes them do so.
ghost use Rattle.std.specs.Prelude.{◌≡◌, ◌+◌, if◌then◌else◌};

use raven_turn::{Act, Grows};
use std::alloc::Global;
use std::sync::Wait;

/// A value that can grow by one.
pub trait Rising: Grows {
    /// Grows by one and remembers the tag, or returns false and does not grow.
    fn raise(&mut self, alloc: Global, tag: u64) -> bool
        ensures later { Self.later self.old self.new }
        ensures made { Self.made self.new ≡ Self.made self.old + (if result then 1 else 0) };

    /// The number that a snapshot shows.
    fn number(shot: Self::Shot) -> u64;
}

/// Raises the value by one.
#[derive(Drop)]
pub struct Raise {
    pub alloc: Global,
    pub tag: u64,
}

impl<V: Rising> Act<V> for Raise {
    ghost use Rattle.std.specs.Prelude.{◌≡◌, ◌+◌, if◌then◌else◌};

    type Out = bool;

    ghost needs = { λ act x. Unit {0} };

    ghost does = { λ act x out y. V.made y ≡ V.made x + (if out then 1 else 0) };

    fn act<R: Wait>(self, _rt: &R, value: &mut V) -> bool {
        value.raise(self.alloc, self.tag)
    }

    ghost stable = { λ act x y a b. tt };
}
