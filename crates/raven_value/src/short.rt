//! Short texts, whose bytes lie in the value itself.
ghost use Rattle.std.specs.Prelude.{◌≡◌, IfSome};

use std::marker::Model;
use std::str;

/// How many bytes a short text has at most.
const ROOM: usize = 22;

/// A text of at most 22 bytes, seen by contracts as these.
#[derive(Drop)]
pub(crate) struct Short {
    len: u8,
    bytes: [u8; ROOM],
}

impl Model for Short {
    ghost use Rattle.std.specs.Prelude.{List, ℕ, ◌≤◌, take, IsUtf8};

    ghost Value = { List ℕ };

    ghost view = { λ a. take a.len a.bytes };

    ghost invariant = { λ a. (a.len ≤ 22) × ∥ IsUtf8 (take a.len a.bytes) ∥₁ };
}

impl Short {
    /// The text, if it is short enough.
    pub(crate) fn of(text: &str) -> Option<Short>
        ensures { IfSome result (λ short. short ≡ text.now) }
    {
        let len = text.len();
        if ROOM < len {
            return None;
        }
        let mut bytes = [0; ROOM];
        bytes[..len].copy_from_slice(text.as_bytes());
        Some(Short {
            len: len as u8,
            bytes,
        })
    }

    /// The same text.
    pub(crate) fn copy(&self) -> Short
        ensures { result ≡ self.now }
    {
        Short {
            len: self.len,
            bytes: self.bytes,
        }
    }

    /// The text.
    pub(crate) fn as_str(&self) -> &str
        ensures { result.now ≡ self.now }
    {
        unsafe { str::from_utf8_unchecked(&self.bytes[..self.len as usize]) }
    }
}
