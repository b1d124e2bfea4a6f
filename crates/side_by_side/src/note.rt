//! Notes of switches.
ghost use Rattle.std.specs.Prelude.{◌≡◌};

use raven_value::Name;
use std::alloc::AllocError;
use std::marker::Model;

/// A switch of a name from one index to another, which was not stale.
pub struct Note {
    /// The etag of the row that the switch put.
    pub etag: u64,

    /// The name.
    pub name: Name,

    /// The number of the index that served it before.
    pub old: u64,

    /// The number of the index that has served it since.
    pub new: u64,

    /// How far the new index had come.
    pub index_etag: u64,

    /// The etag of the newest row that it reads, which is no greater.
    pub newest: u64,
}

// Opaque drop: see raven_base.
impl Drop for Note {
    fn drop(self) {
        let Note {
            etag: _etag,
            name: _name,
            old: _old,
            new: _new,
            index_etag: _index_etag,
            newest: _newest,
        } = self;
    }
}

impl Model for Note {
    ghost use Rattle.spec_index.specs.World as world;
    ghost use Rattle.spec_index.specs.Codes.{note_code};

    ghost Value = { world.Note };

    ghost coded = { note_code };

    ghost view = { λ a. record { etag = a.etag; name = a.name; old = a.old; new = a.new; index_etag = a.index_etag; newest = a.newest } };
}

impl Clone for Note {
    ghost is_clone = { λ s t. t ≡ s };

    fn clone(&self) -> Result<Note, AllocError> {
        Ok(Note {
            etag: self.etag,
            name: self.name.clone()?,
            old: self.old,
            new: self.new,
            index_etag: self.index_etag,
            newest: self.newest,
        })
    }
}
