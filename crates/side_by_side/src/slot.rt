//! Live indexes.
ghost use Rattle.std.specs.Prelude.{◌≡◌, IfOk, MatchOption, None, Some};
ghost use Rattle.spec_index.specs.Optimiser.{slot_shape};
ghost use Rattle.spec_index.specs.World.{new_version, is_named as spec_is_named, newest_read, is_stale as spec_is_stale};
ghost use Rattle.index_definition.specs.DefinitionView.{definition_view};
ghost use Rattle.index_definition.specs.ShapeView.{shape_view};
ghost use Rattle.side_by_side.specs.Naming.{IsNamedAs};

use doc_store::Store;
use index_definition::{Definition, Shape};
use index_version::IndexVersion;
use raven_base::NoMemory;
use raven_value::Name;
use std::alloc::{AllocError, Global};
use std::marker::Model;
use std::sync::Arc;

/// A live index, which its copies share. Its definition has its name, but that of a replacement has the name that it is to take.
pub struct Slot {
    /// The etag at which it was made, which no other has.
    pub number: u64,

    /// The name that it serves. That of a replacement begins with `ReplacementOf/`.
    pub name: Name,

    /// How far it has come.
    pub version: Arc<IndexVersion>,

    /// The etag of the row of its definition.
    pub row: u64,
}

// Opaque drop: see raven_base.
impl Drop for Slot {
    fn drop(self) {
        let Slot {
            number: _number,
            name: _name,
            version: _version,
            row: _row,
        } = self;
    }
}

impl Model for Slot {
    ghost use Rattle.spec_index.specs.World as world;
    ghost use Rattle.spec_index.specs.Codes.{slot_code};
    ghost use Rattle.side_by_side.specs.Naming.{IsNamedAs};

    ghost Value = { world.Slot };

    ghost coded = { slot_code };

    ghost view = { λ a. record { number = a.number; name = a.name; version = a.version.value.version; row = a.row } };

    ghost invariant = { λ a. IsNamedAs a.name a.version.value.name };
}

impl Clone for Slot {
    ghost is_clone = { λ s t. t ≡ s };

    fn clone(&self) -> Result<Slot, AllocError> {
        Ok(Slot {
            number: self.number,
            name: self.name.clone()?,
            version: self.version.clone()?,
            row: self.row,
        })
    }
}

impl Slot {
    /// The index of a definition whose row has this etag. It has recorded nothing yet.
    pub fn fresh(
        alloc: Global,
        row: u64,
        name: Name,
        definition: Arc<Definition>,
    ) -> Result<Slot, NoMemory>
        requires { IsNamedAs name definition.value.name }
        ensures { IfOk result (λ slot. slot ≡ record { number = row; name = name; version = new_version (definition_view definition.value.body); row = row }) }
    {
        let version = Arc::new(alloc, IndexVersion::fresh(alloc, definition)?)?;
        Ok(Slot {
            number: row,
            name,
            version,
            row,
        })
    }

    /// The etag of the newest row that it reads, 0 if there is none.
    pub fn newest(&self, store: &Store) -> u64
        ensures { result ≡ newest_read store.now self.now }
    {
        store.newest(self.version.scope(), None)
    }

    /// Whether the store has a row that it reads and has not seen.
    pub fn is_stale(&self, store: &Store) -> bool
        ensures { result ≡ spec_is_stale store.now self.now }
    {
        let version = &self.version;
        store.stale(version.scope(), version.etag(), None)
    }

    /// The shape of an automatic index; another has none.
    pub fn shape(&self) -> Option<&Shape>
        ensures { MatchOption result (slot_shape self.now ≡ None) (λ shape. slot_shape self.now ≡ Some (shape_view shape.now)) }
    {
        let version = &self.version;
        version.definition().body.shape()
    }
}

/// Whether the slot serves the name, which is compared without regard to case.
pub fn is_named(slot: &Slot, name: &str) -> bool
    ensures { result ≡ spec_is_named name.now slot.now }
{
    name.eq_ignore_ascii_case(slot.name.as_str())
}
