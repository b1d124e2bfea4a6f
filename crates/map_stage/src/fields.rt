//! The fields of an entry.
ghost use Rattle.std.specs.Prelude.{◌≡◌, [], IfOk, OnOk, OnErr, map, option_map};
ghost use Rattle.spec_data.specs.Rising.{put};
ghost use Rattle.raven_value.specs.ScalarView.{scalar_view};
ghost use Rattle.index_tree.specs.Meaning.{field_named};
ghost use Rattle.map_stage.specs.FieldView.{field_view};

use raven_base::NoMemory;
use raven_value::{Scalar, Text, put_named};
use std::alloc::Global;
use std::marker::Model;

/// The fields of an entry, rising by the bytes of their names, so that each name is there once.
pub struct Entry {
    items: Vec<(Text, Scalar)>,
}

// Opaque drop: see raven_base.
impl Drop for Entry {
    fn drop(self) {
        let Entry { items: _items } = self;
    }
}

impl Model for Entry {
    ghost use Rattle.std.specs.Prelude.{map};
    ghost use Rattle.std.specs.Coded.{coded_list, coded×};
    ghost use Rattle.spec_data.specs.Codes.{text_code, scalar_code};
    ghost use Rattle.spec_data.specs.Rising.{IsRising};
    ghost use Rattle.index_tree.specs.Meaning.{Fields};
    ghost use Rattle.map_stage.specs.FieldView.{field_view};

    ghost Value = { Fields };

    ghost coded = { coded_list (coded× text_code scalar_code) };

    ghost view = { λ a. map field_view a.items.items };

    ghost invariant = { λ a. IsRising (map field_view a.items.items) };
}

impl Entry {
    /// No fields.
    pub fn new(alloc: Global) -> Entry
        ensures { result ≡ [] }
    {
        Entry {
            items: Vec::new(alloc),
        }
    }

    /// No fields, with room for so many.
    pub fn with_room(alloc: Global, fields: usize) -> Result<Entry, NoMemory>
        ensures { IfOk result (λ entry. entry ≡ []) }
    {
        Ok(Entry {
            items: Vec::with_capacity(alloc, fields)?,
        })
    }

    /// Puts a value at a name, in place of the one there.
    #[tactic(auto, using(crate::proofs::FieldLemmas::fields))]
    pub fn put(&mut self, name: Text, value: Scalar) -> Result<(), NoMemory>
        ensures ok { OnOk result (self.new ≡ put name (scalar_view value) self.old) }
        ensures err { OnErr result (self.new ≡ self.old) }
    {
        put_named(&mut self.items, name, value)
    }

    /// The fields, in order.
    pub fn as_slice(&self) -> &[(Text, Scalar)]
        ensures { map field_view result.now ≡ self.now }
    {
        self.items.as_slice()
    }

    /// The value of the field of that name, if there is one.
    pub fn get(&self, name: &str) -> Option<&Scalar>
        ensures { option_map (λ v. scalar_view v.now) result ≡ field_named name.now self.now }
    {
        for field in &self.items {
            if name == field.0.as_str() {
                return Some(&field.1);
            }
        }
        None
    }
}
