//! What is shown of results, and of the documents that are included.
ghost use Rattle.std.specs.Prelude.{◌≡◌, ◌++◌, [], IfOk, OnErr, OnOk};
ghost use Rattle.raven_json.specs.Shown.{shown_with};
ghost use Rattle.raven_json.specs.ShownView.{shown_view};
ghost use Rattle.raven_value.specs.View.{data_of};
ghost use Rattle.spec_data.specs.Rising.{put};
ghost use Rattle.spec_data.specs.Written.{text_of};

use crate::document::value_of;
use crate::encode::write_to;
use crate::splice::{with_metadata, write_shown};
use raven_base::{NoMemory, Sequence};
use raven_value::{Document, Text, Value, put_named};
use std::alloc::Global;
use std::marker::Model;

/// A value, or a document with other metadata.
enum Form {
    Value(Value),
    Document(Document, Value),
}

// Opaque drop: see raven_base.
impl Drop for Form {
    fn drop(self) {
        match self {
            Form::Value(_value) => {}
            Form::Document(_document, _metadata) => {}
        }
    }
}

/// What is shown: a value, or a document with other metadata, whose text is put together only when it is written.
pub struct Shown {
    form: Form,
}

// Opaque drop: see raven_base.
impl Drop for Shown {
    fn drop(self) {
        let Shown { form: _form } = self;
    }
}

impl Model for Shown {
    ghost use Rattle.spec_data.specs.Data.{Data};
    ghost use Rattle.spec_data.specs.DataCode.{data_code};
    ghost use Rattle.raven_json.specs.ShownView.{shown_view};

    ghost Value = { Data };

    ghost coded = { data_code };

    ghost view = { λ a. shown_view a.form };
}

impl Shown {
    /// This value.
    pub fn of_value(value: Value) -> Shown
        ensures { result ≡ data_of value }
    {
        Shown {
            form: Form::Value(value),
        }
    }

    /// This document with this metadata, if it is an object.
    pub fn of_document(document: Document, metadata: Value) -> Shown
        ensures { result ≡ shown_with document (data_of metadata) }
    {
        Shown {
            form: Form::Document(document, metadata),
        }
    }

    /// The value. A document is read for it, and any other value is copied.
    pub fn to_value(&self, alloc: Global) -> Result<Value, NoMemory>
        ensures { IfOk result (λ value. data_of value ≡ self.now) }
    {
        match &self.form {
            Form::Value(value) => Ok(value.clone()?),
            Form::Document(document, metadata) => {
                with_metadata(alloc, value_of(alloc, document)?, metadata)
            }
        }
    }

    /// Appends the compact text.
    pub fn write_to(&self, alloc: Global, out: &mut Vec<u8>) -> Result<(), NoMemory>
        ensures { OnOk result (out.new.items ≡ out.old.items ++ text_of self.now) }
    {
        match &self.form {
            Form::Value(value) => write_to(alloc, out, value),
            Form::Document(document, metadata) => write_shown(alloc, out, document, metadata),
        }
    }
}

/// What is shown, in order.
pub type ShownList = Sequence<Shown>;

/// What is shown under names, rising by the bytes of the names, so that each name is there once.
pub struct ShownMembers {
    items: Vec<(Text, Shown)>,
}

// Opaque drop: see raven_base.
impl Drop for ShownMembers {
    fn drop(self) {
        let ShownMembers { items: _items } = self;
    }
}

impl Model for ShownMembers {
    ghost use Rattle.std.specs.Prelude.{List, ℕ};
    ghost use Rattle.std.specs.Coded.{coded_list, coded×, coded_ℕ};
    ghost use Rattle.spec_data.specs.Data.{Data};
    ghost use Rattle.spec_data.specs.DataCode.{data_code};
    ghost use Rattle.spec_data.specs.Rising.{IsRising};

    ghost Value = { List (List ℕ × Data) };

    ghost coded = { coded_list (coded× (coded_list coded_ℕ) data_code) };

    ghost view = { λ a. a.items.items };

    ghost invariant = { λ a. IsRising a.items.items };
}

impl ShownMembers {
    /// Nothing.
    pub fn new(alloc: Global) -> ShownMembers
        ensures { result ≡ [] }
    {
        ShownMembers {
            items: Vec::new(alloc),
        }
    }

    /// Puts what is shown at a name, in place of what is there.
    pub fn put(&mut self, name: Text, shown: Shown) -> Result<(), NoMemory>
        ensures ok { OnOk result (self.new ≡ put name shown self.old) }
        ensures err { OnErr result (self.new ≡ self.old) }
    {
        put_named(&mut self.items, name, shown)
    }

    /// What is shown, in the order of the names.
    pub fn as_slice(&self) -> &[(Text, Shown)]
        ensures { result.now ≡ self.now }
    {
        &self.items
    }
}
