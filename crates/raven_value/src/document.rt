//! Documents, which are kept as their text.
ghost use Rattle.std.specs.Prelude.{◌≡◌, ◌≤◌, IfSome, length};
ghost use Rattle.spec_data.specs.Data.{depth};
ghost use Rattle.spec_data.specs.Limits.{max_depth};
ghost use Rattle.spec_data.specs.Sound.{IsSound};
ghost use Rattle.spec_data.specs.Written.{text_of};
ghost use Rattle.raven_value.specs.DocumentView.{IsHead, IsWritten, Splits, data_in};

use crate::text::Text;
use raven_base::Exact;
use std::alloc::AllocError;
use std::marker::Model;

/// How many bytes stand before the value of a first member `@metadata`.
const FRONT: usize = 13;

/// A document: the JSON text that is written for it, which its copies share. Contracts see it as the data that the text is read as.
pub struct Document {
    text: Text,

    // How long the text of the metadata is, if it is the first member and an object; else 0.
    head: u32,
}

// Opaque drop: see raven_base.
impl Drop for Document {
    fn drop(self) {
        let Document {
            text: _text,
            head: _head,
        } = self;
    }
}

impl Model for Document {
    ghost use Rattle.spec_data.specs.Data.{Data};
    ghost use Rattle.spec_data.specs.DataCode.{data_code};

    ghost Value = { Data };

    ghost coded = { data_code };

    ghost use Rattle.raven_value.specs.DocumentView.{IsHead, IsWritten, data_in};

    ghost view = { λ a. data_in a.text };

    ghost invariant = { λ a. IsWritten a.text × IsHead a.head (data_in a.text) };
}

impl Document {
    /// The document of this text, in which the metadata takes so many bytes if it is the first member and an object. It takes no memory.
    pub fn of_text(text: Text, head: u32) -> Document
        requires written { IsWritten text }
        requires head { IsHead head (data_in text) }
        ensures { result ≡ data_in text }
    {
        Document { text, head }
    }

    /// The text.
    pub fn text(&self) -> &Text
        ensures text { result.now ≡ text_of self.now }
        ensures sound { IsSound self.now }
        ensures shallow { depth self.now ≤ max_depth }
    {
        &self.text
    }

    /// How many bytes the text has.
    pub fn len(&self) -> usize
        ensures { result ≡ length (text_of self.now) }
    {
        self.text.as_str().len()
    }

    /// The text of the metadata and the text behind it, if the metadata is the first member and an object.
    pub fn parts(&self) -> Option<(&[u8], &[u8])>
        ensures parts { IfSome result (λ parts. Splits self.now parts.0.now parts.1.now) }
        ensures sound { IsSound self.now }
        ensures shallow { depth self.now ≤ max_depth }
    {
        let head = self.head as usize;
        if head == 0 {
            return None;
        }
        let rest = &self.text.as_str().as_bytes()[FRONT..];
        Some((&rest[..head], &rest[head..]))
    }
}

impl Clone for Document {
    ghost is_clone = { λ s t. t ≡ s };

    fn clone(&self) -> Result<Document, AllocError> {
        Ok(Document {
            text: self.text.clone()?,
            head: self.head,
        })
    }
}

impl Exact for Document {
    ghost exact = { λ x y same. same };
}
