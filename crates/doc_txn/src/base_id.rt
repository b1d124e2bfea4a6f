//! The base id of a database, and the vectors of its documents.
ghost use Rattle.std.specs.Prelude.{◌≡◌, IfOk, IsTrue};
ghost use Rattle.std.specs.List.{list_all};
ghost use Rattle.std.specs.Char.{is_ascii_alphanumeric};
ghost use Rattle.spec_store.specs.Commit.{vector_of};
ghost use Rattle.spec_store.specs.Limits.{base_id, is_base_id as spec_is_base_id};
ghost use Rattle.doc_txn.specs.BaseId.{read_base_id};

use raven_base::NoMemory;
use raven_value::Text;
use std::alloc::{AllocError, Global};
use std::marker::Model;

/// How many letters and digits a base id has.
const BASE_LEN: usize = 22;

/// The base id of a database: 22 ASCII letters or digits.
#[derive(Drop)]
pub struct BaseId {
    text: Text,
}

impl Model for BaseId {
    ghost use Rattle.std.specs.Prelude.{List, ℕ};

    ghost Value = { List ℕ };

    ghost view = { λ a. a.text };

    ghost use Rattle.std.specs.Prelude.{IsTrue};
    ghost use Rattle.spec_store.specs.Limits.{is_base_id};

    ghost invariant = { λ a. IsTrue (is_base_id a.text) };
}

fn are_alphanumeric(bytes: &[u8]) -> bool
    ensures { result ≡ list_all is_ascii_alphanumeric bytes.now }
{
    bytes.iter().all(|byte| byte.is_ascii_alphanumeric())
}

/// Whether a text is a base id: 22 ASCII letters or digits.
pub fn is_base_id(text: &str) -> bool
    ensures { result ≡ spec_is_base_id text.now }
{
    text.len() == BASE_LEN && are_alphanumeric(text.as_bytes())
}

impl BaseId {
    /// The base id of this spelling, if it is one.
    pub fn new(alloc: Global, text: &str) -> Result<Option<BaseId>, NoMemory>
        ensures { IfOk result (λ base. base ≡ read_base_id text.now) }
    {
        if !is_base_id(text) {
            return Ok(None);
        }
        Ok(Some(BaseId {
            text: Text::of(alloc, text)?,
        }))
    }

    /// The base id of the program, 22 letters `A`.
    pub fn program(alloc: Global) -> Result<BaseId, NoMemory>
        ensures { IfOk result (λ base. base ≡ base_id) }
    {
        Ok(BaseId {
            text: Text::of(alloc, "AAAAAAAAAAAAAAAAAAAAAA")?,
        })
    }

    /// The spelling.
    pub fn as_str(&self) -> &str
        ensures spelling { result.now ≡ self.now }
        ensures fit { IsTrue (spec_is_base_id result.now) }
    {
        self.text.as_str()
    }
}

impl Clone for BaseId {
    ghost is_clone = { λ s t. t ≡ s };

    fn clone(&self) -> Result<BaseId, AllocError> {
        Ok(BaseId {
            text: self.text.clone()?,
        })
    }
}

/// The vector of a document with this etag.
pub fn vector(alloc: Global, etag: u64, base: &BaseId) -> Result<Text, NoMemory>
    ensures { IfOk result (λ vector. vector ≡ vector_of base.now etag) }
{
    let mut vector = String::from_str(alloc, "A:")?;
    vector.push_str(etag.to_string(alloc)?.as_str())?;
    vector.push_str("-")?;
    vector.push_str(base.as_str())?;
    Text::of_string(vector)
}
