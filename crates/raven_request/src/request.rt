//! What clients ask of the database, and why what they send is not read.
ghost use Rattle.std.specs.Prelude.{◌≡◌};
ghost use Rattle.raven_request.specs.declared.request.ReadRefusal.TheVariants.{NoMemory as OutOfMemory};

use doc_txn::{Commands, Expect};
use index_definition::{LangKind, Part};
use index_lang::TextDefinition;
use raven_base::NoMemory;
use raven_value::{Id, IdRefusal, Name, Text, Value};
use rql_grammar::RqlKind;
use rql_plan::QueryAsk;
use std::alloc::AllocError;
use thiserror::Error;

/// A request to the database.
#[derive(Drop)]
pub enum Request {
    /// Write the document of this id.
    Put {
        /// The id of the document.
        id: Id,
        /// The vector that the document has to have.
        expected: Expect,
        /// The document.
        body: Value,
    },

    /// Delete the document of this id, if there is one.
    Delete {
        /// The id of the document.
        id: Id,
        /// The vector that the document has to have.
        expected: Expect,
    },

    /// Take these commands in order, all of them or none.
    Bulk {
        /// The commands.
        commands: Commands,
    },

    /// Show the document of this id.
    Get {
        /// The id of the document.
        id: Id,
    },

    /// Define an index.
    Define {
        /// Its name, and what it says.
        definition: TextDefinition,
    },

    /// Define the parts of an index of several maps, one after another.
    Multi {
        /// The name of each part, and what it says.
        parts: Vec<TextDefinition>,
    },

    /// Remove the index of this name.
    Remove {
        /// The name of the index.
        name: Name,
    },

    /// Pick the automatic index of a collection by one field, or make one.
    Auto {
        /// The collection that is indexed.
        collection: Text,
        /// The member that is indexed.
        field: Text,
    },

    /// Find the documents of an index by the text of one field.
    Find {
        /// The name of the index.
        index: Name,
        /// The field that is compared.
        field: Text,
        /// The text that it has, whatever its case.
        text: Text,
    },

    /// Answer a query.
    Ask {
        /// The query, its parameters and its page.
        ask: QueryAsk,
    },

    /// Answer a query of an index of several maps.
    Mask {
        /// The query, its parameters and its page.
        ask: QueryAsk,
    },

    /// Let each index, or the one that is named, catch up by one batch.
    Pump {
        /// How many rows a batch may take, from 1 to 65,536.
        max: u32,
        /// The name of the index, if only one is to catch up.
        index: Option<Name>,
    },

    /// Let the replacement of the index of this name take the name.
    Switch {
        /// The name of the index.
        name: Name,
    },

    /// Let each replacement that does not lag take its name, and let automatic indexes go that are no longer needed.
    Tidy,

    /// Let the tombstones go that no index has to read any more.
    Clean,

    /// Report how far an index is.
    Stale {
        /// The name of the index.
        name: Name,
        /// The greatest etag that counts, if there is one.
        cutoff: Option<u64>,
    },

    /// Report on each index.
    Indexes,

    /// Report how much the database has.
    Stats,
}

/// Why what a client sends is not read.
#[derive(Debug, Drop, Error)]
pub enum ReadRefusal {
    /// The line is none of those of a script.
    #[error("the line is not known")]
    UnknownLine,

    /// What has to be JSON is not.
    #[error("the text is not JSON")]
    NotJson,

    /// A number of the JSON is not a whole number of 64 bits.
    #[error("a number is not a whole number of 64 bits")]
    NumberNotWhole,

    /// The JSON is more than 100 deep.
    #[error("the JSON is more than 100 deep")]
    TooDeep,

    /// The text is not a valid id. Out of memory is never reported so.
    #[error("the text is not a valid id: {0}")]
    BadId(IdRefusal),

    /// The text is not a valid name. Out of memory is never reported so.
    #[error("the text is not a valid name: {0}")]
    BadName(IdRefusal),

    /// This member is missing or of another kind; `body` is the whole.
    #[error("the member {name:?} is missing or of another kind")]
    BadMember {
        /// The name of the member.
        name: Text,
    },

    /// A text of a definition is refused, for the byte at this place.
    #[error("the definition is refused at byte {at}")]
    BadDefinition {
        /// Which text.
        part: Part,
        /// The place of the byte, counted from 0.
        at: usize,
        /// Why.
        kind: LangKind,
    },

    /// The text of a query is refused, for the byte at this place.
    #[error("the query is refused at byte {at}")]
    BadQuery {
        /// The place of the byte, counted from 0.
        at: usize,
        /// Why.
        kind: RqlKind,
    },

    /// Out of memory.
    #[error("no memory was found")]
    NoMemory,
}

impl From<NoMemory> for ReadRefusal {
    ghost from_gives = { λ _ refusal. refusal ≡ OutOfMemory };

    fn from(_lack: NoMemory) -> ReadRefusal {
        ReadRefusal::NoMemory
    }
}

impl From<AllocError> for ReadRefusal {
    ghost from_gives = { λ _ refusal. refusal ≡ OutOfMemory };

    fn from(_lack: AllocError) -> ReadRefusal {
        ReadRefusal::NoMemory
    }
}
