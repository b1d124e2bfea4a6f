//! Why a transaction is not taken.
ghost use Rattle.std.specs.Prelude.{◌≡◌};
ghost use Rattle.doc_txn.specs.declared.fault.TxnFault.TheVariants.{NoMemory as OutOfMemory};

use raven_base::NoMemory;
use raven_value::Text;
use thiserror::Error;

/// Why a command is refused.
#[derive(Debug, Drop, Error)]
pub enum TxnKind {
    /// A client may not write this id, or not into this collection.
    #[error("the id or the collection is the server's")]
    ReservedId,

    /// The body is longer than the limit.
    #[error("the body has {len} bytes")]
    TooLarge {
        /// How many bytes its compact text has, as it would be stored.
        len: u64,
    },

    /// The id has a row in another collection, in which it stays.
    #[error("the id stands in another collection")]
    CollectionChanged {
        /// The collection of the row.
        from: Text,
    },

    /// Another vector was expected than that of the document.
    #[error("another vector was expected")]
    Conflict {
        /// The vector that was expected.
        expected: Text,
        /// The vector of the document, which is the empty text if there is none.
        found: Text,
    },

    /// There are as many rows as the limit allows.
    #[error("there are {rows} rows")]
    StoreFull {
        /// How many rows there are.
        rows: u32,
    },

    /// There is no further etag.
    #[error("the last etag was {last}")]
    EtagsSpent {
        /// The last etag.
        last: u64,
    },
}

/// Why a transaction was not taken. Nothing of it was written.
#[derive(Debug, Drop, Error)]
pub enum TxnFault {
    /// A command is refused.
    #[error("command {at} is refused: {kind}")]
    Refused {
        /// The place of the first command that is refused, counted from 0.
        at: u64,
        /// Why it is.
        kind: TxnKind,
    },

    /// Out of memory.
    #[error("no memory was found")]
    NoMemory,
}

impl From<NoMemory> for TxnFault {
    ghost from_gives = { λ _ fault. fault ≡ OutOfMemory };

    fn from(_lack: NoMemory) -> TxnFault {
        TxnFault::NoMemory
    }
}
