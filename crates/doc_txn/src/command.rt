//! What a transaction is asked to do.
ghost use Rattle.std.specs.Prelude.{◌≡◌};
ghost use Rattle.spec_store.specs.Commit.{id_of};
ghost use Rattle.doc_txn.specs.CommandView.{command_view};

use raven_base::Sequence;
use raven_value::{Id, Shallow, Text};

/// Who writes. A client may not write the definitions of indexes.
#[derive(Clone, Copy)]
pub enum Writer {
    Client,
    Server,
}

/// What a command expects of the document of its id.
#[derive(Drop)]
pub enum Expect {
    /// Anything.
    Any,

    /// This vector. The empty text is the vector of no document.
    Vector(Text),
}

/// One write.
#[derive(Drop)]
pub enum Command {
    /// Write the document of this id.
    Put {
        /// The id of the document.
        id: Id,
        /// The vector that the document has to have.
        expected: Expect,
        /// The document.
        body: Shallow,
    },

    /// Delete the document of this id, if there is one.
    Delete {
        /// The id of the document.
        id: Id,
        /// The vector that the document has to have.
        expected: Expect,
    },
}

/// Commands in order.
pub type Commands = Sequence<Command>;

impl Command {
    /// The id that is written.
    pub fn id(&self) -> &Id
        ensures { result.now ≡ id_of (command_view self.now) }
    {
        match self {
            Command::Put { id, .. } | Command::Delete { id, .. } => id,
        }
    }
}
