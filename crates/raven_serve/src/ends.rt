//! What a server is called with, and how it ends.
ghost use Rattle.std.specs.Prelude.{◌≡◌};
ghost use Rattle.raven_serve.specs.Finishing.{end_of as spec_end_of, end_unopened as spec_end_unopened};

use doc_keeper::LoadFault;
use doc_txn::BaseId;
use raven_value::Text;

/// How a server ended.
#[derive(Clone, Copy)]
pub enum ServeEnd {
    /// Each door is closed, and neither a door nor the crew has failed.
    Done,

    /// A door failed. The others were served until they were closed, or failed too.
    DoorFault,

    /// The crew failed, and no job was started. The keeper holds what it held, and the doors are as they were.
    NoThread,

    /// A call of the keeper failed while the database was opened. The doors are as they were.
    KeptFault,

    /// The keeper holds an invalid row. The doors are as they were.
    KeptBad {
        /// The etag of the first such row.
        etag: u64,
    },

    /// Memory ran out. If the keeper is returned, it holds what it held, and the doors are as they were.
    NoMemory,
}

/// What is served: the base id of the database and its name, and how many pumps make batches.
#[derive(Drop)]
pub struct Serving {
    pub base: BaseId,
    pub name: Text,
    pub pumps: u32,
}

/// How a server ended, with the keeper and the doors that it was called with, the doors in their order. They are lost only if memory
/// ran out: then there is no keeper and there are no doors.
#[derive(Drop)]
pub struct Served<K, D> {
    pub end: ServeEnd,
    pub keeper: Option<K>,
    pub doors: Vec<D>,
}

/// The end of a server whose database was not opened.
pub(crate) fn end_unopened(fault: LoadFault) -> ServeEnd
    ensures { result ≡ spec_end_unopened fault }
{
    match fault {
        LoadFault::Failed => ServeEnd::KeptFault,
        LoadFault::KeptBad { etag } => ServeEnd::KeptBad { etag },
        LoadFault::NoMemory => ServeEnd::NoMemory,
    }
}

/// The end of a server whose jobs were refused, or one of whose doors failed.
pub(crate) fn end_of(refused: bool, failed: bool) -> ServeEnd
    ensures { result ≡ spec_end_of refused failed }
{
    if refused {
        ServeEnd::NoThread
    } else if failed {
        ServeEnd::DoorFault
    } else {
        ServeEnd::Done
    }
}
