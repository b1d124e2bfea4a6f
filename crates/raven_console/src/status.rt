//! How the program ends.
ghost use Rattle.std.specs.Prelude.{◌≡◌};

use http_read::HttpEnd;

/// How the program ended.
#[derive(Clone, Copy)]
pub enum Status {
    /// The input was read to its end, or to a request that closes the session, and all replies were written. Each door of a server is closed.
    Done,

    /// The arguments are malformed. Nothing was read or written.
    Usage,

    /// A call of the input failed. A run wrote nothing; a session wrote the responses to all requests before.
    ReadFault,

    /// A call of the output failed. What was written is a prefix of what there was to write.
    WriteFault,

    /// A call of the keeper failed, while the database was opened or at a request of `measure`. Nothing was written.
    KeptFault,

    /// The keeper holds an invalid row. Nothing was written.
    KeptBad {
        /// The etag of the first such row.
        etag: u64,
    },

    /// A call of a door failed. The connections of the other doors were served.
    DoorFault,

    /// A thread could not be started. No connection was accepted, and nothing was stored.
    NoThread,

    /// The input has more than 16,777,216 bytes. Nothing was written.
    InputTooLarge,

    /// Memory ran out. The replies to all earlier lines of a run are whole, and so are the responses to all earlier requests of a session.
    NoMemory,

    /// The bytes of a session are no further request, or end inside one.
    HttpRefused {
        /// Why there is no further request.
        end: HttpEnd,
    },

    /// A session had 1,000 requests, the most that it may have, and all responses were written.
    Enough,

    /// What is measured is a database of its own, but the keeper holds rows. Nothing was written.
    NotEmpty {
        /// The last etag of the database.
        last: u64,
    },
}

impl Status {
    ghost use Rattle.raven_console.specs.Statuses.{name_of, number_of};

    /// The exit status of the program.
    pub fn number(self) -> u8
        ensures { result ≡ number_of self }
    {
        match self {
            Status::Done => 0,
            Status::Usage => 2,
            Status::ReadFault => 3,
            Status::WriteFault => 4,
            Status::KeptFault => 5,
            Status::KeptBad { .. } => 6,
            Status::DoorFault => 7,
            Status::NoThread => 8,
            Status::InputTooLarge => 9,
            Status::NoMemory => 10,
            Status::HttpRefused { .. } => 11,
            Status::Enough => 12,
            Status::NotEmpty { .. } => 13,
        }
    }

    /// The name of the status, as the program writes it on standard error.
    pub fn name(self) -> &'static str
        ensures { result.now ≡ name_of self }
    {
        match self {
            Status::Done => "Done",
            Status::Usage => "Usage",
            Status::ReadFault => "ReadFault",
            Status::WriteFault => "WriteFault",
            Status::KeptFault => "KeptFault",
            Status::KeptBad { .. } => "KeptBad",
            Status::DoorFault => "DoorFault",
            Status::NoThread => "NoThread",
            Status::InputTooLarge => "InputTooLarge",
            Status::NoMemory => "NoMemory",
            Status::HttpRefused { .. } => "HttpRefused",
            Status::Enough => "Enough",
            Status::NotEmpty { .. } => "NotEmpty",
        }
    }
}
