//! What came of a turn of an index.

/// What came of a turn of an index.
#[derive(Clone, Copy, Drop)]
pub enum Turned {
    /// The index was not stale.
    Idle,

    /// A batch brought the index from one etag to another.
    Moved {
        /// Its etag before.
        from: u64,

        /// Its etag now.
        to: u64,
    },

    /// No index has the number, or none has it any more.
    Gone,

    /// The index was not moved: while the batch was read it had come as far, or further.
    Passed {
        /// Its etag.
        now: u64,
    },

    /// The index was not moved: tombstones past the batch were cleaned since it was read.
    Cleaned {
        /// The etag up to which they were.
        upto: u64,
    },
}
