//! How a run ends.

/// How a run ended.
#[derive(Clone, Copy)]
pub enum RunEnd {
    /// The input was read to its end, and all replies were written.
    Done,

    /// A call of the input failed. Nothing was written.
    ReadFault,

    /// A call of the output failed. What was written is a prefix of the replies.
    WriteFault,

    /// A call of the keeper failed while the database was opened. Nothing was written.
    KeptFault,

    /// The keeper holds an invalid row. Nothing was written.
    KeptBad {
        /// The etag of the first such row.
        etag: u64,
    },

    /// The input has more than 16,777,216 bytes. Nothing was written.
    InputTooLarge,

    /// Memory ran out, which ends the run. The replies to all earlier lines are whole. The line that found none did nothing, but the first changes
    /// of a TIDY or a MULTI may stand. A PUBLISH that found none published nothing.
    NoMemory,
}
