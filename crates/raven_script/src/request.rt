//! What a line asks.
use raven_request::Request;
use raven_value::Name;

/// What one line asks.
#[derive(Drop)]
pub enum Line {
    /// The machine is to do this.
    Do(Request),

    /// A worker is to read one batch of an index, and to hold it.
    Read {
        /// The number of the worker, from 0 to 15.
        worker: u8,
        /// How many rows the batch may take, from 1 to 65,536.
        max: u32,
        /// The name of the index.
        index: Name,
    },

    /// A worker is to publish the batch that it holds.
    Publish {
        /// The number of the worker, from 0 to 15.
        worker: u8,
    },
}
