//! The limits of data. The definitions have the same numbers in `Limits` of `spec_data`.

/// The greatest etag. Up to it a double holds every whole number exactly.
pub const MAX_ETAG: u64 = 9_007_199_254_740_991;

/// The end of the year 9998, in microseconds since 1970 in UTC. Every moment is before it.
pub const END_OF_MOMENTS: u64 = 253_370_764_800_000_000;

/// The longest text of a document, in bytes.
pub const MAX_BODY: usize = 1_048_576;

/// The longest id, in bytes.
pub const MAX_ID: usize = 512;

/// The longest name of an index, in bytes.
pub const MAX_NAME: usize = 214;

/// The longest name of a definition, in bytes. The name of its replacement is longer.
pub const MAX_INDEX_NAME: usize = 200;

/// How many brackets of a JSON text may be open at once.
pub const MAX_DEPTH: u64 = 100;
