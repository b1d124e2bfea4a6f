//! How a measurement is made.

/// How the orders are drawn.
#[derive(Clone, Copy)]
pub struct Options {
    /// The seed, from 1 to 2,147,483,646.
    pub seed: u32,

    /// How many orders are put, from 1 to 200,000.
    pub docs: u32,

    /// How many rows a batch takes, from 1 to 65,536.
    pub batch: u32,
}
