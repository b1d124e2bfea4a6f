//! Points between the holds of a turn, at which a caller can make a thread wait.

/// A point between two holds of a turn. At none of them does the thread hold the turn.
#[derive(Clone, Copy)]
pub enum Point {
    /// A pump has read a batch of an index.
    AfterRead,

    /// A pump is about to publish a batch.
    BeforePublish,

    /// A query that waits has looked, and its index is stale.
    AfterLook,
}

/// What is called at each point. It may wait, and promises nothing.
pub trait Gate: Drop {
    /// The thread has come to this point.
    fn at(&self, point: Point);
}

/// A gate that never waits.
#[derive(Drop)]
pub struct OpenGate;

impl Gate for OpenGate {
    fn at(&self, _point: Point) {}
}
