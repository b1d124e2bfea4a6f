//! Shapes of automatic indexes.
use raven_value::{Paths, Text};

/// What a query asks of an automatic index, and what an automatic index keeps.
pub struct Shape {
    pub collection: Text,

    /// The paths by which it groups, if it does, in the order of their joined forms.
    pub groups: Option<Paths>,

    /// The paths whose values it keeps; with groups those whose sums it keeps. They are in the same order.
    pub fields: Paths,
}

// Opaque drop: see raven_base.
impl Drop for Shape {
    fn drop(self) {
        let Shape {
            collection: _collection,
            groups: _groups,
            fields: _fields,
        } = self;
    }
}
