//! Maps.
use crate::expression::Expr;
use raven_base::Sequence;
use raven_value::Text;

/// A part of a map before its members.
pub enum Clause {
    /// Only documents for which this is the flag true have an entry.
    Where(Expr),
    /// A name for a value.
    Let { var: Text, value: Expr },
}

// Opaque drop: see raven_base.
impl Drop for Clause {
    fn drop(self) {
        match self {
            Clause::Where(_value) => {}
            Clause::Let {
                var: _var,
                value: _value,
            } => {}
        }
    }
}

/// A field of the entries.
pub struct MapMember {
    pub name: Text,
    pub value: Expr,
}

// Opaque drop: see raven_base.
impl Drop for MapMember {
    fn drop(self) {
        let MapMember {
            name: _name,
            value: _value,
        } = self;
    }
}

/// Clauses in order.
pub type Clauses = Sequence<Clause>;

/// Members in order.
pub type MapMembers = Sequence<MapMember>;

/// What the entry of a document is.
pub struct MapQuery {
    /// The name of the document.
    pub var: Text,

    /// The collection of the documents.
    pub collection: Text,

    pub clauses: Clauses,

    pub members: MapMembers,
}

// Opaque drop: see raven_base.
impl Drop for MapQuery {
    fn drop(self) {
        let MapQuery {
            var: _var,
            collection: _collection,
            clauses: _clauses,
            members: _members,
        } = self;
    }
}
