//! Reduces.
use raven_base::Sequence;
use raven_value::Text;

/// How the values of a field become one.
#[derive(Clone, Copy, Drop)]
pub enum FoldKind {
    /// The sum of the numbers.
    Sum,
    /// The least value.
    Min,
    /// The greatest value.
    Max,
}

/// The value of a field of a group.
pub enum FoldValue {
    /// A part of the key.
    Key(Text),
    /// The values of a field of the entries, as one. `var` is the name that an entry has here.
    Fold {
        kind: FoldKind,
        var: Text,
        field: Text,
    },
    /// The sum of a field of the entries, divided by that of another one. `var` and `by_var` are the names that an entry has in the two sums.
    Quotient {
        var: Text,
        field: Text,
        by_var: Text,
        by: Text,
    },
}

// Opaque drop: see raven_base.
impl Drop for FoldValue {
    fn drop(self) {
        match self {
            FoldValue::Key(_value) => {}
            FoldValue::Fold {
                kind: _kind,
                var: _var,
                field: _field,
            } => {}
            FoldValue::Quotient {
                var: _var,
                field: _field,
                by_var: _by_var,
                by: _by,
            } => {}
        }
    }
}

/// A field of the groups.
pub struct FoldMember {
    pub name: Text,
    pub value: FoldValue,
}

// Opaque drop: see raven_base.
impl Drop for FoldMember {
    fn drop(self) {
        let FoldMember {
            name: _name,
            value: _value,
        } = self;
    }
}

/// Members in order.
pub type FoldMembers = Sequence<FoldMember>;

/// Texts in order.
pub type Texts = Sequence<Text>;

/// What the groups of entries are, and what each gives.
pub struct ReduceQuery {
    /// The name of an entry in the key.
    pub var: Text,

    /// The name of a group.
    pub group: Text,

    /// The fields by which entries are grouped.
    pub key: Texts,

    pub members: FoldMembers,
}

// Opaque drop: see raven_base.
impl Drop for ReduceQuery {
    fn drop(self) {
        let ReduceQuery {
            var: _var,
            group: _group,
            key: _key,
            members: _members,
        } = self;
    }
}
