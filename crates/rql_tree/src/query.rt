//! Queries.
ghost use Rattle.std.specs.Prelude.{◌≡◌};

use crate::condition::Cond;
use crate::field::Field;
use raven_base::{Exact, Sequence};
use raven_value::{Paths, Text};
use std::alloc::AllocError;
use std::marker::Model;

/// What a query is about.
pub enum Origin {
    /// The index of a name.
    Index(Text),
    /// The documents of a collection.
    Collection(Text),
}

// Opaque drop: see raven_base.
impl Drop for Origin {
    fn drop(self) {
        match self {
            Origin::Index(_value) => {}
            Origin::Collection(_value) => {}
        }
    }
}

/// A key of the order of rows.
pub struct Sort {
    pub field: Field,
    /// Whether values are compared as numbers, and not as texts.
    pub long: bool,
    /// Whether the greatest value comes first.
    pub desc: bool,
}

// Opaque drop: see raven_base.
impl Drop for Sort {
    fn drop(self) {
        let Sort {
            field: _field,
            long: _long,
            desc: _desc,
        } = self;
    }
}

/// A field of the results.
pub struct Column {
    pub field: Field,
    /// The name that the query gives to it.
    pub name: Option<Text>,
}

// Opaque drop: see raven_base.
impl Drop for Column {
    fn drop(self) {
        let Column {
            field: _field,
            name: _name,
        } = self;
    }
}

/// Keys of an order, the first one first.
pub type Sorts = Sequence<Sort>;

/// Columns in order.
pub type Columns = Sequence<Column>;

/// What the text of a query says, seen by contracts as plain data.
#[derive(Drop)]
pub struct Query {
    pub origin: Origin,

    /// The paths by which entries are grouped. There are none without `group by`.
    pub groups: Paths,

    pub cond: Option<Cond>,

    pub sorts: Sorts,

    /// There are none without `select`.
    pub columns: Columns,

    /// The paths that lead to the ids of further documents.
    pub includes: Paths,
}

impl Model for Sort {
    ghost use Rattle.spec_query.specs.Query as query;
    ghost use Rattle.rql_tree.specs.Codes.{sort_code};

    ghost Value = { query.Sort };

    ghost coded = { sort_code };

    ghost use Rattle.rql_tree.specs.View.{field_of};

    ghost view = { λ a. record { field = field_of a.field; long = a.long; desc = a.desc } };
}

impl Model for Column {
    ghost use Rattle.spec_query.specs.Query as query;
    ghost use Rattle.rql_tree.specs.Codes.{column_code};

    ghost Value = { query.Column };

    ghost coded = { column_code };

    ghost use Rattle.rql_tree.specs.View.{field_of};

    ghost view = { λ a. record { field = field_of a.field; name = a.name } };
}

impl Model for Query {
    ghost use Rattle.spec_query.specs.Query as query;
    ghost use Rattle.rql_tree.specs.Codes.{query_code};

    ghost Value = { query.Query };

    ghost coded = { query_code };

    ghost use Rattle.rql_tree.specs.View.{origin_of};

    ghost view = { λ a. record { origin = origin_of a.origin; groups = a.groups; cond = a.cond; sorts = a.sorts; columns = a.columns; includes = a.includes } };
}

impl Clone for Sort {
    ghost is_clone = { λ s t. t ≡ s };

    fn clone(&self) -> Result<Sort, AllocError> {
        Ok(Sort {
            field: self.field.clone()?,
            long: self.long,
            desc: self.desc,
        })
    }
}

impl Clone for Column {
    ghost is_clone = { λ s t. t ≡ s };

    fn clone(&self) -> Result<Column, AllocError> {
        Ok(Column {
            field: self.field.clone()?,
            name: self.name.clone()?,
        })
    }
}

impl Exact for Sort {
    ghost exact = { λ x y same. same };
}

impl Exact for Column {
    ghost exact = { λ x y same. same };
}
