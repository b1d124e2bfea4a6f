//! Definitions of indexes.
ghost use Rattle.std.specs.Prelude.{◌≡◌, MatchOption, None, Some};
ghost use Rattle.spec_index.specs.Optimiser.{definition_of, shape_of};
ghost use Rattle.index_definition.specs.DefinitionView.{definition_view};
ghost use Rattle.index_definition.specs.ShapeView.{shape_view};

use crate::shape::Shape;
use index_tree::{MapQuery, ReduceQuery};
use raven_value::{Name, Text};

/// An index under a name.
#[derive(Drop)]
pub struct Definition {
    pub name: Name,
    pub body: DefBody,
}

/// What an index keeps.
pub enum DefBody {
    /// What a map gives, and how it is reduced, if it is. The texts are those that were read.
    Static {
        map: MapQuery,
        reduce: Option<ReduceQuery>,
        map_text: Text,
        reduce_text: Option<Text>,
    },

    /// What an automatic index keeps: the values at its paths for each document of the collection or, with groups, their sums for each group
    /// and how many documents it has.
    Auto(Shape),
}

// By hand, so that a proof about what drops a definition need not go through its parts.
impl Drop for DefBody {
    fn drop(self) {
        match self {
            DefBody::Static {
                map: _map,
                reduce: _reduce,
                map_text: _map_text,
                reduce_text: _reduce_text,
            } => {}
            DefBody::Auto(_shape) => {}
        }
    }
}

impl DefBody {
    /// The shape of an automatic index; another has none.
    pub fn shape(&self) -> Option<&Shape>
        ensures { MatchOption result (shape_of (definition_view self.now) ≡ None) (λ shape. shape_of (definition_view self.now) ≡ Some (shape_view shape.now)) }
    {
        match self {
            DefBody::Static { .. } => None,
            DefBody::Auto(shape) => Some(shape),
        }
    }
}

/// The definition of an automatic index of this shape.
pub fn auto_definition(name: Name, shape: Shape) -> Definition
    ensures name { result.name ≡ name }
    ensures body { definition_view result.body ≡ definition_of (shape_view shape) }
{
    Definition {
        name,
        body: DefBody::Auto(shape),
    }
}
