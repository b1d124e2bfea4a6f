//! What tokens spell: a map, and the places of its members.
ghost use Rattle.std.specs.Prelude.{◌≡◌, IfOk};
ghost use Rattle.index_grammar.specs.View.{query_of};

use index_tree::{Clauses, MapMember, MapMembers, MapQuery};
use raven_base::{NoMemory, Sequence};
use raven_value::Text;
use std::alloc::Global;

/// Which documents a map is of.
#[derive(Drop)]
pub struct Origin {
    /// The name of the document.
    pub var: Text,

    /// The collection of the documents.
    pub collection: Text,
}

/// A member and its place.
#[derive(Drop)]
pub struct PlacedMember {
    /// The place of the first byte of its first token, counted from 0.
    pub at: usize,
    pub member: MapMember,
}

/// Members in order.
pub type PlacedMembers = Sequence<PlacedMember>;

/// A map as it is spelled.
#[derive(Drop)]
pub struct SpelledMap {
    /// The name of the document.
    pub var: Text,

    /// The collection of the documents.
    pub collection: Text,

    pub clauses: Clauses,

    pub members: PlacedMembers,
}

impl SpelledMap {
    /// What it says, without the places of its members.
    pub fn into_query(self, alloc: Global) -> Result<MapQuery, NoMemory>
        ensures { IfOk result (λ query. query ≡ query_of self) }
    {
        let mut members = MapMembers::new(alloc);
        for placed in self.members.into_vec() {
            members.push(placed.member)?;
        }
        Ok(MapQuery {
            var: self.var,
            collection: self.collection,
            clauses: self.clauses,
            members,
        })
    }
}
