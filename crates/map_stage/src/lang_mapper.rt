//! The map of a text of the index language.
ghost use Rattle.index_tree.specs.Local.{meaning_local};
ghost use Rattle.index_tree.specs.Meaning as meaning;

use crate::entry::outcome_of;
use crate::lookup::Lookup;
use crate::mapper::{Mapped, Mapper};
use crate::ticket::Ticket;
use index_tree::MapQuery;
use raven_base::NoMemory;
use raven_value::{Ids, Row};
use std::alloc::Global;

/// The map that a query means.
#[derive(Clone, Copy)]
pub struct LangMapper<'q> {
    pub query: &'q MapQuery,
}

impl<'q> Mapper for LangMapper<'q> {
    ghost meaning = { λ m d find. meaning.meaning m.query.now d find };

    fn map<T: Lookup>(
        &self,
        alloc: Global,
        doc: &Row,
        rows: &T,
        _ticket: Ticket,
    ) -> Result<Mapped, NoMemory> {
        let mut loads = Ids::new(alloc);
        let outcome = outcome_of(alloc, self.query, doc, rows, &mut loads)?;
        Ok(Mapped { outcome, loads })
    }

    ghost local = { λ m d find other alike. meaning_local m.query.now d find other alike };
}
