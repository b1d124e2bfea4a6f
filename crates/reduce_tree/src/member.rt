//! What the pages of a tree have: each entry with its row.
ghost use Rattle.std.specs.Prelude.{◌≡◌};

use crate::fold::Fold;
use paged_map::Summary;
use raven_base::{Exact, NoMemory, Shared, Steps};
use std::alloc::{AllocError, Global};
use std::sync::ledger::Ledger;

/// An entry and its row, so that a row is lifted once.
pub struct Member<E, R> {
    pub entry: E,
    pub row: R,
}

// Opaque drop: see raven_base.
impl<E: Drop, R: Drop> Drop for Member<E, R> {
    fn drop(self) {
        let Member {
            entry: _entry,
            row: _row,
        } = self;
    }
}

impl<E: Exact, R: Exact> Clone for Member<E, R> {
    ghost is_clone = { λ member copy. copy ≡ member };

    fn clone(&self) -> Result<Member<E, R>, AllocError> {
        Ok(Member {
            entry: self.entry.clone()?,
            row: self.row.clone()?,
        })
    }
}

/// Sums up members by merging their rows.
pub struct MergedRows<F> {
    pub fold: Shared<F>,
}

// Opaque drop: see raven_base.
impl<F: Drop> Drop for MergedRows<F> {
    fn drop(self) {
        let MergedRows { fold: _fold } = self;
    }
}

impl<E, F: Fold<E>> Summary<Member<E, F::Row>> for MergedRows<F> {
    type Total = F::Row;

    ghost lifted = { λ member. member.row };

    ghost merged = { F.merged };

    ghost associative = { F.associative };

    fn lift(&self, _alloc: Global, member: &Member<E, F::Row>) -> Result<F::Row, NoMemory> {
        Ok(member.row.clone()?)
    }

    fn merge<L: Ledger>(
        &self,
        alloc: Global,
        left: &F::Row,
        right: &F::Row,
        steps: &mut Steps<L>,
    ) -> Result<F::Row, NoMemory> {
        self.fold.get().merge(alloc, left, right, steps)
    }
}
