//! Why a text is no query, and where.
use raven_base::NoMemory;
use rql_grammar::RqlKind;
use std::alloc::AllocError;
use thiserror::Error;

/// Why a text is no query.
#[derive(Clone, Copy, Debug, Drop, Error)]
pub enum RqlRefusal {
    /// The first token that is refused, and why.
    #[error("the query is refused at byte {at}")]
    At {
        /// The place of the token's first byte, counted from 0.
        at: usize,
        kind: RqlKind,
    },

    #[error("no memory was found")]
    NoMemory,
}

impl From<NoMemory> for RqlRefusal {
    ghost use Rattle.std.specs.Prelude.{◌≡◌};
    ghost use Rattle.rql_parser.specs.declared.refusal.RqlRefusal.TheVariants as refusal;

    ghost from_gives = { λ _ e. e ≡ refusal.NoMemory };

    fn from(_: NoMemory) -> RqlRefusal {
        RqlRefusal::NoMemory
    }
}

impl From<AllocError> for RqlRefusal {
    ghost use Rattle.std.specs.Prelude.{◌≡◌};
    ghost use Rattle.rql_parser.specs.declared.refusal.RqlRefusal.TheVariants as refusal;

    ghost from_gives = { λ _ e. e ≡ refusal.NoMemory };

    fn from(_: AllocError) -> RqlRefusal {
        RqlRefusal::NoMemory
    }
}
