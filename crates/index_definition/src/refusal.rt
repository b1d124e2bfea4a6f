//! Why texts are no definition.
use raven_base::NoMemory;
use std::alloc::AllocError;
use thiserror::Error;

/// A text of a definition.
#[derive(Clone, Copy, Debug, Drop)]
pub enum Part {
    Map,
    Reduce,
}

/// What is wrong with a text.
#[derive(Clone, Copy, Debug, Drop)]
pub enum LangKind {
    /// No text of the language goes on with this token.
    Unexpected,

    /// A variable is not bound at its place, or is bound again.
    UnknownName,

    /// A member has the name of one before it.
    DuplicateField,

    /// The fields of the reduce are not those of the map.
    FieldsDiffer,

    /// Groups of the reduce cannot be reduced once more.
    NotReducible,

    /// The text is past a limit.
    TooLarge,
}

/// Why texts are no definition.
#[derive(Clone, Copy, Debug, Drop, Error)]
pub enum LangRefusal {
    /// The cause, and its place.
    #[error("the definition is refused at byte {at}")]
    At {
        part: Part,

        /// The place of a byte, counted from 0.
        at: usize,
        kind: LangKind,
    },

    #[error("no memory was found")]
    NoMemory,
}

impl From<NoMemory> for LangRefusal {
    ghost use Rattle.std.specs.Prelude.{◌≡◌};
    ghost use Rattle.index_definition.specs.declared.refusal.LangRefusal.TheVariants as refusal;

    ghost from_gives = { λ _ e. e ≡ refusal.NoMemory };

    fn from(_: NoMemory) -> LangRefusal {
        LangRefusal::NoMemory
    }
}

impl From<AllocError> for LangRefusal {
    ghost use Rattle.std.specs.Prelude.{◌≡◌};
    ghost use Rattle.index_definition.specs.declared.refusal.LangRefusal.TheVariants as refusal;

    ghost from_gives = { λ _ e. e ≡ refusal.NoMemory };

    fn from(_: AllocError) -> LangRefusal {
        LangRefusal::NoMemory
    }
}
