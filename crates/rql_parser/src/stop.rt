//! Why a rule stops. The next token is then the refused one.
use raven_base::NoMemory;
use std::alloc::AllocError;

/// Why a rule stops, at the next token.
#[derive(Clone, Copy, Drop)]
pub enum Stop {
    NoMemory,

    /// No query goes on with the next token.
    Unexpected,

    /// There is no room for what the next token begins.
    TooLarge,

    /// The next token begins a clause that comes too late.
    ClauseOrder,

    /// The next token is a text that is no part of a path.
    NoPart,
}

impl From<AllocError> for Stop {
    ghost use Rattle.std.specs.Prelude.{◌≡◌};
    ghost use Rattle.rql_parser.specs.declared.stop.Stop.TheVariants as stop;

    ghost from_gives = { λ _ e. e ≡ stop.NoMemory };

    fn from(_: AllocError) -> Stop {
        Stop::NoMemory
    }
}

impl From<NoMemory> for Stop {
    ghost use Rattle.std.specs.Prelude.{◌≡◌};
    ghost use Rattle.rql_parser.specs.declared.stop.Stop.TheVariants as stop;

    ghost from_gives = { λ _ e. e ≡ stop.NoMemory };

    fn from(_: NoMemory) -> Stop {
        Stop::NoMemory
    }
}
