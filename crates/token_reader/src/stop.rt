//! Why a rule stops. The next token is then the refused one.
use raven_base::NoMemory;
use std::alloc::AllocError;

/// Why a rule stops, at the next token.
#[derive(Clone, Copy, Drop)]
pub enum Stop {
    NoMemory,

    /// No text of the language goes on with the next token.
    Unexpected,

    /// The next token is past a limit.
    TooLarge,
}

impl From<AllocError> for Stop {
    ghost use Rattle.std.specs.Prelude.{◌≡◌};
    ghost use Rattle.token_reader.specs.declared.stop.Stop.TheVariants as stop;

    ghost from_gives = { λ _ e. e ≡ stop.NoMemory };

    fn from(_: AllocError) -> Stop {
        Stop::NoMemory
    }
}

impl From<NoMemory> for Stop {
    ghost use Rattle.std.specs.Prelude.{◌≡◌};
    ghost use Rattle.token_reader.specs.declared.stop.Stop.TheVariants as stop;

    ghost from_gives = { λ _ e. e ≡ stop.NoMemory };

    fn from(_: NoMemory) -> Stop {
        Stop::NoMemory
    }
}
