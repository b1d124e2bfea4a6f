//! Which token of a text is refused, and why.
use thiserror::Error;

/// Why tokens are no text that is taken. A place is that of the first byte of the refused token, counted from 0.
#[derive(Clone, Copy, Debug, Drop, Error)]
pub enum Refusal {
    #[error("no memory was found")]
    NoMemory,

    /// No text of the language goes on with this token.
    #[error("unexpected at byte {at}")]
    Unexpected { at: usize },

    /// This token is the first that is past a limit.
    #[error("too large at byte {at}")]
    TooLarge { at: usize },
}
