//! Why a text is no query.

/// Why a text is no query. At one token the kind that stands first here is the one that is reported.
#[derive(Clone, Copy, Debug, Drop)]
pub enum RqlKind {
    /// Too many bytes; the 65th part within others, each a parenthesis, an `exact` or a `not`; or the 65th field.
    TooLarge,

    /// A clause that comes after itself or after a later one.
    ClauseOrder,

    /// A number outside 64 bits, or digits that a letter, `_` or a point follows at once.
    BadNumber,

    /// No query goes on with this token, or it is a text that is no part of a path.
    Unexpected,
}
