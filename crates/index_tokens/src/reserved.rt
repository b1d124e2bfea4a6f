//! The reserved words.
ghost use Rattle.std.specs.Prelude.{◌≡◌};
ghost use Rattle.index_tokens.specs.Spelling.{is_reserved as spec_is_reserved};

/// Whether a name is a reserved word, which is no variable.
pub fn is_reserved(word: &str) -> bool
    ensures { result ≡ spec_is_reserved word.now }
{
    [
        "from",
        "in",
        "docs",
        "where",
        "let",
        "select",
        "new",
        "results",
        "group",
        "by",
        "into",
        "true",
        "false",
        "null",
        "LoadDocument",
    ]
    .contains(&word)
}
