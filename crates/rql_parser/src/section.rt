//! The clauses of a query.
ghost use Rattle.std.specs.Prelude.{◌≡◌};
ghost use Rattle.rql_parser.specs.Parts.{rank_of, section_as};

use rql_tokens::{KeyWord, Token};

/// A clause, by its first word.
#[derive(Clone, Copy, Drop)]
pub enum Section {
    Group,
    Where,
    Order,
    Select,
    Include,
}

impl Section {
    /// Its place in the order of clauses, from 1 on.
    pub fn rank(self) -> usize
        ensures { result ≡ rank_of self }
    {
        match self {
            Section::Group => 1,
            Section::Where => 2,
            Section::Order => 3,
            Section::Select => 4,
            Section::Include => 5,
        }
    }
}

/// The clause that the token begins, if it begins one.
pub fn section_of(token: &Token) -> Option<Section>
    ensures { result ≡ section_as token.now }
{
    match token {
        Token::Key(KeyWord::Group) => Some(Section::Group),
        Token::Key(KeyWord::Where) => Some(Section::Where),
        Token::Key(KeyWord::Order) => Some(Section::Order),
        Token::Key(KeyWord::Select) => Some(Section::Select),
        Token::Key(KeyWord::Include) => Some(Section::Include),
        _ => None,
    }
}
