//! The words that have a meaning of their own, in upper case or lower case.
ghost use Rattle.std.specs.Prelude.{◌≡◌};
ghost use Rattle.std.specs.Array.Iter.{array_into_iter_items};
ghost use Rattle.rql_tokens.specs.KeyWords.{all_functions, all_keys, function_of, function_text, key_of, key_text};

use std::array;

/// A key word, which is no name.
#[derive(Clone, Copy, Drop)]
pub enum KeyWord {
    From,
    Index,
    Group,
    By,
    Where,
    Order,
    Select,
    Include,
    And,
    Or,
    Not,
    In,
    Between,
    As,
    True,
    False,
    Null,
    Exact,
}

/// What a name before `(` calls.
#[derive(Clone, Copy, Drop)]
pub enum Function {
    StartsWith,
    Exists,
    Count,
    Sum,
}

impl KeyWord {
    /// The word in lower case.
    pub fn as_str(self) -> &'static str
        ensures { result.now ≡ key_text self }
    {
        match self {
            KeyWord::From => "from",
            KeyWord::Index => "index",
            KeyWord::Group => "group",
            KeyWord::By => "by",
            KeyWord::Where => "where",
            KeyWord::Order => "order",
            KeyWord::Select => "select",
            KeyWord::Include => "include",
            KeyWord::And => "and",
            KeyWord::Or => "or",
            KeyWord::Not => "not",
            KeyWord::In => "in",
            KeyWord::Between => "between",
            KeyWord::As => "as",
            KeyWord::True => "true",
            KeyWord::False => "false",
            KeyWord::Null => "null",
            KeyWord::Exact => "exact",
        }
    }

    fn all() -> array::IntoIter<KeyWord, 18>
        ensures { array_into_iter_items result ≡ all_keys }
    {
        [
            KeyWord::From,
            KeyWord::Index,
            KeyWord::Group,
            KeyWord::By,
            KeyWord::Where,
            KeyWord::Order,
            KeyWord::Select,
            KeyWord::Include,
            KeyWord::And,
            KeyWord::Or,
            KeyWord::Not,
            KeyWord::In,
            KeyWord::Between,
            KeyWord::As,
            KeyWord::True,
            KeyWord::False,
            KeyWord::Null,
            KeyWord::Exact,
        ]
        .into_iter()
    }
}

impl Function {
    fn as_str(self) -> &'static str
        ensures { result.now ≡ function_text self }
    {
        match self {
            Function::StartsWith => "startswith",
            Function::Exists => "exists",
            Function::Count => "count",
            Function::Sum => "sum",
        }
    }

    fn all() -> array::IntoIter<Function, 4>
        ensures { array_into_iter_items result ≡ all_functions }
    {
        [
            Function::StartsWith,
            Function::Exists,
            Function::Count,
            Function::Sum,
        ]
        .into_iter()
    }
}

/// The key word that a word is, in upper case or lower case.
pub fn key_of(word: &str) -> Option<KeyWord>
    ensures { result ≡ key_of word.now }
{
    for key in KeyWord::all() {
        if key.as_str().eq_ignore_ascii_case(word) {
            return Some(key);
        }
    }
    None
}

/// What a name before `(` calls, in upper case or lower case.
pub fn function_of(name: &str) -> Option<Function>
    ensures { result ≡ function_of name.now }
{
    for function in Function::all() {
        if function.as_str().eq_ignore_ascii_case(name) {
            return Some(function);
        }
    }
    None
}
