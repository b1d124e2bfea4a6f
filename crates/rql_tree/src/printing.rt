//! How the fields of a query are printed.
ghost use Rattle.std.specs.Prelude.{◌≡◌, ◌++◌, IfOk, OnOk, encode_utf8, flat_map, map, string_bytes};
ghost use Rattle.std.specs.List.{list_all};
ghost use Rattle.spec_query.specs.Printing.{field_text, is_letter as spec_is_letter, is_letter_or_digit as spec_is_letter_or_digit, is_name as spec_is_name, is_word as spec_is_word, part_text, path_text, quoted};
ghost use Rattle.rql_tree.specs.Printed.{clause_words, escaped, is_key_word as spec_is_key_word, is_one_of, other_words, parted};
ghost use Rattle.rql_tree.specs.View.{field_of};

use crate::field::Field;
use raven_base::NoMemory;
use raven_value::{Path, Text};
use std::alloc::Global;

/// Adds this text at the end.
pub fn add(out: &mut String, text: &str) -> Result<(), NoMemory>
    ensures { OnOk result (string_bytes out.new ≡ string_bytes out.old ++ text.now) }
{
    out.push_str(text)?;
    Ok(())
}

fn add_escaped(out: &mut String, letter: char) -> Result<(), NoMemory>
    ensures { OnOk result (string_bytes out.new ≡ string_bytes out.old ++ flat_map escaped (encode_utf8 letter)) }
{
    match letter {
        '\'' => add(out, "\\'"),
        '\\' => add(out, "\\\\"),
        _ => Ok(out.push(letter)?),
    }
}

/// Adds a text in single quotes, with a backslash before a quote and before a backslash. All else is written as it is.
pub fn add_quoted(out: &mut String, text: &str) -> Result<(), NoMemory>
    ensures { OnOk result (string_bytes out.new ≡ string_bytes out.old ++ quoted text.now) }
{
    add(out, "'")?;
    for letter in text.chars() {
        add_escaped(out, letter)?;
    }
    add(out, "'")
}

fn is_letter(byte: u8) -> bool
    ensures { result ≡ spec_is_letter byte }
{
    (b'A' <= byte && byte <= b'Z') || (b'a' <= byte && byte <= b'z') || byte == b'_'
}

fn is_letter_or_digit(byte: u8) -> bool
    ensures { result ≡ spec_is_letter_or_digit byte }
{
    is_letter(byte) || (b'0' <= byte && byte <= b'9')
}

fn are_of_names(bytes: &[u8]) -> bool
    ensures { result ≡ list_all spec_is_letter_or_digit bytes.now }
{
    bytes.iter().all(|byte| is_letter_or_digit(*byte))
}

#[tactic(auto, using(crate::proofs::Words::words))]
fn is_word(text: &str) -> bool
    ensures { result ≡ spec_is_word text.now }
{
    match text.as_bytes().split_first() {
        Some((first, more)) => is_letter(*first) && are_of_names(more),
        None => false,
    }
}

// A word with which a clause begins or goes on, without regard to the case of ASCII letters.
fn is_clause_word(word: &str) -> bool
    ensures { result ≡ is_one_of clause_words word.now }
{
    word.eq_ignore_ascii_case("from")
        || word.eq_ignore_ascii_case("index")
        || word.eq_ignore_ascii_case("group")
        || word.eq_ignore_ascii_case("by")
        || word.eq_ignore_ascii_case("where")
        || word.eq_ignore_ascii_case("order")
        || word.eq_ignore_ascii_case("select")
        || word.eq_ignore_ascii_case("include")
}

// Another key word, in the same way.
fn is_other_word(word: &str) -> bool
    ensures { result ≡ is_one_of other_words word.now }
{
    word.eq_ignore_ascii_case("and")
        || word.eq_ignore_ascii_case("or")
        || word.eq_ignore_ascii_case("not")
        || word.eq_ignore_ascii_case("in")
        || word.eq_ignore_ascii_case("between")
        || word.eq_ignore_ascii_case("as")
        || word.eq_ignore_ascii_case("true")
        || word.eq_ignore_ascii_case("false")
        || word.eq_ignore_ascii_case("null")
        || word.eq_ignore_ascii_case("exact")
}

#[tactic(auto, using(crate::proofs::Words::key_words_parted))]
fn is_key_word(word: &str) -> bool
    ensures { result ≡ spec_is_key_word word.now }
{
    is_clause_word(word) || is_other_word(word)
}

fn is_name(text: &str) -> bool
    ensures { result ≡ spec_is_name text.now }
{
    is_word(text) && !is_key_word(text)
}

/// Adds a name as it is, and any other text in quotes.
pub fn add_part(out: &mut String, part: &str) -> Result<(), NoMemory>
    ensures { OnOk result (string_bytes out.new ≡ string_bytes out.old ++ part_text part.now) }
{
    if is_name(part) {
        add(out, part)
    } else {
        add_quoted(out, part)
    }
}

fn add_parts(out: &mut String, parts: &[Text]) -> Result<(), NoMemory>
    ensures { OnOk result (string_bytes out.new ≡ string_bytes out.old ++ parted (map part_text parts.now)) }
{
    let mut later = false;
    for part in parts {
        if later {
            add(out, ".")?;
        }
        add_part(out, part.as_str())?;
        later = true;
    }
    Ok(())
}

/// Adds the parts of a path with a dot between each two.
#[tactic(auto, using(crate::proofs::Parts::parted_joined))]
pub fn add_path(out: &mut String, path: &Path) -> Result<(), NoMemory>
    ensures { OnOk result (string_bytes out.new ≡ string_bytes out.old ++ path_text path.now) }
{
    add_parts(out, path.as_slice())
}

/// Adds a field as it is written in a query.
pub fn add_field(out: &mut String, field: &Field) -> Result<(), NoMemory>
    ensures { OnOk result (string_bytes out.new ≡ string_bytes out.old ++ field_text (field_of field.now)) }
{
    match field {
        Field::Path(path) => add_path(out, path),
        Field::Count => add(out, "count()"),
        Field::Sum(path) => {
            add(out, "sum(")?;
            add_path(out, path)?;
            add(out, ")")
        }
    }
}

/// A field as it is written in a query.
pub fn print_field(alloc: Global, field: &Field) -> Result<Text, NoMemory>
    ensures { IfOk result (λ text. text ≡ field_text (field_of field.now)) }
{
    let mut out = String::new(alloc);
    add_field(&mut out, field)?;
    Text::of_string(out)
}
