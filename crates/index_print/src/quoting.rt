//! Texts in quotes.
ghost use Rattle.std.specs.Prelude.{◌≡◌, ◌++◌, OnOk, flat_map, string_bytes, encode_utf8};
ghost use Rattle.index_print.specs.Print.{escaped, quoted};

use raven_base::NoMemory;

/// Adds this text at the end.
pub fn add(out: &mut String, text: &str) -> Result<(), NoMemory>
    ensures { OnOk result (string_bytes out.new ≡ string_bytes out.old ++ text.now) }
{
    out.push_str(text)?;
    Ok(())
}

fn add_escaped(out: &mut String, letter: char) -> Result<(), NoMemory>
    ensures { OnOk result (string_bytes out.new ≡ string_bytes out.old ++ flat_map escaped (encode_utf8 letter)) }
{
    match letter {
        '"' => add(out, "\\\""),
        '\\' => add(out, "\\\\"),
        '\n' => add(out, "\\n"),
        '\r' => add(out, "\\r"),
        '\t' => add(out, "\\t"),
        _ => Ok(out.push(letter)?),
    }
}

/// Adds a text in quotes, with an escape for a quote, a backslash, an LF, a CR and a tab. All else is written as it is, also the other control
/// characters, which no text in quotes may hold.
pub fn add_quoted(out: &mut String, text: &str) -> Result<(), NoMemory>
    ensures { OnOk result (string_bytes out.new ≡ string_bytes out.old ++ quoted text.now) }
{
    add(out, "\"")?;
    for letter in text.chars() {
        add_escaped(out, letter)?;
    }
    add(out, "\"")
}
