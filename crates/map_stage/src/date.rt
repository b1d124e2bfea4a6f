//! The year, the month and the day of a text.
ghost use Rattle.std.specs.Prelude.{◌≡◌};
ghost use Rattle.index_tree.specs.Dates.{date_part, without_mark};

use jiff_fmt::temporal::parse_date;

fn without_mark(text: &[u8]) -> &[u8]
    ensures { result.now ≡ without_mark text.now }
{
    if text.ends_with(b"Z") {
        &text[..text.len() - 1]
    } else {
        text
    }
}

/// The number that `Year`, `Month` or `Day` means, if the text is a civil date, or one with a time.
pub fn date_part(name: &str, text: &str) -> Option<i64>
    ensures { result ≡ date_part name.now text.now }
{
    let date = parse_date(without_mark(text.as_bytes())).ok()?;
    if name == "Year" {
        Some(i64::from(date.year))
    } else if name == "Month" {
        Some(i64::from(date.month))
    } else if name == "Day" {
        Some(i64::from(date.day))
    } else {
        None
    }
}
