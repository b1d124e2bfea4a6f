//! How many brackets are open at once.
ghost use Rattle.std.specs.Prelude.{◌≡◌, ◌≤◌, count_by};
ghost use Rattle.spec_data.specs.Limits.{max_depth};
ghost use Rattle.spec_data.specs.Scan.{outside, is_too_deep as spec_is_too_deep, place_after as spec_place_after, open_after as spec_open_after};
ghost use Rattle.raven_json.specs.Openings.{is_opening as spec_is_opening};
ghost use Rattle.raven_json.specs.PlaceView.{place_view};

use raven_value::MAX_DEPTH;

/// Where a byte is: outside texts, in a text, or after a backslash in a text.
#[derive(Clone, Copy)]
pub(crate) enum Place {
    Outside,
    InText,
    Escaped,
}

fn place_after(place: Place, byte: u8) -> Place
    ensures { place_view result ≡ spec_place_after (place_view place) byte }
{
    match place {
        Place::Outside => if byte == b'"' {
            Place::InText
        } else {
            Place::Outside
        },
        Place::InText => if byte == b'\\' {
            Place::Escaped
        } else if byte == b'"' {
            Place::Outside
        } else {
            Place::InText
        },
        Place::Escaped => Place::InText,
    }
}

fn open_after(place: Place, depth: u64, byte: u8) -> u64
    requires { depth ≤ max_depth }
    ensures { result ≡ spec_open_after (place_view place) depth byte }
{
    match place {
        Place::Outside => if byte == b'{' || byte == b'[' {
            depth + 1
        } else if byte == b'}' || byte == b']' {
            depth.saturating_sub(1)
        } else {
            depth
        },
        Place::InText | Place::Escaped => depth,
    }
}

fn is_opening(byte: u8) -> bool
    ensures { result ≡ spec_is_opening byte }
{
    byte == b'{' || byte == b'['
}

// How many bytes open a bracket, also in texts.
#[tactic(auto, using(std::proofs::lemmas::List::Sums::sum_by_more))]
fn openings(bytes: &[u8]) -> u64
    ensures { result ≡ count_by spec_is_opening bytes.now }
{
    let mut count = 0;
    for byte in bytes {
        count += u64::from(is_opening(*byte));
    }
    count
}

// Whether more than a hundred brackets are open at once, byte by byte.
fn is_ever_too_deep(bytes: &[u8]) -> bool
    ensures { result ≡ spec_is_too_deep outside 0 bytes.now }
{
    let mut place = Place::Outside;
    let mut depth = 0;
    for byte in bytes {
        depth = open_after(place, depth, *byte);
        place = place_after(place, *byte);
        if depth > MAX_DEPTH {
            return true;
        }
    }
    false
}

/// Whether more than a hundred brackets are open at once.
#[tactic(auto, using(crate::proofs::Openings::openings))]
pub(crate) fn is_too_deep(bytes: &[u8]) -> bool
    ensures { result ≡ spec_is_too_deep outside 0 bytes.now }
{
    // Few texts have so many brackets, and to count them is quicker than to follow texts and escapes.
    openings(bytes) > MAX_DEPTH && is_ever_too_deep(bytes)
}
