//! The target of a request, as far as the bytes go.
ghost use Rattle.std.specs.Prelude.{◌≡◌, ◌≤◌, length};
ghost use Rattle.std.specs.List.{list_all, position_or_len};
ghost use Rattle.http_read.specs.Heads as spec;

// The place of the first space, or the length.
#[tactic(auto, using(std::proofs::lemmas::List::Sums::position_or_len_is))]
fn place_of_space(bytes: &[u8]) -> usize
    ensures value { result ≡ position_or_len spec.is_space bytes.now }
    ensures within { result ≤ length bytes.now }
{
    for (i, byte) in bytes.iter().enumerate() {
        if *byte == b' ' {
            return i;
        }
    }
    bytes.len()
}

// What follows the first space, up to the next.
fn target_in(bytes: &[u8]) -> &[u8]
    ensures { result.now ≡ spec.target_in bytes.now }
{
    let space = place_of_space(bytes);
    if space == bytes.len() {
        return &[];
    }
    let rest = &bytes[space + 1..];
    &rest[..place_of_space(rest)]
}

fn are_visible(bytes: &[u8]) -> bool
    ensures { result ≡ list_all spec.is_visible bytes.now }
{
    bytes.iter().all(|byte| 33 <= *byte && *byte <= 126)
}

/// Whether the target in these bytes is bad, as far as they go.
pub(crate) fn has_bad_target(bytes: &[u8]) -> bool
    ensures { result ≡ spec.is_bad_target (spec.target_in bytes.now) }
{
    let target = target_in(bytes);
    match target {
        [] => false,
        [first, ..] => *first != b'/' || !are_visible(target),
    }
}
