//! The lines of a script.
ghost use Rattle.std.specs.Prelude.{◌≡◌, ◌<◌, ◌∷◌, ◌≢◌, length, IfSome, IfNone, slice_index, ℕ};
ghost use Rattle.spec_server.specs.Lines.{lines};
ghost use Rattle.raven_run.specs.LineEnds.{IsFirstEnd, without_cr as spec_without_cr};

fn line_end(bytes: &[u8]) -> Option<usize>
    ensures found { IfSome result (IsFirstEnd bytes.now) }
    ensures none { IfNone result ((k : ℕ) → k < length bytes.now → slice_index bytes.now k ≢ 10) }
{
    bytes.iter().position(|b| *b == b'\n')
}

#[tactic(auto, using(crate::proofs::LineLemmas::ends))]
fn without_cr(line: &[u8]) -> &[u8]
    ensures { result.now ≡ spec_without_cr line.now }
{
    let len = line.len();
    if len > 0 && line[len - 1] == b'\r' {
        &line[..len - 1]
    } else {
        line
    }
}

/// The first line of these bytes, and what follows it.
#[tactic(auto, using(crate::proofs::LineLemmas::cuts))]
pub(crate) fn next_line(bytes: &[u8]) -> (&[u8], &[u8])
    requires { 0 < length bytes.now }
    ensures line { lines bytes.now ≡ result.0.now ∷ lines result.1.now }
    ensures less { length result.1.now < length bytes.now }
{
    match line_end(bytes) {
        None => (bytes, &bytes[bytes.len()..]),
        Some(end) => (without_cr(&bytes[..end]), &bytes[end + 1..]),
    }
}
