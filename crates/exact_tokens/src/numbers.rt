//! Numbers that digits write.
ghost use Rattle.std.specs.Prelude.{◌≡◌, ◌≤◌, IfSome};
ghost use Rattle.exact_tokens.specs.Bytes.{magnitude as spec_magnitude};

/// The number that digits write, if it is at most this one.
#[tactic(auto, using(crate::proofs::NumberLemmas::magnitudes))]
pub fn magnitude(digits: &[u8], most: u64) -> Option<u64>
    requires { 255 ≤ most }
    ensures value { result ≡ spec_magnitude most digits.now }
    ensures fits { IfSome result (λ n. n ≤ most) }
{
    let mut rest = digits;
    let mut number = 0;
    while let Some((byte, more)) = rest.split_first() {
        let digit = u64::from(byte.saturating_sub(b'0'));
        if number > (most - digit) / 10 {
            return None;
        }
        number = number * 10 + digit;
        rest = more;
    }
    Some(number)
}
