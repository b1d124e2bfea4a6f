//! Numbers in digits.
ghost use Rattle.std.specs.Prelude.{◌≡◌, ◌≤◌};
ghost use Rattle.spec_data.specs.Digits.{number_up_to};

/// The number that 1 to `most` digits write.
#[tactic(auto, using(crate::proofs::Digits::numbers))]
pub fn number_of(text: &[u8], most: usize) -> Option<u64>
    requires { most ≤ 16 }
    ensures { result ≡ number_up_to most text.now }
{
    if text.is_empty() || text.len() > most {
        return None;
    }
    let mut number = 0;
    for byte in text {
        if !byte.is_ascii_digit() {
            return None;
        }
        number = number * 10 + u64::from(*byte - b'0');
    }
    Some(number)
}
