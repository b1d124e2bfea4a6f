//! The words of a line.
ghost use Rattle.std.specs.Prelude.{◌≡◌, None, Some, MatchOption};
ghost use Rattle.spec_server.specs.Words.{before_space, after_space, is_collection as spec_is_collection, is_field as spec_is_field, max_read, parts_read, worker_read, argument_and_rest as spec_word_and_rest};
ghost use Rattle.raven_request.specs.RequestView.{Reads};

use raven_request::ReadRefusal;
use raven_value::number_of;

/// The most digits of a number.
const MAX_DIGITS: usize = 16;

/// The most rows of a batch.
const MAX_BATCH: u64 = 65_536;

/// The greatest number of a worker.
const LAST_WORKER: u64 = 15;

// The first word, and what follows the space after it. There is none if there is no space.
#[tactic(auto, using(crate::proofs::WordLemmas::splits))]
fn split_word(text: &str) -> Option<(&str, &str)>
    ensures { MatchOption result (after_space text.now ≡ None)
        (λ parts. (before_space text.now ≡ parts.0.now) × (after_space text.now ≡ Some parts.1.now)) }
{
    text.split_once(' ')
}

/// The first word and the rest after its space, if both have a byte.
#[tactic(auto, using(crate::proofs::WordLemmas::parts))]
pub fn word_and_rest(text: &str) -> Option<(&str, &str)>
    ensures { MatchOption result (spec_word_and_rest text.now ≡ None) (λ parts. spec_word_and_rest text.now ≡ Some (parts.0.now, parts.1.now)) }
{
    let (word, rest) = split_word(text)?;
    if word.is_empty() || rest.is_empty() {
        return None;
    }
    Some((word, rest))
}

/// The first word and the rest after its space, or an unknown line.
pub fn parts(text: &str) -> Result<(&str, &str), ReadRefusal>
    ensures { Reads (λ p. (p.0.now, p.1.now)) result (parts_read text.now) }
{
    match word_and_rest(text) {
        Some(parts) => Ok(parts),
        None => Err(ReadRefusal::UnknownLine),
    }
}

/// How many rows a batch may take.
pub fn max_of(text: &str) -> Result<u32, ReadRefusal>
    ensures { Reads (λ max. max) result (max_read text.now) }
{
    match number_of(text.as_bytes(), MAX_DIGITS) {
        Some(max) if max >= 1 && max <= MAX_BATCH => Ok(max as u32),
        _ => Err(ReadRefusal::UnknownLine),
    }
}

/// The number of a worker.
pub fn worker_of(text: &str) -> Result<u8, ReadRefusal>
    ensures { Reads (λ worker. worker) result (worker_read text.now) }
{
    match number_of(text.as_bytes(), MAX_DIGITS) {
        Some(worker) if worker <= LAST_WORKER => Ok(worker as u8),
        _ => Err(ReadRefusal::UnknownLine),
    }
}

/// A collection that an automatic index may be of.
pub fn is_collection(text: &str) -> bool
    ensures { result ≡ spec_is_collection text.now }
{
    match text.as_bytes() {
        [] => false,
        [first, ..] => *first != b'@' || text == "@empty",
    }
}

/// A path of one part.
pub fn is_field(text: &[u8]) -> bool
    ensures { result ≡ spec_is_field text.now }
{
    let has_break = text.contains(&b' ')
        || text.contains(&b'.')
        || text.contains(&b'(')
        || text.contains(&b')');
    !text.is_empty() && !has_break
}
