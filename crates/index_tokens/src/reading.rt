//! All tokens of a text.
ghost use Rattle.std.specs.Prelude.{◌≡◌, IfOk};
ghost use Rattle.index_tokens.specs.Tokens.{tokens_of, AreTokens};

use crate::prefixes::first_token;
use crate::token::{Placed, Token};
use exact_tokens::is_blank;
use raven_base::NoMemory;
use std::alloc::Global;

/// The tokens of a text, each the longest that the bytes allow, and the end as the last of them.
#[tactic(auto, using(crate::proofs::TurnLemmas::all_longest))]
pub fn tokenise(alloc: Global, text: &str) -> Result<Vec<Placed>, NoMemory>
    ensures list { IfOk result (λ tokens. tokens.items ≡ tokens_of text.now) }
    // Each token is one that its bytes spell, and no more of the bytes spell one.
    ensures longest { IfOk result (λ tokens. AreTokens 0 text.now tokens.items) }
{
    let bytes = text.as_bytes();
    let mut tokens = Vec::new(alloc);
    let mut rest = bytes;
    let mut at = 0;
    while let Some((byte, more)) = rest.split_first() {
        if is_blank(*byte) {
            rest = more;
            at += 1;
        } else {
            let (token, len) = first_token(alloc, rest)?;
            tokens.push(Placed { at, token })?;
            let (_, behind) = rest.split_at(len);
            rest = behind;
            at += len;
        }
    }
    tokens.push(Placed {
        at,
        token: Token::End,
    })?;
    Ok(tokens)
}
