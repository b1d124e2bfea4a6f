//! The reading of queries.
ghost use Rattle.rql_parser.specs.Parse.{IsOf, IsParsed, UnlessNoMemory};

use crate::queries::query_text;
use crate::refusal::RqlRefusal;
use crate::tokens::Tokens;
use rql_grammar::RqlKind;
use rql_tokens::{Placed, tokenise};
use rql_tree::Query;
use std::alloc::Global;

/// How many bytes the text of a query has at most.
pub const MAX_TEXT: usize = 65_536;

// The query that tokens spell, or their refused token.
fn read(alloc: Global, tokens: &[Placed]) -> Result<Query, RqlRefusal>
    ensures { UnlessNoMemory result (IsOf tokens.now) }
{
    let mut left = Tokens {
        alloc,
        rest: tokens,
        count: 0,
    };
    match query_text(&mut left) {
        Ok(query) => Ok(query),
        Err(stop) => Err(left.refusal(stop)),
    }
}

/// The query that a text says. A text that is too long is refused at byte 65,536. Any other is refused at its first token that no query goes on with,
/// or that is past a limit; at one token the kind that stands first in [`RqlKind`] is reported.
pub fn parse(alloc: Global, text: &str) -> Result<Query, RqlRefusal>
    ensures { UnlessNoMemory result (IsParsed text.now) }
{
    if text.len() > MAX_TEXT {
        return Err(RqlRefusal::At {
            at: MAX_TEXT,
            kind: RqlKind::TooLarge,
        });
    }
    let tokens = tokenise(alloc, text)?;
    read(alloc, &tokens)
}
