//! The reading of a whole map.
ghost use Rattle.index_grammar.specs.Limits.{limit};
ghost use Rattle.index_grammar.specs.Maps.{SpellsMap};
ghost use Rattle.token_reader.specs.Answers.{Says, SaysOnly};

use crate::maps::map_text;
use index_grammar::SpelledMap;
use index_tokens::Placed;
use std::alloc::Global;
use token_reader::{Refusal, Tokens};

/// The map that the tokens spell; or the first token with which no map goes on, or that is past a limit: the 65th part within others, the 257th
/// operator or point of a clause or a member, or the first of a 65th member.
pub fn read_map(alloc: Global, tokens: &[Placed]) -> Result<SpelledMap, Refusal>
    // What it answers holds.
    ensures says { Says SpellsMap limit tokens.now result }
    // What holds is what it answers, unless memory runs out.
    ensures only { SaysOnly SpellsMap limit tokens.now result }
{
    let mut left = Tokens {
        alloc,
        rest: tokens,
        count: 0,
    };
    match map_text(&mut left) {
        Ok(map) => Ok(map),
        Err(stop) => Err(left.refusal(stop)),
    }
}
