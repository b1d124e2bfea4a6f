//! The reading of a whole reduce.
ghost use Rattle.reduce_grammar.specs.Limits.{limit};
ghost use Rattle.reduce_grammar.specs.Reduces.{SpellsReduce};
ghost use Rattle.token_reader.specs.Answers.{Says, SaysOnly};

use crate::reduces::reduce_text;
use index_tokens::Placed;
use reduce_grammar::SpelledReduce;
use std::alloc::Global;
use token_reader::{Refusal, Tokens};

/// The reduce that the tokens of a text spell; or the first token with which no reduce goes on, or which is the first of one member more
/// than may be. What follows the end is not looked at. Whether the names of a reduce fit together is not tested.
pub fn read_reduce(alloc: Global, tokens: &[Placed]) -> Result<SpelledReduce, Refusal>
    // What it answers holds.
    ensures says { Says SpellsReduce limit tokens.now result }
    // What holds is what it answers, unless memory runs out.
    ensures only { SaysOnly SpellsReduce limit tokens.now result }
{
    let mut left = Tokens {
        alloc,
        rest: tokens,
        count: 0,
    };
    match reduce_text(&mut left) {
        Ok(reduce) => Ok(reduce),
        Err(stop) => Err(left.refusal(stop)),
    }
}
