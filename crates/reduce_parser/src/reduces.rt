//! The rules of reduces.
ghost use Rattle.reduce_grammar.specs.ReduceReading as spec;
ghost use Rattle.token_reader.specs.Gives.{Gives};

use crate::folds::members;
use crate::keys::{key, parts_of};
use index_tokens::Token;
use raven_value::Text;
use reduce_grammar::SpelledReduce;
use token_reader::{Stop, Tokens};

/// A reduce and the end.
#[tactic(auto, unfolding(reduce_grammar::specs::ReduceReading::reduce_text))]
pub fn reduce_text(tokens: &mut Tokens<'_>) -> Result<SpelledReduce, Stop>
    ensures { Gives (spec.reduce_text tokens.old.count tokens.old.rest.now) result tokens.new.count tokens.new.rest.now }
{
    let var = source(tokens)?;
    let key = key(tokens)?;
    let group = group(tokens)?;
    let members = members(tokens, &group, &key.form)?;
    tokens.mark(&Token::End)?;
    Ok(SpelledReduce {
        var,
        group,
        key_at: key.at,
        key: parts_of(tokens.alloc, key.form)?,
        members,
    })
}

// From `from` to `by`: the name of an entry.
#[tactic(auto, unfolding(reduce_grammar::specs::ReduceReading::source))]
fn source(tokens: &mut Tokens<'_>) -> Result<Text, Stop>
    ensures { Gives (spec.source tokens.old.count tokens.old.rest.now) result tokens.new.count tokens.new.rest.now }
{
    tokens.word("from")?;
    let var = tokens.variable()?;
    tokens.word("in")?;
    tokens.word("results")?;
    tokens.word("group")?;
    tokens.variable()?;
    tokens.word("by")?;
    Ok(var)
}

// From `into` to the brace: the name of a group.
#[tactic(auto, unfolding(reduce_grammar::specs::ReduceReading::group))]
fn group(tokens: &mut Tokens<'_>) -> Result<Text, Stop>
    ensures { Gives (spec.group tokens.old.count tokens.old.rest.now) result tokens.new.count tokens.new.rest.now }
{
    tokens.word("into")?;
    let group = tokens.variable()?;
    tokens.word("select")?;
    tokens.word("new")?;
    tokens.mark(&Token::OpenBrace)?;
    Ok(group)
}
