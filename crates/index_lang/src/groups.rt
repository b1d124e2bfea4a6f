//! Names of a reduce that are not bound.
ghost use Rattle.std.specs.Prelude.{◌≡◌};
ghost use Rattle.index_tokens.specs.Words.{Tokens, name};
ghost use Rattle.index_lang.specs.declared.groups.GroupStep.TheVariants.{GoesOn};
ghost use Rattle.reduce_grammar.specs.Reduces.{SpellsReduce};
ghost use Rattle.index_lang.specs.BoundGroups.{unbound_in_reduce};
ghost use Rattle.index_lang.specs.ScanGroups as spec;
ghost use Rattle.index_lang.specs.ScanGroups.{scan_reduce, scanned};

use index_tokens::{Placed, Token, is_reserved};
use raven_value::Text;
use reduce_grammar::SpelledReduce;

/// Where a pass over the tokens of a reduce is.
#[derive(Clone, Copy)]
pub struct GroupScan {
    /// Whether the name of a group is bound.
    pub grouped: bool,

    /// How many tokens are passed before one is looked at.
    pub passed: usize,
}

/// What the pass does at a token.
#[derive(Clone, Copy)]
pub enum GroupStep {
    /// A name at this place is not bound, or is bound again.
    Found(usize),

    /// This is the end of the text.
    Ends,

    /// It goes on.
    GoesOn(GroupScan),
}

fn go_on(grouped: bool, passed: usize) -> GroupStep
    ensures { result ≡ GoesOn (scanned grouped passed) }
{
    GroupStep::GoesOn(GroupScan { grouped, passed })
}

// Behind `into`, which binds the name of a group.
fn name_group(reduce: &SpelledReduce, behind: &[Placed]) -> GroupStep
    ensures { result ≡ spec.names_group reduce.now (spec.next_name behind.now) behind.now }
{
    match behind {
        [
            Placed {
                at,
                token: Token::Word(name),
            },
            ..
        ] => if *name == reduce.var {
            GroupStep::Found(*at)
        } else {
            go_on(true, 1)
        },
        _ => go_on(true, 0),
    }
}

fn at_word(reduce: &SpelledReduce, token: &Placed, word: &Text, behind: &[Placed]) -> GroupStep
    ensures { result ≡ spec.at_word reduce.now token.now word.now behind.now }
{
    if is_reserved(word.as_str()) {
        if word.as_str() == "into" {
            return name_group(reduce, behind);
        }
        return go_on(false, 0);
    }
    if *word == reduce.var {
        go_on(false, 0)
    } else {
        GroupStep::Found(token.at)
    }
}

fn at_key(reduce: &SpelledReduce, token: &Placed, behind: &[Placed]) -> GroupStep
    ensures { result ≡ spec.at_key reduce.now token.now token.now.token behind.now }
{
    match &token.token {
        Token::Point => go_on(false, 1),
        Token::Word(word) => at_word(reduce, token, word, behind),
        Token::End => GroupStep::Ends,
        _ => go_on(false, 0),
    }
}

fn own_again(own: &Text, token: &Placed) -> GroupStep
    ensures { result ≡ spec.own_again (name token.now) own.now token.now }
{
    match &token.token {
        Token::Word(word) => if *word == *own {
            go_on(true, 3)
        } else {
            GroupStep::Found(token.at)
        },
        _ => go_on(true, 0),
    }
}

// Behind the parenthesis of a fold, which binds a name of its own.
fn at_fold(reduce: &SpelledReduce, behind: &[Placed]) -> GroupStep
    ensures { result ≡ spec.at_fold reduce.now behind.now }
{
    match behind {
        [
            Placed {
                at,
                token: Token::Word(own),
            },
            _,
            again,
            ..
        ] => {
            if *own == reduce.var || *own == reduce.group {
                GroupStep::Found(*at)
            } else {
                own_again(own, again)
            }
        },
        _ => go_on(true, 0),
    }
}

fn group_step(
    reduce: &SpelledReduce,
    scanned: GroupScan,
    token: &Placed,
    behind: &[Placed],
) -> GroupStep
    ensures { result ≡ spec.step reduce.now scanned token.now behind.now }
{
    let GroupScan { grouped, passed } = scanned;
    if passed > 0 {
        return go_on(grouped, passed - 1);
    }
    if !grouped {
        return at_key(reduce, token, behind);
    }
    match token.token {
        Token::Open => at_fold(reduce, behind),
        Token::End => GroupStep::Ends,
        _ => go_on(true, 0),
    }
}

fn first_unbound(reduce: &SpelledReduce, tokens: &[Placed]) -> Option<usize>
    ensures { result ≡ scan_reduce reduce.now tokens.now }
{
    let mut scanned = GroupScan {
        grouped: false,
        passed: 2,
    };
    let mut rest = tokens;
    while let [token, behind @ ..] = rest {
        match group_step(reduce, scanned, token, behind) {
            GroupStep::Found(at) => return Some(at),
            GroupStep::Ends => return None,
            GroupStep::GoesOn(next) => scanned = next,
        }
        rest = behind;
    }
    None
}

/// The place of the first name that is not bound, or is bound again, in the tokens that spell a reduce. It takes no memory.
pub fn unbound_in_reduce(reduce: &SpelledReduce, tokens: &[Placed]) -> Option<usize>
    ensures { (r : Tokens) (x : SpellsReduce tokens.now reduce.now r) → result ≡ unbound_in_reduce x }
{
    first_unbound(reduce, tokens)
}
