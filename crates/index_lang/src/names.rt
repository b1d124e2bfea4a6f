//! Names that are not bound.
ghost use Rattle.std.specs.Prelude.{◌≡◌, ◌<◌, ◌^◌, ◌-◌};
ghost use Rattle.index_lang.specs.Scan as spec;
ghost use Rattle.index_lang.specs.Scan.{scan, scan_map, scanned};
ghost use Rattle.std.specs.List.{list_any};
ghost use Rattle.index_tokens.specs.declared.token.Placed.{Placed};
ghost use Rattle.index_grammar.specs.Maps.{SpellsMap};
ghost use Rattle.index_lang.specs.Bound.{unbound_in, is_bound_by};
ghost use Rattle.index_tokens.specs.Words.{Tokens};

use index_grammar::SpelledMap;
use index_tokens::{Placed, Token, is_reserved};
use index_tree::Clause;
use raven_value::Text;

/// Where a pass over the tokens of a map is.
#[derive(Clone, Copy)]
pub struct Scanned {
    /// Of how many clauses the names are bound.
    pub bound: usize,

    /// How many clauses have begun.
    pub begun: usize,

    /// How many tokens are passed before one is looked at.
    pub passed: usize,
}

/// What the pass does at a token.
#[derive(Clone, Copy)]
pub enum Step {
    /// A name at this place is not bound, or is bound again.
    Found(usize),

    /// This is the end of the text.
    Ends,

    /// It goes on.
    GoesOn(Scanned),
}

impl Scanned {
    fn of(bound: usize, begun: usize, passed: usize) -> Scanned
        ensures { result ≡ scanned bound begun passed }
    {
        Scanned {
            bound,
            begun,
            passed,
        }
    }
}

// Whether the clause binds this name.
fn binds(clause: &Clause, name: &Text) -> bool
    ensures { result ≡ is_bound_by name.now clause.now }
{
    match clause {
        Clause::Let { var, .. } => *name == *var,
        Clause::Where(_) => false,
    }
}

fn has_bound(clauses: &[Clause], name: &Text) -> bool
    ensures { result ≡ list_any (is_bound_by name.now) clauses.now }
{
    for clause in clauses {
        if binds(clause, name) {
            return true;
        }
    }
    false
}

// Whether the name is that of the document, or one that the first `count` clauses bind.
fn is_bound(map: &SpelledMap, count: usize, name: &Text) -> bool
    ensures { result ≡ spec.is_bound map.now count name.now }
{
    let clauses = map.clauses.as_slice();
    *name == map.var || has_bound(&clauses[..count.min(clauses.len())], name)
}

// How many tokens are no variables, as a member's name and its `=`.
fn named_part(tokens: &[Placed]) -> usize
    ensures { result ≡ spec.named_part tokens.now }
{
    match tokens {
        [
            Placed {
                token: Token::Word(_),
                ..
            },
            Placed {
                token: Token::Assign,
                ..
            },
            ..
        ] => 2,
        _ => 0,
    }
}

// At the word `let`, which binds the name behind it.
fn bind(map: &SpelledMap, begun: usize, behind: &[Placed]) -> Step
    requires { begun < 2 ^ 64 - 1 }
    ensures { result ≡ spec.binds map.now begun (spec.next_name map.now behind.now) behind.now }
{
    match behind {
        [
            Placed {
                at,
                token: Token::Word(name),
            },
            ..
        ] => if is_bound(map, begun, name) {
            Step::Found(*at)
        } else {
            Step::GoesOn(Scanned::of(begun, begun + 1, 1))
        },
        _ => Step::GoesOn(Scanned::of(begun, begun + 1, 0)),
    }
}

fn at_reserved(map: &SpelledMap, scanned: Scanned, word: &str, behind: &[Placed]) -> Step
    requires { scanned.begun < 2 ^ 64 - 1 }
    ensures { result ≡ spec.at_reserved map.now scanned word.now behind.now }
{
    match word {
        "let" => bind(map, scanned.begun, behind),
        "where" => Step::GoesOn(Scanned::of(scanned.begun, scanned.begun + 1, 0)),
        "select" => Step::GoesOn(Scanned::of(scanned.begun, scanned.begun, 0)),
        _ => Step::GoesOn(scanned),
    }
}

fn at_word(
    map: &SpelledMap,
    scanned: Scanned,
    token: &Placed,
    word: &Text,
    behind: &[Placed],
) -> Step
    requires { scanned.begun < 2 ^ 64 - 1 }
    ensures { result ≡ spec.at_word map.now scanned token.now word.now behind.now }
{
    if is_reserved(word.as_str()) {
        at_reserved(map, scanned, word.as_str(), behind)
    } else if is_bound(map, scanned.bound, word) {
        Step::GoesOn(scanned)
    } else {
        Step::Found(token.at)
    }
}

fn next_step(map: &SpelledMap, scanned: Scanned, token: &Placed, behind: &[Placed]) -> Step
    requires { scanned.begun < 2 ^ 64 - 1 }
    ensures { result ≡ spec.step map.now scanned token.now behind.now }
{
    let Scanned {
        bound,
        begun,
        passed,
    } = scanned;
    if passed > 0 {
        return Step::GoesOn(Scanned::of(bound, begun, passed - 1));
    }
    match &token.token {
        Token::Point => Step::GoesOn(Scanned::of(bound, begun, 1)),
        Token::OpenBrace | Token::Comma => Step::GoesOn(Scanned::of(
            bound,
            begun,
            named_part(behind),
        )),
        Token::Word(word) => at_word(map, scanned, token, word, behind),
        Token::End => Step::Ends,
        _ => Step::GoesOn(scanned),
    }
}

fn first_unbound(map: &SpelledMap, tokens: &[Placed]) -> Option<usize>
    ensures { result ≡ scan_map map.now tokens.now }
{
    let mut scanned = Scanned::of(0, 0, 6);
    let mut rest = tokens;
    while let [token, behind @ ..] = rest {
        match next_step(map, scanned, token, behind) {
            Step::Found(at) => return Some(at),
            Step::Ends => return None,
            Step::GoesOn(next) => scanned = next,
        }
        rest = behind;
    }
    None
}

/// The place of the first name that is not bound, or is bound again, in the tokens that spell a map. It takes no memory.
pub fn unbound_name(map: &SpelledMap, tokens: &[Placed]) -> Option<usize>
    ensures { (r : Tokens) (x : SpellsMap tokens.now map.now r) → result ≡ unbound_in x }
{
    first_unbound(map, tokens)
}
