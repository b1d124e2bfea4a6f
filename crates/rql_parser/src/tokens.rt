//! The tokens that are left of a text. A method that returns an `Err` leaves the refused token as the next one.
ghost use Rattle.std.specs.Prelude.{◌≡◌, IfOk, option_map};
ghost use Rattle.exact_parse.specs.Steps.{head, tail, take};
ghost use Rattle.raven_value.specs.ScalarView.{scalar_view};
ghost use Rattle.rql_tokens.specs.Words.{is_at_bad_number, next_is, place_of, the, name as spec_name, quoted as spec_quoted};
ghost use Rattle.rql_grammar.specs.ConditionReading.{operator_at};
ghost use Rattle.rql_grammar.specs.FieldReading.{constant_at, function_at, one_part};
ghost use Rattle.rql_grammar.specs.QueryReading.{collection_at, desc_at};
ghost use Rattle.rql_grammar.specs.Queries.{long as spec_long};
ghost use Rattle.rql_grammar.specs.Reads.{unexpected};
ghost use Rattle.rql_tree.specs.View.{op_of};
ghost use Rattle.rql_parser.specs.Gives.{Gives};
ghost use Rattle.rql_parser.specs.Parse.{refusal_at};
ghost use Rattle.rql_parser.specs.Parts.{counts_one};

use crate::matching::{
    collection, constant, desc_of, function, is_part, long_of, operator, part, same_mark,
};
use crate::refusal::RqlRefusal;
use crate::stop::Stop;
use raven_base::NoMemory;
use raven_value::{Scalar, Text};
use rql_grammar::RqlKind;
use rql_tokens::{Function, Placed, Token};
use rql_tree::CompareOp;
use std::alloc::Global;

const MAX_FIELDS: usize = 64;

/// The tokens that are left. The methods that take a token return `Stop::Unexpected` for every other one, and then take none.
#[derive(Drop)]
pub struct Tokens<'a> {
    /// The memory for what the rules make.
    pub alloc: Global,

    /// The tokens from the next one on.
    pub rest: &'a [Placed],

    /// How many fields were counted so far.
    pub count: usize,
}

impl<'a> Tokens<'a> {
    /// Whether the next token is this mark or key word.
    pub fn is_at(&self, mark: &Token) -> bool
        ensures { result ≡ next_is mark.now (head self.now.rest.now) }
    {
        match self.rest.first() {
            Some(next) => same_mark(mark, &next.token),
            None => false,
        }
    }

    /// Passes the next token.
    pub fn skip(&mut self)
        ensures rest { self.new.rest.now ≡ tail self.old.rest.now }
        ensures count { self.new.count ≡ self.old.count }
    {
        if let Some((_, rest)) = self.rest.split_first() {
            self.rest = rest;
        }
    }

    /// Takes this mark or key word.
    pub fn mark(&mut self, mark: &Token) -> Result<(), Stop>
        ensures { Gives (take unexpected (the mark.now) self.old.count self.old.rest.now) result self.new.count self.new.rest.now }
    {
        if self.is_at(mark) {
            self.skip();
            Ok(())
        } else {
            Err(Stop::Unexpected)
        }
    }

    /// Takes a name.
    pub fn name(&mut self) -> Result<Text, Stop>
        ensures { Gives (take unexpected spec_name self.old.count self.old.rest.now) result self.new.count self.new.rest.now }
    {
        match self.rest.split_first() {
            Some(
                (
                    Placed {
                        token: Token::Name(name),
                        ..
                    },
                    rest,
                ),
            ) => {
                let name = name.clone()?;
                self.rest = rest;
                Ok(name)
            }
            _ => Err(Stop::Unexpected),
        }
    }

    /// Takes a text in quotes, and returns its value.
    pub fn quoted(&mut self) -> Result<Text, Stop>
        ensures { Gives (take unexpected spec_quoted self.old.count self.old.rest.now) result self.new.count self.new.rest.now }
    {
        match self.rest.split_first() {
            Some(
                (
                    Placed {
                        token: Token::Quoted(text),
                        ..
                    },
                    rest,
                ),
            ) => {
                let value = text.clone()?;
                self.rest = rest;
                Ok(value)
            }
            _ => Err(Stop::Unexpected),
        }
    }

    /// Takes a part of a path, and returns its value.
    #[tactic(auto, unfolding(rql_grammar::specs::FieldReading::one_part))]
    pub fn part(&mut self) -> Result<Text, Stop>
        ensures { Gives (one_part self.old.count self.old.rest.now) result self.new.count self.new.rest.now }
    {
        let Some((next, rest)) = self.rest.split_first() else {
            return Err(Stop::Unexpected);
        };
        let Some(part) = part(&next.token) else {
            return Err(Stop::Unexpected);
        };
        if !is_part(part.as_str()) {
            return Err(Stop::NoPart);
        }
        let part = part.clone()?;
        self.rest = rest;
        Ok(part)
    }

    /// Counts a field that begins at the next token.
    #[tactic(auto, unfolding(rql_grammar::specs::FieldReading::counting))]
    pub fn count_field(&mut self) -> Result<(), Stop>
        ensures { Gives (counts_one self.old.count self.old.rest.now) result self.new.count self.new.rest.now }
    {
        let Some(next) = self.rest.first() else {
            return Err(Stop::Unexpected);
        };
        if part(&next.token).is_none() {
            return Err(Stop::Unexpected);
        }
        if self.count >= MAX_FIELDS {
            return Err(Stop::TooLarge);
        }
        self.count += 1;
        Ok(())
    }

    /// What the next token calls, if it is a call.
    pub fn function(&self) -> Option<Function>
        ensures { result ≡ function_at (head self.now.rest.now) }
    {
        function(self.rest.first()?)
    }

    /// The value that the next token is, if it is one.
    pub fn constant(&self) -> Result<Option<Scalar>, NoMemory>
        ensures { IfOk result (λ value. option_map scalar_view value ≡ constant_at (head self.now.rest.now)) }
    {
        match self.rest.first() {
            Some(next) => constant(&next.token),
            None => Ok(None),
        }
    }

    /// The collection that the next token names, if it names one.
    pub fn collection(&self) -> Result<Option<Text>, NoMemory>
        ensures { IfOk result (λ name. name ≡ collection_at (head self.now.rest.now)) }
    {
        let Some(next) = self.rest.first() else {
            return Ok(None);
        };
        match collection(&next.token) {
            Some(name) => Ok(Some(name.clone()?)),
            None => Ok(None),
        }
    }

    /// The sign that the next token is, if it is one.
    pub fn operator(&self) -> Option<CompareOp>
        ensures { option_map op_of result ≡ operator_at (head self.now.rest.now) }
    {
        operator(&self.rest.first()?.token)
    }

    /// Takes a name that says how values are compared: whether as numbers.
    pub fn long(&mut self) -> Result<bool, Stop>
        ensures { Gives (take unexpected spec_long self.old.count self.old.rest.now) result self.new.count self.new.rest.now }
    {
        let Some((next, rest)) = self.rest.split_first() else {
            return Err(Stop::Unexpected);
        };
        let Token::Name(name) = &next.token else {
            return Err(Stop::Unexpected);
        };
        let Some(long) = long_of(name.as_str()) else {
            return Err(Stop::Unexpected);
        };
        self.rest = rest;
        Ok(long)
    }

    /// What the next token says of the direction of an order, if it says it.
    pub fn desc(&self) -> Option<bool>
        ensures { result ≡ desc_at (head self.now.rest.now) }
    {
        match &self.rest.first()?.token {
            Token::Name(name) => desc_of(name.as_str()),
            _ => None,
        }
    }

    fn place(&self) -> usize
        ensures { result ≡ place_of self.now.rest.now }
    {
        match self.rest.first() {
            Some(next) => next.at,
            None => 0,
        }
    }

    fn is_at_bad_number(&self) -> bool
        ensures { result ≡ is_at_bad_number self.now.rest.now }
    {
        match self.rest.first() {
            Some(next) => matches!(next.token, Token::BadNumber),
            None => false,
        }
    }

    /// What refuses the text, if a rule has stopped at the next token.
    pub fn refusal(&self, stop: Stop) -> RqlRefusal
        ensures { result ≡ refusal_at stop self.now.rest.now }
    {
        let at = self.place();
        match stop {
            Stop::NoMemory => RqlRefusal::NoMemory,
            Stop::TooLarge => RqlRefusal::At {
                at,
                kind: RqlKind::TooLarge,
            },
            Stop::ClauseOrder => RqlRefusal::At {
                at,
                kind: RqlKind::ClauseOrder,
            },
            Stop::Unexpected if self.is_at_bad_number() => RqlRefusal::At {
                at,
                kind: RqlKind::BadNumber,
            },
            Stop::Unexpected | Stop::NoPart => RqlRefusal::At {
                at,
                kind: RqlKind::Unexpected,
            },
        }
    }
}
