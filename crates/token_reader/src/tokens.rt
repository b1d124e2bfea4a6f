//! The tokens that are left of a text. A method that returns an `Err` leaves the refused token as the next one.
ghost use Rattle.std.specs.Prelude.{◌≡◌, if◌then◌else◌};
ghost use Rattle.exact_parse.specs.Steps.{head, tail, take};
ghost use Rattle.index_tokens.specs.Words.{next_is, the, name as spec_name, variable as spec_variable, quoted as spec_quoted};
ghost use Rattle.index_tokens.specs.declared.token.Token.TheVariants as t;
ghost use Rattle.token_reader.specs.Gives.{Gives};
ghost use Rattle.token_reader.specs.Answers.{refusal_at};

use crate::matching::{is_word, same_mark};
use crate::refusal::Refusal;
use crate::stop::Stop;
use index_tokens::{Placed, Token, is_reserved};
use raven_value::Text;
use std::alloc::Global;

/// The tokens that are left. The methods that take a token return `Stop::Unexpected` for every other one, and then take none.
#[derive(Drop)]
pub struct Tokens<'a> {
    /// The memory for what the rules make.
    pub alloc: Global,

    /// The tokens from the next one on.
    pub rest: &'a [Placed],

    /// How many tokens were counted so far, for a limit of the language.
    pub count: usize,
}

impl<'a> Tokens<'a> {
    /// Whether the next token is this mark.
    pub fn is_at(&self, mark: &Token) -> bool
        ensures { result ≡ next_is mark.now (head self.now.rest.now) }
    {
        match self.rest.first() {
            Some(next) => same_mark(mark, &next.token),
            None => false,
        }
    }

    /// Whether the next token is this word.
    pub fn is_at_word(&self, word: &str) -> bool
        ensures { result ≡ next_is (t.Word word.now) (head self.now.rest.now) }
    {
        match self.rest.first() {
            Some(next) => is_word(word, &next.token),
            None => false,
        }
    }

    /// Passes the next token.
    pub fn skip(&mut self)
        ensures rest { self.new.rest.now ≡ tail self.old.rest.now }
        ensures count { self.new.count ≡ self.old.count }
    {
        if let Some((_, rest)) = self.rest.split_first() {
            self.rest = rest;
        }
    }

    /// Passes this mark, if it is the next token.
    pub fn pass(&mut self, mark: &Token) -> bool
        ensures passed { result ≡ next_is mark.now (head self.old.rest.now) }
        ensures rest { self.new.rest.now ≡ (if result then tail self.old.rest.now else self.old.rest.now) }
        ensures count { self.new.count ≡ self.old.count }
    {
        let passed = self.is_at(mark);
        if passed {
            self.skip();
        }
        passed
    }

    /// Takes this mark.
    pub fn mark(&mut self, mark: &Token) -> Result<(), Stop>
        ensures { Gives (take tt (the mark.now) self.old.count self.old.rest.now) result self.new.count self.new.rest.now }
    {
        if self.is_at(mark) {
            self.skip();
            Ok(())
        } else {
            Err(Stop::Unexpected)
        }
    }

    /// Takes this word.
    pub fn word(&mut self, word: &str) -> Result<(), Stop>
        ensures { Gives (take tt (the (t.Word word.now)) self.old.count self.old.rest.now) result self.new.count self.new.rest.now }
    {
        if self.is_at_word(word) {
            self.skip();
            Ok(())
        } else {
            Err(Stop::Unexpected)
        }
    }

    /// Takes a name, which may be any word.
    pub fn name(&mut self) -> Result<Text, Stop>
        ensures { Gives (take tt spec_name self.old.count self.old.rest.now) result self.new.count self.new.rest.now }
    {
        match self.rest.split_first() {
            Some(
                (
                    Placed {
                        token: Token::Word(word),
                        ..
                    },
                    rest,
                ),
            ) => {
                let name = word.clone()?;
                self.rest = rest;
                Ok(name)
            }
            _ => Err(Stop::Unexpected),
        }
    }

    /// Takes a variable, which is no reserved word.
    pub fn variable(&mut self) -> Result<Text, Stop>
        ensures { Gives (take tt spec_variable self.old.count self.old.rest.now) result self.new.count self.new.rest.now }
    {
        match self.rest.split_first() {
            Some(
                (
                    Placed {
                        token: Token::Word(word),
                        ..
                    },
                    rest,
                ),
            ) if !is_reserved(word.as_str()) => {
                let name = word.clone()?;
                self.rest = rest;
                Ok(name)
            }
            _ => Err(Stop::Unexpected),
        }
    }

    /// Takes a text in quotes, and returns its value.
    pub fn quoted(&mut self) -> Result<Text, Stop>
        ensures { Gives (take tt spec_quoted self.old.count self.old.rest.now) result self.new.count self.new.rest.now }
    {
        match self.rest.split_first() {
            Some(
                (
                    Placed {
                        token: Token::Quoted(text),
                        ..
                    },
                    rest,
                ),
            ) => {
                let value = text.clone()?;
                self.rest = rest;
                Ok(value)
            }
            _ => Err(Stop::Unexpected),
        }
    }

    /// What refuses the text, if a rule has stopped at the next token.
    pub fn refusal(&self, stop: Stop) -> Refusal
        ensures { result ≡ refusal_at stop self.now.rest.now }
    {
        let at = match self.rest.first() {
            Some(next) => next.at,
            None => 0,
        };
        match stop {
            Stop::NoMemory => Refusal::NoMemory,
            Stop::Unexpected => Refusal::Unexpected { at },
            Stop::TooLarge => Refusal::TooLarge { at },
        }
    }
}
