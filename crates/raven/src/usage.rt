//! What is wrong with malformed arguments, in a line for whoever wrote them. Whether they are malformed is decided elsewhere.

use std::fmt;

/// The commands of the program.
#[derive(Clone, Copy)]
pub enum Verb {
    Run,
    Serve,
    Http,
    Measure,
}

impl Verb {
    pub fn of(word: &str) -> Option<Verb> {
        match word {
            "run" => Some(Verb::Run),
            "serve" => Some(Verb::Serve),
            "http" => Some(Verb::Http),
            "measure" => Some(Verb::Measure),
            _ => None,
        }
    }

    pub fn name(self) -> &'static str {
        match self {
            Verb::Run => "run",
            Verb::Serve => "serve",
            Verb::Http => "http",
            Verb::Measure => "measure",
        }
    }
}

/// What the value of an option has to be.
#[derive(Clone, Copy)]
pub enum Rule {
    Path,
    Base,
    Name,
    Number { least: u64, most: u64 },
}

impl Rule {
    fn of(verb: Verb, option: &str) -> Option<Rule> {
        match (verb, option) {
            (Verb::Measure, "--seed") => Some(Rule::within(1, 2_147_483_646)),
            (Verb::Measure, "--docs") => Some(Rule::within(1, 200_000)),
            (Verb::Measure, "--batch") => Some(Rule::within(1, 65_536)),
            (Verb::Measure, _) => None,
            (_, "--data") => Some(Rule::Path),
            (_, "--id") => Some(Rule::Base),
            (Verb::Serve | Verb::Http, "--db") => Some(Rule::Name),
            (Verb::Http, "--pump") => Some(Rule::within(0, 65_536)),
            (Verb::Serve, "--port") => Some(Rule::within(0, 65_535)),
            (Verb::Serve, "--workers") => Some(Rule::within(1, 64)),
            (Verb::Serve, "--pumps") => Some(Rule::within(1, 16)),
            (Verb::Serve, "--connections") => Some(Rule::within(1, 1_000_000)),
            _ => None,
        }
    }

    fn within(least: u64, most: u64) -> Rule {
        Rule::Number { least, most }
    }

    fn is_met(self, value: &str) -> bool {
        match self {
            Rule::Path => true,
            Rule::Base => value.len() == 22 && value.bytes().all(|b| b.is_ascii_alphanumeric()),
            Rule::Name => 1 <= value.len() && value.len() <= 64 && value.bytes().all(is_of_name),
            Rule::Number { least, most } => is_number(value, least, most),
        }
    }
}

fn is_of_name(byte: u8) -> bool {
    byte.is_ascii_alphanumeric() || byte == b'_' || byte == b'-'
}

// A number has at most ten digits, and no sign.
fn is_number(value: &str, least: u64, most: u64) -> bool {
    if value.len() > 10 || !value.bytes().all(|byte| byte.is_ascii_digit()) {
        return false;
    }
    match value.parse::<u64>() {
        Ok(number) => least <= number && number <= most,
        Err(_) => false,
    }
}

/// What is wrong with malformed arguments.
#[derive(Drop)]
pub enum Mistake<'a> {
    /// An argument is no text.
    NotText,

    /// There is no argument.
    NoCommand,

    NotACommand {
        word: &'a str,
    },
    NotAnOption {
        verb: Verb,
        word: &'a str,
    },

    /// An option and its value in one argument.
    Joined {
        option: &'a str,
        value: &'a str,
    },
    NoValue {
        option: &'a str,
    },
    NotAValue {
        option: &'a str,
        value: &'a str,
    },
    Refused {
        option: &'a str,
        value: &'a str,
        rule: Rule,
    },
    Twice {
        option: &'a str,
    },
}

// What is wrong with a word that stands where an option has to.
fn mistake_in_option<'a>(verb: Verb, word: &'a str) -> Mistake<'a> {
    match word.split_once('=') {
        Some((option, value)) if !value.is_empty() && Rule::of(verb, option).is_some() => {
            Mistake::Joined { option, value }
        }
        _ => Mistake::NotAnOption { verb, word },
    }
}

fn mistake_in_pair<'a>(verb: Verb, option: &'a str, value: &'a str) -> Option<Mistake<'a>> {
    let Some(rule) = Rule::of(verb, option) else {
        return Some(mistake_in_option(verb, option));
    };
    if value.is_empty() || value.starts_with('-') {
        return Some(Mistake::NotAValue { option, value });
    }
    if rule.is_met(value) {
        None
    } else {
        Some(Mistake::Refused {
            option,
            value,
            rule,
        })
    }
}

fn has_option(words: &[String], option: &str) -> bool {
    words.chunks(2).any(|pair| match pair {
        [word, ..] => word.as_str() == option,
        [] => false,
    })
}

// It looks at as many options as the command has at most, since none of them is known and comes again.
fn mistake_among<'a>(verb: Verb, words: &'a [String]) -> Option<Mistake<'a>> {
    match words {
        [] => None,
        [word] => {
            let option = word.as_str();
            match Rule::of(verb, option) {
                Some(_) => Some(Mistake::NoValue { option }),
                None => Some(mistake_in_option(verb, option)),
            }
        }
        [word, value, more @ ..] => {
            let option = word.as_str();
            if let Some(mistake) = mistake_in_pair(verb, option, value.as_str()) {
                return Some(mistake);
            }
            if has_option(more, option) {
                return Some(Mistake::Twice { option });
            }
            mistake_among(verb, more)
        }
    }
}

/// The command that the arguments name, if there is one.
pub fn verb_in(arguments: &[String]) -> Option<Verb> {
    Verb::of(arguments.first()?.as_str())
}

/// The first mistake in the arguments, if there is one.
pub fn mistake_in<'a>(arguments: &'a [String]) -> Option<Mistake<'a>> {
    let Some((word, words)) = arguments.split_first() else {
        return Some(Mistake::NoCommand);
    };
    let word = word.as_str();
    match Verb::of(word) {
        Some(verb) => mistake_among(verb, words),
        None => Some(Mistake::NotACommand { word }),
    }
}

// An argument as it is shown: as it is if it has signs alone that can be seen, and else between quotes.
#[derive(Drop)]
struct Shown<'a> {
    word: &'a str,
}

impl<'a> fmt::Display for Shown<'a> {
    fn fmt<W: fmt::Write>(&self, f: &mut fmt::Formatter<W>) -> fmt::Result {
        let word = self.word;
        if !word.is_empty() && word.bytes().all(|byte| byte.is_ascii_graphic()) {
            write!(f, "{word}")
        } else {
            write!(f, "{word:?}")
        }
    }
}

impl fmt::Display for Rule {
    fn fmt<W: fmt::Write>(&self, f: &mut fmt::Formatter<W>) -> fmt::Result {
        match self {
            Rule::Path => write!(f, "a path"),
            Rule::Base => write!(f, "22 letters or digits"),
            Rule::Name => write!(f, "1 to 64 letters, digits, _ or -"),
            Rule::Number { least, most } => write!(f, "from {least} to {most}"),
        }
    }
}

impl<'a> fmt::Display for Mistake<'a> {
    fn fmt<W: fmt::Write>(&self, f: &mut fmt::Formatter<W>) -> fmt::Result {
        match self {
            Mistake::NotText => write!(f, "an argument is not UTF-8"),
            Mistake::NoCommand => write!(f, "no command: it is run, serve, http or measure"),
            Mistake::NotACommand { word } => {
                let word = Shown { word };
                write!(f, "{word}: the commands are run, serve, http and measure")
            }
            Mistake::NotAnOption { verb, word } => {
                let word = Shown { word };
                let name = verb.name();
                write!(f, "{word}: {name} has no such option")
            }
            Mistake::Joined { option, value } => {
                let value = Shown { word: value };
                write!(f, "{option}={value}: write {option} {value}")
            }
            Mistake::NoValue { option } => write!(f, "{option}: its value is missing"),
            Mistake::NotAValue { option, value } => {
                let value = Shown { word: value };
                write!(
                    f,
                    "{option} {value}: a value is not empty, and does not begin with -"
                )
            }
            Mistake::Refused {
                option,
                value,
                rule,
            } => {
                let value = Shown { word: value };
                write!(f, "{option} {value}: {rule}")
            }
            Mistake::Twice { option } => write!(f, "{option}: it is given twice"),
        }
    }
}
