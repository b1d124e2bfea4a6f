//! The arguments after a command: pairs of a name and a value.
ghost use Rattle.std.specs.Prelude.{◌≡◌, ◌&&◌, IfOk, map, option_map, string_bytes};
ghost use Rattle.std.specs.List.{list_any};
ghost use Rattle.std.specs.Str.{bytes_eq};
ghost use Rattle.spec_server.specs.Options.{are_known as spec_are_known, are_once as spec_are_once, has_name as spec_has_name, is_value as spec_is_value, pairs_in as spec_pairs_in, value_named as spec_value_named};
ghost use Rattle.raven_console.specs.ArgumentsView.{names_view, pair_view, text_view};

use raven_base::NoMemory;
use std::alloc::Global;

// A value is not empty and does not begin with `-`, so that no name is taken for a value.
fn is_value(text: &str) -> bool
    ensures { result ≡ spec_is_value text.now }
{
    match text.as_bytes() {
        [] => false,
        [first, ..] => *first != b'-',
    }
}

/// The arguments as pairs of a name and a value, if they are such.
#[tactic(auto, using(crate::proofs::PairLemmas::pairs))]
pub(crate) fn pairs_in<'a>(
    alloc: Global,
    arguments: &'a [String],
) -> Result<Option<Vec<(&'a str, &'a str)>>, NoMemory>
    ensures { IfOk result (λ pairs. option_map (λ v. map pair_view v.items) pairs ≡ spec_pairs_in (map string_bytes arguments.now)) }
{
    let mut pairs = Vec::new(alloc);
    let mut rest = arguments;
    while let Some((name, after_name)) = rest.split_first() {
        let Some((value, more)) = after_name.split_first() else {
            return Ok(None);
        };
        if !is_value(value.as_str()) {
            return Ok(None);
        }
        pairs.push((name.as_str(), value.as_str()))?;
        rest = more;
    }
    Ok(Some(pairs))
}

fn has_name(pairs: &[(&str, &str)], name: &str) -> bool
    ensures { result ≡ spec_has_name (map pair_view pairs.now) name.now }
{
    for pair in pairs {
        if pair.0 == name {
            return true;
        }
    }
    false
}

fn are_once(pairs: &[(&str, &str)]) -> bool
    ensures { result ≡ spec_are_once (map pair_view pairs.now) }
{
    match pairs {
        [] => true,
        [first, more @ ..] => !has_name(more, first.0) && are_once(more),
    }
}

fn is_known(names: &[&str], name: &str) -> bool
    ensures { result ≡ list_any (bytes_eq name.now) (names_view names.now) }
{
    for known in names {
        if name == *known {
            return true;
        }
    }
    false
}

fn are_known(names: &[&str], pairs: &[(&str, &str)]) -> bool
    ensures { result ≡ spec_are_known (names_view names.now) (map pair_view pairs.now) }
{
    for pair in pairs {
        if !is_known(names, pair.0) {
            return false;
        }
    }
    true
}

/// Whether each name is one of these, and none is given twice.
pub(crate) fn are_valid(names: &[&str], pairs: &[(&str, &str)]) -> bool
    ensures { result ≡ (spec_are_known (names_view names.now) (map pair_view pairs.now) && spec_are_once (map pair_view pairs.now)) }
{
    are_known(names, pairs) && are_once(pairs)
}

/// The value of a name, if it is given.
pub(crate) fn value_named<'a>(pairs: &[(&'a str, &'a str)], name: &str) -> Option<&'a str>
    ensures { text_view result ≡ spec_value_named name.now (map pair_view pairs.now) }
{
    for pair in pairs {
        if pair.0 == name {
            return Some(pair.1);
        }
    }
    None
}
