//! Two values as one: their sum, the least and the greatest.
ghost use Rattle.std.specs.Prelude.{◌≡◌, ◌+ℤ◌};
ghost use Rattle.std.specs.Int.{int_wrap, w128};
ghost use Rattle.raven_value.specs.ScalarView.{scalar_view};
ghost use Rattle.spec_index.specs.Folds.{addend, backwards, first, null_last};

use raven_value::{Scalar, compare};
use std::cmp::Ordering;

/// A number is added, and all else adds nothing.
pub fn addend(value: &Scalar) -> i128
    ensures { result ≡ addend (scalar_view value.now) }
{
    match value {
        Scalar::Num(number) => *number,
        _ => 0,
    }
}

/// The sum modulo 2^128.
pub fn sum(a: &Scalar, b: &Scalar) -> i128
    ensures { result ≡ int_wrap w128 (addend (scalar_view a.now) +ℤ addend (scalar_view b.now)) }
{
    addend(a).wrapping_add(addend(b))
}

/// The least that is not null, or null.
pub fn least<'a>(a: &'a Scalar, b: &'a Scalar) -> &'a Scalar
    ensures { scalar_view result.now ≡ first null_last (scalar_view a.now) (scalar_view b.now) }
{
    match (a, b) {
        (Scalar::Null, _) => b,
        (_, Scalar::Null) => a,
        _ => match compare(a, b) {
            Ordering::Greater => b,
            _ => a,
        },
    }
}

/// The greatest that is not null, or null.
pub fn greatest<'a>(a: &'a Scalar, b: &'a Scalar) -> &'a Scalar
    ensures { scalar_view result.now ≡ first backwards (scalar_view a.now) (scalar_view b.now) }
{
    match compare(b, a) {
        Ordering::Greater => b,
        _ => a,
    }
}
