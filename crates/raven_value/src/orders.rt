//! What an order of two values says of them, if they have one.
ghost use Rattle.std.specs.Prelude.{◌≡◌, false};
ghost use Rattle.std.specs.Option.{option_map_or};
ghost use Rattle.std.specs.Ordering.{is_lt, is_le, is_gt, is_ge};

use std::cmp::Ordering;

/// Whether the first is below the second.
pub fn is_below(order: Option<Ordering>) -> bool
    ensures { result ≡ option_map_or is_lt order false }
{
    order == Some(Ordering::Less)
}

/// Whether the first is at most the second.
pub fn is_at_most(order: Option<Ordering>) -> bool
    ensures { result ≡ option_map_or is_le order false }
{
    matches!(order, Some(Ordering::Less | Ordering::Equal))
}

/// Whether the first is above the second.
pub fn is_above(order: Option<Ordering>) -> bool
    ensures { result ≡ option_map_or is_gt order false }
{
    order == Some(Ordering::Greater)
}

/// Whether the first is at least the second.
pub fn is_at_least(order: Option<Ordering>) -> bool
    ensures { result ≡ option_map_or is_ge order false }
{
    matches!(order, Some(Ordering::Greater | Ordering::Equal))
}
