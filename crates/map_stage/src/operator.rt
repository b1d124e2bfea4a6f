//! What the operators give.
ghost use Rattle.std.specs.Prelude.{◌≡◌, ◌++◌, IfOk, option_map};
ghost use Rattle.spec_data.specs.Data.{entries_of, items_of, num, object};
ghost use Rattle.raven_value.specs.DataEq.{data_eq, entries_eq, items_eq};
ghost use Rattle.index_tree.specs.Numbers.{difference, product, quotient, remainder, sum};
ghost use Rattle.index_tree.specs.Operators.{arithmetic, binary, part_of, plus, standing, unary};
ghost use Rattle.map_stage.specs.HeldView.{held_of};
ghost use Rattle.map_stage.specs.LentView.{lent_value};

use crate::date::date_part;
use crate::held::Held;
use crate::lent::Lent;
use crate::number;
use index_tree::{BinaryOp, UnaryOp};
use raven_base::NoMemory;
use raven_value::{Members, Text, Values, is_above, is_at_least, is_at_most, is_below};
use std::alloc::Global;
use std::borrow::Cow;
use std::cmp::Ordering;

// The member of an object, or null. That of a shared object is copied.
fn member_of<'a>(
    alloc: Global,
    members: &Lent<'a, Members>,
    name: &Text,
) -> Result<Held<'a>, NoMemory>
    ensures { IfOk result (λ held. held_of held ≡ part_of name.now (object (entries_of (lent_value members.now)))) }
{
    match members {
        Lent::Borrowed(members) => match members.get(name.as_str()) {
            Some(value) => Ok(Held::of(value)),
            None => Ok(Held::Null),
        },
        Lent::Shared(members) => match members.get().get(name.as_str()) {
            Some(value) => Held::of_value(alloc, value.clone()?),
            None => Ok(Held::Null),
        },
    }
}

/// The member of an object, or the part of a date that is a text. For all else, and if there is none, it is null.
pub fn part_of<'a>(alloc: Global, holder: &Held<'a>, name: &Text) -> Result<Held<'a>, NoMemory>
    ensures { IfOk result (λ held. held_of held ≡ part_of name.now (held_of holder.now)) }
{
    match holder {
        Held::Map(members) => member_of(alloc, members, name),
        Held::Text(text) => match date_part(name.as_str(), text.as_ref().as_str()) {
            Some(number) => Ok(Held::Num(number)),
            None => Ok(Held::Null),
        },
        _ => Ok(Held::Null),
    }
}

/// What an operator gives for its operand, or nothing if the result does not fit.
pub fn unary<'a>(op: UnaryOp, operand: &Held<'a>) -> Option<Held<'a>>
    ensures { option_map held_of result ≡ unary op (held_of operand.now) }
{
    match op {
        UnaryOp::Bang => Some(Held::Flag(!operand.is_true())),
        UnaryOp::Minus => match operand {
            Held::Num(n) => Some(Held::Num(number::negative(*n)?)),
            _ => Some(Held::Null),
        },
    }
}

/// What an operator gives for its two operands, or nothing if the result does not fit or the divisor is zero.
pub fn binary<'a>(
    alloc: Global,
    op: BinaryOp,
    left: &Held<'a>,
    right: &Held<'a>,
) -> Result<Option<Held<'a>>, NoMemory>
    ensures { IfOk result (λ held. option_map held_of held ≡ binary op (held_of left.now) (held_of right.now)) }
{
    match op {
        BinaryOp::Or => Ok(Some(Held::Flag(left.is_true() || right.is_true()))),
        BinaryOp::And => Ok(Some(Held::Flag(left.is_true() && right.is_true()))),
        BinaryOp::Equal => Ok(Some(Held::Flag(are_same(left, right)))),
        BinaryOp::NotEqual => Ok(Some(Held::Flag(!are_same(left, right)))),
        BinaryOp::Below => Ok(Some(Held::Flag(is_below(standing(left, right))))),
        BinaryOp::AtMost => Ok(Some(Held::Flag(is_at_most(standing(left, right))))),
        BinaryOp::Above => Ok(Some(Held::Flag(is_above(standing(left, right))))),
        BinaryOp::AtLeast => Ok(Some(Held::Flag(is_at_least(standing(left, right))))),
        BinaryOp::Plus => plus(alloc, left, right),
        BinaryOp::Minus => Ok(difference(left, right)),
        BinaryOp::Times => Ok(product(left, right)),
        BinaryOp::Over => Ok(quotient(left, right)),
        BinaryOp::Rest => Ok(remainder(left, right)),
    }
}

fn have_same_items(left: &Values, right: &Values) -> bool
    ensures { result ≡ items_eq (items_of left.now) (items_of right.now) }
{
    left.as_slice() == right.as_slice()
}

fn have_same_members(left: &Members, right: &Members) -> bool
    ensures { result ≡ entries_eq (entries_of left.now) (entries_of right.now) }
{
    left.as_slice() == right.as_slice()
}

fn are_same(left: &Held, right: &Held) -> bool
    ensures { result ≡ data_eq (held_of left.now) (held_of right.now) }
{
    match (left, right) {
        (Held::Null, Held::Null) => true,
        (Held::Flag(a), Held::Flag(b)) => *a == *b,
        (Held::Num(m), Held::Num(n)) => *m == *n,
        (Held::Text(s), Held::Text(t)) => *s.as_ref() == *t.as_ref(),
        (Held::List(a), Held::List(b)) => have_same_items(a.get(), b.get()),
        (Held::Map(a), Held::Map(b)) => have_same_members(a.get(), b.get()),
        _ => false,
    }
}

fn standing(left: &Held, right: &Held) -> Option<Ordering>
    ensures { result ≡ standing (held_of left.now) (held_of right.now) }
{
    match (left, right) {
        (Held::Num(m), Held::Num(n)) => Some(m.cmp(n)),
        (Held::Text(s), Held::Text(t)) => Some(s.as_ref().cmp(t.as_ref())),
        _ => None,
    }
}

fn joined(alloc: Global, left: &Text, right: &Text) -> Result<Text, NoMemory>
    ensures { IfOk result (λ text. text ≡ left.now ++ right.now) }
{
    let mut text = String::from_str(alloc, left.as_str())?;
    text.push_str(right.as_str())?;
    Text::of_string(text)
}

fn total<'a>(m: i64, n: i64) -> Option<Held<'a>>
    ensures { option_map held_of result ≡ option_map num (sum m n) }
{
    Some(Held::Num(number::sum(m, n)?))
}

fn plus<'a>(alloc: Global, left: &Held<'a>, right: &Held<'a>) -> Result<Option<Held<'a>>, NoMemory>
    ensures { IfOk result (λ held. option_map held_of held ≡ plus (held_of left.now) (held_of right.now)) }
{
    match (left, right) {
        (Held::Text(s), Held::Text(t)) => {
            let text = joined(alloc, s.as_ref(), t.as_ref())?;
            Ok(Some(Held::Text(Cow::Owned(text))))
        }
        (Held::Num(m), Held::Num(n)) => Ok(total(*m, *n)),
        _ => Ok(Some(Held::Null)),
    }
}

fn difference<'a>(left: &Held<'a>, right: &Held<'a>) -> Option<Held<'a>>
    ensures { option_map held_of result ≡ arithmetic difference (held_of left.now) (held_of right.now) }
{
    match (left, right) {
        (Held::Num(m), Held::Num(n)) => Some(Held::Num(number::difference(*m, *n)?)),
        _ => Some(Held::Null),
    }
}

fn product<'a>(left: &Held<'a>, right: &Held<'a>) -> Option<Held<'a>>
    ensures { option_map held_of result ≡ arithmetic product (held_of left.now) (held_of right.now) }
{
    match (left, right) {
        (Held::Num(m), Held::Num(n)) => Some(Held::Num(number::product(*m, *n)?)),
        _ => Some(Held::Null),
    }
}

fn quotient<'a>(left: &Held<'a>, right: &Held<'a>) -> Option<Held<'a>>
    ensures { option_map held_of result ≡ arithmetic quotient (held_of left.now) (held_of right.now) }
{
    match (left, right) {
        (Held::Num(m), Held::Num(n)) => Some(Held::Num(number::quotient(*m, *n)?)),
        _ => Some(Held::Null),
    }
}

fn remainder<'a>(left: &Held<'a>, right: &Held<'a>) -> Option<Held<'a>>
    ensures { option_map held_of result ≡ arithmetic remainder (held_of left.now) (held_of right.now) }
{
    match (left, right) {
        (Held::Num(m), Held::Num(n)) => Some(Held::Num(number::remainder(*m, *n)?)),
        _ => Some(Held::Null),
    }
}
