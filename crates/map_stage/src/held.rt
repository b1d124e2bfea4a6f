//! Values while a document is mapped.
ghost use Rattle.std.specs.Prelude.{◌≡◌, FitsSigned, IfOk};
ghost use Rattle.std.specs.Int.{w64};
ghost use Rattle.spec_data.specs.Scalars.{number, scalar_of};
ghost use Rattle.raven_value.specs.ScalarView.{scalar_view};
ghost use Rattle.raven_value.specs.View.{data_of};
ghost use Rattle.index_tree.specs.Operators.{is_true};
ghost use Rattle.map_stage.specs.HeldView.{held_of};
ghost use Rattle.map_stage.specs.Words.{IsWord};

use crate::lent::Lent;
use raven_base::{NoMemory, Shared};
use raven_value::{Members, Scalar, Text, Value, Values};
use std::alloc::Global;
use std::borrow::Cow;

/// A value that lies in the document, that was loaded, or that was computed. No operator makes lists and objects.
pub enum Held<'a> {
    Null,
    Flag(bool),
    Num(i64),
    Text(Cow<'a, Text>),
    List(Lent<'a, Values>),
    Map(Lent<'a, Members>),
}

// Opaque drop: see raven_base.
impl<'a> Drop for Held<'a> {
    fn drop(self) {
        match self {
            Held::Null => {}
            Held::Flag(_value) => {}
            Held::Num(_value) => {}
            Held::Text(_value) => {}
            Held::List(_value) => {}
            Held::Map(_value) => {}
        }
    }
}

/// A number of 64 bits as a scalar, whose numbers are wider.
fn wide(n: i64) -> Scalar
    ensures scalar { scalar_view result ≡ number n }
    ensures fits { FitsSigned w64 n }
{
    Scalar::Num(i128::from(n))
}

impl<'a> Held<'a> {
    /// The value, where it lies.
    pub fn of(value: &'a Value) -> Held<'a>
        ensures { held_of result ≡ data_of value.now }
    {
        match value {
            Value::Null => Held::Null,
            Value::Flag(flag) => Held::Flag(*flag),
            Value::Num(number) => Held::Num(*number),
            Value::Text(text) => Held::Text(Cow::Borrowed(text)),
            Value::List(items) => Held::List(Lent::Borrowed(items)),
            Value::Map(members) => Held::Map(Lent::Borrowed(members)),
        }
    }

    /// The value, whose list or object is shared from now on.
    pub fn of_value(alloc: Global, value: Value) -> Result<Held<'a>, NoMemory>
        ensures { IfOk result (λ held. held_of held ≡ data_of value) }
    {
        Ok(match value {
            Value::Null => Held::Null,
            Value::Flag(flag) => Held::Flag(flag),
            Value::Num(number) => Held::Num(number),
            Value::Text(text) => Held::Text(Cow::Owned(text)),
            Value::List(items) => Held::List(Lent::Shared(Shared::of(alloc, items)?)),
            Value::Map(members) => Held::Map(Lent::Shared(Shared::of(alloc, members)?)),
        })
    }

    /// The same value. What was computed or loaded is shared.
    pub fn copy(&self) -> Result<Held<'a>, NoMemory>
        ensures { IfOk result (λ held. held_of held ≡ held_of self.now) }
    {
        Ok(match self {
            Held::Null => Held::Null,
            Held::Flag(flag) => Held::Flag(*flag),
            Held::Num(number) => Held::Num(*number),
            Held::Text(text) => Held::Text(text.clone()?),
            Held::List(items) => Held::List(items.copy()?),
            Held::Map(members) => Held::Map(members.copy()?),
        })
    }

    /// Whether it is the flag true.
    pub fn is_true(&self) -> bool
        ensures { result ≡ is_true (held_of self.now) }
    {
        match self {
            Held::Flag(flag) => *flag,
            _ => false,
        }
    }

    /// The scalar of the same meaning, and null for a list or an object. A text is shared.
    pub fn scalar(&self) -> Result<Scalar, NoMemory>
        ensures scalar { IfOk result (λ scalar. scalar_view scalar ≡ scalar_of (held_of self.now)) }
        ensures word { IfOk result (λ scalar. IsWord (scalar_view scalar)) }
    {
        match self {
            Held::Flag(flag) => Ok(Scalar::Flag(*flag)),
            Held::Num(n) => Ok(wide(*n)),
            Held::Text(text) => Ok(Scalar::Text(text.as_ref().clone()?)),
            Held::Null | Held::List(_) | Held::Map(_) => Ok(Scalar::Null),
        }
    }
}

/// The scalar of a value, null for a list or an object. A text is shared, and a number has 64 bits.
pub fn scalar_of(value: &Value) -> Result<Scalar, NoMemory>
    ensures scalar { IfOk result (λ scalar. scalar_view scalar ≡ scalar_of (data_of value.now)) }
    ensures word { IfOk result (λ scalar. IsWord (scalar_view scalar)) }
{
    Held::of(value).scalar()
}
