//! Orders.
ghost use Rattle.std.specs.Prelude.{◌≡◌, ◌++◌, [], ◌∷◌, IfOk, OnOk, codes, string_bytes};
ghost use Rattle.std.specs.Fmt.{decimal};
ghost use Rattle.raven_value.specs.View.{data_of};
ghost use Rattle.spec_data.specs.Data.{text as spec_text};
ghost use Rattle.spec_measure.specs.Draws.{next};
ghost use Rattle.spec_measure.specs.Orders.{company as spec_company, moment as spec_moment, order as spec_order, order_id as spec_order_id, two_digits};
ghost use Rattle.spec_server.specs.Replies.{members};

use crate::draws::Draws;
use raven_base::NoMemory;
use raven_value::{Id, Members, Text, Value};
use std::alloc::Global;

// A text with a number behind it.
fn numbered(alloc: Global, front: &str, number: u64) -> Result<String, NoMemory>
    ensures { IfOk result (λ text. string_bytes text ≡ front.now ++ decimal number) }
{
    let mut text = String::from_str(alloc, front)?;
    text.push_str(number.to_string(alloc)?.as_str())?;
    Ok(text)
}

/// The id of the order of this number.
pub fn order_id(alloc: Global, number: u64) -> Result<Id, NoMemory>
    ensures { IfOk result (λ id. id ≡ spec_order_id number) }
{
    let text = numbered(alloc, "orders/", number)?;
    match Id::new(alloc, text.as_str()) {
        Ok(id) => Ok(id),
        Err(refusal) => Err(refusal.memory_alone()),
    }
}

fn company(alloc: Global, a: u64) -> Result<Text, NoMemory>
    ensures { IfOk result (λ text. text ≡ spec_company a) }
{
    Text::of_string(numbered(alloc, "companies/", 1 + a % 25)?)
}

// Adds a number in at least two digits.
fn add_two_digits(alloc: Global, out: &mut String, number: u64) -> Result<(), NoMemory>
    ensures { OnOk result (string_bytes out.new ≡ string_bytes out.old ++ two_digits number) }
{
    if number < 10 {
        out.push_str("0")?;
    }
    out.push_str(number.to_string(alloc)?.as_str())?;
    Ok(())
}

#[tactic(auto, using(crate::proofs::Texts::moments))]
fn moment(alloc: Global, b: u64) -> Result<Text, NoMemory>
    ensures { IfOk result (λ text. text ≡ spec_moment b) }
{
    let mut text = (1996 + b % 3).to_string(alloc)?;
    text.push_str("-")?;
    add_two_digits(alloc, &mut text, 1 + b / 3 % 12)?;
    text.push_str("-")?;
    add_two_digits(alloc, &mut text, 1 + b / 36 % 28)?;
    text.push_str("T00:00:00.0000000")?;
    Text::of_string(text)
}

fn metadata(alloc: Global) -> Result<Value, NoMemory>
    ensures { IfOk result (λ value. data_of value ≡ members ((codes "@collection", spec_text (codes "Orders")) ∷ [])) }
{
    let mut metadata = Members::new(alloc);
    metadata.put_at(
        alloc,
        "@collection",
        Value::Text(Text::of(alloc, "Orders")?),
    )?;
    Ok(Value::Map(metadata))
}

/// The document of the next order, which takes three draws.
pub fn order(alloc: Global, draws: &mut Draws) -> Result<Value, NoMemory>
    ensures order { IfOk result (λ value. data_of value ≡ spec_order (next draws.old) (next (next draws.old)) (next (next (next draws.old)))) }
    ensures draws { draws.new ≡ next (next (next draws.old)) }
{
    let a = draws.next();
    let b = draws.next();
    let c = draws.next();
    let mut members = Members::new(alloc);
    members.put_at(alloc, "@metadata", metadata(alloc)?)?;
    members.put_at(alloc, "Cents", Value::Num((1 + c % 100_000) as i64))?;
    members.put_at(alloc, "Company", Value::Text(company(alloc, a)?))?;
    members.put_at(alloc, "OrderedAt", Value::Text(moment(alloc, b)?))?;
    Ok(Value::Map(members))
}
