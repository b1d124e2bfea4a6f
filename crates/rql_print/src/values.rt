//! Values.
ghost use Rattle.std.specs.Prelude.{◌≡◌, ◌++◌, OnOk, map, string_bytes};
ghost use Rattle.raven_value.specs.ScalarView.{scalar_view};
ghost use Rattle.rql_print.specs.Print.{clause, scalar_text, value_text};
ghost use Rattle.rql_tree.specs.View.{operand_of};

use raven_base::NoMemory;
use raven_value::Scalar;
use rql_tree::{Operand, add, add_quoted};
use std::alloc::Global;

fn add_scalar(alloc: Global, out: &mut String, value: &Scalar) -> Result<(), NoMemory>
    ensures { OnOk result (string_bytes out.new ≡ string_bytes out.old ++ scalar_text (scalar_view value.now)) }
{
    match value {
        Scalar::Null => add(out, "null"),
        Scalar::Flag(true) => add(out, "true"),
        Scalar::Flag(false) => add(out, "false"),
        Scalar::Num(number) => add(out, number.to_string(alloc)?.as_str()),
        Scalar::Text(text) => add_quoted(out, text.as_str()),
    }
}

/// Adds the text of an operand.
pub fn add_value(alloc: Global, out: &mut String, operand: &Operand) -> Result<(), NoMemory>
    ensures { OnOk result (string_bytes out.new ≡ string_bytes out.old ++ value_text (operand_of operand.now)) }
{
    match operand {
        Operand::Const(value) => add_scalar(alloc, out, value),
        Operand::Parameter(name) => {
            add(out, "$")?;
            add(out, name.as_str())
        }
    }
}

/// Adds the texts of operands, with a comma between each two and the lead before the first.
pub fn add_values(
    alloc: Global,
    out: &mut String,
    word: &str,
    operands: &[Operand],
) -> Result<(), NoMemory>
    ensures { OnOk result (string_bytes out.new ≡ string_bytes out.old ++ clause word.now (map value_text (map operand_of operands.now))) }
{
    let mut lead = word;
    for operand in operands {
        add(out, lead)?;
        add_value(alloc, out, operand)?;
        lead = ", ";
    }
    Ok(())
}
