//! What the fields of a row are compared with.
ghost use Rattle.std.specs.Prelude.{◌≡◌};

use raven_base::{Exact, Sequence};
use raven_value::{Scalar, Text};
use std::alloc::AllocError;

/// What a field is compared with.
pub enum Operand {
    /// A value that is written in the query.
    Const(Scalar),
    /// `$name`, the parameter of a name.
    Parameter(Text),
}

// Opaque drop: see raven_base.
impl Drop for Operand {
    fn drop(self) {
        match self {
            Operand::Const(_value) => {}
            Operand::Parameter(_value) => {}
        }
    }
}

/// Operands in order.
pub type Operands = Sequence<Operand>;

/// How a field is compared with an operand.
#[derive(Clone, Copy, Drop)]
pub enum CompareOp {
    /// `=`
    Is,
    /// `!=`
    Not,
    /// `<`
    Below,
    /// `<=`
    AtMost,
    /// `>`
    Above,
    /// `>=`
    AtLeast,
}

impl Clone for Operand {
    ghost is_clone = { λ s t. t ≡ s };

    fn clone(&self) -> Result<Operand, AllocError> {
        Ok(match self {
            Operand::Const(value) => Operand::Const(value.clone()?),
            Operand::Parameter(name) => Operand::Parameter(name.clone()?),
        })
    }
}

impl Exact for Operand {
    ghost exact = { λ x y same. same };
}
