//! What a query reads of a row.
ghost use Rattle.std.specs.Prelude.{◌≡◌};

use raven_base::Exact;
use raven_value::Path;
use std::alloc::AllocError;

/// What a query reads of a row.
pub enum Field {
    /// The value at a path.
    Path(Path),
    /// `count()`, the number of the entries of a group.
    Count,
    /// `sum(..)`, the sum of the values of a group at a path.
    Sum(Path),
}

// Opaque drop: see raven_base.
impl Drop for Field {
    fn drop(self) {
        match self {
            Field::Path(_value) => {}
            Field::Count => {}
            Field::Sum(_value) => {}
        }
    }
}

impl Clone for Field {
    ghost is_clone = { λ s t. t ≡ s };

    fn clone(&self) -> Result<Field, AllocError> {
        Ok(match self {
            Field::Path(path) => Field::Path(path.clone()?),
            Field::Count => Field::Count,
            Field::Sum(path) => Field::Sum(path.clone()?),
        })
    }
}

impl Exact for Field {
    ghost exact = { λ x y same. same };
}
