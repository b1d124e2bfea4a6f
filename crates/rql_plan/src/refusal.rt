//! Why a query is no plan.
ghost use Rattle.std.specs.Prelude.{◌≡◌};
ghost use Rattle.rql_plan.specs.declared.refusal.PlanRefusal.TheVariants.{NoMemory as OutOfMemory};

use raven_base::NoMemory;
use raven_value::Text;
use thiserror::Error;

/// Why a query is no plan. The causes are tested in the order in which they stand here, and each is about the first place in
/// the text of the query.
#[derive(Debug, Drop, Error)]
pub enum PlanRefusal {
    /// A parameter has no value that fits, or `startsWith` has a value that is no text.
    #[error("a parameter has no value that fits")]
    NoParameter {
        /// The name of the parameter; for a value of `startsWith` that is no text, `startsWith`.
        name: Text,
    },

    /// A field is none of the groups; or it is a count or a sum, and the query has no groups.
    #[error("a field is not grouped")]
    NotGrouped {
        /// The field as it is printed.
        name: Text,
    },

    /// The start or the size of the page is below 0 or above 2,147,483,647.
    #[error("the page is outside its limits")]
    BadPage,

    /// The index has no such field.
    #[error("the index has no such field")]
    NoField {
        /// The field as it is printed.
        name: Text,
    },

    /// Out of memory.
    #[error("no memory was found")]
    NoMemory,
}

impl From<NoMemory> for PlanRefusal {
    ghost from_gives = { λ _ refusal. refusal ≡ OutOfMemory };

    fn from(_lack: NoMemory) -> PlanRefusal {
        PlanRefusal::NoMemory
    }
}
