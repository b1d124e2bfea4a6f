//! Where documents are looked up.
ghost use Rattle.std.specs.Prelude.{◌≡◌, ℕ, List, Option, option_map};
ghost use Rattle.spec_data.specs.Folding.{folded};
ghost use Rattle.spec_data.specs.Rows as is;

use raven_value::{Id, Row};

/// Rows by their ids.
pub trait Lookup {
    /// The row of a folded id, if there is one.
    ghost rows: { Self → List ℕ → Option is.Row };

    /// The row of this id, if there is one.
    fn find(&self, id: &Id) -> Option<&Row>
        ensures { option_map (λ row. row.now) result ≡ rows self.now (folded id.now) };
}
