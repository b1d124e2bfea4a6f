//! How documents are shown.
ghost use Rattle.std.specs.Prelude.{◌≡◌, IfOk};
ghost use Rattle.spec_data.specs.Data.{Data};
ghost use Rattle.spec_data.specs.Rows as is;

use raven_base::NoMemory;
use raven_json::Shown;
use raven_value::{Document, Row};
use std::alloc::Global;

/// How a whole document is shown to a client.
pub trait Show {
    /// What is shown of a row and its document.
    ghost shown: { Self → is.Row → Data → Data };

    /// What is shown of a row and its document.
    fn show(&self, alloc: Global, row: &Row, document: &Document) -> Result<Shown, NoMemory>
        ensures { IfOk result (λ found. found ≡ shown self.now row.now document.now) };
}
