//! What is folded: values that have fields.
ghost use Rattle.std.specs.Prelude.{◌≡◌, option_map};
ghost use Rattle.raven_value.specs.ScalarView.{scalar_view};
ghost use Rattle.index_tree.specs.Meaning.{Fields, field_named};

use raven_base::Shared;
use raven_value::{Scalar, Text};

/// What has fields with scalars in them, as the entry of a document has.
pub trait HasFields {
    /// The fields, each under its name.
    ghost fields: { Self → Fields };

    /// The value of the field of that name, if there is one.
    fn field(&self, name: &Text) -> Option<&Scalar>
        ensures { option_map (λ v. scalar_view v.now) result ≡ field_named name.now (fields self.now) };
}

impl<T: HasFields> HasFields for Shared<T> {
    ghost fields = { T.fields };

    fn field(&self, name: &Text) -> Option<&Scalar> {
        self.get().field(name)
    }
}
