//! Values whose text can be read.
ghost use Rattle.std.specs.Prelude.{◌≡◌, ◌≤◌};
ghost use Rattle.spec_data.specs.Data.{depth};
ghost use Rattle.spec_data.specs.Limits.{max_depth};
ghost use Rattle.raven_value.specs.View.{data_of};

use crate::value::Value;
use std::marker::Model;

/// A value that is at most a hundred deep, as what is read is.
#[derive(Drop)]
pub struct Shallow {
    value: Value,
}

impl Model for Shallow {
    ghost use Rattle.spec_data.specs.Data.{Data};
    ghost use Rattle.spec_data.specs.DataCode.{data_code};

    ghost Value = { Data };

    ghost coded = { data_code };

    ghost use Rattle.std.specs.Prelude.{◌≤◌};
    ghost use Rattle.spec_data.specs.Data.{depth};
    ghost use Rattle.spec_data.specs.Limits.{max_depth};
    ghost use Rattle.raven_value.specs.View.{data_of};

    ghost view = { λ a. data_of a.value };

    ghost invariant = { λ a. depth (data_of a.value) ≤ max_depth };
}

impl Shallow {
    /// This value.
    pub fn of(value: Value) -> Shallow
        requires { depth (data_of value) ≤ max_depth }
        ensures { result ≡ data_of value }
    {
        Shallow { value }
    }

    /// The value, where it is.
    pub fn value(&self) -> &Value
        ensures value { data_of result.now ≡ self.now }
        ensures shallow { depth self.now ≤ max_depth }
    {
        &self.value
    }

    /// The value. It takes no memory.
    pub fn into_value(self) -> Value
        ensures value { data_of result ≡ self }
        ensures shallow { depth self ≤ max_depth }
    {
        let Shallow { value } = self;
        value
    }
}
