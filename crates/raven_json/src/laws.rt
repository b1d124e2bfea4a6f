//! The law of the two directions.
ghost use Rattle.std.specs.Prelude.{◌≡◌, ◌≤◌, Ok};
ghost use Rattle.spec_data.specs.Data.{Data, depth};
ghost use Rattle.spec_data.specs.Json.{reading};
ghost use Rattle.spec_data.specs.Limits.{max_depth};
ghost use Rattle.spec_data.specs.Sound.{IsSound};
ghost use Rattle.spec_data.specs.Written.{text_of};

/// The text of each value at most a hundred deep is read as that value.
pub fn written_is_read()
    ensures { (d : Data) → IsSound d → depth d ≤ max_depth → reading (text_of d) ≡ Ok d }
{}
