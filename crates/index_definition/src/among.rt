//! A name among others.
ghost use Rattle.std.specs.Prelude.{◌≡◌};
ghost use Rattle.index_definition.specs.Adding.{is_among as spec_is_among};

use raven_value::Text;

/// Whether the name is one of these.
pub fn is_among(key: &[Text], part: &Text) -> bool
    ensures { result ≡ spec_is_among key.now part.now }
{
    for other in key {
        if *part == *other {
            return true;
        }
    }
    false
}
