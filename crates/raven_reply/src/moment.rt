//! Moments as they are printed.
ghost use Rattle.std.specs.Prelude.{◌≡◌, ◌-◌, ◌*◌, min, pos, IfOk};
ghost use Rattle.spec_data.specs.Limits.{moments_end};
ghost use Rattle.spec_data.specs.Moments.{moment_text as spec_moment_text};

use jiff_core::Timestamp;
use jiff_fmt::temporal::DateTimePrinter;
use raven_base::NoMemory;
use raven_value::{END_OF_MOMENTS, Text};
use std::alloc::Global;

// The instant of a moment, of which none is past the last.
fn instant(moment: u64) -> Timestamp
    ensures { result.nanosecond ≡ pos (min moment (moments_end - 1) * 1000) }
{
    Timestamp {
        nanosecond: i128::from(moment.min(END_OF_MOMENTS - 1)) * 1000,
    }
}

/// A moment, in microseconds since 1970-01-01T00:00:00Z, as `YYYY-MM-DDTHH:MM:SS.` and seven digits of the second's fraction and `Z`.
pub fn moment_text(alloc: Global, moment: u64) -> Result<Text, NoMemory>
    ensures { IfOk result (λ text. text ≡ spec_moment_text moment) }
{
    let printer = DateTimePrinter::new().precision(Some(7));
    Text::of(alloc, printer.timestamp_text(instant(moment)).as_str())
}
