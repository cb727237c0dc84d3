ghost use Rattle.std.specs.Prelude.{◌<◌, ◌^◌};

use std::rt;
use std::time::Duration;

/// The last time that can be reported, in milliseconds.
pub(crate) const GREATEST_TIME: u64 = (1 << 63) - 1;

/// What the clock of the system shows, or nothing where it cannot be read.
pub(crate) fn reading<R: rt::Clock>(system: &R) -> Duration {
    match system.monotonic() {
        Ok(now) => now,
        Err(_) => Duration::ZERO,
    }
}

/// Milliseconds since a beginning, as far as they fit.
pub(crate) fn millis_since<R: rt::Clock>(system: &R, began: Duration) -> u64
    ensures { result < 2 ^ 63 }
{
    reading(system)
        .saturating_sub(began)
        .as_millis()
        .min(u128::from(GREATEST_TIME)) as u64
}
