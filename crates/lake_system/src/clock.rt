//! The system's clock.
ghost use Rattle.std.specs.Prelude.{◌<◌, ◌^◌};

use lake_store::Clock;
use std::time;

/// The system's clock. It answers 0 where the system gives no time, one before 1970, or one of 2^63
/// milliseconds or more.
#[derive(Drop)]
pub struct SystemClock<R> {
    rt: R,
}

impl<R: time::Clock> SystemClock<R> {
    /// The clock of this system.
    pub fn new(rt: R) -> SystemClock<R> {
        SystemClock { rt }
    }
}

impl<R: time::Clock> Clock for SystemClock<R> {
    ghost gives = { λ _ time. time < 2 ^ 63 };

    fn now_ms(&mut self) -> u64 {
        match self.rt.since_1970() {
            Ok(time) => in_range(time.as_millis()),
            Err(_) => 0,
        }
    }
}

fn in_range(milliseconds: u128) -> u64
    ensures { result < 2 ^ 63 }
{
    if milliseconds < 1 << 63 {
        milliseconds as u64
    } else {
        0
    }
}
