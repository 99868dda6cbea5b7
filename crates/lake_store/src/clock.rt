//! The time of day.
ghost use Rattle.std.specs.Prelude.{◌≡◌, ◌<◌, ◌^◌, ℕ};

use std::marker::Model;

/// What tells the time.
pub trait Clock {
    /// The times that it may give.
    ghost gives: { Self → ℕ → Type 0 };

    /// Milliseconds since 1970-01-01 in UTC.
    fn now_ms(&mut self) -> u64
        ensures small { result < 2 ^ 63 }
        ensures given { gives self.old result }
        ensures still { (time : ℕ) → gives self.new time → gives self.old time };
}

/// A clock that stands still.
#[derive(Clone, Copy, Debug)]
pub struct FixedClock {
    ms: u64,
}

impl Model for FixedClock {
    ghost use Rattle.std.specs.Prelude.{ℕ, ◌<◌, ◌^◌};

    ghost Value = { ℕ };

    ghost view = { λ c. c.ms };

    ghost invariant = { λ c. c.ms < 2 ^ 63 };

    ghost inverse = { λ n. record { ms = n } };
}

impl FixedClock {
    /// A clock that stands at this time.
    pub fn new(ms: u64) -> FixedClock
        requires { ms < 2 ^ 63 }
        ensures { result ≡ ms }
    {
        FixedClock { ms }
    }
}

impl Clock for FixedClock {
    ghost gives = { λ clock time. time ≡ clock };

    fn now_ms(&mut self) -> u64
        ensures small { result < 2 ^ 63 }
        ensures given { result ≡ self.old }
        ensures still { (time : ℕ) → time ≡ self.new → time ≡ self.old }
        ensures fixed { result ≡ self.old }
        ensures same { self.new ≡ self.old }
    {
        self.ms
    }
}
