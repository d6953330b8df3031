//! The clock of a thread.
ghost use Rattle.std.specs.Prelude.{◌≡◌, ℕ, Option, ⊤};

use crate::transport::Seconds;
use std::time::{Clock, SystemTime, UNIX_EPOCH};
use words::Second;

/// Reads a clock of seconds.
///
/// `reads` is a relation that each implementation defines: code that is generic over the reader can
/// establish it only by reading.
pub trait ReadsSeconds {
    ghost reads: { Option ℕ → Type 0 };

    /// The whole seconds since the Unix epoch, 1970-01-01 00:00:00 UTC; `None` if the clock can't
    /// be read or is set before that.
    fn whole_seconds(&self) -> Option<u64>
        ensures { reads result };
}

// No contract says what the system's clock shows.
impl<R: Clock> ReadsSeconds for R {
    ghost reads = { λ _. ⊤ };

    fn whole_seconds(&self) -> Option<u64> {
        let now = SystemTime::now(self).ok()?;
        let since = now.duration_since(UNIX_EPOCH).ok()?;
        Some(since.as_secs())
    }
}

/// A clock's whole seconds since 1970, as one thread sees them: they never go back. If the clock is
/// set back they stand still until it has caught up: no Tick comes, so no Hello goes out. If it is
/// set forward, timers expire at once, and LSAs that reach MaxAge by it are flooded.
#[derive(Drop)]
pub struct SystemSeconds<'a, R: ReadsSeconds> {
    rt: &'a R,
    last: u64,
}

impl<'a, R: ReadsSeconds> SystemSeconds<'a, R> {
    /// A clock that has shown 0.
    pub fn new(rt: &'a R) -> SystemSeconds<'a, R>
        ensures { result.last ≡ 0 }
    {
        SystemSeconds { rt, last: 0 }
    }
}

impl<'a, R: ReadsSeconds> Seconds for SystemSeconds<'a, R> {
    ghost use Rattle.std.specs.Prelude.{◌≡◌, ℕ, Option};
    ghost use Rattle.worker.specs.Clocks.{later};

    // What was read, unless that is behind what was shown.
    ghost shows = { λ before second after. (read : Option ℕ) × R.reads read
        × (second ≡ later before.last read) × (after.last ≡ second) };

    fn second(&mut self) -> Second {
        if let Some(now) = self.rt.whole_seconds() {
            if now > self.last {
                self.last = now;
            }
        }
        Second::new(self.last)
    }
}
