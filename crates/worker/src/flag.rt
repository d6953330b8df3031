//! What tells a worker to end.
ghost use Rattle.std.specs.Prelude.{Bool};

use std::sync::atomic::{AtomicBool, Ordering};

/// A flag that a worker looks at once a round, and ends if it is set.
///
/// `reads` (the flag before, what was found, the flag after) is a relation that each implementation
/// defines. A worker is generic over the flag: it can establish `reads` only by looking, so its
/// contract shows that it looked, and at what.
pub trait Flag {
    ghost reads: { Self → Bool → Self → Type 0 };

    /// Whether it is set.
    fn is_set(&mut self) -> bool
        ensures { reads self.old result self.new };
}

/// The flag of `routerd`: an atomic Boolean that its threads share. Whoever ends them sets it.
#[derive(Drop)]
pub struct Signal<'a> {
    pub quit: &'a AtomicBool,
}

impl<'a> Flag for Signal<'a> {
    ghost reads = { λ before is_set after. Unit {0} };

    fn is_set(&mut self) -> bool {
        self.quit.load(Ordering::SeqCst)
    }
}
