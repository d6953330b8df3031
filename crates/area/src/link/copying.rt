//! Copies of links.
ghost use Rattle.std.specs.Prelude.{◌≡◌, IfOk};
ghost use Rattle.adjacency.specs.Drafts.{nothing_drafted};

use super::Link;
use adjacency::{Draft, Revertible};
use std::alloc::{AllocError, Global};

impl Link {
    /// A copy of the link, committed, with nothing drafted.
    ///
    /// # Errors
    /// `AllocError` if an allocation is refused.
    pub fn copy(&self, alloc: Global) -> Result<Self, AllocError>
        ensures present { IfOk result (λ made. made.present ≡ self.now.present) }
        ensures committed { IfOk result (λ made. made.committed ≡ self.now.present) }
        ensures draft { IfOk result (λ made. made.drafted ≡ nothing_drafted) }
    {
        let slot = self.slot.copy(alloc)?;
        let acknowledgments = self.acknowledgments.copied(alloc)?;
        let last = self.last_hello_sent();
        Ok(Link {
            interface: self.interface,
            slot,
            acknowledgments,
            last_hello_sent: Revertible::new(last),
            draft: Draft::new(alloc),
        })
    }
}
