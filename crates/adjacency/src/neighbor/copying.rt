//! Copies of neighbors.
ghost use Rattle.std.specs.Prelude.{◌≡◌, IfOk};

use super::Neighbor;
use super::descriptions::copy as copy_description;
use crate::revertible::Revertible;
use packet::Description;
use std::alloc::{AllocError, Global};

fn copy_described(kept: &Option<Description>) -> Result<Option<Description>, AllocError>
    ensures { IfOk result (λ made. made ≡ kept.now) }
{
    match kept {
        None => Ok(None),
        Some(description) => {
            let again = copy_description(description)?;
            Ok(Some(again))
        }
    }
}

impl Neighbor {
    /// A copy of the neighbor, committed.
    ///
    /// # Errors
    /// `AllocError` if an allocation is refused.
    pub fn copy(&self, alloc: Global) -> Result<Self, AllocError>
        ensures present { IfOk result (λ made. made.present ≡ self.now.present) }
        ensures committed { IfOk result (λ made. made.committed ≡ self.now.present) }
    {
        let described = copy_described(self.described.get())?;
        let summary = self.summary.copied(alloc)?;
        let requests = self.requests.copied(alloc)?;
        let outstanding = self.outstanding.copied(alloc)?;
        let retransmissions = self.retransmissions.copied(alloc)?;
        Ok(Neighbor {
            standing: self.standing.copy(),
            before: self.standing.copy(),
            described: Revertible::new(described),
            summary,
            requests,
            outstanding,
            retransmissions,
        })
    }
}
