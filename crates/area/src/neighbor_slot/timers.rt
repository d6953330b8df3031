//! Timers that a Tick finds expired (RFC 2328, sections 10.3 and 10.8).
ghost use Rattle.std.specs.Prelude.{◌≡◌};
ghost use Rattle.adjacency.specs.Timers.{expire_neighbor_timers};

use super::NeighborSlot;
use adjacency::has_passed;
use words::Second;

impl NeighborSlot {
    /// The timers that a Tick finds expired (RFC 2328, sections 10.3 and 10.8): a neighbor from
    /// which no Hello was received for RouterDeadInterval (`dead`, in seconds) goes Down
    /// (InactivityTimer), and the last Database Description is discarded that long after the
    /// exchange was completed. It doesn't allocate.
    pub fn expire_neighbor_timers(&mut self, moment: Second, dead: u32)
        ensures { self.new ≡ record self.old {
          present = expire_neighbor_timers moment dead
              self.old.present;
        } }
    {
        let Some(neighbor) = &mut self.neighbor else {
            return;
        };
        let inactive = has_passed(neighbor.standing().last_heard, dead, moment);
        if inactive {
            return self.replace(None);
        }
        neighbor.give_up_description(moment, dead);
    }
}
