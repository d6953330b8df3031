//! Received Database Descriptions (RFC 2328, section 10.6).
ghost use Rattle.std.specs.Prelude.{◌≡◌, nat_lt};
ghost use Rattle.words.specs.Constants.{largest_packet};
ghost use Rattle.adjacency.specs.Adjacencies.{two_way_received};
ghost use Rattle.adjacency.specs.Descriptions.{after_description};
ghost use Rattle.adjacency.specs.Exchanges.{any_init, is_init, process_description};
ghost use Rattle.area.specs.Doing.{SlotSends};

use super::NeighborSlot;
use adjacency::descriptions::starts_over;
use adjacency::{Draft, Lsdb, NeighborState};
use packet::Description;
use std::alloc::{AllocError, Global};
use words::{LARGEST_PACKET, RouterId, Second};

// Whether the MTU of the sending interface is larger than 8,192 bytes, which each interface of this
// router has in its own Database Descriptions.
fn is_too_large(description: &Description) -> bool
    ensures { result ≡ nat_lt largest_packet description.now.mtu }
{
    description.mtu > LARGEST_PACKET
}

fn is_init(state: NeighborState) -> bool
    ensures { result ≡ is_init state }
{
    match state {
        NeighborState::Init => true,
        NeighborState::ExStart => false,
        NeighborState::Exchange => false,
        NeighborState::Loading => false,
        NeighborState::Full => false,
    }
}

impl NeighborSlot {
    // Whether there is a neighbor in Init.
    fn is_init(&self) -> bool
        ensures { result ≡ any_init self.now.present }
    {
        match &self.neighbor {
            None => false,
            Some(neighbor) => {
                let standing = neighbor.standing();
                is_init(standing.state)
            }
        }
    }

    // 2-WayReceived (RFC 2328, section 10.3): from Init to ExStart.
    fn two_way(
        &mut self,
        alloc: Global,
        moment: Second,
        draft: &mut Draft,
    ) -> Result<(), AllocError>
        ensures { SlotSends (two_way_received moment) self.old self.new draft.old draft.new
            result }
    {
        let init = self.is_init();
        if init {
            return self.enter_exstart(alloc, moment, draft);
        }
        Ok(())
    }

    // The step for the Database Description in the neighbor's state; without a neighbor it is
    // ignored.
    fn process_description(
        &mut self,
        alloc: Global,
        own: RouterId,
        moment: Second,
        database: &Lsdb,
        description: &Description,
        draft: &mut Draft,
    ) -> Result<(), AllocError>
        ensures { SlotSends (process_description own moment database.now.present description.now)
            self.old self.new draft.old draft.new result }
    {
        let Some(neighbor) = &mut self.neighbor else {
            return Ok(());
        };
        let verdict = neighbor.verdict(own, description);
        let over = starts_over(verdict, description);
        if over {
            return self.enter_exstart(alloc, moment, draft);
        }
        neighbor.proceed(alloc, verdict, moment, database, description, draft)
    }

    /// A Database Description from the neighbor to the router with the Router ID `own` (RFC 2328,
    /// sections 10.6 and 10.8). One with an MTU larger than 8,192 bytes is ignored. In Init,
    /// 2-WayReceived comes first, as by a Hello that lists this router, but the inactivity timer
    /// isn't restarted. One that completes the negotiation is then accepted as the next in
    /// sequence. The LSAs that are newer than the database copies are added to the request list;
    /// the next Database Description is sent, or the last one again if this one is a duplicate; and
    /// after the last one of both sides the neighbor is Loading, or Full if the request list is
    /// empty. One out of sequence, or with a header of an unknown LS type, takes the neighbor back
    /// to ExStart (SeqNumberMismatch). It scans the database only when the negotiation is done.
    ///
    /// # Errors
    /// `AllocError` if an allocation is refused; the caller then rolls back.
    pub fn receive_description(
        &mut self,
        alloc: Global,
        own: RouterId,
        moment: Second,
        database: &Lsdb,
        description: &Description,
        draft: &mut Draft,
    ) -> Result<(), AllocError>
        ensures { SlotSends (after_description own moment database.now.present description.now)
            self.old self.new draft.old draft.new result }
    {
        let too_large = is_too_large(description);
        if too_large {
            return Ok(());
        }
        self.two_way(alloc, moment, draft)?;
        self.process_description(alloc, own, moment, database, description, draft)
    }
}
