//! What packets from the neighbor do to the conversation with it (RFC 2328, sections 10.5 to 10.7
//! and 13.7).
ghost use Rattle.std.specs.Prelude.{◌≡◌, Some};
ghost use Rattle.adjacency.specs.Adjacencies.{after_hello};
ghost use Rattle.adjacency.specs.Views.{restarts};
ghost use Rattle.area.specs.Doing.{LinkDoes};
ghost use Rattle.area.specs.Links.{with_neighbor};

use super::Link;
use crate::steps::LinkStep;
use adjacency::{Lsdb, NeighborState};
use lsa::Header;
use packet::Description;
use std::alloc::{AllocError, Global};
use words::{Key, RouterId, Second};

// Whether the neighbor starts over at a Hello, by whether that lists this router: nothing is kept
// except the DD sequence number with which the last attempt began.
fn restarts(state: NeighborState, lists_us: bool) -> bool
    ensures { result ≡ restarts state lists_us }
{
    match state {
        NeighborState::Init => true,
        NeighborState::ExStart => !lists_us,
        NeighborState::Exchange => !lists_us,
        NeighborState::Loading => !lists_us,
        NeighborState::Full => !lists_us,
    }
}

impl Link {
    /// An accepted Hello from the router with this Router ID, which lists this router or doesn't
    /// (RFC 2328, section 10.5). Since it was accepted, the neighbor is Down or has this Router ID.
    /// Down becomes Init, and the inactivity timer is restarted. If the Hello lists this router,
    /// Init becomes ExStart (2-WayReceived), and the first Database Description of an attempt is
    /// sent. If it doesn't, each later state goes back to Init (1-WayReceived), and the lists are
    /// cleared in constant time.
    ///
    /// # Errors
    /// `AllocError` if an allocation is refused.
    pub fn receive_hello(
        &mut self,
        alloc: Global,
        moment: Second,
        from: RouterId,
        lists_us: bool,
    ) -> Result<(), AllocError>
        ensures { LinkDoes
            (λ link. with_neighbor (Some (after_hello moment from lists_us link.neighbor).neighbor)
            link)
            (λ link. (after_hello moment from lists_us link.neighbor).sends)
            self.old self.new result }
    {
        let Some(neighbor) = &mut self.slot.neighbor else {
            return self
                .slot
                .restart(alloc, moment, from, None, lists_us, &mut self.draft);
        };
        let standing = neighbor.standing();
        let restarts = restarts(standing.state, lists_us);
        if restarts {
            let router = standing.router;
            let start = standing.dd_sequence_start;
            return self
                .slot
                .restart(alloc, moment, router, start, lists_us, &mut self.draft);
        }
        neighbor.restart_inactivity_timer(moment);
        Ok(())
    }
}

/// A Database Description from the neighbor to the router with the Router ID `own` (RFC 2328,
/// section 10.6), as in `NeighborSlot::receive_description`.
#[derive(Drop)]
pub struct ReceivingDescription<'a> {
    pub own: RouterId,
    pub moment: Second,
    pub description: &'a Description,
}

impl<'a> LinkStep for ReceivingDescription<'a> {
    ghost use Rattle.adjacency.specs.Descriptions.{after_description};
    ghost use Rattle.area.specs.Links.{neighbor_sends, neighbor_step};

    ghost after = { λ a database.
        neighbor_step (after_description a.own a.moment database a.description.now) };

    ghost sends = { λ a database.
        neighbor_sends (after_description a.own a.moment database a.description.now) };

    fn apply(&self, alloc: Global, database: &Lsdb, link: &mut Link) -> Result<(), AllocError> {
        link.slot.receive_description(
            alloc,
            self.own,
            self.moment,
            database,
            self.description,
            &mut link.draft,
        )
    }
}

/// A Link State Request for these keys from the neighbor (RFC 2328, section 10.7), as in
/// `NeighborSlot::receive_request`.
#[derive(Drop)]
pub struct ReceivingRequest<'a> {
    pub moment: Second,
    pub keys: &'a [Key],
}

impl<'a> LinkStep for ReceivingRequest<'a> {
    ghost use Rattle.adjacency.specs.Steps.{after_request};
    ghost use Rattle.area.specs.Links.{neighbor_sends, neighbor_step};

    ghost after = { λ a database. neighbor_step (after_request a.moment database a.keys.now) };

    ghost sends = { λ a database. neighbor_sends (after_request a.moment database a.keys.now) };

    fn apply(&self, alloc: Global, database: &Lsdb, link: &mut Link) -> Result<(), AllocError> {
        let delay = link.interface.delay;
        link.slot.receive_request(
            alloc,
            self.moment,
            delay,
            database,
            self.keys,
            &mut link.draft,
        )
    }
}

/// A Link State Acknowledgment of these instances from the neighbor (RFC 2328, section 13.7):
/// exactly these are removed from its retransmission list.
#[derive(Drop)]
pub struct ReceivingAcknowledgment<'a> {
    pub moment: Second,
    pub headers: &'a [Header],
}

impl<'a> LinkStep for ReceivingAcknowledgment<'a> {
    ghost use Rattle.adjacency.specs.Contents.{no_sends};
    ghost use Rattle.adjacency.specs.Retransmissions.{after_acknowledgment};
    ghost use Rattle.area.specs.Links.{neighbor_sends, neighbor_step};

    ghost after = { λ a database.
        neighbor_step (λ n. no_sends (after_acknowledgment a.moment a.headers.now n)) };

    ghost sends = { λ a database.
        neighbor_sends (λ n. no_sends (after_acknowledgment a.moment a.headers.now n)) };

    fn apply(&self, _alloc: Global, _database: &Lsdb, link: &mut Link) -> Result<(), AllocError> {
        let Some(neighbor) = &mut link.slot.neighbor else {
            return Ok(());
        };
        neighbor.receive_acknowledgment(self.moment, self.headers)
    }
}
