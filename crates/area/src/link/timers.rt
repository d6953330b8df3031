//! Timers that have expired on a link, and what is requested and retransmitted there (RFC 2328,
//! sections 10.3, 10.8, 10.9 and 13.6).
ghost use Rattle.std.specs.Prelude.{◌≡◌, None};

use super::Link;
use crate::steps::{LinkChange, LinkStep};
use adjacency::Lsdb;
use std::alloc::{AllocError, Global};
use words::Second;

impl Link {
    /// The neighbor goes Down. It doesn't allocate.
    pub fn take_down(&mut self)
        ensures { self.new ≡ record self.old {
          present = record self.old.present { neighbor = None };
        } }
    {
        self.slot.replace(None);
    }
}

/// The timers that a Tick finds expired, as in `NeighborSlot::expire_neighbor_timers`, with the
/// interface's RouterDeadInterval.
#[derive(Drop)]
pub struct ExpireTimers {
    pub moment: Second,
}

impl LinkChange for ExpireTimers {
    ghost use Rattle.adjacency.specs.Timers.{expire_neighbor_timers};
    ghost use Rattle.area.specs.Links.{with_neighbor};

    ghost after = { λ a link. with_neighbor
        (expire_neighbor_timers a.moment link.interface.dead_interval link.neighbor) link };

    fn change(&self, link: &mut Link) {
        link.slot
            .expire_neighbor_timers(self.moment, link.interface.dead_interval);
    }
}

/// LoadingDone (RFC 2328, section 10.3): from Loading to Full if the request list is empty.
#[derive(Drop)]
pub struct EndLoading;

impl LinkChange for EndLoading {
    ghost use Rattle.adjacency.specs.Adjacencies.{loading_done};
    ghost use Rattle.adjacency.specs.Contents.{no_sends, step_on};
    ghost use Rattle.area.specs.Links.{with_neighbor};

    ghost after = { λ a link. with_neighbor
        (step_on (λ n. no_sends (loading_done n)) link.neighbor) link };

    fn change(&self, link: &mut Link) {
        if let Some(neighbor) = &mut link.slot.neighbor {
            neighbor.end_loading();
        }
    }
}

/// The next Link State Request, if one is to be sent to the neighbor (RFC 2328, section 10.9).
#[derive(Drop)]
pub struct NextRequest {
    pub moment: Second,
}

impl LinkStep for NextRequest {
    ghost use Rattle.adjacency.specs.Requests.{request_next};
    ghost use Rattle.area.specs.Links.{neighbor_sends, neighbor_step};

    ghost after = { λ a database. neighbor_step (request_next a.moment) };

    ghost sends = { λ a database. neighbor_sends (request_next a.moment) };

    fn apply(&self, alloc: Global, _database: &Lsdb, link: &mut Link) -> Result<(), AllocError> {
        let Some(neighbor) = &mut link.slot.neighbor else {
            return Ok(());
        };
        neighbor.request(alloc, self.moment, &mut link.draft)
    }
}

/// What a Tick retransmits to the neighbor, as in `Neighbor::send_again`, with the interface's
/// RxmtInterval and InfTransDelay.
#[derive(Drop)]
pub struct SendingAgain {
    pub moment: Second,
}

impl LinkStep for SendingAgain {
    ghost use Rattle.area.specs.Steps.{after_again, sent_again};

    ghost after = { λ a database link. after_again a.moment database link };

    ghost sends = { λ a database link. sent_again a.moment database link };

    fn apply(&self, alloc: Global, database: &Lsdb, link: &mut Link) -> Result<(), AllocError> {
        let interval = link.interface.retransmit_interval;
        let delay = link.interface.delay;
        let Some(neighbor) = &mut link.slot.neighbor else {
            return Ok(());
        };
        neighbor.send_again(
            alloc,
            self.moment,
            interval,
            database,
            delay,
            &mut link.draft,
        )
    }
}
