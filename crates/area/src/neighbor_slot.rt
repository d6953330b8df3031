//! The neighbor on a link, which may be Down.
ghost use Rattle.std.specs.Prelude.{◌≡◌, IfOk, None, Some};
ghost use Rattle.adjacency.specs.Adjacencies.{enter_exstart};
ghost use Rattle.adjacency.specs.Steps.{neighbor_is_exchange_or_later};
ghost use Rattle.adjacency.specs.Views.{restarted, present_of};
ghost use Rattle.adjacency.specs.Doing.{Sends};
ghost use Rattle.area.specs.Doing.{SlotSends};

mod descriptions;
mod requests;
mod timers;

use adjacency::{Draft, Neighbor, initial_description, next_dd_sequence_start};
use std::alloc::{AllocError, Global};
use std::marker::Model;
use words::{RouterId, Second};

/// The neighbor unless it is Down, and the one that this event replaced, if it did.
#[derive(Drop)]
pub struct NeighborSlot {
    pub(crate) neighbor: Option<Neighbor>,
    // the neighbor before this event, once it was replaced; `Some(None)` if it was Down then
    before: Option<Option<Neighbor>>,
}

impl Model for NeighborSlot {
    ghost use Rattle.std.specs.Prelude.{Option};
    ghost use Rattle.adjacency.specs.Neighbors.{Neighbor as Conversation};
    ghost use Rattle.std.specs.Coded.{codes};
    ghost use Rattle.adjacency.specs.Kept.{Kept};
    ghost use Rattle.adjacency.specs.Codes.{coded_kept, coded_keys, coded_lists};

    ghost Value = { Kept (Option Conversation) };

    ghost coded = { coded_kept (Prim.hlevel (codes, coded_lists, coded_keys)) };

    ghost use Rattle.adjacency.specs.Views.{committed_among, present_of};

    ghost view = { λ a. record {
      present = present_of a.neighbor;
      committed = committed_among a.before a.neighbor;
    } };
}

impl NeighborSlot {
    /// The slot without a neighbor: its state is Down.
    pub fn down() -> Self
        ensures { result ≡ record { present = None; committed = None } }
    {
        NeighborSlot {
            neighbor: None,
            before: None,
        }
    }

    /// A copy of the slot, committed.
    ///
    /// # Errors
    /// `AllocError` if an allocation is refused.
    pub fn copy(&self, alloc: Global) -> Result<Self, AllocError>
        ensures present { IfOk result (λ made. made.present ≡ self.now.present) }
        ensures committed { IfOk result (λ made. made.committed ≡ self.now.present) }
    {
        match &self.neighbor {
            None => Ok(NeighborSlot::down()),
            Some(neighbor) => {
                let neighbor = neighbor.copy(alloc)?;
                Ok(NeighborSlot {
                    neighbor: Some(neighbor),
                    before: None,
                })
            }
        }
    }

    /// Replaces the neighbor by another one, or by none if it goes Down. The old one is kept until
    /// the event is committed. It doesn't allocate.
    pub fn replace(&mut self, neighbor: Option<Neighbor>)
        ensures { self.new ≡ record self.old { present = present_of neighbor } }
    {
        let before = self.neighbor.take();
        if self.before.is_none() {
            self.before = Some(before);
        }
        self.neighbor = neighbor;
    }

    /// Starts over at a Hello, whatever the neighbor was, Down or Full: it is in ExStart if the
    /// Hello lists this router (2-WayReceived), else in Init (RFC 2328, sections 10.3 and 10.5).
    ///
    /// # Errors
    /// `AllocError` if an allocation is refused; the caller then rolls back.
    pub fn restart(
        &mut self,
        alloc: Global,
        moment: Second,
        router: RouterId,
        dd_sequence_start: Option<u32>,
        lists_us: bool,
        draft: &mut Draft,
    ) -> Result<(), AllocError>
        ensures { Sends (λ _. Some (restarted moment router dd_sequence_start lists_us).neighbor)
            (λ _. (restarted moment router dd_sequence_start lists_us).sends) self.old self.new
            draft.old draft.new result }
    {
        if lists_us {
            let dd_sequence = next_dd_sequence_start(moment, dd_sequence_start);
            let opened = initial_description(alloc, dd_sequence);
            draft.add_description(opened)?;
            let neighbor = Neighbor::started(alloc, moment, router, dd_sequence_start, moment);
            self.replace(Some(neighbor));
            return Ok(());
        }
        let neighbor = Neighbor::fresh(alloc, router, dd_sequence_start, moment);
        self.replace(Some(neighbor));
        Ok(())
    }

    /// Transition to ExStart with a new attempt (RFC 2328, section 10.3).
    ///
    /// # Errors
    /// `AllocError` if an allocation is refused; the caller then rolls back.
    pub fn enter_exstart(
        &mut self,
        alloc: Global,
        moment: Second,
        draft: &mut Draft,
    ) -> Result<(), AllocError>
        ensures { SlotSends (enter_exstart moment) self.old self.new draft.old draft.new result }
    {
        let Some(neighbor) = &self.neighbor else {
            return Ok(());
        };
        let standing = neighbor.standing();
        let dd_sequence = next_dd_sequence_start(moment, standing.dd_sequence_start);
        let opened = initial_description(alloc, dd_sequence);
        draft.add_description(opened)?;
        let started = Neighbor::started(
            alloc,
            moment,
            standing.router,
            standing.dd_sequence_start,
            standing.last_heard,
        );
        self.replace(Some(started));
        Ok(())
    }

    /// Whether there is a neighbor in Exchange or later: its Link State Requests, Updates and
    /// Acknowledgments are accepted.
    pub fn is_exchange_or_later(&self) -> bool
        ensures { result ≡ neighbor_is_exchange_or_later self.now.present }
    {
        match &self.neighbor {
            None => false,
            Some(neighbor) => neighbor.standing().state.is_exchange_or_later(),
        }
    }

    /// Makes what is present what a later refusal rolls back to.
    pub fn commit(&mut self)
        ensures { self.new ≡ record { present = self.old.present; committed = self.old.present } }
    {
        self.before = None;
        if let Some(neighbor) = &mut self.neighbor {
            neighbor.commit();
        }
    }

    /// Makes the neighbor what it was at the last commit.
    pub fn roll_back(&mut self)
        ensures { self.new
            ≡ record { present = self.old.committed; committed = self.old.committed } }
    {
        if let Some(before) = self.before.take() {
            self.neighbor = before;
        }
        if let Some(neighbor) = &mut self.neighbor {
            neighbor.roll_back();
        }
    }
}
