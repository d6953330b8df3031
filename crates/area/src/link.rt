//! Interfaces with their state.
ghost use Rattle.std.specs.Prelude.{◌≡◌, ◌∷◌, [], IfOk};
ghost use Rattle.lsa.specs.Headers.{key_of};
ghost use Rattle.lsdb.specs.Copies.{lsa_now};
ghost use Rattle.adjacency.specs.Adjacencies.{mismatch_step};
ghost use Rattle.adjacency.specs.Contents.{Updates, no_sends, sent_on};
ghost use Rattle.adjacency.specs.Drafts.{nothing_drafted};
ghost use Rattle.adjacency.specs.Floods.{flood_step, is_any};
ghost use Rattle.adjacency.specs.Retransmissions.{remove_retransmission};
ghost use Rattle.received.specs.Links.{delay_acknowledgment, fresh_link};
ghost use Rattle.area.specs.Doing.{LinkDoes};
ghost use Rattle.area.specs.Links.{neighbor_sends, neighbor_step};

mod acknowledgments;
mod asked;
mod copying;
mod hellos;
pub mod packets;
pub mod timers;

use crate::neighbor_slot::NeighborSlot;
use adjacency::{DatabaseCopy, Draft, Interface, Revertible, Update};
use keyed_map::KeyedMap;
use lsa::Header;
use std::alloc::{AllocError, Global};
use std::marker::Model;
use words::Second;

/// An interface with its neighbor, the delayed acknowledgments, and the moment of the last Hello
/// that was sent; their state when they were last committed; and what was drafted for the interface
/// since. A call that errors may have done a part of its work: `Area` says what its caller then
/// does.
#[derive(Drop)]
pub struct Link {
    interface: Interface,
    slot: NeighborSlot,
    // the latest one for each key
    acknowledgments: KeyedMap<Header>,
    last_hello_sent: Revertible<Option<Second>>,
    // nothing between events
    draft: Draft,
}

impl Model for Link {
    ghost use Rattle.std.specs.Coded.{codes};
    ghost use Rattle.adjacency.specs.Codes.{coded_headers, coded_keys, coded_lists};
    ghost use Rattle.area.specs.Kept.{KeptLink, coded_link};

    ghost Value = { KeptLink };

    ghost coded = { coded_link (Prim.hlevel (codes, coded_lists, coded_keys, coded_headers))
        (Prim.hlevel codes) };

    ghost view = { λ a. record {
      present = record {
        interface = a.interface;
        neighbor = a.slot.present;
        acknowledgments = a.acknowledgments.present;
        last_hello_sent = a.last_hello_sent.present;
      };
      committed = record {
        interface = a.interface;
        neighbor = a.slot.committed;
        acknowledgments = a.acknowledgments.committed;
        last_hello_sent = a.last_hello_sent.committed;
      };
      drafted = a.draft;
    } };
}

impl Link {
    /// An interface whose neighbor is Down and on which nothing was sent. It doesn't allocate.
    pub fn new(alloc: Global, interface: Interface) -> Self
        ensures { result ≡ record {
          present = fresh_link interface;
          committed = fresh_link interface;
          drafted = nothing_drafted;
        } }
    {
        Link {
            interface,
            slot: NeighborSlot::down(),
            acknowledgments: KeyedMap::new(alloc),
            last_hello_sent: Revertible::new(None),
            draft: Draft::new(alloc),
        }
    }

    /// The interface.
    pub fn interface(&self) -> Interface
        ensures { result ≡ self.now.present.interface }
    {
        self.interface
    }

    /// The LSAs that were drafted for Link State Updates.
    pub fn updates(&self) -> &[Update]
        ensures { result.now ≡ self.now.drafted.updates }
    {
        self.draft.updates()
    }

    /// Floods the copy to the neighbor, from which it came in or not. Returns whether it is sent in
    /// a Link State Update, its age incremented by InfTransDelay (RFC 2328, section 13.3).
    ///
    /// # Errors
    /// `AllocError` if an allocation is refused.
    pub fn flood(
        &mut self,
        alloc: Global,
        moment: Second,
        came_in: bool,
        copy: &DatabaseCopy<'_>,
    ) -> Result<bool, AllocError>
        ensures does { LinkDoes
            (neighbor_step (flood_step moment came_in (lsa_now moment copy.now)))
            (neighbor_sends (flood_step moment came_in (lsa_now moment copy.now)))
            self.old self.new result }
        ensures sent { IfOk result (λ sent. sent
            ≡ is_any (sent_on (flood_step moment came_in (lsa_now moment copy.now))
            self.old.present.neighbor)) }
    {
        let delay = self.interface.delay;
        let Some(neighbor) = &mut self.slot.neighbor else {
            return Ok(false);
        };
        neighbor.flood(alloc, moment, came_in, copy, delay, &mut self.draft)
    }

    /// Sends the copy in a Link State Update, its age incremented by InfTransDelay, without putting
    /// it on the neighbor's retransmission list.
    ///
    /// # Errors
    /// `AllocError` if an allocation is refused.
    pub fn draft_copy(
        &mut self,
        alloc: Global,
        moment: Second,
        copy: &DatabaseCopy<'_>,
    ) -> Result<(), AllocError>
        ensures { LinkDoes (λ link. link) (λ link. Updates (lsa_now moment copy.now) ∷ []) self.old
            self.new result }
    {
        let delay = self.interface.delay;
        self.draft.add_update(alloc, delay, moment, copy)
    }

    /// BadLSReq (RFC 2328, section 10.3, and section 13, step 6): from Exchange on, the neighbor
    /// goes back to ExStart, and the first Database Description of a new attempt is sent.
    ///
    /// # Errors
    /// `AllocError` if an allocation is refused.
    pub fn bad_request(&mut self, alloc: Global, moment: Second) -> Result<(), AllocError>
        ensures { LinkDoes (neighbor_step (mismatch_step moment))
            (neighbor_sends (mismatch_step moment))
            self.old self.new result }
    {
        let exchange_or_later = self.slot.is_exchange_or_later();
        if exchange_or_later {
            return self.slot.enter_exstart(alloc, moment, &mut self.draft);
        }
        Ok(())
    }

    /// Removes the header's key from the neighbor's retransmission list.
    ///
    /// # Errors
    /// `AllocError` if an allocation is refused.
    pub fn remove_retransmission(&mut self, header: &Header) -> Result<(), AllocError>
        ensures { LinkDoes
            (neighbor_step (λ n. no_sends (remove_retransmission (key_of header.now) n)))
            (λ link. [])
            self.old self.new result }
    {
        match &mut self.slot.neighbor {
            None => Ok(()),
            Some(neighbor) => neighbor.remove_retransmission(header),
        }
    }

    /// Adds a delayed acknowledgment of the instance, which replaces an earlier one of its key (RFC
    /// 2328, section 13.5).
    ///
    /// # Errors
    /// `AllocError` if an allocation is refused.
    pub fn delay_acknowledgment(&mut self, header: Header) -> Result<(), AllocError>
        ensures { LinkDoes (delay_acknowledgment header) (λ link. []) self.old self.new result }
    {
        self.acknowledgments.insert(header.key(), header)
    }

    /// Makes the changes so far final, and drops what was drafted.
    pub fn commit(&mut self)
        ensures { self.new ≡ record {
          present = self.old.present;
          committed = self.old.present;
          drafted = nothing_drafted;
        } }
    {
        self.slot.commit();
        self.acknowledgments.commit();
        self.last_hello_sent.commit();
        self.draft.clear();
    }

    /// Undoes all changes since the link was last committed, and drops what was drafted.
    pub fn roll_back(&mut self)
        ensures { self.new ≡ record {
          present = self.old.committed;
          committed = self.old.committed;
          drafted = nothing_drafted;
        } }
    {
        self.slot.roll_back();
        self.acknowledgments.roll_back();
        self.last_hello_sent.roll_back();
        self.draft.clear();
    }

    /// Takes what was drafted away, so that nothing is left. It doesn't allocate.
    pub fn take_draft(&mut self, alloc: Global) -> Draft
        ensures draft { result ≡ self.old.drafted }
        ensures link { self.new ≡ record self.old { drafted = nothing_drafted } }
    {
        std::mem::replace(&mut self.draft, Draft::new(alloc))
    }
}
