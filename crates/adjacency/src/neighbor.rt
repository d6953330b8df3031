//! A neighbor that isn't Down.
ghost use Rattle.std.specs.Prelude.{◌≡◌, not, ◌&&◌, if◌then◌else◌, IfOk};
ghost use Rattle.std.specs.Prelude.{option_copied};
ghost use Rattle.lsa.specs.Headers.{key_of};
ghost use Rattle.lsdb.specs.Copies.{lsa_now};
ghost use Rattle.adjacency.specs.Adjacencies.{next_dd_sequence_start, initial_description};
ghost use Rattle.adjacency.specs.Adjacencies.{enter_exstart};
ghost use Rattle.adjacency.specs.Exchanges.{standing_of};
ghost use Rattle.adjacency.specs.Floods.{exceeds_request, flood_step, flooded_in_exchange};
ghost use Rattle.adjacency.specs.Floods.{is_any, request_of, satisfies_request};
ghost use Rattle.adjacency.specs.Floods.{without_satisfied_request};
ghost use Rattle.adjacency.specs.Neighbors.{fresh, is_exchange_or_loading};
ghost use Rattle.adjacency.specs.Requests.{without_request};
ghost use Rattle.adjacency.specs.Retransmissions.{acknowledged_neighbor, after_acknowledgment};
ghost use Rattle.adjacency.specs.Retransmissions.{is_entry};
ghost use Rattle.adjacency.specs.Retransmissions.{add_retransmission, remove_retransmission};
ghost use Rattle.adjacency.specs.Doing.{NeighborDoes, NeighborUpdates};

mod copying;
mod descriptions;
mod negotiation;
mod requests;
mod timers;
mod verdicts;

use crate::draft::Draft;
use crate::listed::{ListEntry, instance_of};
use crate::revertible::Revertible;
use crate::standing::Standing;
use crate::state::NeighborState;
use keyed_map::KeyedMap;
use lsa::Header;
use lsdb::{DatabaseCopy, compare, newer};
use packet::Description;
use std::alloc::{AllocError, Global};
use std::cmp::Ordering;
use std::marker::Model;
pub use timers::has_passed;
use words::{E_BIT, LARGEST_PACKET, RouterId, Second, Sequence};

/// A neighbor (RFC 2328, section 10), and its state when it was last committed.
#[derive(Drop)]
pub struct Neighbor {
    standing: Standing,
    before: Standing,
    // the last Database Description sent, as long as it may have to be sent again
    described: Revertible<Option<Description>>,
    // the Database summary list, the request list and the retransmission list
    summary: KeyedMap<ListEntry>,
    requests: KeyedMap<ListEntry>,
    // the keys of the last Link State Request that are still on the request list
    outstanding: KeyedMap<()>,
    retransmissions: KeyedMap<ListEntry>,
}

impl Model for Neighbor {
    ghost use Rattle.std.specs.Coded.{codes};
    ghost use Rattle.adjacency.specs.Kept.{Kept};
    ghost use Rattle.adjacency.specs.Codes.{coded_kept, coded_keys, coded_lists};
    ghost use Rattle.adjacency.specs.Neighbors.{Neighbor as Conversation};

    ghost Value = { Kept Conversation };

    ghost coded = { coded_kept (Prim.hlevel (codes, coded_lists, coded_keys)) };

    ghost use Rattle.adjacency.specs.Views.{neighbor_of};

    ghost view = { λ a. record {
      present = neighbor_of a.standing a.described.present a.summary.present a.requests.present
          a.outstanding.present a.retransmissions.present;
      committed = neighbor_of a.before a.described.committed a.summary.committed
          a.requests.committed a.outstanding.committed a.retransmissions.committed;
    } };
}

/// Whether it is Exchange or Loading, so that the databases aren't synchronized yet.
pub fn is_exchange_or_loading(state: NeighborState) -> bool
    ensures { result ≡ is_exchange_or_loading state }
{
    match state {
        NeighborState::Init => false,
        NeighborState::ExStart => false,
        NeighborState::Exchange => true,
        NeighborState::Loading => true,
        NeighborState::Full => false,
    }
}

// Whether the copy isn't requested, or is newer than the requested instance (RFC 2328, section 13.3
// (1) (b)).
fn exceeds_request(moment: Second, copy: &DatabaseCopy<'_>, request: &Option<ListEntry>) -> bool
    ensures { result ≡ exceeds_request moment (lsa_now moment copy.now) request.now }
{
    match request {
        None => true,
        Some(listed) => {
            let header = copy.header(moment);
            newer(instance_of(&header), listed.instance(moment))
        }
    }
}

// Whether the requested instance isn't newer than the copy, so that nothing is left to request.
fn satisfies_request(moment: Second, copy: &DatabaseCopy<'_>, request: &Option<ListEntry>) -> bool
    ensures { result ≡ satisfies_request moment (lsa_now moment copy.now) request.now }
{
    match request {
        None => false,
        Some(listed) => {
            let header = copy.header(moment);
            !newer(listed.instance(moment), instance_of(&header))
        }
    }
}

/// Whether the instance is that of the list entry, if there is one.
pub fn is_entry(moment: Second, header: &Header, listed: Option<&ListEntry>) -> bool
    ensures { result ≡ is_entry moment header.now (option_copied listed.entry) }
{
    match listed {
        None => false,
        Some(listed) => compare(instance_of(header), listed.instance(moment)) == Ordering::Equal,
    }
}

// Not inlined: the prover would visit all parts of the neighbor in each branch (see `connectives`).
fn is_to_be_sent(came_in: bool, exceeds: bool) -> bool
    ensures { result ≡ (not came_in && exceeds) }
{
    !came_in && exceeds
}

// Not inlined: the prover would visit all parts of the neighbor in each branch (see `connectives`).
fn timer_start(first: bool, moment: Second, before: Second) -> Second
    ensures { result ≡ (if first then moment else before) }
{
    if first { moment } else { before }
}

/// The DD sequence number of the next attempt: 1 more than the one with which the last attempt
/// began. RFC 2328, section 10.3, has 1 more than the present one: docs/reference/DEPARTURES.md.
pub fn next_dd_sequence_start(moment: Second, dd_sequence_start: Option<u32>) -> u32
    ensures { result ≡ next_dd_sequence_start moment dd_sequence_start }
{
    match dd_sequence_start {
        None => (moment.count() % 0x1_0000_0000) as u32,
        Some(before) => before.wrapping_add(1),
    }
}

/// The empty Database Description with the I, M and MS bits set, which starts the negotiation. Its
/// MTU is the length of the largest packet; the host program writes the interface's into what it
/// sends on (docs/use/HOST.md). It doesn't allocate.
pub fn initial_description(alloc: Global, sequence: u32) -> Description
    ensures { result ≡ initial_description sequence }
{
    Description {
        mtu: LARGEST_PACKET,
        options: E_BIT,
        init: true,
        more: true,
        master: true,
        sequence,
        headers: Sequence::from_vec(Vec::new(alloc)),
    }
}

impl Neighbor {
    /// A neighbor in Init: nothing is kept of an earlier exchange except the DD sequence number
    /// with which the last attempt began. It doesn't allocate.
    pub fn fresh(
        alloc: Global,
        router: RouterId,
        dd_sequence_start: Option<u32>,
        last_heard: Second,
    ) -> Self
        ensures { result.present ≡ fresh router dd_sequence_start last_heard }
    {
        let standing = Standing::fresh(router, dd_sequence_start, last_heard);
        let before = Standing::fresh(router, dd_sequence_start, last_heard);
        let described = Revertible::new(None);
        let summary = KeyedMap::new(alloc);
        let requests = KeyedMap::new(alloc);
        let outstanding = KeyedMap::new(alloc);
        let retransmissions = KeyedMap::new(alloc);
        Neighbor {
            standing,
            before,
            described,
            summary,
            requests,
            outstanding,
            retransmissions,
        }
    }

    /// A neighbor in ExStart, with a new attempt (RFC 2328, section 10.3). It doesn't allocate.
    /// `dd_sequence_start` is that of the attempt before, if there was one: the number of this one
    /// follows from it and the moment, as in the Description that the caller sends.
    pub fn started(
        alloc: Global,
        moment: Second,
        router: RouterId,
        dd_sequence_start: Option<u32>,
        last_heard: Second,
    ) -> Self
        ensures { result.present
            ≡ (enter_exstart moment (fresh router dd_sequence_start last_heard)).neighbor }
    {
        let dd_sequence = next_dd_sequence_start(moment, dd_sequence_start);
        let standing = Standing::started(moment, router, dd_sequence, last_heard);
        let before = Standing::started(moment, router, dd_sequence, last_heard);
        let opened = initial_description(alloc, dd_sequence);
        let described = Revertible::new(Some(opened));
        let summary = KeyedMap::new(alloc);
        let requests = KeyedMap::new(alloc);
        let outstanding = KeyedMap::new(alloc);
        let retransmissions = KeyedMap::new(alloc);
        Neighbor {
            standing,
            before,
            described,
            summary,
            requests,
            outstanding,
            retransmissions,
        }
    }

    /// Its state except its lists and the last Database Description sent.
    pub fn standing(&self) -> &Standing
        ensures { result.now ≡ standing_of self.now.present }
    {
        &self.standing
    }

    /// The request list.
    pub fn requests(&self) -> &KeyedMap<ListEntry>
        ensures { result.now.present ≡ self.now.present.requests }
    {
        &self.requests
    }

    /// The retransmission list.
    pub fn retransmissions(&self) -> &KeyedMap<ListEntry>
        ensures { result.now.present ≡ self.now.present.retransmissions }
    {
        &self.retransmissions
    }

    /// Restarts the inactivity timer.
    pub fn restart_inactivity_timer(&mut self, moment: Second)
        ensures { self.new ≡ record self.old {
          present =
              record self.old.present { last_heard = moment };
        } }
    {
        self.standing.last_heard = moment;
    }

    // The entry of the copy's key on the request list.
    fn requested(&self, moment: Second, copy: &DatabaseCopy<'_>) -> Option<ListEntry>
        ensures { result ≡ request_of self.now.present (lsa_now moment copy.now) }
    {
        let synchronizing = is_exchange_or_loading(self.standing.state);
        if synchronizing {
            let header = copy.header(moment);
            return match self.requests.get(&header.key()) {
                None => None,
                Some(listed) => Some(*listed),
            };
        }
        None
    }

    // Removes this key from the request list.
    fn remove_request(&mut self, header: &Header) -> Result<(), AllocError>
        ensures { NeighborDoes (without_request (key_of header.now)) self.old self.new result }
    {
        self.requests.remove(&header.key())?;
        self.outstanding.remove(&header.key())
    }

    /// Removes the header's key from the retransmission list.
    ///
    /// # Errors
    /// `AllocError` if an allocation is refused; the caller then rolls back.
    pub fn remove_retransmission(&mut self, header: &Header) -> Result<(), AllocError>
        ensures { NeighborDoes (remove_retransmission (key_of header.now)) self.old self.new
            result }
    {
        self.retransmissions.remove(&header.key())
    }

    // Adds the instance to the retransmission list.
    fn add_retransmission(&mut self, moment: Second, header: &Header) -> Result<(), AllocError>
        ensures { NeighborDoes (add_retransmission moment header.now) self.old self.new result }
    {
        self.retransmissions.remove(&header.key())?;
        let first = self.retransmissions.is_empty();
        self.standing.retransmitted_at = timer_start(first, moment, self.standing.retransmitted_at);
        let entry = ListEntry {
            header: *header,
            at: moment,
        };
        self.retransmissions.insert(header.key(), entry)
    }

    // Removes the request that the copy satisfies, if there is one. Returns not that, but whether
    // the copy may be sent: nothing newer or equal is requested.
    fn satisfy_request(
        &mut self,
        moment: Second,
        copy: &DatabaseCopy<'_>,
    ) -> Result<bool, AllocError>
        ensures does { NeighborDoes (without_satisfied_request moment (lsa_now moment copy.now))
            self.old self.new result }
        ensures exceeds { IfOk result (λ exceeds. exceeds ≡ exceeds_request moment
            (lsa_now moment copy.now) (request_of self.old.present (lsa_now moment copy.now))) }
    {
        let listed = self.requested(moment, copy);
        let exceeds = exceeds_request(moment, copy, &listed);
        if satisfies_request(moment, copy, &listed) {
            let header = copy.header(moment);
            self.remove_request(&header)?;
        }
        Ok(exceeds)
    }

    // Floods the copy to a neighbor in Exchange or later.
    fn flood_in_exchange(
        &mut self,
        alloc: Global,
        moment: Second,
        came_in: bool,
        copy: &DatabaseCopy<'_>,
        delay: u16,
        draft: &mut Draft,
    ) -> Result<bool, AllocError>
        ensures does { NeighborUpdates delay (flooded_in_exchange moment came_in
            (lsa_now moment copy.now)) self.old self.new draft.old draft.new result }
        ensures sent { IfOk result (λ sent. sent
            ≡ is_any (flooded_in_exchange moment came_in (lsa_now moment copy.now)
            self.old.present).sends) }
    {
        let header = copy.header(moment);
        let exceeds = self.satisfy_request(moment, copy)?;
        let is_sent = is_to_be_sent(came_in, exceeds);
        if is_sent {
            self.add_retransmission(moment, &header)?;
            draft.add_update(alloc, delay, moment, copy)?;
            return Ok(true);
        }
        // Nothing is sent, but an older instance leaves the list (RFC 2328, section 13 (5) (c)).
        self.remove_retransmission(&header)?;
        Ok(false)
    }

    /// Floods the copy to the neighbor, from which it came in or not (RFC 2328, section 13.3).
    /// Returns whether it is sent in a Link State Update, its age incremented by InfTransDelay.
    ///
    /// # Errors
    /// `AllocError` if an allocation is refused; the caller then rolls back.
    pub fn flood(
        &mut self,
        alloc: Global,
        moment: Second,
        came_in: bool,
        copy: &DatabaseCopy<'_>,
        delay: u16,
        draft: &mut Draft,
    ) -> Result<bool, AllocError>
        ensures does { NeighborUpdates delay (flood_step moment came_in (lsa_now moment copy.now))
            self.old self.new draft.old draft.new result }
        ensures sent { IfOk result (λ sent. sent
            ≡ is_any (flood_step moment came_in (lsa_now moment copy.now) self.old.present).sends) }
    {
        let floods = self.standing().state.is_exchange_or_later();
        if floods {
            return self.flood_in_exchange(alloc, moment, came_in, copy, delay, draft);
        }
        Ok(false)
    }

    // Removes the instance from the retransmission list if it is the same.
    fn remove_acknowledged(&mut self, moment: Second, header: &Header) -> Result<(), AllocError>
        ensures { NeighborDoes (λ n. acknowledged_neighbor moment n header.now) self.old self.new
            result }
    {
        let key = header.key();
        let same = is_entry(moment, header, self.retransmissions.get(&key));
        if same {
            return self.retransmissions.remove(&key);
        }
        Ok(())
    }

    /// A Link State Acknowledgment of these instances (RFC 2328, section 13.7): each that is the
    /// same instance as the entry of its key removes that from the retransmission list.
    ///
    /// # Errors
    /// `AllocError` if an allocation is refused; the caller then rolls back.
    pub fn receive_acknowledgment(
        &mut self,
        moment: Second,
        headers: &[Header],
    ) -> Result<(), AllocError>
        ensures { NeighborDoes (after_acknowledgment moment headers.now) self.old self.new result }
    {
        for header in headers {
            self.remove_acknowledged(moment, header)?;
        }
        Ok(())
    }

    /// Makes the changes so far final.
    pub fn commit(&mut self)
        ensures { self.new ≡ record { present = self.old.present; committed = self.old.present } }
    {
        self.before = self.standing.copy();
        self.described.commit();
        self.summary.commit();
        self.requests.commit();
        self.outstanding.commit();
        self.retransmissions.commit();
    }

    /// Undoes all changes since the neighbor was last committed.
    pub fn roll_back(&mut self)
        ensures { self.new
            ≡ record { present = self.old.committed; committed = self.old.committed } }
    {
        self.standing = self.before.copy();
        self.described.roll_back();
        self.summary.roll_back();
        self.requests.roll_back();
        self.outstanding.roll_back();
        self.retransmissions.roll_back();
    }
}
