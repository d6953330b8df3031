//! What is asked of the neighbor on a link, which may be Down.
ghost use Rattle.std.specs.Prelude.{◌≡◌};
ghost use Rattle.adjacency.specs.Asked.{neighbor_is_exchange_or_loading, has_retransmission_of};
ghost use Rattle.adjacency.specs.Asked.{has_retransmission};
ghost use Rattle.adjacency.specs.Asked.{is_on_request_list};
ghost use Rattle.adjacency.specs.Steps.{named_neighbor};
ghost use Rattle.received.specs.Links.{has_long_list, requested_of};
ghost use Rattle.area.specs.Owed.{owed_on};

use super::Link;
use adjacency::{NeighborState, is_entry, is_exchange_or_loading};
use lsa::Header;
use lsdb::MAX_LSAS;
use words::{Key, RouterId, Second};

/// The most delayed acknowledgments of an interface. In one second each key of a full database can
/// be flushed, and as many new ones come.
const MAX_DELAYED: usize = 32_768;

impl Link {
    /// The neighbor's Router ID and its state, unless it is Down.
    pub fn neighbor(&self) -> Option<(RouterId, NeighborState)>
        ensures { result ≡ named_neighbor self.now.present.neighbor }
    {
        let Some(neighbor) = &self.slot.neighbor else {
            return None;
        };
        let standing = neighbor.standing();
        Some((standing.router, standing.state))
    }

    /// Whether there is a neighbor in Exchange or Loading.
    pub fn is_exchange_or_loading(&self) -> bool
        ensures { result ≡ neighbor_is_exchange_or_loading self.now.present.neighbor }
    {
        match &self.slot.neighbor {
            None => false,
            Some(neighbor) => is_exchange_or_loading(neighbor.standing().state),
        }
    }

    /// Whether the key is on the neighbor's request list.
    pub fn is_on_request_list(&self, key: &Key) -> bool
        ensures { result ≡ is_on_request_list key.now self.now.present.neighbor }
    {
        match &self.slot.neighbor {
            None => false,
            Some(neighbor) => neighbor.requests().contains(key),
        }
    }

    /// Whether the key is on the neighbor's retransmission list.
    pub fn has_retransmission(&self, key: &Key) -> bool
        ensures { result ≡ has_retransmission key.now self.now.present.neighbor }
    {
        match &self.slot.neighbor {
            None => false,
            Some(neighbor) => neighbor.retransmissions().contains(key),
        }
    }

    /// Whether exactly this instance is on the neighbor's retransmission list (RFC 2328, section
    /// 13, step 7a).
    pub fn has_retransmission_of(&self, moment: Second, header: &Header) -> bool
        ensures { result ≡ has_retransmission_of moment header.now self.now.present.neighbor }
    {
        let Some(neighbor) = &self.slot.neighbor else {
            return false;
        };
        let listed = neighbor.retransmissions().get(&header.key());
        is_entry(moment, header, listed)
    }

    // How many LSAs are still to be requested from the neighbor; 0 if it is Down.
    fn requested(&self) -> usize
        ensures { result ≡ requested_of self.now.present.neighbor }
    {
        match &self.slot.neighbor {
            None => 0,
            Some(neighbor) => neighbor.requests().len(),
        }
    }

    /// Whether more LSAs are to be requested than a database may hold, 16,384, or more than 32,768
    /// acknowledgments are delayed.
    pub fn has_long_list(&self) -> bool
        ensures { result ≡ has_long_list self.now.present }
    {
        self.requested() > MAX_LSAS || self.acknowledgments.len() > MAX_DELAYED
    }

    /// How many entries the neighbor's retransmission list and request list have; 0 if it is Down.
    pub fn owes(&self) -> usize
        ensures { result ≡ owed_on self.now.present.neighbor }
    {
        match &self.slot.neighbor {
            None => 0,
            Some(neighbor) => {
                let retransmissions = neighbor.retransmissions().len();
                retransmissions.saturating_add(neighbor.requests().len())
            }
        }
    }
}
