//! Link State Requests (RFC 2328, sections 10.7 and 10.9).
ghost use Rattle.std.specs.Prelude.{◌≡◌, not, ◌&&◌, [], ◌∷◌, OnOk};
ghost use Rattle.std.specs.FinMap as finite;
ghost use Rattle.std.specs.FinSet as set;
ghost use Rattle.adjacency.specs.Contents.{Requests};
ghost use Rattle.adjacency.specs.Requests.{is_to_request, next_request, request_next};
ghost use Rattle.adjacency.specs.Views.{keys_of};
ghost use Rattle.adjacency.specs.Doing.{NeighborSends, Sends};

use super::{Neighbor, is_exchange_or_loading};
use crate::draft::Draft;
use keyed_map::KeyedMap;
use std::alloc::{AllocError, Global};
use words::{Key, Second, Sequence};

/// The most keys in one Link State Request: (8192 - 24) / 12.
const MAX_KEYS_REQUESTED: usize = 680;

// Adds the keys to an empty set.
fn put_keys(keys_set: &mut KeyedMap<()>, keys: &[Key]) -> Result<(), AllocError>
    requires { keys_set.old.present ≡ finite.empty }
    ensures ok { OnOk result (keys_of keys_set.new.present ≡ set.from_list keys.now) }
    ensures committed { keys_set.new.committed ≡ keys_set.old.committed }
{
    for key in keys {
        keys_set.insert(*key, ())?;
    }
    Ok(())
}

// Not inlined: the prover would visit all parts of the neighbor in each branch (see `connectives`).
fn all_hold(synchronizing: bool, requests_nothing: bool, none_outstanding: bool) -> bool
    ensures { result ≡ (synchronizing && not requests_nothing && none_outstanding) }
{
    synchronizing && !requests_nothing && none_outstanding
}

impl Neighbor {
    // Whether the request list isn't empty, and nothing is outstanding.
    fn is_to_request(&self) -> bool
        ensures { result ≡ is_to_request self.now.present }
    {
        let synchronizing = is_exchange_or_loading(self.standing.state);
        let requests_nothing = self.requests.is_empty();
        let none_outstanding = self.outstanding.is_empty();
        all_hold(synchronizing, requests_nothing, none_outstanding)
    }

    // Requests the first keys that fit into one Link State Request.
    fn request_first(
        &mut self,
        alloc: Global,
        moment: Second,
        draft: &mut Draft,
    ) -> Result<(), AllocError>
        requires { self.old.present.outstanding ≡ set.empty }
        ensures { Sends (λ n. record n {
          outstanding = set.from_list (next_request n);
          requested_at = moment;
        }) (λ n. Requests (next_request n) ∷ []) self.old self.new draft.old draft.new result }
    {
        let keys = self.requests.first(alloc, MAX_KEYS_REQUESTED)?;
        put_keys(&mut self.outstanding, &keys)?;
        self.standing.requested_at = moment;
        draft.add_request(Sequence::from_vec(keys))
    }

    /// In Exchange or Loading, if nothing is outstanding, sends a Link State Request for the first
    /// keys of the request list (RFC 2328, section 10.9).
    ///
    /// # Errors
    /// `AllocError` if an allocation is refused; the caller then rolls back.
    pub fn request(
        &mut self,
        alloc: Global,
        moment: Second,
        draft: &mut Draft,
    ) -> Result<(), AllocError>
        ensures { NeighborSends (request_next moment) self.old self.new draft.old draft.new result }
    {
        let may = self.is_to_request();
        if may {
            return self.request_first(alloc, moment, draft);
        }
        Ok(())
    }
}
