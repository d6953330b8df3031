//! Timers that a Tick finds expired, and retransmission (RFC 2328, sections 10.3, 10.8, 10.9 and
//! 13.6).
ghost use Rattle.std.specs.Prelude.{◌≡◌, List, [], ◌∷◌, map, IfOk, OnOk};
ghost use Rattle.std.specs.FinMap as finite;
ghost use Rattle.std.specs.FinSet as set;
ghost use Rattle.words.specs.declared.key.Key.{Key};
ghost use Rattle.lsdb.specs.Copies.{lsa_now};
ghost use Rattle.lsdb.specs.Headers.{Lsa};
ghost use Rattle.adjacency.specs.Adjacencies.{has_passed, loading_done};
ghost use Rattle.adjacency.specs.Contents.{Requests, Updates};
ghost use Rattle.adjacency.specs.Descriptions.{is_over_for, without_old_description};
ghost use Rattle.adjacency.specs.Drafts.{drafting};
ghost use Rattle.adjacency.specs.Requests.{still_outstanding};
ghost use Rattle.adjacency.specs.Retransmissions.{describe_again, next_retransmissions};
ghost use Rattle.adjacency.specs.Retransmissions.{repeats_description, request_again, send_again};
ghost use Rattle.adjacency.specs.Retransmissions.{that_fit, update_again};
ghost use Rattle.adjacency.specs.Steps.{lsas_of};
ghost use Rattle.adjacency.specs.Timers.{full_where, description_is_due, request_is_due};
ghost use Rattle.adjacency.specs.Timers.{retransmission_is_due, that_fit_after};
ghost use Rattle.adjacency.specs.Doing.{NeighborSends, NeighborUpdates, Sends, SendsUpdates};

use super::Neighbor;
use crate::connectives::both;
use crate::draft::Draft;
use crate::listed::ListEntry;
use crate::state::NeighborState;
use keyed_map::{KeyTest, KeyedMap};
use lsdb::{DatabaseCopy, Lsdb};
use std::alloc::{AllocError, Global};
use words::{Key, LARGEST_PACKET, Second, Sequence};

/// The bytes of a Link State Update before its LSAs: the packet header and the number of LSAs.
const BEFORE_LSAS: u16 = 28;

/// Whether at least `interval` seconds have passed from the start to the moment.
pub fn has_passed(start: Second, interval: u32, moment: Second) -> bool
    ensures { result ≡ has_passed start interval moment }
{
    u64::from(interval) <= moment.since(start)
}

fn is_over_for(moment: Second, dead: u32, exchanged: Option<Second>) -> bool
    ensures { result ≡ is_over_for moment dead exchanged }
{
    match exchanged {
        None => false,
        Some(done) => has_passed(done, dead, moment),
    }
}

/// From Loading to Full if the request list is empty: the databases are synchronized then.
pub fn full_where(state: NeighborState, requests_nothing: bool) -> NeighborState
    ensures { result ≡ full_where state requests_nothing }
{
    match state {
        NeighborState::Init => NeighborState::Init,
        NeighborState::ExStart => NeighborState::ExStart,
        NeighborState::Exchange => NeighborState::Exchange,
        NeighborState::Loading => {
            if requests_nothing {
                NeighborState::Full
            } else {
                NeighborState::Loading
            }
        }
        NeighborState::Full => NeighborState::Full,
    }
}

// Whether the last Database Description is retransmitted in this state: in ExStart, and by the
// master in Exchange.
fn repeats_description(state: NeighborState, is_master: bool) -> bool
    ensures { result ≡ repeats_description state is_master }
{
    match state {
        NeighborState::Init => false,
        NeighborState::ExStart => true,
        NeighborState::Exchange => is_master,
        NeighborState::Loading => false,
        NeighborState::Full => false,
    }
}

// Selects the keys that are still on the request list. All outstanding ones are: the test is there
// for the prover.
#[derive(Drop)]
struct StillRequested<'a> {
    requests: &'a KeyedMap<ListEntry>,
}

impl<'a> KeyTest<()> for StillRequested<'a> {
    ghost accepts = { λ a key u. finite.contains_key a.requests.now.present key };

    fn accepts(&self, key: &Key, _nothing: &()) -> bool {
        self.requests.contains(key)
    }
}

// Sends the copy if it fits into a Link State Update after the given number of bytes. Returns the
// number of bytes then, or `None` if it doesn't fit.
fn draft_if_it_fits(
    alloc: Global,
    moment: Second,
    delay: u16,
    copy: &DatabaseCopy<'_>,
    used: u16,
    draft: &mut Draft,
) -> Result<Option<u16>, AllocError>
    ensures { IfOk result (λ next. (rest : List Lsa)
        → drafting delay (map Updates (that_fit_after next rest)) draft.new
        ≡ drafting delay (map Updates (that_fit used (lsa_now moment copy.now ∷ rest))) draft.old) }
{
    let header = copy.header(moment);
    let filled = u32::from(used) + u32::from(header.length);
    let fits = filled <= LARGEST_PACKET as u32;
    if fits {
        draft.add_update(alloc, delay, moment, copy)?;
        return Ok(Some(filled as u16));
    }
    Ok(None)
}

// Sends the copy of this key, as `draft_if_it_fits` does. Without one nothing is sent, and the
// number of bytes stays.
fn draft_key_if_it_fits(
    alloc: Global,
    moment: Second,
    delay: u16,
    database: &Lsdb,
    key: &Key,
    used: u16,
    draft: &mut Draft,
) -> Result<Option<u16>, AllocError>
    ensures { IfOk result (λ next. (rest : List Key)
        → drafting delay (map Updates (that_fit_after next
        (lsas_of moment database.now.present rest))) draft.new
        ≡ drafting delay (map Updates (that_fit used
        (lsas_of moment database.now.present (key.now ∷ rest)))) draft.old) }
{
    match database.get(key) {
        None => Ok(Some(used)),
        Some(copy) => draft_if_it_fits(alloc, moment, delay, &copy, used, draft),
    }
}

// Sends the copies of the entries' keys in order, as many as fit into one Link State Update, and
// stops there.
fn draft_that_fit(
    alloc: Global,
    moment: Second,
    delay: u16,
    database: &Lsdb,
    entries: &KeyedMap<ListEntry>,
    draft: &mut Draft,
) -> Result<(), AllocError>
    ensures { OnOk result (draft.new ≡ drafting delay
        (map Updates (that_fit 28 (lsas_of moment database.now.present
        (finite.keys entries.now.present)))) draft.old) }
{
    let mut used = BEFORE_LSAS;
    for key in entries.keys() {
        let next = draft_key_if_it_fits(alloc, moment, delay, database, &key, used, draft)?;
        let Some(filled) = next else {
            return Ok(());
        };
        used = filled;
    }
    Ok(())
}

impl Neighbor {
    // ---- timers that have expired

    /// Discards the last Database Description if RouterDeadInterval (`dead`, in seconds) has passed
    /// since the exchange was completed (RFC 2328, section 10.8). It doesn't allocate.
    pub fn give_up_description(&mut self, moment: Second, dead: u32)
        ensures { self.new ≡ record self.old {
          present = without_old_description moment dead
              self.old.present;
        } }
    {
        let over = is_over_for(moment, dead, self.standing.exchanged);
        if !over {
            return;
        }
        self.described.set(None);
    }

    /// LoadingDone (RFC 2328, section 10.3): from Loading to Full if the request list is empty. It
    /// doesn't allocate.
    pub fn end_loading(&mut self)
        ensures { self.new ≡ record self.old { present = loading_done self.old.present } }
    {
        let requests_nothing = self.requests.is_empty();
        self.standing.state = full_where(self.standing.state, requests_nothing);
    }

    // ---- what is retransmitted

    // Whether the last Database Description is to be retransmitted.
    fn description_is_due(&self, moment: Second, interval: u16) -> bool
        ensures { result ≡ description_is_due moment interval self.now.present }
    {
        let repeats = repeats_description(self.standing.state, self.standing.is_master);
        let passed = has_passed(self.standing.described_at, u32::from(interval), moment);
        both(repeats, passed)
    }

    // Whether the last Link State Request is to be retransmitted.
    fn request_is_due(&self, moment: Second, interval: u16) -> bool
        ensures { result ≡ request_is_due moment interval self.now.present }
    {
        let none = self.outstanding.is_empty();
        let passed = has_passed(self.standing.requested_at, u32::from(interval), moment);
        both(!none, passed)
    }

    // Whether LSAs are to be retransmitted.
    fn retransmission_is_due(&self, moment: Second, interval: u16) -> bool
        ensures { result ≡ retransmission_is_due moment interval self.now.present }
    {
        let none = self.retransmissions.is_empty();
        let passed = has_passed(self.standing.retransmitted_at, u32::from(interval), moment);
        both(!none, passed)
    }

    // Retransmits the last Database Description if RxmtInterval (`interval`, in seconds) has
    // passed.
    fn describe_again(
        &mut self,
        moment: Second,
        interval: u16,
        draft: &mut Draft,
    ) -> Result<(), AllocError>
        ensures { NeighborSends (describe_again moment interval) self.old self.new draft.old
            draft.new result }
    {
        let due = self.description_is_due(moment, interval);
        if due {
            return self.repeat(moment, draft);
        }
        Ok(())
    }

    // The outstanding keys, in their order; all of them are on the request list.
    fn still_outstanding(&self, alloc: Global) -> Result<Vec<Key>, AllocError>
        ensures { IfOk result (λ keys. keys.items ≡ still_outstanding self.now.present) }
    {
        let requested = StillRequested {
            requests: &self.requests,
        };
        self.outstanding.keys_where(alloc, &requested)
    }

    // Requests the outstanding keys.
    fn request_outstanding(
        &mut self,
        alloc: Global,
        moment: Second,
        draft: &mut Draft,
    ) -> Result<(), AllocError>
        ensures { Sends (λ n. record n { requested_at = moment })
            (λ n. Requests (still_outstanding n) ∷ []) self.old self.new draft.old draft.new
            result }
    {
        let keys = self.still_outstanding(alloc)?;
        self.standing.requested_at = moment;
        draft.add_request(Sequence::from_vec(keys))
    }

    // Requests the outstanding keys again if RxmtInterval (`interval`, in seconds) has passed.
    fn request_again(
        &mut self,
        alloc: Global,
        moment: Second,
        interval: u16,
        draft: &mut Draft,
    ) -> Result<(), AllocError>
        ensures { NeighborSends (request_again moment interval) self.old self.new draft.old
            draft.new result }
    {
        let due = self.request_is_due(moment, interval);
        if due {
            return self.request_outstanding(alloc, moment, draft);
        }
        Ok(())
    }

    // Sends the first LSAs of the retransmission list.
    fn retransmit(
        &mut self,
        alloc: Global,
        moment: Second,
        database: &Lsdb,
        delay: u16,
        draft: &mut Draft,
    ) -> Result<(), AllocError>
        ensures { SendsUpdates delay (λ n. record n { retransmitted_at = moment })
            (λ n. map Updates (next_retransmissions moment database.now.present n))
            self.old self.new draft.old draft.new result }
    {
        self.standing.retransmitted_at = moment;
        draft_that_fit(alloc, moment, delay, database, &self.retransmissions, draft)
    }

    // Retransmits the first LSAs of the retransmission list if RxmtInterval (`interval`, in
    // seconds) has passed.
    fn update_again(
        &mut self,
        alloc: Global,
        moment: Second,
        interval: u16,
        database: &Lsdb,
        delay: u16,
        draft: &mut Draft,
    ) -> Result<(), AllocError>
        ensures { NeighborUpdates delay (update_again moment interval database.now.present) self.old
            self.new draft.old draft.new result }
    {
        let due = self.retransmission_is_due(moment, interval);
        if due {
            return self.retransmit(alloc, moment, database, delay, draft);
        }
        Ok(())
    }

    /// What a Tick retransmits if RxmtInterval (`interval`, in seconds) has passed since it was
    /// sent: the Database Description, the Link State Request for the outstanding keys. The
    /// retransmission list has one timer, which starts when the list is no longer empty and with
    /// each retransmission: then the first LSAs of the list follow in key order, as many as fit
    /// into one Link State Update, also those that were flooded just now (RFC 2328, sections 10.8,
    /// 10.9 and 13.6).
    ///
    /// # Errors
    /// `AllocError` if an allocation is refused; the caller then rolls back.
    pub fn send_again(
        &mut self,
        alloc: Global,
        moment: Second,
        interval: u16,
        database: &Lsdb,
        delay: u16,
        draft: &mut Draft,
    ) -> Result<(), AllocError>
        ensures { NeighborUpdates delay (send_again moment interval database.now.present) self.old
            self.new draft.old draft.new result }
    {
        self.describe_again(moment, interval, draft)?;
        self.request_again(alloc, moment, interval, draft)?;
        self.update_again(alloc, moment, interval, database, delay, draft)
    }
}
