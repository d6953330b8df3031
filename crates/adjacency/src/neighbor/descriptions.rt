//! The database exchange (RFC 2328, sections 10.6, 10.8 and 10.3).
ghost use Rattle.std.specs.Prelude.{◌≡◌, ◌+◌, ◌%◌, ◌^◌, false, true, []};
ghost use Rattle.std.specs.Prelude.{◌∷◌, ◌++◌, take, IfOk, OnOk};
ghost use Rattle.std.specs.FinMap as finite;
ghost use Rattle.std.specs.List.{filter_map, fold};
ghost use Rattle.lsdb.specs.Instances.{listed_header_now};
ghost use Rattle.adjacency.specs.Descriptions.{
  announced_more,
  exchange_done,
  is_more_recent,
  master_goes_on,
  negotiated_neighbor,
  next_description,
  repeat,
  send_description,
  slave_replies,
  with_request,
};
ghost use Rattle.adjacency.specs.Exchanges.{accept_description, entry_header};
ghost use Rattle.adjacency.specs.Exchanges.{proceeding, verdict_of};
ghost use Rattle.adjacency.specs.Doing.{ListDoes, NeighborSends};
ghost use Rattle.words.specs.Constants.{max_headers_described};

use super::Neighbor;
use super::negotiation::remove_keys;
use super::timers::full_where;
use crate::connectives::either;
use crate::descriptions::as_received;
use crate::draft::Draft;
use crate::listed::{ListEntry, instance_of};
use crate::state::NeighborState;
use crate::verdict::Verdict;
use keyed_map::KeyedMap;
use lsa::Header;
use lsdb::{Lsdb, age_at, newer};
use packet::Description;
use std::alloc::{AllocError, Global};
use words::{E_BIT, Key, LARGEST_PACKET, Second, Sequence};

/// The most headers in one Database Description: (8192 - 32) / 20.
const MAX_HEADERS_DESCRIBED: usize = 408;

/// A second value of the Database Description, as `Clone::clone` would make one.
///
/// # Errors
/// `AllocError` if an allocation is refused.
pub fn copy(description: &Description) -> Result<Description, AllocError>
    ensures { IfOk result (λ made. made ≡ description.now) }
{
    let headers = description.headers.copy()?;
    Ok(Description {
        mtu: description.mtu,
        options: description.options,
        init: description.init,
        more: description.more,
        master: description.master,
        sequence: description.sequence,
        headers,
    })
}

// Whether this instance is newer than the database copy of its key, or there is none.
fn is_more_recent(moment: Second, database: &Lsdb, header: &Header) -> bool
    ensures { result ≡ is_more_recent moment database.now.present header.now }
{
    match database.get(&header.key()) {
        None => true,
        Some(copy) => newer(instance_of(header), copy.instance(moment)),
    }
}

// Adds the instance to the request list if it is more recent than the database copy.
fn list_if_more_recent(
    moment: Second,
    database: &Lsdb,
    requests: &mut KeyedMap<ListEntry>,
    header: &Header,
) -> Result<(), AllocError>
    ensures { ListDoes (λ l. with_request moment database.now.present l header.now) requests.old
        requests.new result }
{
    let recent = is_more_recent(moment, database, header);
    if recent {
        let entry = ListEntry {
            header: *header,
            at: moment,
        };
        return requests.insert(header.key(), entry);
    }
    Ok(())
}

// Adds those of these instances that are more recent than their database copies to the request
// list.
fn list_all_more_recent(
    moment: Second,
    database: &Lsdb,
    requests: &mut KeyedMap<ListEntry>,
    headers: &[Header],
) -> Result<(), AllocError>
    ensures { ListDoes (λ l. fold (with_request moment database.now.present) l headers.now)
        requests.old requests.new result }
{
    for header in headers {
        list_if_more_recent(moment, database, requests, header)?;
    }
    Ok(())
}

// The entry's header with its age at the moment.
fn listed_header_now(moment: Second, entry: &ListEntry) -> Header
    ensures { result ≡ listed_header_now moment entry.now }
{
    Header {
        age: age_at(entry.header.age, entry.at, moment),
        ..entry.header
    }
}

// Appends the header of this key, if there is one.
fn push_header(
    moment: Second,
    list: &KeyedMap<ListEntry>,
    key: &Key,
    headers: &mut Vec<Header>,
) -> Result<(), AllocError>
    ensures { OnOk result (headers.new.items ≡ headers.old.items
        ++ filter_map (λ key. entry_header moment (finite.get list.now.present key))
        (key.now ∷ [])) }
{
    let Some(entry) = list.get(key) else {
        return Ok(());
    };
    let header = listed_header_now(moment, entry);
    headers.push(header)?;
    Ok(())
}

// The headers of these keys, with their ages at the moment.
fn headers_of(
    alloc: Global,
    moment: Second,
    list: &KeyedMap<ListEntry>,
    keys: &[Key],
) -> Result<Vec<Header>, AllocError>
    ensures { IfOk result (λ headers. headers.items
        ≡ filter_map (λ key. entry_header moment (finite.get list.now.present key)) keys.now) }
{
    let mut headers = Vec::new(alloc);
    for key in keys {
        push_header(moment, list, key, &mut headers)?;
    }
    Ok(headers)
}

impl Neighbor {
    /// Sends the last Database Description again, if it is kept (RFC 2328, section 10.8).
    ///
    /// # Errors
    /// `AllocError` if an allocation is refused; the caller then rolls back.
    pub fn repeat(&mut self, moment: Second, draft: &mut Draft) -> Result<(), AllocError>
        ensures { NeighborSends (repeat moment) self.old self.new draft.old draft.new result }
    {
        let Some(kept) = self.described.get() else {
            return Ok(());
        };
        let again = copy(kept)?;
        self.standing.described_at = moment;
        draft.add_description(again)
    }

    // The exchange continues with this DD sequence number.
    fn set_dd_sequence(&mut self, sequence: u32)
        ensures { self.new ≡ record self.old {
          present =
              record self.old.present { sequence = sequence };
        } }
    {
        self.standing.sequence = sequence;
    }

    // The DD sequence number.
    fn sequence(&self) -> u32
        ensures { result ≡ self.now.present.sequence }
    {
        self.standing.sequence
    }

    // ExchangeDone (RFC 2328, section 10.3).
    fn finish(&mut self, moment: Second)
        ensures { self.new ≡ record self.old { present = exchange_done moment self.old.present } }
    {
        let nothing = self.requests.is_empty();
        let state = full_where(NeighborState::Loading, nothing);
        self.standing.state = state;
        self.standing.exchanged = Some(moment);
    }

    // The next Database Description, with the headers of these keys.
    fn next_description(
        &self,
        alloc: Global,
        moment: Second,
        keys: &[Key],
    ) -> Result<Description, AllocError>
        requires { keys.now ≡ take max_headers_described (finite.keys self.now.present.summary) }
        ensures { IfOk result (λ next. next ≡ next_description moment self.now.present) }
    {
        let headers = headers_of(alloc, moment, &self.summary, keys)?;
        let count = self.summary.len();
        let more = count > MAX_HEADERS_DESCRIBED;
        let headers = Sequence::from_vec(headers);
        Ok(Description {
            mtu: LARGEST_PACKET,
            options: E_BIT,
            init: false,
            more,
            master: self.standing.is_master,
            sequence: self.standing.sequence,
            headers,
        })
    }

    // Sends the next Database Description (RFC 2328, section 10.8), and keeps it, since it may have
    // to be sent again.
    fn send_description(
        &mut self,
        alloc: Global,
        moment: Second,
        draft: &mut Draft,
    ) -> Result<(), AllocError>
        ensures { NeighborSends (send_description moment) self.old self.new draft.old draft.new
            result }
    {
        let keys = self.summary.first(alloc, MAX_HEADERS_DESCRIBED)?;
        let next = self.next_description(alloc, moment, &keys)?;
        remove_keys(&mut self.summary, &keys)?;
        let kept = copy(&next)?;
        self.described.set(Some(kept));
        self.standing.described_at = moment;
        draft.add_description(next)
    }

    // Whether the last one sent had the M-bit set.
    fn announced_more(&self) -> bool
        ensures { result ≡ announced_more self.now.present.described }
    {
        match self.described.get() {
            None => false,
            Some(kept) => kept.more,
        }
    }

    // The master sends the next one, unless neither side has more.
    fn master_goes_on(
        &mut self,
        alloc: Global,
        moment: Second,
        description: &Description,
        draft: &mut Draft,
    ) -> Result<(), AllocError>
        ensures { NeighborSends (master_goes_on moment description.now) self.old self.new draft.old
            draft.new result }
    {
        let announced = self.announced_more();
        let more = either(announced, description.more);
        if more {
            let sequence = self.sequence();
            let next = sequence.wrapping_add(1);
            self.set_dd_sequence(next);
            return self.send_description(alloc, moment, draft);
        }
        self.finish(moment);
        Ok(())
    }

    // The slave takes over the DD sequence number and replies; if neither side has more, its
    // exchange is done.
    fn slave_replies(
        &mut self,
        alloc: Global,
        moment: Second,
        description: &Description,
        draft: &mut Draft,
    ) -> Result<(), AllocError>
        ensures { NeighborSends (slave_replies moment description.now) self.old self.new draft.old
            draft.new result }
    {
        self.set_dd_sequence(description.sequence);
        self.send_description(alloc, moment, draft)?;
        let announced = self.announced_more();
        let more = either(announced, description.more);
        if more {
            return Ok(());
        }
        self.finish(moment);
        Ok(())
    }

    // Accepts a Database Description whose headers all have known LS types.
    fn accept(
        &mut self,
        alloc: Global,
        moment: Second,
        database: &Lsdb,
        description: &Description,
        draft: &mut Draft,
    ) -> Result<(), AllocError>
        ensures { NeighborSends (accept_description moment database.now.present description.now)
            self.old self.new draft.old draft.new result }
    {
        let received = as_received(description);
        self.standing.received = Some(received);
        list_all_more_recent(
            moment,
            database,
            &mut self.requests,
            description.headers.as_slice(),
        )?;
        let leads = self.standing.is_master;
        if leads {
            return self.master_goes_on(alloc, moment, description, draft);
        }
        self.slave_replies(alloc, moment, description, draft)
    }

    // NegotiationDone, with this router as the slave.
    fn become_slave(
        &mut self,
        alloc: Global,
        moment: Second,
        database: &Lsdb,
        description: &Description,
        draft: &mut Draft,
    ) -> Result<(), AllocError>
        ensures { NeighborSends (λ n. accept_description moment database.now.present description.now
            (negotiated_neighbor false description.now.sequence moment database.now.present n))
            self.old self.new draft.old draft.new result }
    {
        self.negotiate(alloc, false, description.sequence, moment, database)?;
        self.accept(alloc, moment, database, description, draft)
    }

    // NegotiationDone, with this router as the master.
    fn become_master(
        &mut self,
        alloc: Global,
        moment: Second,
        database: &Lsdb,
        description: &Description,
        draft: &mut Draft,
    ) -> Result<(), AllocError>
        ensures { NeighborSends (λ n. accept_description moment database.now.present description.now
            (negotiated_neighbor true n.sequence moment database.now.present n))
            self.old self.new draft.old draft.new result }
    {
        let sequence = self.sequence();
        self.negotiate(alloc, true, sequence, moment, database)?;
        self.accept(alloc, moment, database, description, draft)
    }

    /// The step for the verdict on a received Database Description, unless the adjacency starts
    /// over.
    ///
    /// # Errors
    /// `AllocError` if an allocation is refused; the caller then rolls back.
    pub fn proceed(
        &mut self,
        alloc: Global,
        verdict: Verdict,
        moment: Second,
        database: &Lsdb,
        description: &Description,
        draft: &mut Draft,
    ) -> Result<(), AllocError>
        ensures { NeighborSends
            (proceeding (verdict_of verdict) moment database.now.present description.now)
            self.old self.new draft.old draft.new result }
    {
        match verdict {
            Verdict::Discarded => Ok(()),
            Verdict::NegotiatedAsSlave => self.become_slave(
                alloc,
                moment,
                database,
                description,
                draft,
            ),
            Verdict::NegotiatedAsMaster => self.become_master(
                alloc,
                moment,
                database,
                description,
                draft,
            ),
            Verdict::Repeated => self.repeat(moment, draft),
            Verdict::Accepted => self.accept(alloc, moment, database, description, draft),
            Verdict::Mismatch(_why) => Ok(()),
        }
    }
}
