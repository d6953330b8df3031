//! The lists after the negotiation (RFC 2328, section 10.3, NegotiationDone).
ghost use Rattle.std.specs.Prelude.{◌≡◌};
ghost use Rattle.std.specs.FinMap as finite;
ghost use Rattle.std.specs.List.{fold};
ghost use Rattle.lsdb.specs.Copies.{is_aged_out};
ghost use Rattle.adjacency.specs.Descriptions.{max_age_copies, negotiated_neighbor, young_copies};
ghost use Rattle.adjacency.specs.Exchanges.{is_young, with_key};
ghost use Rattle.adjacency.specs.Doing.{ListDoes, NeighborDoes};

use super::Neighbor;
use crate::listed::ListEntry;
use crate::state::NeighborState;
use keyed_map::KeyedMap;
use lsdb::Lsdb;
use std::alloc::{AllocError, Global};
use words::{Key, Second};

/// Removes these keys from the list.
///
/// # Errors
/// `AllocError` if an allocation is refused.
pub fn remove_keys(list: &mut KeyedMap<ListEntry>, keys: &[Key]) -> Result<(), AllocError>
    ensures { ListDoes (λ l. fold finite.remove l keys.now) list.old list.new result }
{
    for key in keys {
        list.remove(key)?;
    }
    Ok(())
}

// Removes all keys from the list.
fn clear(alloc: Global, list: &mut KeyedMap<ListEntry>) -> Result<(), AllocError>
    ensures { ListDoes (λ _. finite.empty) list.old list.new result }
{
    let keys = list.first(alloc, list.len())?;
    remove_keys(list, &keys)
}

// Adds the copy of this key, if there is one, to its list: to the retransmission list if it is at
// MaxAge, else to the Database summary list.
fn list_copy(
    moment: Second,
    database: &Lsdb,
    key: Key,
    young: &mut KeyedMap<ListEntry>,
    aged: &mut KeyedMap<ListEntry>,
) -> Result<(), AllocError>
    ensures young { ListDoes
        (λ l. with_key (is_young moment) moment database.now.present l key) young.old young.new
        result }
    ensures aged { ListDoes
        (λ l. with_key (is_aged_out moment) moment database.now.present l key) aged.old aged.new
        result }
{
    let Some(copy) = database.get(&key) else {
        return Ok(());
    };
    let entry = ListEntry {
        header: copy.header(moment),
        at: moment,
    };
    let aged_out = copy.is_aged_out(moment);
    if aged_out {
        return aged.insert(key, entry);
    }
    young.insert(key, entry)
}

// Adds each copy of the database to its list. It visits each once.
fn list_copies(
    moment: Second,
    database: &Lsdb,
    young: &mut KeyedMap<ListEntry>,
    aged: &mut KeyedMap<ListEntry>,
) -> Result<(), AllocError>
    requires young { young.old.present ≡ finite.empty }
    requires aged { aged.old.present ≡ finite.empty }
    ensures young { ListDoes (λ _. young_copies moment database.now.present) young.old young.new
        result }
    ensures aged { ListDoes (λ _. max_age_copies moment database.now.present) aged.old aged.new
        result }
{
    for key in database.keys() {
        list_copy(moment, database, key, young, aged)?;
    }
    Ok(())
}

impl Neighbor {
    // Fills the Database summary list and the retransmission list from the database.
    fn list_database(
        &mut self,
        alloc: Global,
        moment: Second,
        database: &Lsdb,
    ) -> Result<(), AllocError>
        ensures { NeighborDoes (λ n. record n {
          summary = young_copies moment database.now.present;
          retransmissions = max_age_copies moment database.now.present;
        }) self.old self.new result }
    {
        clear(alloc, &mut self.summary)?;
        clear(alloc, &mut self.retransmissions)?;
        list_copies(
            moment,
            database,
            &mut self.summary,
            &mut self.retransmissions,
        )
    }

    // Transition to Exchange, with this router as the master or the slave.
    fn enter_exchange(&mut self, moment: Second, is_master: bool, sequence: u32)
        ensures { self.new ≡ record self.old {
          present = record self.old.present {
            state = NeighborState.Exchange;
            is_master = is_master;
            sequence = sequence;
            retransmitted_at = moment;
          };
        } }
    {
        self.standing.state = NeighborState::Exchange;
        self.standing.is_master = is_master;
        self.standing.sequence = sequence;
        self.standing.retransmitted_at = moment;
    }

    /// NegotiationDone: the Database summary list gets the copies of the database, except those at
    /// MaxAge, which go on the retransmission list.
    ///
    /// # Errors
    /// `AllocError` if an allocation is refused; the caller then rolls back.
    pub fn negotiate(
        &mut self,
        alloc: Global,
        is_master: bool,
        sequence: u32,
        moment: Second,
        database: &Lsdb,
    ) -> Result<(), AllocError>
        ensures { NeighborDoes (negotiated_neighbor is_master sequence moment database.now.present)
            self.old self.new result }
    {
        self.enter_exchange(moment, is_master, sequence);
        self.list_database(alloc, moment, database)
    }
}
