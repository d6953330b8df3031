//! Received Link State Requests (RFC 2328, section 10.7).
ghost use Rattle.std.specs.Prelude.{◌≡◌, [], ◌∷◌, map, OnOk};
ghost use Rattle.std.specs.List.{list_all};
ghost use Rattle.adjacency.specs.Contents.{Updates};
ghost use Rattle.adjacency.specs.Drafts.{drafting};
ghost use Rattle.adjacency.specs.Steps.{after_request, is_there, lsas_of};
ghost use Rattle.area.specs.Doing.{SlotUpdates};

use super::NeighborSlot;
use adjacency::{Draft, Lsdb};
use std::alloc::{AllocError, Global};
use words::{Key, Second};

fn is_there(database: &Lsdb, key: &Key) -> bool
    ensures { result ≡ is_there database.now.present key.now }
{
    match database.get(key) {
        None => false,
        Some(_copy) => true,
    }
}

// Whether the database has all of them.
fn are_there(database: &Lsdb, keys: &[Key]) -> bool
    ensures { result ≡ list_all (is_there database.now.present) keys.now }
{
    for key in keys {
        let there = is_there(database, key);
        if !there {
            return false;
        }
    }
    true
}

// Sends the copy of this key, if there is one.
fn draft_copy(
    alloc: Global,
    moment: Second,
    delay: u16,
    database: &Lsdb,
    key: &Key,
    draft: &mut Draft,
) -> Result<(), AllocError>
    ensures { OnOk result (draft.new ≡ drafting delay
        (map Updates (lsas_of moment database.now.present (key.now ∷ []))) draft.old) }
{
    match database.get(key) {
        None => Ok(()),
        Some(copy) => draft.add_update(alloc, delay, moment, &copy),
    }
}

fn draft_copies(
    alloc: Global,
    moment: Second,
    delay: u16,
    database: &Lsdb,
    keys: &[Key],
    draft: &mut Draft,
) -> Result<(), AllocError>
    ensures { OnOk result (draft.new ≡ drafting delay
        (map Updates (lsas_of moment database.now.present keys.now)) draft.old) }
{
    for key in keys {
        draft_copy(alloc, moment, delay, database, key, draft)?;
    }
    Ok(())
}

impl NeighborSlot {
    /// A Link State Request for these keys from the neighbor (RFC 2328, section 10.7), which is
    /// ignored before Exchange. The copies are sent in Link State Updates, their ages incremented
    /// by InfTransDelay (`delay`) seconds, without being put on the retransmission list. If the
    /// database lacks one, none is sent, and the neighbor goes back to ExStart (BadLSReq).
    ///
    /// # Errors
    /// `AllocError` if an allocation is refused; the caller then rolls back.
    pub fn receive_request(
        &mut self,
        alloc: Global,
        moment: Second,
        delay: u16,
        database: &Lsdb,
        keys: &[Key],
        draft: &mut Draft,
    ) -> Result<(), AllocError>
        ensures { SlotUpdates delay (after_request moment database.now.present keys.now) self.old
            self.new draft.old draft.new result }
    {
        let exchange_or_later = self.is_exchange_or_later();
        if exchange_or_later {
            let there = are_there(database, keys);
            if there {
                return draft_copies(alloc, moment, delay, database, keys, draft);
            }
            return self.enter_exstart(alloc, moment, draft);
        }
        Ok(())
    }
}
