//! Self-originated LSAs (RFC 2328, sections 12.4 and 14.1).
ghost use Rattle.std.specs.Prelude.{◌≡◌};
ghost use Rattle.event_rules.specs.Originations.{flush, is_due, refresh_time_is_over};
ghost use Rattle.router.specs.Making.{RouterDoes};
ghost use Rattle.router.specs.Parts.{install_and_flood_own};

use crate::state::Router;
use area::DatabaseCopy;
use lsa::Lsa;
use std::alloc::{AllocError, Global};
use words::{Key, Second};

// LSRefreshTime: the age in seconds at which a self-originated LSA is originated again.
const LS_REFRESH_TIME: u16 = 1800;

fn refresh_time_is_over(moment: Second, copy: Option<DatabaseCopy<'_>>) -> bool
    ensures { result ≡ refresh_time_is_over moment copy.entry }
{
    let Some(copy) = copy else {
        return true;
    };
    LS_REFRESH_TIME <= copy.age(moment)
}

impl Router {
    /// Whether the self-originated LSA of this key, if it is wanted, is to be originated at a Tick
    /// (RFC 2328, section 12.4): it waits for one, was removed from the database, or has an age of
    /// LSRefreshTime, 1800 seconds, or more.
    pub fn is_due(&self, moment: Second, key: &Key) -> bool
        ensures { result ≡ is_due moment self.now.present key.now }
    {
        let waits = self.waiting.contains(key);
        if waits {
            return true;
        }
        refresh_time_is_over(moment, self.area.database().get(key))
    }

    /// Installs an LSA of this key that this router originated, and floods it to every neighbor. It
    /// no longer waits, and MinLSInterval starts.
    ///
    /// # Errors
    /// `AllocError` if an allocation is refused.
    pub fn originate(
        &mut self,
        alloc: Global,
        moment: Second,
        key: &Key,
        lsa: Lsa,
    ) -> Result<(), AllocError>
        ensures { RouterDoes (install_and_flood_own moment key.now lsa) self.old self.new result }
    {
        self.area.install_and_flood_own(alloc, moment, lsa)?;
        self.waiting.remove(key)?;
        self.originated.insert(*key, moment)
    }

    /// Premature aging (RFC 2328, section 14.1): a copy of this key that is younger than MaxAge is
    /// set to MaxAge and flooded to every neighbor. Without such a copy nothing changes.
    ///
    /// # Errors
    /// `AllocError` if an allocation is refused.
    pub fn flush(&mut self, alloc: Global, moment: Second, key: &Key) -> Result<(), AllocError>
        ensures { RouterDoes (flush moment key.now) self.old self.new result }
    {
        let Some(copy) = self.area.database().get(key) else {
            return Ok(());
        };
        let aged = copy.is_aged_out(moment);
        if aged {
            return Ok(());
        }
        self.area.age_prematurely(alloc, moment, key)
    }
}
