//! What a router announces, which self-originated LSAs wait for a Tick, and which originations are
//! forgotten.
ghost use Rattle.std.specs.Prelude.{◌≡◌, ◌<◌, ◌^◌, OnOk};
ghost use Rattle.std.specs.List.{fold};
ghost use Rattle.std.specs.FinMap as finite;
ghost use Rattle.event_rules.specs.Commands.{announce, unannounce};
ghost use Rattle.event_rules.specs.EventState.{on_router};
ghost use Rattle.event_rules.specs.Originations.{external_key, forget_originations, postpone};
ghost use Rattle.router.specs.Making.{RouterDoes};

use crate::origination::interval_is_over;
use crate::state::Router;
use keyed_map::{KeyTest, KeyedMap};
use std::alloc::{AllocError, Global};
use words::{External, Key, Second, external_key};

// Selects the originations since which MinLSInterval has passed (RFC 2328, section 12.4).
#[derive(Drop)]
struct IsOver {
    moment: Second,
}

impl KeyTest<Second> for IsOver {
    ghost use Rattle.std.specs.Prelude.{Some};
    ghost use Rattle.event_rules.specs.Originations.{interval_is_over};

    ghost accepts = { λ a key at. interval_is_over a.moment (Some at) };

    fn accepts(&self, _key: &Key, at: &Second) -> bool {
        interval_is_over(self.moment, Some(*at))
    }
}

// Removes these keys.
fn remove_each(keys: &[Key], moments: &mut KeyedMap<Second>) -> Result<(), AllocError>
    ensures ok { OnOk result (moments.new.present
        ≡ fold finite.remove moments.old.present keys.now) }
    ensures committed { moments.new.committed ≡ moments.old.committed }
{
    for i in 0..keys.len() {
        moments.remove(&keys[i])?;
    }
    Ok(())
}

impl Router {
    /// Announces the destination from now on, under the key of its AS-external-LSA.
    ///
    /// # Errors
    /// `AllocError` if an allocation is refused.
    pub fn announce(&mut self, external: External) -> Result<(), AllocError>
        // A metric has 24 bits.
        requires metric { external.metric < 2 ^ 24 }
        ensures { RouterDoes (on_router (announce
            (external_key self.old.present.id external.prefix) external))
            self.old self.new result }
    {
        let key = external_key(self.id, external.prefix);
        self.announced.insert(key, external)
    }

    /// The destination of this key is no longer announced, and its LSA no longer waits.
    ///
    /// # Errors
    /// `AllocError` if an allocation is refused.
    pub fn unannounce(&mut self, key: &Key) -> Result<(), AllocError>
        ensures { RouterDoes (on_router (unannounce key.now)) self.old self.new result }
    {
        self.announced.remove(key)?;
        self.waiting.remove(key)
    }

    /// The self-originated LSA of this key waits for a Tick.
    ///
    /// # Errors
    /// `AllocError` if an allocation is refused.
    pub fn postpone(&mut self, key: &Key) -> Result<(), AllocError>
        ensures { RouterDoes (on_router (postpone key.now)) self.old self.new result }
    {
        self.waiting.insert(*key, ())
    }

    /// Forgets the originations since which MinLSInterval has passed.
    ///
    /// # Errors
    /// `AllocError` if an allocation is refused.
    pub fn forget_originations(&mut self, alloc: Global, moment: Second) -> Result<(), AllocError>
        ensures { RouterDoes (on_router (forget_originations moment)) self.old self.new result }
    {
        let keys = self.originated.keys_where(alloc, &IsOver { moment })?;
        remove_each(&keys, &mut self.originated)
    }
}
