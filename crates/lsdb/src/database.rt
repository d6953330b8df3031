//! The link-state database of a router.
ghost use Rattle.std.specs.Prelude.{◌≡◌, ◌≤◌, ◌↔◌, length, IfOk, IsTrue, option_copied};
ghost use Rattle.std.specs.FinMap as finite;
ghost use Rattle.lsdb.specs.Copies.{
  age_prematurely,
  max_age_keys,
  mark_sent,
  put_copy,
  contents_of,
};
ghost use Rattle.lsdb.specs.Bodies.{AreBodies};
ghost use Rattle.lsdb.specs.Doing.{DatabaseDoes};
ghost use Rattle.lsdb.specs.Changes.{IsUpTo, ContentsAgree};
ghost use Rattle.words.specs.declared.key.Key.{Key as KeyValue};
ghost use Rattle.lsdb.specs.Limits.{exceeds, has_room};

mod changed;
mod others;

use crate::ages::{Ages, foresee, foresee_again};
use crate::database_copy::DatabaseCopy;
use crate::keyed_bodies::{KeyedBody, bodies_of};
use crate::limits::{MAX_LSAS, MAX_OWN_EXTERNALS, holds_own, is_own_external, recount};
use crate::sameness::contents_agree;
use crate::stored::StoredLsa;
use crate::times::CopyTimes;
use keyed_map::{ChangeTest, KeyTest, KeyedMap, KeysInOrder};
use lsa::{Lsa, LsaBody};
pub use others::KeyRule;
use std::alloc::{AllocError, Global};
use std::marker::Model;
use words::{Key, RouterId, Second};

/// The link-state database of a router (RFC 2328, section 12.2): at most one copy, that is
/// instance, for each key, now and when the database was last committed.
///
/// Clones of the database share its LSAs, and to change the times of a copy clones no LSA.
#[derive(Drop)]
pub struct Lsdb {
    alloc: Global,
    router: RouterId,
    copies: KeyedMap<StoredLsa>,
    // the number of self-originated AS-external-LSAs, now and when the database was last committed
    externals: usize,
    committed_externals: usize,
    ages: Ages,
    // at least the number of keys in `ages.aged` whose copies were removed or replaced since `ages`
    // was made: a hint when to make it anew, on which nothing but time depends
    past: usize,
}

impl Model for Lsdb {
    ghost use Rattle.std.specs.Coded.{codes};
    ghost use Rattle.lsdb.specs.Kept.{RouterDatabase, coded_database};

    ghost Value = { RouterDatabase };

    ghost coded = { coded_database (Prim.hlevel codes) };

    ghost use Rattle.lsdb.specs.Soundness.{AreKept};

    ghost view = { λ a. record {
      router = a.router;
      present = a.copies.present;
      committed = a.copies.committed;
    } };

    ghost invariant = { λ a. AreKept a.router a.copies a.externals a.committed_externals a.ages };
}

// Selects the copies that have reached MaxAge.
#[derive(Drop)]
struct AgedOut {
    moment: Second,
}

impl KeyTest<StoredLsa> for AgedOut {
    ghost use Rattle.lsdb.specs.Copies.{is_aged_out};

    ghost accepts = { λ a key copy. is_aged_out a.moment copy };

    fn accepts(&self, _key: &Key, copy: &StoredLsa) -> bool {
        copy.is_aged_out(self.moment)
    }
}

// Selects the keys whose copies have reached MaxAge.
#[derive(Drop)]
struct AgedAndThere<'a> {
    copies: &'a KeyedMap<StoredLsa>,
    moment: Second,
}

impl<'a> KeyTest<()> for AgedAndThere<'a> {
    ghost use Rattle.lsdb.specs.Foresight.{aged_at};

    ghost accepts = { λ a key u. aged_at a.moment (finite.get a.copies.now.present key) };

    fn accepts(&self, key: &Key, _nothing: &()) -> bool {
        match self.copies.get(key) {
            None => false,
            Some(copy) => copy.is_aged_out(self.moment),
        }
    }
}

// Tests whether copies of the LS types up to this one, or of all types, say the same as before.
#[derive(Drop)]
struct SameUpTo {
    last_type: Option<u32>,
    moment: Second,
}

impl ChangeTest<StoredLsa> for SameUpTo {
    ghost use Rattle.lsdb.specs.Changes.{IsUpTo, ContentsAgree};

    ghost same = { λ a key before now. IsUpTo a.last_type key → ContentsAgree a.moment before now };

    ghost counted = { λ a key. IsUpTo a.last_type key };

    fn counts(&self, _alloc: Global, key: &Key) -> Result<bool, AllocError> {
        Ok(is_up_to(self.last_type, key))
    }

    fn is_same(
        &self,
        alloc: Global,
        _key: &Key,
        before: Option<&StoredLsa>,
        now: Option<&StoredLsa>,
    ) -> Result<bool, AllocError> {
        contents_agree(alloc, self.moment, before, now)
    }
}

/// Whether the key is of an LS type up to this one, or of any if none is given.
pub fn is_up_to(last_type: Option<u32>, key: &Key) -> bool
    ensures { IsTrue result ↔ IsUpTo last_type key.now }
{
    match last_type {
        None => true,
        Some(last) => key.ls_type <= last,
    }
}

// `past`, plus 1 if the key is among the aged keys.
fn one_more_past(ages: &Ages, key: &Key, past: usize) -> usize {
    if ages.aged.contains(key) {
        return past.saturating_add(1);
    }
    past
}

impl Lsdb {
    /// The empty database of a router. It doesn't allocate.
    pub fn new(alloc: Global, router: RouterId) -> Self
        ensures { result ≡ record {
          router = router;
          present = finite.empty;
          committed =
              finite.empty;
        } }
    {
        Lsdb {
            alloc,
            router,
            copies: KeyedMap::new(alloc),
            externals: 0,
            committed_externals: 0,
            // There is no copy that could reach MaxAge.
            ages: Ages::new(alloc, Second::new(u64::MAX)),
            past: 0,
        }
    }

    /// A clone of the database, committed. It shares the LSAs.
    ///
    /// # Errors
    /// `AllocError` if an allocation is refused.
    pub fn copy(&self, alloc: Global) -> Result<Self, AllocError>
        ensures { IfOk result (λ made. made ≡ record self.now { committed = self.now.present }) }
    {
        let copies = self.copies.copy(alloc)?;
        Ok(Lsdb {
            alloc,
            router: self.router,
            copies,
            externals: self.externals,
            committed_externals: self.externals,
            // It isn't known when copies reach MaxAge: the first `commit_at` scans them all.
            ages: Ages::new(alloc, Second::new(0)),
            past: 0,
        })
    }

    /// The number of copies.
    pub fn len(&self) -> usize
        ensures { result ≡ finite.len self.now.present }
    {
        self.copies.len()
    }

    /// The copy of this key, if there is one.
    pub fn get(&self, key: &Key) -> Option<DatabaseCopy<'_>>
        ensures { result ≡ finite.get self.now.present key.now }
    {
        // A key above all others has no copy: LSAs that arrive in the order of their keys aren't
        // searched for.
        if self.copies.is_beyond(key) {
            return None;
        }
        match self.copies.get(key) {
            None => None,
            Some(copy) => Some(copy.borrowed()),
        }
    }

    /// The body of this key's copy, if there is one below MaxAge at the moment.
    pub fn body_at(&self, moment: Second, key: &Key) -> Option<&LsaBody>
        ensures { option_copied result ≡ contents_of moment (finite.get self.now.present key.now) }
    {
        match self.copies.get(key) {
            None => None,
            Some(copy) => copy.body_at(moment),
        }
    }

    /// The bodies of the copies of LS types up to this one, or of all types if none is given, that
    /// are below MaxAge at the moment, in the order of their keys (RFC 2328, section 16). It visits
    /// each copy of these types once, and no other.
    ///
    /// # Errors
    /// `AllocError` if an allocation is refused.
    pub fn bodies_at(
        &self,
        alloc: Global,
        last_type: Option<u32>,
        moment: Second,
    ) -> Result<Vec<KeyedBody<'_>>, AllocError>
        ensures bodies { IfOk result (λ bodies. AreBodies last_type
            (λ key. contents_of moment (finite.get self.now.present key)) bodies.items) }
        ensures few { IfOk result (λ bodies. length bodies.items ≤ finite.len self.now.present) }
    {
        bodies_of(alloc, &self.copies, last_type, moment)
    }

    /// The keys, in their order.
    pub fn keys(&self) -> KeysInOrder<'_, StoredLsa>
        ensures { result ≡ finite.keys self.now.present }
    {
        self.copies.keys()
    }

    /// Whether an LSA with this key stays within the limits: it replaces a copy, or there are fewer
    /// than 16,384 LSAs and, if it is an AS-external-LSA of the router itself, fewer than 4,096 of
    /// these.
    pub fn has_room(&self, key: &Key) -> bool
        ensures { result ≡ has_room self.now.router key.now self.now.present }
    {
        self.copies.contains(key)
            || self.copies.len() < MAX_LSAS
                && (!is_own_external(self.router, key) || self.externals < MAX_OWN_EXTERNALS)
    }

    /// Whether there are more than 16,384 LSAs, or more than 4,096 AS-external-LSAs of the router
    /// itself among them.
    pub fn exceeds(&self) -> bool
        ensures { result ≡ exceeds self.now.router self.now.present }
    {
        self.copies.len() > MAX_LSAS || self.externals > MAX_OWN_EXTERNALS
    }

    /// The keys of the copies that have MaxAge at the moment, in their order.
    ///
    /// It visits all copies only if one may have reached MaxAge since `commit_at` last scanned
    /// them. Otherwise it visits only those that had MaxAge then or got it since; when an event
    /// begins, at most half of these have been removed or replaced, unless memory was refused for a
    /// new list of them.
    ///
    /// # Errors
    /// `AllocError` if an allocation is refused.
    pub fn max_age_keys(&self, alloc: Global, moment: Second) -> Result<Vec<Key>, AllocError>
        ensures { IfOk result (λ keys. keys.items ≡ max_age_keys moment self.now.present) }
    {
        if moment < self.ages.due {
            let there = AgedAndThere {
                copies: &self.copies,
                moment,
            };
            return self.ages.aged.keys_where(alloc, &there);
        }
        self.copies.keys_where(alloc, &AgedOut { moment })
    }

    /// Whether the contents of no copy of an LS type up to this one, or of any type if none is
    /// given, have changed since the database was last committed (RFC 2328, section 13.2): no copy
    /// was added or removed, each has the same body, and neither the earlier copy nor the present
    /// one is at MaxAge at the moment, unless they had the same age at the same moment: a copy at
    /// MaxAge in place of an earlier one counts as changed, and one that stayed doesn't, even if it
    /// has come to MaxAge since. It visits the edits since then, and for
    /// each whose contents differ those before it. Another sequence number, checksum or age below
    /// MaxAge doesn't matter, nor whether a copy was sent; nor do other Options, which section 13.2
    /// counts as a difference, but on which no route depends.
    ///
    /// # Errors
    /// `AllocError` if an allocation for the bytes of LSAs, which are compared, is refused.
    pub fn is_unchanged(
        &self,
        alloc: Global,
        last_type: Option<u32>,
        moment: Second,
    ) -> Result<bool, AllocError>
        ensures { IfOk result (λ same. IsTrue same ↔ ((key : KeyValue) → IsUpTo last_type key
            → ContentsAgree moment
            (finite.get self.now.committed key) (finite.get self.now.present key))) }
    {
        self.copies.keeps(alloc, &SameUpTo { last_type, moment })
    }

    /// Installs an LSA at this moment in place of the copy of its key (RFC 2328, section 13.2).
    /// `received` is the moment too if the LSA was received by flooding, and none if this router
    /// originated it (section 12.4).
    ///
    /// # Errors
    /// `AllocError` if an allocation is refused; the caller then rolls back.
    pub fn install(
        &mut self,
        moment: Second,
        lsa: Lsa,
        received: Option<Second>,
    ) -> Result<(), AllocError>
        ensures { DatabaseDoes (put_copy moment lsa received) self.old self.new result }
    {
        let header = lsa.header();
        let times = CopyTimes {
            age: header.age,
            stored: moment,
            received,
            sent: None,
        };
        let name = header.key();
        let key = &name;
        let copy = StoredLsa::new(self.alloc, lsa, times)?;
        let held = holds_own(self.router, &self.copies, key);
        self.past = one_more_past(&self.ages, key, self.past);
        self.ages.note(moment, key, &copy)?;
        self.copies.insert(*key, copy)?;
        self.externals = recount(self.router, &self.copies, key, held, true, self.externals);
        Ok(())
    }

    /// Notes that the copy of this key was sent in a Link State Update at this moment. Without a
    /// copy nothing changes.
    ///
    /// # Errors
    /// `AllocError` if an allocation is refused; the caller then rolls back.
    pub fn mark_sent(&mut self, moment: Second, key: &Key) -> Result<(), AllocError>
        ensures { DatabaseDoes (mark_sent moment key.now) self.old self.new result }
    {
        let Some(copy) = self.copies.get(key) else {
            return Ok(());
        };
        let marked = copy.marked(moment)?;
        self.copies.insert(*key, marked)
    }

    /// Premature aging (RFC 2328, section 14.1): the copy of this key has MaxAge from this moment
    /// on. Without a copy nothing changes.
    ///
    /// # Errors
    /// `AllocError` if an allocation is refused; the caller then rolls back.
    pub fn age_prematurely(&mut self, moment: Second, key: &Key) -> Result<(), AllocError>
        ensures { DatabaseDoes (age_prematurely moment key.now) self.old self.new result }
    {
        let Some(copy) = self.copies.get(key) else {
            return Ok(());
        };
        let aged = copy.aged_out(moment)?;
        self.ages.note(moment, key, &aged)?;
        self.copies.insert(*key, aged)
    }

    /// Removes the copy of this key, if there is one.
    ///
    /// # Errors
    /// `AllocError` if an allocation is refused; the caller then rolls back.
    pub fn remove(&mut self, key: &Key) -> Result<(), AllocError>
        ensures { DatabaseDoes (λ d. finite.remove d key.now) self.old self.new result }
    {
        let held = holds_own(self.router, &self.copies, key);
        self.past = one_more_past(&self.ages, key, self.past);
        self.copies.remove(key)?;
        self.externals = recount(self.router, &self.copies, key, held, false, self.externals);
        Ok(())
    }

    /// Makes the edits so far final.
    pub fn commit(&mut self)
        ensures { self.new ≡ record self.old { committed = self.old.present } }
    {
        self.copies.commit();
        self.committed_externals = self.externals;
    }

    /// Makes the edits so far final, and scans all copies if one may have reached MaxAge by this
    /// moment, so that `max_age_keys` needn't before another one can. If more than half of the aged
    /// keys have lost their copies or got younger ones, it visits the aged keys only and drops
    /// these. If an allocation is refused, it tries again the next time.
    pub fn commit_at(&mut self, alloc: Global, moment: Second)
        ensures { self.new ≡ record self.old { committed = self.old.present } }
    {
        self.copies.commit();
        self.committed_externals = self.externals;
        if moment < self.ages.due {
            if self.past > self.ages.aged.len() / 2 {
                if let Ok(ages) = foresee_again(alloc, &self.ages, &self.copies, moment) {
                    self.ages = ages;
                    self.past = 0;
                }
            }
            return;
        }
        if let Ok(ages) = foresee(alloc, &self.copies, moment) {
            self.ages = ages;
            self.past = 0;
        }
    }

    /// Undoes all edits since the database was last committed.
    pub fn roll_back(&mut self)
        ensures { self.new ≡ record self.old { present = self.old.committed } }
    {
        self.copies.roll_back();
        self.externals = self.committed_externals;
    }
}
