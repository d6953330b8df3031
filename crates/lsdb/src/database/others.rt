//! Comparison of the database with its committed state, except for keys that don't count.
ghost use Rattle.std.specs.Prelude.{◌≡◌, ◌↔◌, IfOk, IsTrue, false, slice_get, take, true};
ghost use Rattle.std.specs.FinMap as finite;
ghost use Rattle.keyed_map.specs.Slots.{keys_from};
ghost use Rattle.lsdb.specs.Changes.{ContentsAgree};
ghost use Rattle.lsdb.specs.Unchanged.{IsUnchangedApartFromAging};
ghost use Rattle.words.specs.declared.key.Key.{Key as KeyValue};

use super::Lsdb;
use crate::sameness::is_unchanged_apart_from_aging;
use crate::stored::StoredLsa;
use keyed_map::ChangeTest;
use std::alloc::{AllocError, Global};
use words::{Key, Second};

/// A rule for the keys that don't count, whatever the bodies of their LSAs.
pub trait KeyRule {
    ghost use Rattle.words.specs.declared.key.Key.{Key};

    ghost leaves_out: { Self → Key → Type 0 };

    /// Whether the key doesn't count.
    ///
    /// # Errors
    /// `AllocError` if an allocation is refused.
    fn leaves_out(&self, alloc: Global, key: &Key) -> Result<bool, AllocError>
        ensures { IfOk result (λ is. IsTrue is ↔ leaves_out self.now key.now) };
}

// Whether the key counts.
fn counts_by<T: KeyRule>(rule: &T, alloc: Global, key: &Key) -> Result<bool, AllocError>
    ensures { IfOk result (λ counts. (counts ≡ true → T.leaves_out rule.now key.now → ⊥)
        × (counts ≡ false → T.leaves_out rule.now key.now)) }
{
    Ok(!rule.leaves_out(alloc, key)?)
}

// Whether the copies of the keys that count have the bodies that they had, or none that counts
// (missing, or at MaxAge) before and now; one that stayed may have come to MaxAge.
#[derive(Drop)]
struct OthersAreUnchanged<'a, T> {
    rule: &'a T,
    before: Second,
    moment: Second,
}

impl<'a, T: KeyRule> ChangeTest<StoredLsa> for OthersAreUnchanged<'a, T> {
    ghost use Rattle.lsdb.specs.Unchanged.{IsUnchangedApartFromAging};

    ghost same = { λ a key old new. (T.leaves_out a.rule.now key → ⊥)
        → IsUnchangedApartFromAging a.before a.moment old new };

    ghost counted = { λ a key. T.leaves_out a.rule.now key → ⊥ };

    fn counts(&self, alloc: Global, key: &Key) -> Result<bool, AllocError> {
        counts_by(self.rule, alloc, key)
    }

    fn is_same(
        &self,
        alloc: Global,
        _key: &Key,
        old: Option<&StoredLsa>,
        new: Option<&StoredLsa>,
    ) -> Result<bool, AllocError> {
        is_unchanged_apart_from_aging(alloc, self.before, self.moment, old, new)
    }
}

impl Lsdb {
    /// Whether each copy whose key counts has the contents at the moment that the copy of its key
    /// had when the database was last committed, as `is_unchanged` compares them (RFC 2328, section
    /// 13.2). A key that had no copy then, or one that had MaxAge at the moment `before`, may have
    /// none now, or one at MaxAge. It visits the edits since then.
    ///
    /// # Errors
    /// `AllocError` if an allocation for the rule, or for the bytes of LSAs, which are compared, is
    /// refused.
    pub fn others_are_unchanged<T: KeyRule>(
        &self,
        alloc: Global,
        rule: &T,
        before: Second,
        moment: Second,
    ) -> Result<bool, AllocError>
        ensures same { IfOk result (λ same. IsTrue same → (key : KeyValue)
            → (T.leaves_out rule.now key → ⊥) → IsUnchangedApartFromAging before moment
            (finite.get self.now.committed key) (finite.get self.now.present key)) }
        ensures kept { IfOk result (λ same. ((key : KeyValue)
            → (T.leaves_out rule.now key → ⊥) → ContentsAgree moment
            (finite.get self.now.committed key) (finite.get self.now.present key))
            → IsTrue same) }
    {
        let test = OthersAreUnchanged {
            rule,
            before,
            moment,
        };
        self.copies.keeps(alloc, &test)
    }

    /// The first `count` keys from a key on, in their order, or all if there are fewer.
    ///
    /// # Errors
    /// `AllocError` if an allocation is refused.
    pub fn first_from(&self, alloc: Global, key: &Key, count: usize) -> Result<Vec<Key>, AllocError>
        ensures { IfOk result (λ keys. keys.items
            ≡ take count (keys_from key.now (finite.keys self.now.present))) }
    {
        self.copies.first_from(alloc, key, count)
    }

    /// The least key that is equal to or greater than a key, if there is one.
    pub fn next_from(&self, key: &Key) -> Option<Key>
        ensures { result ≡ slice_get (keys_from key.now (finite.keys self.now.present)) 0 }
    {
        self.copies.next_from(key)
    }
}
