//! A map by LSA key whose edits can be undone.
ghost use Rattle.std.specs.Prelude.{◌≡◌, ◌==◌, ◌↔◌, ◌<◌, ◌≤◌, Some, length, slice_get, IfOk, OnOk};
ghost use Rattle.std.specs.Prelude.{OnErr, IfSome, IsTrue, None, Option, false, is_some};
ghost use Rattle.std.specs.Prelude.{option_copied, take, true};
ghost use Rattle.std.specs.FinMap as map;
ghost use Rattle.std.specs.List.{Contains};
ghost use Rattle.words.specs.declared.key.Key.{Key as KeyValue};
ghost use Rattle.keyed_map.specs.declared.slot.Edit.{Edit as EditValue};
ghost use Rattle.keyed_map.specs.Keys.{key_cmp};
ghost use Rattle.keyed_map.specs.Slots.{Fits, count_after_change, holds};
ghost use Rattle.keyed_map.specs.Slots.{keys_from, keys_where, live};
ghost use Rattle.keyed_map.specs.Slots.{slots_of, undo};
ghost use Rattle.keyed_map.specs.Changes.{IsFirst, held_before};

use crate::entries_in_order::EntriesInOrder;
use crate::keys_in_order::KeysInOrder;
use crate::slot::{Edit, KeySlot};
use std::alloc::{AllocError, Global};
use std::collections::BTreeMap;
use std::marker::Model;
use std::mem::replace;
use words::Key;

/// A map by LSA key, which can be rolled back to its state when it was last committed.
#[derive(Drop)]
pub struct KeyedMap<X> {
    slots: BTreeMap<Key, KeySlot<X>>,
    edits: Vec<Edit<X>>,
    // at least the number of empty slots; only speed depends on it
    gone: usize,
    // the number of keys, now and when the map was last committed
    len: usize,
    committed_len: usize,
}

impl<X> Model for KeyedMap<X> {
    ghost use Rattle.keyed_map.specs.Held.{Held, coded_held};

    ghost Value = { Held X };

    ghost coded = { coded_held X.code };

    ghost use Rattle.keyed_map.specs.Slots.{IsKept, live, slots_of, undone};

    ghost view = { λ a. record {
      present = live (slots_of a.slots.entries);
      committed = live (undone a.edits.items (slots_of a.slots.entries));
    } };

    ghost invariant = { λ a. IsKept a.edits.items (slots_of a.slots.entries) a.len
        a.committed_len };
}

// A copy of the key: a `Copy` struct with a field that has a model counts as moved when it is used.
fn copy_key(key: &Key) -> Key
    ensures { result ≡ key.now }
{
    *key
}

fn holds<X>(slot: &KeySlot<X>) -> bool
    ensures { result ≡ holds slot.now }
{
    match slot {
        KeySlot::Gone => false,
        KeySlot::Holds(_) => true,
    }
}

// The number of keys after one was set that was held before or not. There are no more keys than
// slots, so that this doesn't overflow.
fn count<X>(slots: &BTreeMap<Key, KeySlot<X>>, len: usize, held: bool) -> usize
    requires { map.len (live (slots_of slots.now.entries)) ≡ count_after_change held true len }
    ensures { result ≡ map.len (live (slots_of slots.now.entries)) }
{
    // For the prover alone, by what the call ensures.
    let _slots = slots.len();
    if held { len } else { len + 1 }
}

// Undoes one edit. It doesn't allocate.
fn take_back<X: Drop>(slots: &mut BTreeMap<Key, KeySlot<X>>, edit: Edit<X>)
    requires { Fits edit (slots_of slots.old.entries) }
    ensures { slots_of slots.new.entries ≡ undo edit (slots_of slots.old.entries) }
{
    let Edit { key, before } = edit;
    match before {
        Some(slot) => {
            let written: Result<_, _> = slots.insert(key, slot);
            let Ok(_gone) = written else { unreachable!() };
        }
        None => {
            let _gone = slots.remove(&key);
        }
    }
}

// Sets the value of a key.
fn put_value<X: Drop>(
    slots: &mut BTreeMap<Key, KeySlot<X>>,
    key: Key,
    x: X,
) -> Result<(), AllocError>
    ensures { OnOk result (live (slots_of slots.new.entries)
        ≡ map.insert (live (slots_of slots.old.entries)) key x) }
{
    let _before = slots.insert(key, KeySlot::Holds(x))?;
    Ok(())
}

// Takes the value of a key out of its slot, which stays.
fn take_out<X: Drop>(slots: &mut BTreeMap<Key, KeySlot<X>>, key: &Key) -> Option<X>
    ensures value { result ≡ held_before (map.get (slots_of slots.old.entries) key.now) }
    ensures some { IfSome result (λ _. slots_of slots.new.entries
        ≡ map.insert (slots_of slots.old.entries) key.now KeySlot.Gone) }
    ensures none { result ≡ None → slots_of slots.new.entries ≡ slots_of slots.old.entries }
{
    match slots.get_mut(key) {
        Some(slot) => match replace(slot, KeySlot::Gone) {
            KeySlot::Holds(x) => Some(x),
            KeySlot::Gone => None,
        },
        None => None,
    }
}

// Removes the empty slots; the other slots are those of `len` keys. It doesn't allocate.
fn forget_gone<X: Drop>(slots: &mut BTreeMap<Key, KeySlot<X>>, len: usize)
    requires { len ≡ map.len (live (slots_of slots.old.entries)) }
    ensures { live (slots_of slots.new.entries) ≡ live (slots_of slots.old.entries) }
{
    if len == 0 {
        slots.clear();
    } else {
        slots.retain(|_key, slot| holds(slot));
    }
}

// The value before an edit.
fn held_before<X>(before: &Option<KeySlot<X>>) -> Option<&X>
    ensures { option_copied result ≡ held_before before.now }
{
    match before {
        Some(KeySlot::Holds(x)) => Some(x),
        Some(KeySlot::Gone) => None,
        None => None,
    }
}

// Whether there was a value before an edit.
fn held<X>(before: &Option<KeySlot<X>>) -> bool
    ensures { result ≡ is_some (held_before before.now) }
{
    match before {
        Some(KeySlot::Holds(_)) => true,
        Some(KeySlot::Gone) => false,
        None => false,
    }
}

// Whether none of the edits before this index was of the key.
fn is_first<X>(edits: &[Edit<X>], place: usize, key: &Key) -> bool
    requires { place ≤ length edits.now }
    ensures { IsTrue result ↔ IsFirst edits.now place key.now }
{
    for at in 0..place {
        if edits[at].key.compare(key).is_eq() {
            return false;
        }
    }
    true
}

/// A value that can be copied unless an allocation is refused.
pub trait TryCopy: Drop + Sized {
    /// An equal value of its own, as `Clone::clone` makes one.
    ///
    /// # Errors
    /// `AllocError` if an allocation is refused.
    fn copy(&self, alloc: Global) -> Result<Self, AllocError>
        ensures { IfOk result (λ made. made ≡ self.now) };
}

/// A test of a key and its value.
pub trait KeyTest<X> {
    ghost use Rattle.std.specs.Prelude.{Bool};
    ghost use Rattle.words.specs.declared.key.Key.{Key};

    ghost accepts: { Self → Key → X → Bool };

    /// Whether the key passes, with this value.
    fn accepts(&self, key: &Key, x: &X) -> bool
        ensures { result ≡ accepts self.now key.now x.now };
}

/// A comparison of a key's earlier and present value.
pub trait ChangeTest<X> {
    ghost use Rattle.std.specs.Prelude.{Option, IfOk, IsTrue, ◌↔◌, ◌≡◌, false, true};
    ghost use Rattle.words.specs.declared.key.Key.{Key};

    ghost same: { Self → Key → Option X → Option X → Type 0 };

    ghost counted: { Self → Key → Type 0 };

    /// Whether the key counts. For a key that doesn't, both are the same whatever they are, and are
    /// not looked up.
    ///
    /// # Errors
    /// `AllocError` if an allocation is refused.
    fn counts(&self, alloc: Global, key: &Key) -> Result<bool, AllocError>
        ensures { IfOk result (λ counts. (counts ≡ true → counted self.now key.now)
            × (counts ≡ false → (before now : Option X) → same self.now key.now before now)) };

    /// Compares both values of a key that counts.
    ///
    /// # Errors
    /// `AllocError` if an allocation is refused.
    fn is_same(
        &self,
        alloc: Global,
        key: &Key,
        before: Option<&X>,
        now: Option<&X>,
    ) -> Result<bool, AllocError>
        requires { counted self.now key.now }
        ensures { IfOk result (λ is. IsTrue is
            ↔ same self.now key.now (option_copied before.entry) (option_copied now.entry)) };
}

// Whether the key of the edit at this index has the same value now as before the edit, or the edit
// isn't the first of its key.
fn is_kept<X, T: ChangeTest<X>>(
    alloc: Global,
    test: &T,
    edits: &[Edit<X>],
    place: usize,
    now: Option<&X>,
) -> Result<bool, AllocError>
    requires there { place < length edits.now }
    requires counted { (edit : EditValue X) → slice_get edits.now place ≡ Some edit
        → T.counted test.now edit.key }
    ensures { (edit : EditValue X) → slice_get edits.now place ≡ Some edit
        → IfOk result (λ kept. IsTrue kept
        ↔ (IsFirst edits.now place edit.key
        → T.same test.now edit.key (held_before edit.before) (option_copied now.entry))) }
{
    let edit = &edits[place];
    let same = test.is_same(alloc, &edit.key, held_before(&edit.before), now)?;
    Ok(same || !is_first(edits, place, &edit.key))
}

impl<X: TryCopy> KeyedMap<X> {
    /// A copy of the map, committed.
    ///
    /// # Errors
    /// `AllocError` if an allocation is refused.
    pub fn copy(&self, alloc: Global) -> Result<Self, AllocError>
        ensures present { IfOk result (λ made. made.present ≡ self.now.present) }
        ensures committed { IfOk result (λ made. made.committed ≡ made.present) }
    {
        let mut slots = BTreeMap::new(alloc);
        for (key, slot) in self.slots.iter() {
            if let KeySlot::Holds(x) = slot {
                put_value(&mut slots, *key, x.copy(alloc)?)?;
            }
        }
        Ok(KeyedMap {
            slots,
            edits: Vec::new(alloc),
            gone: 0,
            len: self.len,
            committed_len: self.len,
        })
    }
}

impl<X: Copy + Drop> KeyedMap<X> {
    /// A copy of a map of `Copy` values, committed.
    ///
    /// # Errors
    /// `AllocError` if an allocation is refused.
    pub fn copied(&self, alloc: Global) -> Result<Self, AllocError>
        ensures present { IfOk result (λ made. made.present ≡ self.now.present) }
        ensures committed { IfOk result (λ made. made.committed ≡ made.present) }
    {
        let mut slots = BTreeMap::new(alloc);
        for (key, slot) in self.slots.iter() {
            if let KeySlot::Holds(x) = slot {
                put_value(&mut slots, *key, *x)?;
            }
        }
        Ok(KeyedMap {
            slots,
            edits: Vec::new(alloc),
            gone: 0,
            len: self.len,
            committed_len: self.len,
        })
    }
}

impl<X: Drop> KeyedMap<X> {
    /// An empty map. It doesn't allocate.
    pub fn new(alloc: Global) -> Self
        ensures { result ≡ record { present = map.empty; committed = map.empty } }
    {
        KeyedMap {
            slots: BTreeMap::new(alloc),
            edits: Vec::new(alloc),
            gone: 0,
            len: 0,
            committed_len: 0,
        }
    }

    /// The number of keys.
    pub fn len(&self) -> usize
        ensures { result ≡ map.len self.now.present }
    {
        self.len
    }

    /// Whether the map is empty.
    pub fn is_empty(&self) -> bool
        ensures { result ≡ (map.len self.now.present == 0) }
    {
        self.len == 0
    }

    /// The value of a key, if the map has it.
    pub fn get(&self, key: &Key) -> Option<&X>
        ensures { option_copied result ≡ map.get self.now.present key.now }
    {
        match self.slots.get(key) {
            Some(KeySlot::Holds(x)) => Some(x),
            Some(KeySlot::Gone) => None,
            None => None,
        }
    }

    /// The value that a key had when the map was last committed, if the map had it. It scans the
    /// edits since then.
    pub fn committed_get(&self, key: &Key) -> Option<&X>
        ensures { option_copied result ≡ map.get self.now.committed key.now }
    {
        let edits = self.edits.as_slice();
        for place in 0..edits.len() {
            let edit = &edits[place];
            if edit.key.compare(key).is_eq() {
                return held_before(&edit.before);
            }
        }
        self.get(key)
    }

    /// Whether the key is certainly greater than all keys of the map. It compares the key with the
    /// last slot only, which may be empty, so that `false` says nothing.
    pub fn is_beyond(&self, key: &Key) -> bool
        ensures { IsTrue result → map.contains_key self.now.present key.now ≡ false }
    {
        match self.slots.last_key_value() {
            Some((last, _slot)) => last.compare(key).is_lt(),
            None => true,
        }
    }

    /// Whether the map has the key.
    pub fn contains(&self, key: &Key) -> bool
        ensures { result ≡ map.contains_key self.now.present key.now }
    {
        match self.get(key) {
            Some(_) => true,
            None => false,
        }
    }

    /// The keys, in their order.
    pub fn keys(&self) -> KeysInOrder<'_, X>
        ensures { result ≡ map.keys self.now.present }
    {
        KeysInOrder {
            slots: self.slots.iter(),
        }
    }

    /// The keys with their values, in the order of the keys.
    pub fn entries(&self) -> EntriesInOrder<'_, X>
        ensures { result ≡ map.entries self.now.present }
    {
        EntriesInOrder {
            slots: self.slots.iter(),
        }
    }

    /// The first `count` keys, in their order, or all if there are fewer.
    ///
    /// # Errors
    /// `AllocError` if an allocation is refused.
    pub fn first(&self, alloc: Global, count: usize) -> Result<Vec<Key>, AllocError>
        ensures { IfOk result (λ keys. keys.items ≡ take count (map.keys self.now.present)) }
    {
        let mut keys = Vec::new(alloc);
        for (key, slot) in self.slots.iter() {
            if keys.len() >= count {
                break;
            }
            if let KeySlot::Holds(_) = slot {
                keys.push(*key)?;
            }
        }
        Ok(keys)
    }

    /// The first `count` keys from a key on, in their order, or all if there are fewer.
    ///
    /// # Errors
    /// `AllocError` if an allocation is refused.
    pub fn first_from(&self, alloc: Global, key: &Key, count: usize) -> Result<Vec<Key>, AllocError>
        ensures { IfOk result (λ keys. keys.items
            ≡ take count (keys_from key.now (map.keys self.now.present))) }
    {
        let mut keys = Vec::new(alloc);
        for (found, slot) in self.slots.range(*key..) {
            if keys.len() >= count {
                break;
            }
            if let KeySlot::Holds(_) = slot {
                keys.push(*found)?;
            }
        }
        Ok(keys)
    }

    /// The least key that is equal to or greater than a key, if there is one.
    pub fn next_from(&self, key: &Key) -> Option<Key>
        ensures { result ≡ slice_get (keys_from key.now (map.keys self.now.present)) 0 }
    {
        for (first, slot) in self.slots.range(*key..) {
            if let KeySlot::Holds(_) = slot {
                return Some(copy_key(first));
            }
        }
        None
    }

    /// The keys that pass a test, in their order. It visits every key.
    ///
    /// # Errors
    /// `AllocError` if an allocation is refused.
    pub fn keys_where<T: KeyTest<X>>(&self, alloc: Global, test: &T) -> Result<Vec<Key>, AllocError>
        ensures { IfOk result (λ keys. keys.items ≡ keys_where (T.accepts test.now)
            (map.entries self.now.present)) }
    {
        let mut keys = Vec::new(alloc);
        for (key, slot) in self.slots.iter() {
            if let KeySlot::Holds(x) = slot {
                let accepted = test.accepts(key, x);
                if accepted {
                    keys.push(*key)?;
                }
            }
        }
        Ok(keys)
    }

    // Whether the key of the edit at this index doesn't count, or has the same value now as before
    // the edit, or the edit isn't the first of its key.
    fn keeps_at<T: ChangeTest<X>>(
        &self,
        alloc: Global,
        test: &T,
        edits: &[Edit<X>],
        place: usize,
    ) -> Result<bool, AllocError>
        requires { place < length edits.now }
        ensures { (edit : EditValue X) → slice_get edits.now place ≡ Some edit
            → IfOk result (λ kept. IsTrue kept
            ↔ (IsFirst edits.now place edit.key → T.same test.now edit.key
            (held_before edit.before) (map.get self.now.present edit.key))) }
    {
        let edit = &edits[place];
        if !test.counts(alloc, &edit.key)? {
            return Ok(true);
        }
        let now = self.get(&edit.key);
        is_kept(alloc, test, edits, place, now)
    }

    /// Whether each key has the same value, by the test, as when the map was last committed. It
    /// visits the keys that were edited since. The first edit of a key has its value then.
    ///
    /// # Errors
    /// `AllocError` if the test is refused an allocation.
    pub fn keeps<T: ChangeTest<X>>(&self, alloc: Global, test: &T) -> Result<bool, AllocError>
        requires { (key : KeyValue) (o : Option X) → T.same test.now key o o }
        ensures { IfOk result (λ keeps. IsTrue keeps ↔ ((key : KeyValue)
            → T.same test.now key (map.get self.now.committed key)
            (map.get self.now.present key))) }
    {
        let edits = self.edits.as_slice();
        for place in 0..edits.len() {
            if !self.keeps_at(alloc, test, edits, place)? {
                return Ok(false);
            }
        }
        Ok(true)
    }

    /// The keys that have another value, by the test, than when the map was last committed. It
    /// visits the edits since then, and for each that the test tells apart those before it.
    ///
    /// # Errors
    /// `AllocError` if an allocation is refused.
    pub fn changed_keys<T: ChangeTest<X>>(
        &self,
        alloc: Global,
        test: &T,
    ) -> Result<Vec<Key>, AllocError>
        requires { (key : KeyValue) (o : Option X) → T.same test.now key o o }
        ensures changed { IfOk result (λ keys. (key : KeyValue) → Contains keys.items key
            → T.same test.now key (map.get self.now.committed key) (map.get self.now.present key)
            → ⊥) }
        ensures others { IfOk result (λ keys. (key : KeyValue) → (Contains keys.items key → ⊥)
            → T.same test.now key (map.get self.now.committed key) (map.get self.now.present key)) }
    {
        let mut keys = Vec::new(alloc);
        let edits = self.edits.as_slice();
        for place in 0..edits.len() {
            let edit = &edits[place];
            if !self.keeps_at(alloc, test, edits, place)? {
                keys.push(copy_key(&edit.key))?;
            }
        }
        Ok(keys)
    }

    /// Sets the value of a key.
    ///
    /// # Errors
    /// `AllocError` if an allocation is refused; the map keeps its values.
    pub fn insert(&mut self, key: Key, x: X) -> Result<(), AllocError>
        ensures ok { OnOk result (self.new.present ≡ map.insert self.old.present key x) }
        ensures committed { self.new.committed ≡ self.old.committed }
        ensures err { OnErr result (self.new.present ≡ self.old.present) }
    {
        self.edits.reserve(1)?;
        let noted = copy_key(&key);
        let before = self.slots.insert(key, KeySlot::Holds(x))?;
        let held = held(&before);
        self.edits.push_reserved(Edit { key: noted, before });
        self.len = count(&self.slots, self.len, held);
        Ok(())
    }

    /// Removes a key, if the map has it.
    ///
    /// # Errors
    /// `AllocError` if an allocation is refused; the map keeps its values.
    pub fn remove(&mut self, key: &Key) -> Result<(), AllocError>
        ensures ok { OnOk result (self.new.present ≡ map.remove self.old.present key.now) }
        ensures committed { self.new.committed ≡ self.old.committed }
        ensures err { OnErr result (self.new.present ≡ self.old.present) }
    {
        self.edits.reserve(1)?;
        if let Some(x) = take_out(&mut self.slots, key) {
            let before = Some(KeySlot::Holds(x));
            self.edits.push_reserved(Edit {
                key: copy_key(key),
                before,
            });
            self.gone = self.gone.saturating_add(1);
            self.len = self.len.saturating_sub(1);
        }
        Ok(())
    }

    /// Makes the edits so far final.
    pub fn commit(&mut self)
        ensures { self.new ≡ record { present = self.old.present; committed = self.old.present } }
    {
        self.edits.clear();
        self.committed_len = self.len;
        if self.gone > self.len {
            forget_gone(&mut self.slots, self.len);
            self.gone = 0;
        }
    }

    /// Undoes all edits since the map was last committed.
    pub fn roll_back(&mut self)
        ensures { self.new
            ≡ record { present = self.old.committed; committed = self.old.committed } }
    {
        while let Some(edit) = self.edits.pop() {
            take_back(&mut self.slots, edit);
        }
        self.len = self.committed_len;
    }
}
