//! Binary searches in what LSAs advertise about a router.
ghost use Rattle.std.specs.Prelude.{◌≡◌, ◌<◌, ◌≤◌, ◌↔◌, ℕ, IsTrue, Some, length, slice_get};
ghost use Rattle.std.specs.List.Sorted.{IsSorted};
ghost use Rattle.std.specs.declared.cmp.Ordering.TheVariants.{Less};
ghost use Rattle.candidates.specs.Entries.{HasEntry, IsLeastMetric, entry_cmp};
ghost use Rattle.candidates.specs.declared.entry.AdvertisedLink.{AdvertisedLink as EntryValue};

use crate::entry::{AdvertisedLink, EntryKind, compare, is_before, is_beside, is_of};
use words::RouterId;

// The number of indices that are tried before a binary search.
const FEW: usize = 8;

/// The end of the few indices from this one on, in a list of this length.
pub fn few_from(place: usize, length: usize) -> usize
    ensures { result ≤ length }
{
    let end = place.saturating_add(FEW);
    if end < length {
        return end;
    }
    length
}

/// The index of the first entry that isn't before this one; their number if all are.
pub fn first_at(entries: &[AdvertisedLink], entry: &AdvertisedLink) -> usize
    requires { IsSorted entry_cmp entries.now }
    ensures within { result ≤ length entries.now }
    ensures before { (k : ℕ) (other : EntryValue) → slice_get entries.now k ≡ Some other
        → k < result → entry_cmp other entry.now ≡ Less }
    ensures beyond { (k : ℕ) (other : EntryValue) → slice_get entries.now k ≡ Some other
        → result ≤ k → entry_cmp other entry.now ≡ Less → ⊥ }
{
    entries.partition_point(|other| compare(other, entry).is_lt())
}

/// The index that `first_at` gives. It is tried at `place` first, which is usually right.
pub fn first_at_near(entries: &[AdvertisedLink], place: usize, entry: &AdvertisedLink) -> usize
    requires { IsSorted entry_cmp entries.now }
    ensures within { result ≤ length entries.now }
    ensures before { (k : ℕ) (other : EntryValue) → slice_get entries.now k ≡ Some other
        → k < result → entry_cmp other entry.now ≡ Less }
    ensures beyond { (k : ℕ) (other : EntryValue) → slice_get entries.now k ≡ Some other
        → result ≤ k → entry_cmp other entry.now ≡ Less → ⊥ }
{
    if place <= entries.len() && is_first(entries, place, entry) {
        return place;
    }
    first_at(entries, entry)
}

// Whether exactly the entries below this index are before this one.
fn is_first(entries: &[AdvertisedLink], place: usize, entry: &AdvertisedLink) -> bool
    requires sorted { IsSorted entry_cmp entries.now }
    requires within { place ≤ length entries.now }
    ensures before { IsTrue result → (k : ℕ) (other : EntryValue)
        → slice_get entries.now k ≡ Some other → k < place → entry_cmp other entry.now ≡ Less }
    ensures beyond { IsTrue result → (k : ℕ) (other : EntryValue)
        → slice_get entries.now k ≡ Some other → place ≤ k → entry_cmp other entry.now ≡ Less
        → ⊥ }
{
    if are_before(entries, place, entry) {
        return are_not_before(entries, place, entry);
    }
    false
}

// Whether the entries below this index are before this one.
fn are_before(entries: &[AdvertisedLink], place: usize, entry: &AdvertisedLink) -> bool
    requires sorted { IsSorted entry_cmp entries.now }
    requires within { place ≤ length entries.now }
    ensures { IsTrue result → (k : ℕ) (other : EntryValue)
        → slice_get entries.now k ≡ Some other → k < place → entry_cmp other entry.now ≡ Less }
{
    if place > 0 {
        let last = place - 1;
        return is_before(&entries[last], entry);
    }
    true
}

// Whether no entry from this index on is before this one.
fn are_not_before(entries: &[AdvertisedLink], place: usize, entry: &AdvertisedLink) -> bool
    requires sorted { IsSorted entry_cmp entries.now }
    requires within { place ≤ length entries.now }
    ensures { IsTrue result → (k : ℕ) (other : EntryValue)
        → slice_get entries.now k ≡ Some other → place ≤ k → entry_cmp other entry.now ≡ Less
        → ⊥ }
{
    if place == entries.len() {
        return true;
    }
    if is_before(&entries[place], entry) {
        return false;
    }
    true
}

/// The least metric, at least `from`, of the entries with this router, kind and ID.
pub fn least_metric(
    entries: &[AdvertisedLink],
    router: RouterId,
    kind: EntryKind,
    id: u32,
    from: u16,
) -> Option<u16>
    requires { IsSorted entry_cmp entries.now }
    ensures { IsLeastMetric entries.now router kind id from result }
{
    let least = AdvertisedLink {
        router,
        kind,
        id,
        metric: from,
        place: 0,
    };
    let at = first_at(entries, &least);
    if at == entries.len() {
        return None;
    }
    let found = &entries[at];
    if is_beside(found, &least) {
        Some(found.metric)
    } else {
        None
    }
}

/// Whether a router has an entry of this kind and ID. The search begins at `place`, the index at
/// which the router's entries are expected to begin.
pub fn has_entry_near(
    entries: &[AdvertisedLink],
    place: usize,
    router: RouterId,
    kind: EntryKind,
    id: u32,
) -> bool
    requires { IsSorted entry_cmp entries.now }
    ensures { IsTrue result ↔ HasEntry entries.now router kind id }
{
    let end = few_from(place, entries.len());
    for at in place..end {
        if is_of(&entries[at], router, kind, id) {
            return true;
        }
    }
    has_entry(entries, router, kind, id)
}

// Whether a router has an entry of this kind and ID.
fn has_entry(entries: &[AdvertisedLink], router: RouterId, kind: EntryKind, id: u32) -> bool
    requires { IsSorted entry_cmp entries.now }
    ensures { IsTrue result ↔ HasEntry entries.now router kind id }
{
    match least_metric(entries, router, kind, id, 0) {
        None => false,
        Some(_) => true,
    }
}
