//! Whether two copies of one key say the same (RFC 2328, section 13.2).
ghost use Rattle.std.specs.Prelude.{◌≡◌, ◌≤◌, ◌↔◌, ◌⊎◌, drop, length, IfOk, IsTrue, None};
ghost use Rattle.std.specs.Prelude.{option_copied};
ghost use Rattle.lsdb.specs.Changes.{HaveNoMaxAge, HaveSameStoredAge, ContentsAgree, header_length};
ghost use Rattle.lsdb.specs.Copies.{contents_of};
ghost use Rattle.lsdb.specs.Unchanged.{IsUnchangedApartFromAging, StaysWithoutContents};

use crate::plain_bodies::are_plainly_one;
use crate::stored::StoredLsa;
use lsa::laws::texts_are_determined;
use lsa::{HEADER_LENGTH, Lsa, write_at_age};
use std::alloc::{AllocError, Global};
use words::Second;

/// Whether both copies have the same contents at the moment (RFC 2328, section 13.2), or neither
/// exists: their bodies are equal, and either they had the same age at the same moment, or neither
/// has MaxAge. Other Options are no difference here.
///
/// # Errors
/// `AllocError` if an allocation for their bytes, which are compared, is refused.
pub fn contents_agree(
    alloc: Global,
    moment: Second,
    before: Option<&StoredLsa>,
    now: Option<&StoredLsa>,
) -> Result<bool, AllocError>
    ensures { IfOk result (λ same. IsTrue same
        ↔ ContentsAgree moment (option_copied before.entry) (option_copied now.entry)) }
{
    match before {
        None => Ok(now.is_none()),
        Some(old) => match now {
            None => Ok(false),
            Some(new) => copies_agree(alloc, moment, old, new),
        },
    }
}

// Whether both copies have one body, and either had the same age at the same moment or are both
// below MaxAge at this one. If neither is so, the bodies aren't compared.
fn copies_agree(
    alloc: Global,
    moment: Second,
    old: &StoredLsa,
    new: &StoredLsa,
) -> Result<bool, AllocError>
    ensures { IfOk result (λ same. IsTrue same ↔ ((old.now.lsa.body ≡ new.now.lsa.body)
        × (HaveSameStoredAge old.now new.now ⊎ HaveNoMaxAge moment old.now new.now))) }
{
    if !ages_agree(moment, old, new) {
        return Ok(false);
    }
    have_one_body(alloc, old.lsa(), new.lsa())
}

// Whether both copies had the same age at the same moment, or neither has MaxAge at this one.
fn ages_agree(moment: Second, old: &StoredLsa, new: &StoredLsa) -> bool
    ensures { IsTrue result
        ↔ (HaveSameStoredAge old.now new.now ⊎ HaveNoMaxAge moment old.now new.now) }
{
    if old.has_stored_age_of(new) {
        return true;
    }
    have_no_max_age(moment, old, new)
}

fn have_no_max_age(moment: Second, old: &StoredLsa, new: &StoredLsa) -> bool
    ensures { IsTrue result ↔ HaveNoMaxAge moment old.now new.now }
{
    !old.is_aged_out(moment) && !new.is_aged_out(moment)
}

// Whether both LSAs have one body: one LS type, and the same bytes after their headers.
fn have_one_body(alloc: Global, old: &Lsa, new: &Lsa) -> Result<bool, AllocError>
    ensures { IfOk result (λ same. IsTrue same ↔ (old.now.body ≡ new.now.body)) }
{
    if are_plainly_one(old.body(), new.body()) {
        return Ok(true);
    }
    let old_text = write_at_age(alloc, old, 0)?;
    let new_text = write_at_age(alloc, new, 0)?;
    // For the prover alone, by what the call ensures.
    texts_are_determined();
    if old.header().ls_type != new.header().ls_type {
        return Ok(false);
    }
    Ok(have_one_rest(old_text.as_slice(), new_text.as_slice()))
}

// Whether the bytes after both headers are the same.
fn have_one_rest(old: &[u8], new: &[u8]) -> bool
    requires first { header_length ≤ length old.now }
    requires second { header_length ≤ length new.now }
    ensures { IsTrue result ↔ (drop header_length old.now ≡ drop header_length new.now) }
{
    behind_header(old) == behind_header(new)
}

// The bytes of an LSA after its header (RFC 2328, section A.4.1).
fn behind_header(text: &[u8]) -> &[u8]
    requires { header_length ≤ length text.now }
    ensures { result.now ≡ drop header_length text.now }
{
    &text[HEADER_LENGTH..]
}

/// Whether the body of this key's copy, on which routes depend, is the same at `moment` as it was
/// at `before`, apart from aging: the contents of both copies agree, as in `contents_agree`; or
/// neither the earlier one at `before` nor the present one at `moment` has a body that counts,
/// since each is missing or at MaxAge. A copy that stayed agrees with itself, though it may have
/// come to MaxAge since `before`: for that the caller looks through the ages.
///
/// # Errors
/// `AllocError` if an allocation for their bytes, which are compared, is refused.
pub fn is_unchanged_apart_from_aging(
    alloc: Global,
    before: Second,
    moment: Second,
    old: Option<&StoredLsa>,
    new: Option<&StoredLsa>,
) -> Result<bool, AllocError>
    ensures { IfOk result (λ no_more. IsTrue no_more
        ↔ IsUnchangedApartFromAging before moment (option_copied old.entry)
        (option_copied new.entry)) }
{
    if stays_without_contents(before, moment, old, new) {
        return Ok(true);
    }
    contents_agree(alloc, moment, old, new)
}

// Whether neither the earlier copy at the moment `before` nor the present one at `moment` has a
// body that counts.
fn stays_without_contents(
    before: Second,
    moment: Second,
    old: Option<&StoredLsa>,
    new: Option<&StoredLsa>,
) -> bool
    ensures { IsTrue result ↔ StaysWithoutContents before moment
        (option_copied old.entry) (option_copied new.entry) }
{
    if !has_no_contents(before, old) {
        return false;
    }
    has_no_contents(moment, new)
}

// Whether the copy has no body that counts at the moment: it doesn't exist, or is at MaxAge.
fn has_no_contents(moment: Second, copy: Option<&StoredLsa>) -> bool
    ensures { IsTrue result ↔ (contents_of moment (option_copied copy.entry) ≡ None) }
{
    match copy {
        None => true,
        Some(copy) => copy.is_aged_out(moment),
    }
}
