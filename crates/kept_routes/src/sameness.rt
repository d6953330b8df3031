//! Whether LSAs say the same after an event.
ghost use Rattle.std.specs.Prelude.{◌≡◌, ◌≤◌, ◌↔◌, IfOk, IsTrue};
ghost use Rattle.std.specs.FinMap as finite;
ghost use Rattle.std.specs.List.{Contains};
ghost use Rattle.lsdb.specs.Copies.{DatabaseCopy as CopyValue, is_aged_out};
ghost use Rattle.routes.specs.Contents.{contents_at};
ghost use Rattle.words.specs.declared.key.Key.{Key as KeyValue};
ghost use Rattle.kept_routes.specs.Ages.{HaveNotJustAgedOut, HasNotJustAgedOut};
ghost use Rattle.kept_routes.specs.Sameness.{AreLsasUnchanged, HaveSameContents};

use routes::{Lsdb, is_up_to};
use std::alloc::{AllocError, Global};
use words::{Key, Second};

/// Whether the LSAs of the types up to `last_type`, or of all types if that is `None`, are
/// unchanged: since the database was committed, at the moment `before`, none of them was added or
/// removed, reached MaxAge or changed its contents. At `moment` they then say what those of the
/// committed database said at `before`.
///
/// Another instance below MaxAge with the same contents is no change (RFC 2328, section 13.2), nor
/// is a transmission. It takes the time of the event's edits and of `Lsdb::max_age_keys`.
///
/// # Errors
/// `AllocError` if an allocation is refused.
pub fn lsas_are_unchanged(
    alloc: Global,
    db: &Lsdb,
    last_type: Option<u32>,
    before: Second,
    moment: Second,
) -> Result<bool, AllocError>
    requires { before ≤ moment }
    ensures same { IfOk result (λ same. IsTrue same → HaveSameContents last_type
        (contents_at before db.now.committed) (contents_at moment db.now.present)) }
    // It is true exactly if no LSA changed so; what they say may be the same without that.
    ensures left { IfOk result (λ same. IsTrue same
        ↔ AreLsasUnchanged last_type before moment db.now.committed db.now.present) }
{
    if !db.is_unchanged(alloc, last_type, moment)? {
        return Ok(false);
    }
    // Within one moment no LSA reaches MaxAge.
    if before.count() == moment.count() {
        return Ok(true);
    }
    let keys = db.max_age_keys(alloc, moment)?;
    Ok(have_not_just_aged_out(db, last_type, before, moment, &keys))
}

// Whether the copies with these keys, of the types up to this one, that have MaxAge had it at the
// moment `before`.
fn have_not_just_aged_out(
    db: &Lsdb,
    last_type: Option<u32>,
    before: Second,
    moment: Second,
    keys: &[Key],
) -> bool
    ensures { IsTrue result ↔ HaveNotJustAgedOut last_type before moment db.now.present keys.now }
{
    for key in keys {
        if !has_not_just_aged_out(db, last_type, before, moment, key) {
            return false;
        }
    }
    true
}

// Whether the copy with this key, if it has MaxAge and a type up to this one, had it at the moment
// `before`.
pub(crate) fn has_not_just_aged_out(
    db: &Lsdb,
    last_type: Option<u32>,
    before: Second,
    moment: Second,
    key: &Key,
) -> bool
    ensures { IsTrue result ↔ HasNotJustAgedOut last_type before moment db.now.present key.now }
{
    if !is_up_to(last_type, key) {
        return true;
    }
    match db.get(key) {
        None => true,
        Some(copy) => !copy.is_aged_out(moment) || copy.is_aged_out(before),
    }
}
