//! What an event leaves unchanged.
ghost use Rattle.std.specs.Prelude.{◌≡◌, ◌≤◌, ◌↔◌, IfOk, IsTrue};
ghost use Rattle.area_routes.specs.Kept.{AreNotExternal, ExternalsHaveSameContents};
ghost use Rattle.kept_routes.specs.Externals.{AreOfferingLsasUnchanged, OfferTheSame};
ghost use Rattle.kept_routes.specs.Kept.{IsWalkOf};
ghost use Rattle.kept_routes.specs.Sameness.{AreLsasUnchanged, HaveSameContents};
ghost use Rattle.routes.specs.Contents.{contents_at};

use area::Area;
use kept_routes::{Routes, lsas_are_unchanged, offering_lsas_are_unchanged, possibly_changed_keys};
use std::alloc::{AllocError, Global};
use words::{Key, Second};

/// Whether the event certainly leaves the candidates by this walk unchanged; false leaves it open.
pub fn candidates_stay(
    alloc: Global,
    area: &Area,
    walk: &Routes,
    before: Second,
    moment: Second,
) -> Result<bool, AllocError>
    requires order { before ≤ moment }
    requires walk { IsWalkOf (contents_at before area.now.committed.database) walk.now }
    ensures same { IfOk result (λ same. IsTrue same → OfferTheSame
        (contents_at before area.now.committed.database)
        (contents_at moment area.now.present.database)
        walk.now.root) }
    ensures left { IfOk result (λ same. AreOfferingLsasUnchanged before moment
        area.now.committed.database area.now.present.database walk.now → IsTrue same) }
{
    let db = area.database();
    let same = offering_lsas_are_unchanged(alloc, db, walk, before, moment)?;
    Ok(same)
}

/// Whether no LSA of the types up to this one, or of all types, was added or removed, came to
/// MaxAge or changed its contents: then they say what they said before the event. False leaves it
/// open, as where one leaves that was at MaxAge before.
pub fn area_lsas_are_unchanged(
    alloc: Global,
    area: &Area,
    last_type: Option<u32>,
    before: Second,
    moment: Second,
) -> Result<bool, AllocError>
    requires { before ≤ moment }
    ensures same { IfOk result (λ same. IsTrue same → HaveSameContents last_type
        (contents_at before area.now.committed.database)
        (contents_at moment area.now.present.database)) }
    ensures left { IfOk result (λ same. IsTrue same ↔ AreLsasUnchanged last_type before moment
        area.now.committed.database area.now.present.database) }
{
    let db = area.database();
    let same = lsas_are_unchanged(alloc, db, last_type, before, moment)?;
    Ok(same)
}

/// Whether all AS-external-LSAs certainly say what they said before the event. False leaves it
/// open: an allocation may have been refused, and one that was at MaxAge before counts as changed.
pub fn externals_stay(alloc: Global, area: &Area, before: Second, moment: Second) -> bool
    requires { before ≤ moment }
    ensures { IsTrue result → ExternalsHaveSameContents
        (contents_at before area.now.committed.database)
        (contents_at moment area.now.present.database) }
{
    let db = area.database();
    if let Ok(keys) = possibly_changed_keys(alloc, db, before, moment) {
        return are_not_external(&keys);
    }
    false
}

// Whether none of these keys is that of an AS-external-LSA.
fn are_not_external(keys: &[Key]) -> bool
    ensures { IsTrue result ↔ AreNotExternal keys.now }
{
    for key in keys {
        if key.ls_type == 5 {
            return false;
        }
    }
    true
}
