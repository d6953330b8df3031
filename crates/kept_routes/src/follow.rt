//! The candidates after an event.
ghost use Rattle.std.specs.Prelude.{◌≡◌, ◌≤◌, ◌&&◌, IfOk, IsSome, IsTrue, OnOk, Some, false, true};
ghost use Rattle.kept_routes.specs.Destinations.{HaveAllUnder, Knows};
ghost use Rattle.kept_routes.specs.Following.{HaveFollowed};
ghost use Rattle.kept_routes.specs.Placing.{AreAllAmong, AreHalfway, HasAnother, HasAnotherTo};
ghost use Rattle.kept_routes.specs.Placing.{IsRenewed};
ghost use Rattle.kept_routes.specs.Sameness.{HaveSameContents};
ghost use Rattle.candidates.specs.Borders.{Ascend};
ghost use Rattle.routes.specs.Candidates.{AreCandidates};
ghost use Rattle.routes.specs.Contents.{Contents, contents_at};

use crate::changes::{networks_told, possibly_changed_keys};
use crate::destination::best_to;
use crate::keys::keys_under;
use crate::placing::place;
use candidates::InnerRoutes;
use keyed_map::Pages;
use routes::{Lsdb, Root};
use std::alloc::{AllocError, Global};
use words::{Key, Prefix, Route, Second};

// The maximum number of keys of changed LSAs that are followed, unless one for each 32 candidates
// is more: beyond that, recalculating everything may be cheaper. At 10,000 candidates that costs
// some 2.8 milliseconds, the route to one destination 6 microseconds, and one that differs, is
// added or removed copies the page that it is in, of at most 256. A key is counted twice if its
// LSA changed and is at MaxAge.
const FEW_CHANGED: usize = 64;

/// The outcome for candidates that were to follow an event.
#[derive(Clone, Copy)]
pub enum Followed {
    /// Too many LSAs changed, or too many may advertise one destination, since their Link State IDs
    /// are in it (64 or more are in 0.0.0.0/0 of most networks): the candidates are useless.
    TooMany,
    /// They are the current candidates, and each of them was one before.
    NoneNew,
    /// They are the current candidates, and at least one of them is new.
    SomeNew,
}

// Recalculates the route to one destination. `keys` includes those of the AS-external-LSAs that may
// advertise it. Returns false if and only if the destination has a new route.
fn renew_by(
    alloc: Global,
    db: &Lsdb,
    root: &Root,
    moment: Second,
    inner: &InnerRoutes,
    prefix: Prefix,
    keys: &[Key],
    routes: &mut Pages<Route>,
) -> Result<bool, AllocError>
    requires inner { Knows (contents_at moment db.now.present) root.now inner.now }
    requires keys { HaveAllUnder db.now.present prefix keys.now }
    requires ascend { Ascend routes.old }
    ensures renewed { OnOk result (IsRenewed (contents_at moment db.now.present) root.now prefix
        routes.old routes.new) }
    ensures among { IfOk result (λ stood. IsTrue stood
        → AreAllAmong routes.old routes.new) }
    ensures another { IfOk result (λ stood. stood ≡ false
        → HasAnotherTo (contents_at moment db.now.present) root.now prefix routes.old) }
{
    let best = best_to(alloc, db, root, moment, inner, prefix, keys)?;
    let stood = place(routes, prefix, best)?;
    Ok(stood)
}

// Recalculates the route to one destination, as `renew_by` does, with the keys of the
// AS-external-LSAs that may advertise it. `None` if they may be too many.
fn renew(
    alloc: Global,
    db: &Lsdb,
    root: &Root,
    moment: Second,
    inner: &InnerRoutes,
    prefix: Prefix,
    routes: &mut Pages<Route>,
) -> Result<Option<bool>, AllocError>
    requires inner { Knows (contents_at moment db.now.present) root.now inner.now }
    requires ascend { Ascend routes.old }
    ensures renewed { IfOk result (λ done. IsSome done → IsRenewed
        (contents_at moment db.now.present) root.now prefix routes.old routes.new) }
    ensures among { IfOk result (λ done. done ≡ Some true
        → AreAllAmong routes.old routes.new) }
    ensures another { IfOk result (λ done. done ≡ Some false
        → HasAnotherTo (contents_at moment db.now.present) root.now prefix routes.old) }
{
    let found = keys_under(alloc, db, prefix)?;
    match found {
        None => Ok(None),
        Some(keys) => {
            let stood = renew_by(alloc, db, root, moment, inner, prefix, &keys, routes)?;
            Ok(Some(stood))
        }
    }
}

// Recalculates the routes to these destinations, one after the other. Returns whether none of them
// is new; `None` if for one the LSAs may be too many.
fn renew_all(
    alloc: Global,
    db: &Lsdb,
    root: &Root,
    moment: Second,
    inner: &InnerRoutes,
    prefixes: &[Prefix],
    routes: &mut Pages<Route>,
) -> Result<Option<bool>, AllocError>
    requires inner { Knows (contents_at moment db.now.present) root.now inner.now }
    requires ascend { Ascend routes.old }
    ensures halfway { IfOk result (λ done. IsSome done → (old : Contents)
        → AreCandidates old root.now routes.old
        → AreHalfway old (contents_at moment db.now.present) root.now prefixes.now routes.new) }
    ensures among { IfOk result (λ done. done ≡ Some true
        → AreAllAmong routes.old routes.new) }
    ensures another { IfOk result (λ done. done ≡ Some false → (old : Contents)
        → AreCandidates old root.now routes.old
        → HasAnother routes.old routes.new) }
{
    let mut none_new = true;
    for prefix in prefixes {
        let done = renew(alloc, db, root, moment, inner, *prefix, routes)?;
        let Some(stood) = done else {
            return Ok(None);
        };
        none_new &= stood;
    }
    Ok(Some(none_new))
}

/// Follows an event in which no LSA of types 1 to 4 was added or removed, reached MaxAge or changed
/// its contents: the candidates of the committed database at the moment `before` become those of
/// the database at this moment (RFC 2328, section 16.6). Only destinations that changed
/// AS-external-LSAs advertise or advertised are recalculated, and the result says whether one of
/// these has a new route; usually none has after an AS-external-LSA is removed. If too many of them
/// changed, too many may advertise one destination, or an allocation is refused, the routes are
/// useless afterwards.
///
/// # Errors
/// `AllocError` if an allocation is refused.
pub fn follow_externals(
    alloc: Global,
    db: &Lsdb,
    root: &Root,
    before: Second,
    moment: Second,
    inner: &InnerRoutes,
    routes: &mut Pages<Route>,
) -> Result<Followed, AllocError>
    requires order { before ≤ moment }
    requires same { HaveSameContents (Some 4)
        (contents_at before db.now.committed) (contents_at moment db.now.present) }
    requires inner { Knows (contents_at moment db.now.present) root.now inner.now }
    requires routes { AreCandidates (contents_at before db.now.committed) root.now routes.old }
    ensures { IfOk result (λ done. HaveFollowed (contents_at moment db.now.present) root.now
        routes.old routes.new done) }
{
    let keys = possibly_changed_keys(alloc, db, before, moment)?;
    let most = FEW_CHANGED.max(routes.len() / 32);
    if keys.len() > most {
        return Ok(Followed::TooMany);
    }
    let prefixes = networks_told(alloc, db, before, moment, &keys)?;
    let done = renew_all(alloc, db, root, moment, inner, &prefixes, routes)?;
    let Some(none_new) = done else {
        return Ok(Followed::TooMany);
    };
    if none_new {
        return Ok(Followed::NoneNew);
    }
    Ok(Followed::SomeNew)
}
