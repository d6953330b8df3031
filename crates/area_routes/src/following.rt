//! Candidates that follow AS-external-LSAs (RFC 2328, section 16.6).
ghost use Rattle.std.specs.Prelude.{◌≡◌, ◌≤◌, IfSome, IsTrue, Some, false};
ghost use Rattle.area_routes.specs.Kept.{AreAmongKept, AreInnerBy, HaveAnother, StayAnswered};
ghost use Rattle.kept_routes.specs.Placing.{AreAllAmong, HasAnother};
ghost use Rattle.kept_routes.specs.Kept.{IsWalkOf};
ghost use Rattle.kept_routes.specs.Sameness.{HaveSameContents};
ghost use Rattle.routes.specs.Candidates.{AreCandidates};
ghost use Rattle.routes.specs.Contents.{contents_at};

use area::Area;
use candidates::InnerRoutes;
use kept_routes::{Followed, Routes, follow_externals};
use keyed_map::Pages;
use std::alloc::Global;
use words::{Route, Second};

/// Candidates after an event, and whether each of them was one before.
#[derive(Drop)]
pub struct Next {
    pub candidates: Pages<Route>,
    pub none_new: bool,
}

// The candidates of this moment, from those before an event that only changes AS-external-LSAs.
// `None` if these are many, or an allocation is refused.
fn follow_from(
    alloc: Global,
    area: &Area,
    walk: &Routes,
    before: Second,
    moment: Second,
    inner: &InnerRoutes,
    routes: Pages<Route>,
) -> Option<Next>
    requires order { before ≤ moment }
    requires same { HaveSameContents (Some 4) (contents_at before area.now.committed.database)
        (contents_at moment area.now.present.database) }
    requires walk { IsWalkOf (contents_at moment area.now.present.database) walk.now }
    requires inner { AreInnerBy (contents_at moment area.now.present.database) walk.now.root
        walk.now
        inner.now }
    requires routes { AreCandidates (contents_at before area.now.committed.database) walk.now.root
        routes }
    ensures candidates { IfSome result (λ next. AreCandidates
        (contents_at moment area.now.present.database) walk.now.root next.candidates) }
    ensures none_new { IfSome result (λ next. IsTrue next.none_new → StayAnswered
        (contents_at before area.now.committed.database)
        (contents_at moment area.now.present.database)
        walk.now.root) }
    ensures among { IfSome result (λ next. IsTrue next.none_new
        → AreAllAmong routes next.candidates) }
    ensures another { IfSome result (λ next. next.none_new ≡ false
        → HasAnother routes next.candidates) }
{
    let mut candidates = routes;
    let db = area.database();
    let root = walk.root();
    let Ok(done) = follow_externals(alloc, db, root, before, moment, inner, &mut candidates) else {
        return None;
    };
    match done {
        Followed::TooMany => None,
        Followed::NoneNew => Some(Next {
            candidates,
            none_new: true,
        }),
        Followed::SomeNew => Some(Next {
            candidates,
            none_new: false,
        }),
    }
}

// Follows the changed AS-external-LSAs with the candidates that were kept; `None` if none were, or
// as in `follow_from`.
fn follow_some(
    alloc: Global,
    area: &Area,
    walk: &Routes,
    before: Second,
    moment: Second,
    inner: &InnerRoutes,
    kept: Option<Pages<Route>>,
) -> Option<Next>
    requires order { before ≤ moment }
    requires same { HaveSameContents (Some 4) (contents_at before area.now.committed.database)
        (contents_at moment area.now.present.database) }
    requires walk { IsWalkOf (contents_at moment area.now.present.database) walk.now }
    requires inner { AreInnerBy (contents_at moment area.now.present.database) walk.now.root
        walk.now
        inner.now }
    requires routes { IfSome kept (λ routes. AreCandidates
        (contents_at before area.now.committed.database) walk.now.root routes) }
    ensures candidates { IfSome result (λ next. AreCandidates
        (contents_at moment area.now.present.database) walk.now.root next.candidates) }
    ensures none_new { IfSome result (λ next. IsTrue next.none_new → StayAnswered
        (contents_at before area.now.committed.database)
        (contents_at moment area.now.present.database)
        walk.now.root) }
    ensures among { IfSome result (λ next. IsTrue next.none_new
        → AreAmongKept kept next.candidates) }
    ensures another { IfSome result (λ next. next.none_new ≡ false
        → HaveAnother kept next.candidates) }
{
    match kept {
        None => None,
        Some(routes) => follow_from(alloc, area, walk, before, moment, inner, routes),
    }
}

/// The candidates after an event that changed AS-external-LSAs alone: those that were kept, with
/// the routes to the destinations of the changed LSAs calculated anew (RFC 2328, section 16.6).
/// `None` if the candidates or the results from the LSAs of types 1 to 4 (`inner`) weren't kept, if
/// too much changed, or if an allocation is refused.
pub fn followed(
    alloc: Global,
    area: &Area,
    walk: &Routes,
    before: Second,
    moment: Second,
    inner: &Option<InnerRoutes>,
    kept: Option<Pages<Route>>,
) -> Option<Next>
    requires order { before ≤ moment }
    requires same { HaveSameContents (Some 4) (contents_at before area.now.committed.database)
        (contents_at moment area.now.present.database) }
    requires walk { IsWalkOf (contents_at moment area.now.present.database) walk.now }
    requires inner { IfSome inner.now (AreInnerBy (contents_at moment area.now.present.database)
        walk.now.root walk.now) }
    requires routes { IfSome kept (λ routes. AreCandidates
        (contents_at before area.now.committed.database) walk.now.root routes) }
    ensures candidates { IfSome result (λ next. AreCandidates
        (contents_at moment area.now.present.database) walk.now.root next.candidates) }
    ensures none_new { IfSome result (λ next. IsTrue next.none_new → StayAnswered
        (contents_at before area.now.committed.database)
        (contents_at moment area.now.present.database)
        walk.now.root) }
    ensures among { IfSome result (λ next. IsTrue next.none_new
        → AreAmongKept kept next.candidates) }
    ensures another { IfSome result (λ next. next.none_new ≡ false
        → HaveAnother kept next.candidates) }
{
    match inner {
        None => None,
        Some(known) => follow_some(alloc, area, walk, before, moment, known, kept),
    }
}
