//! Whether the candidates are unchanged although AS-external-LSAs changed, because those offer
//! nothing (RFC 2328, section 16.4).
ghost use Rattle.std.specs.Prelude.{◌≡◌, ◌≤◌, ◌↔◌, IfOk, IsTrue, MatchOption, Some, bit_and};
ghost use Rattle.lsa.specs.declared.body.LsaBody.TheVariants as body;
ghost use Rattle.lsa.specs.declared.body.RouterLsa.{RouterLsa as RouterValue};
ghost use Rattle.candidates.specs.Borders.{IsFlagged};
ghost use Rattle.routes.specs.Contents.{contents_at};
ghost use Rattle.routes.specs.declared.graph.Way.{Way as WayTo};
ghost use Rattle.candidates.specs.Reached.{way_in};
ghost use Rattle.kept_routes.specs.Externals.{AreOldOrLeftOut, IsNamed, IsOldOrLeftOut};
ghost use Rattle.kept_routes.specs.Externals.{IsUnreached, AreOfferingLsasUnchanged, NamesIt};
ghost use Rattle.kept_routes.specs.Externals.{OfferTheSame, OffersNothing, first_named};
ghost use Rattle.kept_routes.specs.Kept.{IsWalkOf};

use crate::sameness::has_not_just_aged_out;
use crate::walks::Routes;
use lsa::{LsaBody, RouterLsa};
use routes::{KeyRule, Lsdb, Node};
use std::alloc::{AllocError, Global};
use words::{Key, LinkStateId, RouterId, Second, router_key};

// AS-external-LSAs that offer nothing by this walk, whatever they say.
#[derive(Drop)]
struct OfNoAccount<'a> {
    db: &'a Lsdb,
    walk: &'a Routes,
    moment: Second,
}

impl<'a> KeyRule for OfNoAccount<'a> {
    ghost use Rattle.kept_routes.specs.Externals.{OffersNothing};

    ghost leaves_out = { λ a key. OffersNothing a.moment a.db.now.present a.walk.now key };

    fn leaves_out(&self, _alloc: Global, key: &Key) -> Result<bool, AllocError> {
        Ok(offers_nothing(self.db, self.walk, self.moment, key))
    }
}

// Whether an LSA with this key is an external one that offers nothing, whatever it says.
fn offers_nothing(db: &Lsdb, walk: &Routes, moment: Second, key: &Key) -> bool
    ensures { IsTrue result ↔ OffersNothing moment db.now.present walk.now key.now }
{
    if key.ls_type < 5 {
        return false;
    }
    if is_own(walk, key) {
        return true;
    }
    is_unreached(db, walk, moment, key.advertising_router)
}

fn is_own(walk: &Routes, key: &Key) -> bool
    ensures { IsTrue result ↔ (key.now.advertising_router ≡ walk.now.root.router) }
{
    key.advertising_router == walk.root().router
}

// Whether the router isn't reached as an AS boundary router.
fn is_unreached(db: &Lsdb, walk: &Routes, moment: Second, router: RouterId) -> bool
    ensures { IsTrue result ↔ IsUnreached moment db.now.present walk.now router }
{
    if is_boundary(db, walk, moment, router) {
        return false;
    }
    let named = is_named(db, router);
    !named
}

// The router-LSA with this key, if the database has one below MaxAge.
fn router_lsa<'a>(db: &'a Lsdb, moment: Second, key: &Key) -> Option<&'a RouterLsa>
    ensures { MatchOption result ((lsa : RouterValue) → contents_at moment db.now.present key.now
        ≡ Some (body.Router lsa) → ⊥) (λ lsa.
        contents_at moment db.now.present key.now ≡ Some (body.Router lsa.now)) }
{
    match db.body_at(moment, key)? {
        LsaBody::Router(lsa) => Some(lsa),
        _ => None,
    }
}

// Whether the router is reachable, and its LSA has flag E.
fn is_boundary(db: &Lsdb, walk: &Routes, moment: Second, router: RouterId) -> bool
    ensures { IsTrue result ↔ ((way : WayTo) × IsFlagged (contents_at moment db.now.present)
        (way_in walk.now.reached) router 2 way) }
{
    let reached = walk.way_to(&Node::ARouter(router)).is_some();
    if !reached {
        return false;
    }
    match router_lsa(db, moment, &router_key(router)) {
        None => false,
        Some(lsa) => has_e(lsa),
    }
}

fn has_e(lsa: &RouterLsa) -> bool
    ensures { IsTrue result ↔ (bit_and lsa.now.flags 2 ≡ 2) }
{
    lsa.flags & 2 == 2
}

// Whether a summary-LSA of an AS boundary router names this one.
fn is_named(db: &Lsdb, router: RouterId) -> bool
    ensures { IsTrue result ↔ IsNamed db.now.present router }
{
    match db.next_from(&first_named(router)) {
        None => false,
        Some(key) => names_it(router, &key),
    }
}

fn first_named(router: RouterId) -> Key
    ensures { result ≡ first_named router }
{
    Key {
        ls_type: 4,
        link_state_id: LinkStateId::new(router.number()),
        advertising_router: RouterId::new(0),
    }
}

fn names_it(router: RouterId, key: &Key) -> bool
    ensures { IsTrue result ↔ NamesIt router key.now }
{
    key.ls_type == 4 && key.link_state_id.number() == router.number()
}

/// Whether the candidates by this walk, which was made before the event, are unchanged: since the
/// database was committed, at the moment `before`, the only LSAs that were added or removed,
/// reached MaxAge or changed their contents are AS-external-LSAs that offer nothing, whatever they
/// say. Those are the router's own, and those of routers that aren't reached as AS boundary routers
/// (RFC 2328, section 16.4). LSAs that were added or removed at MaxAge may or may not count.
///
/// It takes the time of the event's edits and of `Lsdb::max_age_keys`.
///
/// # Errors
/// `AllocError` if an allocation is refused.
pub fn offering_lsas_are_unchanged(
    alloc: Global,
    db: &Lsdb,
    walk: &Routes,
    before: Second,
    moment: Second,
) -> Result<bool, AllocError>
    requires order { before ≤ moment }
    requires walk { IsWalkOf (contents_at before db.now.committed) walk.now }
    ensures same { IfOk result (λ same. IsTrue same → OfferTheSame
        (contents_at before db.now.committed) (contents_at moment db.now.present) walk.now.root) }
    ensures left { IfOk result (λ same. AreOfferingLsasUnchanged before moment db.now.committed
        db.now.present walk.now → IsTrue same) }
{
    let rule = OfNoAccount { db, walk, moment };
    if !db.others_are_unchanged(alloc, &rule, before, moment)? {
        return Ok(false);
    }
    // Within one moment no LSA reaches MaxAge.
    if before.count() == moment.count() {
        return Ok(true);
    }
    let keys = db.max_age_keys(alloc, moment)?;
    have_not_just_aged_out_or_are_left_out(alloc, &rule, before, &keys)
}

// Whether the copies with these keys that have MaxAge, if they count, had it before the event.
fn have_not_just_aged_out_or_are_left_out(
    alloc: Global,
    rule: &OfNoAccount<'_>,
    before: Second,
    keys: &[Key],
) -> Result<bool, AllocError>
    ensures { IfOk result (λ are. IsTrue are ↔ AreOldOrLeftOut before rule.now.moment
        rule.now.db.now.present rule.now.walk.now keys.now) }
{
    for key in keys {
        if !has_not_just_aged_out_or_is_left_out(alloc, rule, before, key)? {
            return Ok(false);
        }
    }
    Ok(true)
}

// Whether the copy with this key, if it counts and has MaxAge, had it before the event.
fn has_not_just_aged_out_or_is_left_out(
    alloc: Global,
    rule: &OfNoAccount<'_>,
    before: Second,
    key: &Key,
) -> Result<bool, AllocError>
    ensures { IfOk result (λ is. IsTrue is ↔ IsOldOrLeftOut before rule.now.moment
        rule.now.db.now.present rule.now.walk.now key.now) }
{
    if has_not_just_aged_out(rule.db, None, before, rule.moment, key) {
        return Ok(true);
    }
    rule.leaves_out(alloc, key)
}
