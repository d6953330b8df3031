//! Replaces the route for a prefix.
ghost use Rattle.std.specs.Prelude.{◌≡◌, ◌↔◌, ◌<◌, ◌≤◌, IfOk, IfSome, IsTrue, MatchResult, OnOk};
ghost use Rattle.std.specs.Prelude.{Some, false, length, slice_get, slice_index_or};
ghost use Rattle.kept_routes.specs.Placing.{HasStood, IsAnother, IsGap, IsPlaced, IsThere};
ghost use Rattle.candidates.specs.Borders.{Ascend};
ghost use Rattle.words.specs.Orders.{network_cmp};
ghost use Rattle.words.specs.declared.route.Route.{Route as RouteValue};

use keyed_map::Pages;
use std::alloc::AllocError;
use std::cmp::Ordering;
use words::{Prefix, Route};

// How the prefix of the route at this index compares with another one.
fn order_at(routes: &Pages<Route>, at: usize, prefix: &Prefix) -> Ordering
    requires { at < length routes.now }
    ensures { (d : RouteValue)
        → result ≡ network_cmp (slice_index_or routes.now at d).prefix prefix.now }
{
    let part = routes.part_from(at);
    part[0].prefix.compare(prefix)
}

// The index of the route for the prefix, or else the index at which to insert it.
fn index_of(routes: &Pages<Route>, prefix: Prefix) -> Result<usize, usize>
    requires { Ascend routes.now }
    ensures { MatchResult result (IsThere routes.now prefix) (IsGap routes.now prefix) }
{
    let mut low = 0;
    let mut high = routes.len();
    while low < high {
        let middle = low + (high - low) / 2;
        match order_at(routes, middle, &prefix) {
            Ordering::Less => low = middle + 1,
            Ordering::Equal => return Ok(middle),
            Ordering::Greater => high = middle,
        }
    }
    Err(low)
}

// Whether both are the same route.
fn is_same(one: &Route, other: &Route) -> bool
    ensures { IsTrue result ↔ (one.now ≡ other.now) }
{
    *one == *other
}

// Whether this route is at this index.
fn stands_at(routes: &Pages<Route>, at: usize, route: &Route) -> bool
    requires { at < length routes.now }
    ensures { IsTrue result ↔ (slice_get routes.now at ≡ Some route.now) }
{
    let part = routes.part_from(at);
    is_same(&part[0], route)
}

// Replaces the route at this index by another, or removes it. Returns false if the new route
// differs.
fn replace(
    routes: &mut Pages<Route>,
    prefix: Prefix,
    at: usize,
    best: Option<Route>,
) -> Result<bool, AllocError>
    requires ascend { Ascend routes.old }
    requires there { IsThere routes.old prefix at }
    requires its { IfSome best (λ r. r.prefix ≡ prefix) }
    ensures placed { OnOk result (IsPlaced routes.old routes.new prefix best) }
    ensures stood { IfOk result (λ stood. IsTrue stood → HasStood routes.old best) }
    ensures another { IfOk result (λ stood. stood ≡ false → IsAnother routes.old best) }
{
    match best {
        None => {
            routes.remove(at)?;
            Ok(true)
        }
        Some(route) => {
            if stands_at(routes, at, &route) {
                return Ok(true);
            }
            routes.replace(at, route)?;
            Ok(false)
        }
    }
}

// Inserts a route, if there is one, for a prefix that has none. Returns false if one is inserted.
fn add(
    routes: &mut Pages<Route>,
    prefix: Prefix,
    at: usize,
    best: Option<Route>,
) -> Result<bool, AllocError>
    requires ascend { Ascend routes.old }
    requires gap { IsGap routes.old prefix at }
    requires its { IfSome best (λ r. r.prefix ≡ prefix) }
    ensures placed { OnOk result (IsPlaced routes.old routes.new prefix best) }
    ensures stood { IfOk result (λ stood. IsTrue stood → HasStood routes.old best) }
    ensures another { IfOk result (λ stood. stood ≡ false → IsAnother routes.old best) }
{
    match best {
        None => Ok(true),
        Some(route) => {
            routes.insert(at, route)?;
            Ok(false)
        }
    }
}

/// Removes the route for the prefix, if there is one, and inserts this one, if there is one.
/// Returns false if and only if the inserted route is new.
///
/// # Errors
/// `AllocError` if an allocation is refused.
pub fn place(
    routes: &mut Pages<Route>,
    prefix: Prefix,
    best: Option<Route>,
) -> Result<bool, AllocError>
    requires ascend { Ascend routes.old }
    requires its { IfSome best (λ r. r.prefix ≡ prefix) }
    ensures placed { OnOk result (IsPlaced routes.old routes.new prefix best) }
    ensures stood { IfOk result (λ stood. IsTrue stood → HasStood routes.old best) }
    ensures another { IfOk result (λ stood. stood ≡ false → IsAnother routes.old best) }
{
    match index_of(routes, prefix) {
        Ok(at) => replace(routes, prefix, at, best),
        Err(at) => add(routes, prefix, at, best),
    }
}
