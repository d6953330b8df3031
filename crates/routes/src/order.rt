//! The order of answers.
ghost use Rattle.std.specs.Prelude.{◌≡◌, ◌↔◌, ℕ, IfOk, IsTrue};
ghost use Rattle.std.specs.List.{Contains};
ghost use Rattle.std.specs.List.Sorted.{IsSorted};
ghost use Rattle.std.specs.Ordering.{is_lt};
ghost use Rattle.routes.specs.Orders.{answer_cmp, route_cmp};
ghost use Rattle.words.specs.declared.route.Route.{Route as RouteValue};

use std::alloc::{AllocError, Global};
use std::cmp::Ordering;
use words::Route;

/// Orders routes by prefix, then by all else that makes them differ.
pub fn compare_routes(a: &Route, b: &Route) -> Ordering
    ensures { result ≡ route_cmp a.now b.now }
{
    a.prefix
        .compare(&b.prefix)
        .then(a.kind.compare(b.kind))
        .then(a.cost.cmp(&b.cost))
        .then(a.distance.cmp(&b.distance))
        .then(a.hops.bits().cmp(&b.hops.bits()))
        .then(a.tag.cmp(&b.tag))
}

/// Orders answers by route, then by word.
pub fn compare_answers(a: &(Route, u64), b: &(Route, u64)) -> Ordering
    ensures { result ≡ answer_cmp a.now b.now }
{
    compare_routes(&a.0, &b.0).then(a.1.cmp(&b.1))
}

/// Whether the answers are sorted.
pub fn are_in_order(answers: &[(Route, u64)]) -> bool
    ensures { IsTrue result ↔ IsSorted answer_cmp answers.now }
{
    for at in 1..answers.len() {
        if comes_before(&answers[at], &answers[at - 1]) {
            return false;
        }
    }
    true
}

// Whether the first answer comes before the second. Most differ in the address of the prefix, which
// is compared first.
fn comes_before(a: &(Route, u64), b: &(Route, u64)) -> bool
    ensures { result ≡ is_lt (answer_cmp a.now b.now) }
{
    if b.0.prefix.address().bits() < a.0.prefix.address().bits() {
        return false;
    }
    compare_answers(a, b).is_lt()
}

/// A sorted copy of the answers.
///
/// # Errors
/// `AllocError` if an allocation is refused.
pub fn in_order(alloc: Global, answers: &[(Route, u64)]) -> Result<Vec<(Route, u64)>, AllocError>
    ensures sorted { IfOk result (λ made. IsSorted answer_cmp made.items) }
    ensures same { IfOk result (λ made. (r : RouteValue) (word : ℕ)
        → Contains made.items (r, word) ↔ Contains answers.now (r, word)) }
{
    let mut made = Vec::from_slice(alloc, answers)?;
    made.sort_unstable_by(|a, b| compare_answers(a, b));
    Ok(made)
}
