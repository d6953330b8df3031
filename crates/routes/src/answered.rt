//! The table, and whether it is stale.
ghost use Rattle.std.specs.Prelude.{◌≡◌, ◌↔◌, ◌<◌, ◌≤◌, ℕ, IfOk, IsTrue, Some, false};
ghost use Rattle.std.specs.Prelude.{length, slice_get};
ghost use Rattle.std.specs.List.Sorted.{IsSorted};
ghost use Rattle.routes.specs.Candidates.{AreCandidates};
ghost use Rattle.routes.specs.Contents.{Contents};
ghost use Rattle.routes.specs.Tables.{IsStale, IsTable};
ghost use Rattle.routes.specs.declared.root.Root.{Root};
ghost use Rattle.routes.specs.Orders.{answer_cmp};
ghost use Rattle.routes.specs.Parts.{AreLetIn, LacksAnswers, StandsAt};
ghost use Rattle.words.specs.declared.route.Route.{Route as RouteValue};

use crate::lookups::{is_answered, is_let_in, is_of};
use crate::order::{are_in_order, in_order};
use std::alloc::{AllocError, Global};
use words::Route;

/// The routing table (RFC 2328, section 11): exactly the candidates whose equal route was answered
/// with 0, in the order of their prefixes. The answers are those of the program at `veto`, which is
/// asked about each route; 0 lets it in.
///
/// If the answers are those to all candidates in turn, each is found at its own index, else by
/// binary search. Sorted answers are used as they are, others as a sorted copy.
///
/// # Errors
/// `AllocError` if an allocation is refused.
pub fn table(
    alloc: Global,
    candidates: &[Route],
    answers: &[(Route, u64)],
) -> Result<Vec<Route>, AllocError>
    ensures { IfOk result (λ table. (contents : Contents) (root : Root)
        → AreCandidates contents root candidates.now → IsTable contents root answers.now
        table.items) }
{
    if are_in_order(answers) {
        let table = routes_let_in(alloc, candidates, answers)?;
        return Ok(table);
    }
    let ordered = in_order(alloc, answers)?;
    let table = routes_let_in(alloc, candidates, &ordered)?;
    Ok(table)
}

/// Whether some candidate's equal route has no answer, so that the program is to be asked again. If
/// the answers are those to all candidates in turn, each is visited once; otherwise this takes the
/// time of [`table`].
///
/// # Errors
/// `AllocError` if an allocation is refused, which can happen only if the answers aren't sorted.
pub fn is_stale(
    alloc: Global,
    candidates: &[Route],
    answers: &[(Route, u64)],
) -> Result<bool, AllocError>
    ensures { IfOk result (λ stale. (contents : Contents) (root : Root)
        → AreCandidates contents root candidates.now
        → (IsTrue stale ↔ IsStale contents root answers.now)) }
{
    let met = answered_in_turn(candidates, answers);
    if met >= candidates.len() {
        return Ok(false);
    }
    if !is_answered_from(answers, met, &candidates[met]) {
        return Ok(true);
    }
    if are_in_order(answers) {
        return Ok(is_stale_by_sorted(candidates, answers));
    }
    let ordered = in_order(alloc, answers)?;
    Ok(is_stale_by_sorted(candidates, &ordered))
}

// The routes that the answers let in.
fn routes_let_in(
    alloc: Global,
    routes: &[Route],
    answers: &[(Route, u64)],
) -> Result<Vec<Route>, AllocError>
    requires { IsSorted answer_cmp answers.now }
    ensures { IfOk result (λ part. AreLetIn answers.now routes.now part.items) }
{
    let mut part = Vec::with_capacity(alloc, routes.len())?;
    let mut next = 0;
    for route in routes {
        let (found, after) = is_let_in(answers, next, route);
        next = after;
        if found {
            part.push(*route)?;
        }
    }
    Ok(part)
}

// Whether some route has no answer.
fn is_stale_by_sorted(routes: &[Route], answers: &[(Route, u64)]) -> bool
    requires { IsSorted answer_cmp answers.now }
    ensures { IsTrue result ↔ LacksAnswers answers.now routes.now }
{
    let mut next = 0;
    for route in routes {
        let (found, after) = is_answered(answers, next, route);
        next = after;
        if !found {
            return true;
        }
    }
    false
}

// Whether the answer to this route is at this index.
fn stands_at(answers: &[(Route, u64)], at: usize, route: &Route) -> bool
    ensures { IsTrue result → StandsAt answers.now at route.now }
{
    if at < answers.len() && is_of(&answers[at], route) {
        return true;
    }
    false
}

/// The number of the first routes that have their answers at their own indices.
pub fn answered_in_turn(routes: &[Route], answers: &[(Route, u64)]) -> usize
    ensures within { result ≤ length routes.now }
    ensures each { (k : ℕ) (r : RouteValue) → k < result → slice_get routes.now k ≡ Some r
        → StandsAt answers.now k r }
{
    for at in 0..routes.len() {
        if !stands_at(answers, at, &routes[at]) {
            return at;
        }
    }
    routes.len()
}

/// Whether an answer to the route is at this index or after it.
pub fn is_answered_from(answers: &[(Route, u64)], from: usize, route: &Route) -> bool
    ensures { result ≡ false → (k : ℕ) → from ≤ k → StandsAt answers.now k route.now → ⊥ }
{
    for at in from..answers.len() {
        if is_of(&answers[at], route) {
            return true;
        }
    }
    false
}
