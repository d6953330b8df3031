//! The table of candidates in pages, and whether it is stale.
ghost use Rattle.std.specs.Prelude.{◌≡◌, ◌↔◌, ◌<◌, ◌≤◌, ℕ, IfOk, IfSome, IsTrue, Some, false};
ghost use Rattle.std.specs.Prelude.{length, slice_get};
ghost use Rattle.keyed_map.specs.Answers.{all_in};
ghost use Rattle.routes.specs.Candidates.{AreCandidates};
ghost use Rattle.routes.specs.Contents.{Contents};
ghost use Rattle.routes.specs.Tables.{IsTable};
ghost use Rattle.routes.specs.declared.root.Root.{Root};
ghost use Rattle.routes.specs.Comparisons.{IsComparison};
ghost use Rattle.routes.specs.Parts.{StandsAt};
ghost use Rattle.words.specs.declared.route.Route.{Route as RouteValue};

use crate::answered::{answered_in_turn, is_answered_from, is_stale, table};
use keyed_map::{KeptAnswers, Pages, RouteAnswers};
use std::alloc::{AllocError, Global};
use words::Route;

/// The routing table, as [`table`] makes it.
///
/// # Errors
/// `AllocError` if an allocation is refused.
pub fn table_of(candidates: &Pages<Route>, answers: &RouteAnswers) -> Result<Vec<Route>, AllocError>
    ensures { IfOk result (λ table. (contents : Contents) (root : Root)
        → AreCandidates contents root candidates.now → IsTable contents root answers.now
        table.items) }
{
    let routes = candidates.to_vec()?;
    let made = table_among(candidates.allocator(), &routes, answers)?;
    Ok(made)
}

/// The same of candidates in one piece. Answers that are kept one by one aren't copied.
///
/// # Errors
/// `AllocError` if an allocation is refused.
pub fn table_among(
    alloc: Global,
    candidates: &[Route],
    answers: &RouteAnswers,
) -> Result<Vec<Route>, AllocError>
    ensures { IfOk result (λ table. (contents : Contents) (root : Root)
        → AreCandidates contents root candidates.now
        → IsTable contents root answers.now table.items) }
{
    match answers.kept() {
        KeptAnswers::Each(each) => table(alloc, candidates, each),
        KeptAnswers::AllIn(_) => {
            let each = answers.to_vec(alloc)?;
            table(alloc, candidates, &each)
        }
    }
}

/// What a comparison of candidates with answers tells.
#[derive(Clone, Copy)]
pub struct Comparison {
    /// Some candidate's equal route has no answer.
    pub lacks: bool,
    /// Each answered route is known to be a candidate; false leaves it open.
    pub only_candidates: bool,
}

/// Whether some candidate's equal route has no answer, as [`is_stale`] tells, and whether each
/// answered route is known to be a candidate. It is known where just the candidates were answered,
/// in turn: then each is visited once, and nothing is allocated.
///
/// # Errors
/// `AllocError` if an allocation is refused.
pub fn compare(candidates: &Pages<Route>, answers: &RouteAnswers) -> Result<Comparison, AllocError>
    ensures { IfOk result (IsComparison answers.now candidates.now) }
{
    match answers.kept() {
        KeptAnswers::Each(each) => compare_each(candidates, each),
        KeptAnswers::AllIn(routes) => {
            if let Some(found) = compare_all_in(candidates, routes) {
                return Ok(found);
            }
            let each = answers.to_vec(candidates.allocator())?;
            compare_each(candidates, &each)
        }
    }
}

// The same, where the answers are kept one by one. The candidates are copied into one piece only if
// that takes a search.
fn compare_each(
    candidates: &Pages<Route>,
    answers: &[(Route, u64)],
) -> Result<Comparison, AllocError>
    ensures { IfOk result (IsComparison answers.now candidates.now) }
{
    if let Some(found) = compare_in_turn(candidates, answers) {
        return Ok(found);
    }
    let alloc = candidates.allocator();
    let routes = candidates.to_vec()?;
    let lacks = is_stale(alloc, &routes, answers)?;
    Ok(Comparison {
        lacks,
        only_candidates: false,
    })
}

// The same. `None` if that takes a search.
fn compare_in_turn(candidates: &Pages<Route>, answers: &[(Route, u64)]) -> Option<Comparison>
    ensures { IfSome result (IsComparison answers.now candidates.now) }
{
    let met = answered_in_pages(candidates, answers);
    if met >= candidates.len() {
        let only_candidates = answers.len() == candidates.len();
        return Some(Comparison {
            lacks: false,
            only_candidates,
        });
    }
    let behind = candidates.part_from(met);
    if is_answered_from(answers, met, &behind[0]) {
        return None;
    }
    Some(Comparison {
        lacks: true,
        only_candidates: false,
    })
}

// How many first candidates have their answers at their own indices.
fn answered_in_pages(candidates: &Pages<Route>, answers: &[(Route, u64)]) -> usize
    ensures { (k : ℕ) (r : RouteValue) → k < result → slice_get candidates.now k ≡ Some r
        → StandsAt answers.now k r }
{
    let mut met = 0;
    while met < candidates.len() {
        if met > answers.len() {
            return met;
        }
        let same = answered_in_turn(candidates.part_from(met), &answers[met..]);
        if same == 0 {
            return met;
        }
        met += same;
    }
    met
}

// The same, where each of these routes was answered with 0. `None` if that takes a search.
fn compare_all_in(candidates: &Pages<Route>, answered: &Pages<Route>) -> Option<Comparison>
    ensures { IfSome result (IsComparison (all_in answered.now) candidates.now) }
{
    let met = met_in_turn(candidates, answered);
    if met >= candidates.len() {
        let only_candidates = answered.len() == candidates.len();
        return Some(Comparison {
            lacks: false,
            only_candidates,
        });
    }
    let behind = candidates.part_from(met);
    if is_among_from(answered, met, &behind[0]) {
        return None;
    }
    Some(Comparison {
        lacks: true,
        only_candidates: false,
    })
}

// Whether both are the same route.
fn is_same(one: &Route, other: &Route) -> bool
    ensures { IsTrue result ↔ (one.now ≡ other.now) }
{
    *one == *other
}

// How many first routes both have.
fn same_first(one: &[Route], other: &[Route]) -> usize
    ensures one { result ≤ length one.now }
    ensures other { result ≤ length other.now }
    ensures each { (k : ℕ) (r : RouteValue) → k < result → slice_get one.now k ≡ Some r
        → slice_get other.now k ≡ Some r }
{
    let count = one.len().min(other.len());
    for at in 0..count {
        if !is_same(&one[at], &other[at]) {
            return at;
        }
    }
    count
}

// The same of lists in pages.
fn met_in_turn(one: &Pages<Route>, other: &Pages<Route>) -> usize
    ensures each { (k : ℕ) (r : RouteValue) → k < result → slice_get one.now k ≡ Some r
        → slice_get other.now k ≡ Some r }
{
    let mut met = 0;
    while met < one.len() {
        let same = same_first(one.part_from(met), other.part_from(met));
        if same == 0 {
            return met;
        }
        met += same;
    }
    met
}

// Whether the route is one of these.
fn has(routes: &[Route], route: &Route) -> bool
    ensures { result ≡ false → (k : ℕ) → slice_get routes.now k ≡ Some route.now → ⊥ }
{
    for other in routes {
        if is_same(other, route) {
            return true;
        }
    }
    false
}

// Whether the route is at this index or after it.
fn is_among_from(routes: &Pages<Route>, from: usize, route: &Route) -> bool
    ensures { result ≡ false
        → (k : ℕ) → from ≤ k → slice_get routes.now k ≡ Some route.now → ⊥ }
{
    let mut at = from;
    while at < routes.len() {
        let part = routes.part_from(at);
        if has(part, route) {
            return true;
        }
        at += part.len();
    }
    false
}
