//! Answers to routes: the next one in turn, or one that is found by binary search.
ghost use Rattle.std.specs.Prelude.{◌≡◌, ◌↔◌, ◌<◌, IsTrue, length};
ghost use Rattle.std.specs.List.Sorted.{IsSorted};
ghost use Rattle.routes.specs.Tables.{HasAnswer, IsLetIn};
ghost use Rattle.routes.specs.Orders.{answer_cmp};

use crate::order::{compare_answers, compare_routes};
use words::Route;

/// Whether an equal route is among the answers with the word 0, and the index at which the search
/// for the answer to the next route begins. If the answer at index `next` is the route's, as in
/// answers to all routes in turn, none is searched for.
pub fn is_let_in(answers: &[(Route, u64)], next: usize, route: &Route) -> (bool, usize)
    requires { IsSorted answer_cmp answers.now }
    ensures { IsTrue result.0 ↔ IsLetIn answers.now route.now }
{
    if next < answers.len() && lets_in(&answers[next], route) {
        return (true, next + 1);
    }
    if is_first_and_keeps_out(answers, next, route) {
        return (false, next + 1);
    }
    let wanted = (*route, 0);
    match answers.binary_search_by(|answer| compare_answers(answer, &wanted)) {
        Ok(at) => (true, at + 1),
        Err(at) => (false, at),
    }
}

/// Whether an equal route is among the answers, and the index at which the search for the answer to
/// the next route begins, as for [`is_let_in`].
pub fn is_answered(answers: &[(Route, u64)], next: usize, route: &Route) -> (bool, usize)
    requires { IsSorted answer_cmp answers.now }
    ensures { IsTrue result.0 ↔ HasAnswer answers.now route.now }
{
    if next < answers.len() && is_of(&answers[next], route) {
        return (true, next + 1);
    }
    match answers.binary_search_by(|answer| compare_routes(&answer.0, route)) {
        Ok(at) => (true, at + 1),
        Err(at) => (false, at),
    }
}

// Whether the answer at this index is the first one to an equal route, and its word isn't 0. Since
// words of one route ascend, none of them is 0 then.
fn is_first_and_keeps_out(answers: &[(Route, u64)], at: usize, route: &Route) -> bool
    requires { IsSorted answer_cmp answers.now }
    ensures inside { IsTrue result → at < length answers.now }
    ensures out { IsTrue result → IsLetIn answers.now route.now → ⊥ }
{
    if at >= answers.len() || !keeps_out(&answers[at], route) {
        return false;
    }
    at == 0 || !is_of(&answers[at - 1], route)
}

/// Whether this is the answer to an equal route.
pub fn is_of(answer: &(Route, u64), route: &Route) -> bool
    ensures { IsTrue result ↔ (answer.now.0 ≡ route.now) }
{
    answer.0 == *route
}

// Whether this is the answer to an equal route, with a word other than 0.
fn keeps_out(answer: &(Route, u64), route: &Route) -> bool
    ensures { IsTrue result ↔ ((answer.now.0 ≡ route.now) × (0 < answer.now.1)) }
{
    is_of(answer, route) && answer.1 > 0
}

// Whether this is the answer to an equal route, with the word 0.
fn lets_in(answer: &(Route, u64), route: &Route) -> bool
    ensures { IsTrue result ↔ (answer.now ≡ (route.now, 0)) }
{
    answer.1 == 0 && is_of(answer, route)
}
