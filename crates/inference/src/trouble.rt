//! Why a loop has no rank.

use crate::circles::Graph;
use crate::loops::Circle;
use crate::memory::element_or;
use crate::plan::RankPlan;

/// Why a loop has no rank.
#[derive(Clone, Copy)]
pub enum Trouble {
    /// The register rises with each iteration, and none falls.
    Rises { register: u8 },
    /// The register falls with each iteration, but from too great a number.
    TooHigh { register: u8, from: u64 },
    /// No register falls on each path around the loop.
    NoneFalls,
}

/// A loop without a rank: the first of its slots that a backward jump leads to.
#[derive(Clone, Copy)]
pub struct Endless {
    pub slot: usize,
    pub trouble: Trouble,
}

/// Why the register doesn't bound the loop's iterations.
fn trouble_with(graph: &Graph<'_>, circle: &Circle, head: usize, register: u8) -> Trouble {
    let carried = graph.carried(circle, head, register);
    if carried.has_rise {
        Trouble::Rises { register }
    } else if graph.falls_each_turn(circle, &carried) {
        Trouble::TooHigh {
            register,
            from: graph.high(head, register),
        }
    } else {
        Trouble::NoneFalls
    }
}

/// Larger loops aren't tried without a budget, since that takes as many rounds as there are sites.
const MAX_SITES: usize = 32;

/// The loop if any number of iterations were within the budget: the register that then falls with
/// each iteration, possibly with a second one for loops within it.
fn too_long(graph: &Graph<'_>, circle: &Circle, head: usize) -> Option<Trouble> {
    if circle.sites.len() > MAX_SITES {
        return None;
    }
    let mut without_budget = *graph;
    without_budget.most = u64::MAX;
    let mut plan = RankPlan::new(graph.memory, graph.bounds.len());
    match without_budget.best_register(&mut plan, circle, head) {
        Some(register) => Some(Trouble::TooHigh {
            register,
            from: graph.high(head, register),
        }),
        None => None,
    }
}

/// Why no register bounds the loop. One that falls from too great a number says more than one that
/// rises.
fn trouble_at(graph: &Graph<'_>, circle: &Circle, head: usize) -> Trouble {
    let mut told = Trouble::NoneFalls;
    for register in 0..10u8 {
        let trouble = trouble_with(graph, circle, head, register);
        told = match (told, trouble) {
            (Trouble::NoneFalls, _) | (Trouble::Rises { .. }, Trouble::TooHigh { .. }) => trouble,
            _ => told,
        };
    }
    told
}

/// What is wrong with the loop through the site, if there is one.
fn endless_at(graph: &Graph<'_>, head: usize) -> Option<Endless> {
    let circle = graph.ways.circle(graph.memory, graph.edges, head);
    if circle.sites.is_empty() {
        return None;
    }
    Some(Endless {
        slot: element_or(&graph.sites.slots, head, 0),
        trouble: match too_long(graph, &circle, head) {
            Some(trouble) => trouble,
            None => trouble_at(graph, &circle, head),
        },
    })
}

/// What is wrong with the loop through the site, or with the first one that has trouble.
pub fn unranked_loop(graph: &Graph<'_>, failed: Option<usize>) -> Option<Endless> {
    if let Some(head) = failed {
        return endless_at(graph, head);
    }
    for head in 0..graph.sites.slots.len() {
        if graph.sites.is_head(head) {
            let found = endless_at(graph, head);
            if found.is_some() {
                return found;
            }
        }
    }
    None
}
