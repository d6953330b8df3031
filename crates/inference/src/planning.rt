//! Ranks for all statements of a program.

use crate::circles::Graph;
use crate::draft::SiteDraft;
use crate::fixpoint::{Inference, infer_statements};
use crate::loops::{Circle, SiteEdges, numbers_below};
use crate::memory::Memory;
use crate::plan::RankPlan;
use crate::unranked::Unranked;
use crate::weights::bounds_of;
use isa::{Code, Hook};
use object::{StatedKind, Statement};
use std::alloc::{AllocError, Global};

/// Statements with ranks, and the loops that have none.
#[derive(Drop)]
pub struct Ranking {
    pub entry_rank: u32,
    pub statements: Vec<Statement>,
    pub unranked: Unranked,
}

fn given_ranks(graph: &Graph<'_>, given: &[Statement]) -> RankPlan {
    let mut plan = RankPlan::new(graph.memory, graph.bounds.len());
    for statement in given {
        if let Some(site) = graph.sites.at(statement.slot() as usize) {
            plan.give(site, statement.rank());
        }
    }
    plan
}

/// Adopts the given ranks, if they are enough. Returns whether they are.
fn by_given(graph: &Graph<'_>, given: &[Statement], plan: &mut RankPlan) -> bool {
    let mut ranks = given_ranks(graph, given);
    if graph.settles(&mut ranks, graph.all) {
        *plan = ranks;
        true
    } else {
        false
    }
}

/// Ranks the program by the given ranks if they are kept, else by its loops, or by the given ranks
/// if that fails. Returns the loops that have no ranks.
fn planned(
    graph: &Graph<'_>,
    given: &[Statement],
    are_kept: bool,
    plan: &mut RankPlan,
) -> Unranked {
    if !are_kept || !by_given(graph, given, plan) {
        let failed = graph.rank_loops(plan);
        let is_ranked = graph.settles(plan, graph.all) || !are_kept && by_given(graph, given, plan);
        if !is_ranked {
            plan.flatten(&graph.all.sites);
            return graph.unranked_loops(plan, failed);
        }
    }
    Unranked {
        slots: Vec::new(graph.memory.alloc),
        are_together: false,
        endless: None,
    }
}

/// What the statement says of r0 to r9.
pub fn kinds_of(statement: &Statement) -> [StatedKind; 10] {
    let mut kinds = [StatedKind::Unstated; 10];
    for (register, kind) in statement.kinds().iter().enumerate() {
        if register < 10 {
            kinds[register] = *kind;
        }
    }
    kinds
}

/// The statements with their ranks.
fn statements_of(memory: &Memory, drafts: &[SiteDraft], plan: &RankPlan) -> Vec<Statement> {
    let mut statements = Vec::new(memory.alloc);
    for site in 0..drafts.len() {
        if let Some(one) = &drafts[site].stated {
            let rank = plan.rank_at(site);
            if let Some(ranked) = Statement::new(one.slot(), rank, kinds_of(one), *one.stack()) {
                memory.push(&mut statements, ranked)
            }
        }
    }
    statements
}

/// Ranks for the statements, unless an allocation is refused.
fn ranked(
    memory: &Memory,
    found: &Inference,
    given: &[Statement],
    are_kept: bool,
    most: u64,
) -> Ranking {
    let bounds = bounds_of(memory, &found.drafts);
    let numbers = numbers_below(memory, found.edges.len());
    let ways = SiteEdges::new(memory, &found.edges, numbers, bounds.len());
    let all = Circle {
        sites: numbers_below(memory, bounds.len()),
        within: numbers_below(memory, found.edges.len()),
    };
    let graph = Graph {
        memory,
        sites: &found.sites,
        edges: &found.edges,
        ways: &ways,
        all: &all,
        bounds: &bounds,
        most,
    };
    let mut plan = RankPlan::new(memory, bounds.len());
    let unranked = planned(&graph, given, are_kept, &mut plan);
    Ranking {
        entry_rank: plan.rank_at(found.drafts.len()).constant,
        statements: statements_of(memory, &found.drafts, &plan),
        unranked,
    }
}

/// Finds statements with ranks for the code at the hook. The given statements are fixed if
/// `are_kept`, and their ranks tried first; otherwise only their numbers are used, as limits, and
/// their ranks only if none are found. `most` is the greatest constant that keeps the code within
/// its budget.
///
/// # Errors
/// `AllocError` if an allocation is refused.
pub fn rank_statements(
    alloc: Global,
    code: &Code,
    hook: Hook,
    given: &[Statement],
    are_kept: bool,
    most: u64,
) -> Result<Ranking, AllocError> {
    let memory = Memory::new(alloc);
    let found = infer_statements(&memory, code, hook, given, are_kept);
    memory.enough(ranked(&memory, &found, given, are_kept, most))
}
