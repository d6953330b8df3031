//! Passes over the code until the statements don't change any more.

use crate::draft::{NOTHING, Purpose, SiteDraft};
use crate::edges::Edge;
use crate::flow::Passes;
use crate::memory::{Memory, element_or};
use crate::sites::Sites;
use crate::widening::limits_of;
use isa::{Code, Hook};
use kinds::put;
use object::Statement;

/// The statements that were found for code, without ranks, and the edges between them, with what is
/// known there.
#[derive(Drop)]
pub struct Inference {
    pub sites: Sites,
    pub drafts: Vec<SiteDraft>,
    pub edges: Vec<Edge>,
}

/// The maximum number of narrowing passes.
const MAX_FALLS: usize = 12;

/// An upper bound of the changes of one statement, before and after its bounds are given up.
const MAX_CHANGES: usize = 64;

/// Passes over the code once.
fn pass(passes: &mut Passes<'_>, purpose: Purpose) {
    passes.draft.purpose = purpose;
    passes.draft.has_changed = false;
    passes.pass();
    passes.draft.settle()
}

/// Passes over the code until another pass would find nothing more, at most `most` times.
fn repeat(passes: &mut Passes<'_>, purpose: Purpose, most: usize) {
    for _ in 0..most {
        pass(passes, purpose);
        if passes.program.memory.is_refused.get() | !passes.draft.has_changed {
            break;
        }
    }
}

/// Widens the statements until each edge stays within them, and then narrows them to what reaches
/// them. All segments are visited again. If lenient, sites without a statement get one from edges
/// that no run takes.
fn widen_and_narrow(passes: &mut Passes<'_>, is_lenient: bool) {
    passes.draft.is_new = true;
    for site in 0..passes.draft.sites.len() {
        let mut draft = element_or(&passes.draft.sites, site, NOTHING);
        draft.is_waiting = true;
        put(&mut passes.draft.sites, site, draft)
    }
    passes.draft.is_lenient = is_lenient;
    let most = passes.draft.sites.len().saturating_mul(MAX_CHANGES);
    repeat(passes, Purpose::Rise, most.saturating_add(1));
    passes.draft.is_lenient = false;
    repeat(passes, Purpose::Collect, MAX_FALLS)
}

/// Fixes these statements, whatever reaches them.
fn keep(passes: &mut Passes<'_>, kept: &[Statement]) {
    for statement in kept {
        if let Some(site) = passes.program.sites.at(statement.slot() as usize) {
            let mut draft = NOTHING;
            draft.stated = Some(*statement);
            draft.is_kept = true;
            put(&mut passes.draft.sites, site, draft)
        }
    }
}

/// Finds the statements and the edges between them.
fn find(passes: &mut Passes<'_>, given: &[Statement], are_kept: bool) {
    if are_kept {
        keep(passes, given)
    }
    widen_and_narrow(passes, false);
    widen_and_narrow(passes, true);
    pass(passes, Purpose::Gather)
}

/// Finds statements for the code at the hook, unless an allocation is refused: at each target of a
/// jump, after each instruction that never falls through, and where one is given. Given statements
/// are fixed if `are_kept`; otherwise only their numbers are used, as limits.
pub fn infer_statements(
    memory: &Memory,
    code: &Code,
    hook: Hook,
    given: &[Statement],
    are_kept: bool,
) -> Inference {
    let limits = limits_of(memory, code, given);
    let mut passes = Passes::new(memory, code, hook, given, limits);
    find(&mut passes, given, are_kept);
    let Passes { program, draft, .. } = passes;
    Inference {
        sites: program.sites,
        drafts: draft.sites,
        edges: draft.edges,
    }
}
