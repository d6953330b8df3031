//! The maximum number of iterations of loops, found by following them one iteration at a time.

use crate::draft::{NOTHING, Purpose, SiteDraft};
use crate::flow::Passes;
use crate::memory::{Memory, element_or};
use crate::sites::Sites;
use isa::{Code, Hook};
use kinds::put;
use object::Statement;
use std::alloc::{AllocError, Global};

/// The maximum number of instructions that are followed.
const MAX_STEPS: usize = 400_000;

/// The state at a site that was followed when nothing else was left to follow. All that follows
/// depends on it alone, so once it comes back it comes back for ever.
#[derive(Clone, Copy)]
struct Mark {
    site: usize,
    state: Option<Statement>,
    /// The step at which a later state takes its place.
    until: usize,
}

/// The first reached site from `from` on and before `to`.
fn first_pending(drafts: &[SiteDraft], from: usize, to: usize) -> Option<usize> {
    for site in from..to {
        if let Some(SiteDraft { found: Some(_), .. }) = drafts.get(site) {
            return Some(site);
        }
    }
    None
}

/// The site to follow next: the first reached one, but the head of a loop only after all that is
/// left within the loop.
fn next_of(drafts: &[SiteDraft], sites: &Sites) -> Option<usize> {
    let Some(mut next) = first_pending(drafts, 0, drafts.len()) else {
        return None;
    };
    for _ in 0..drafts.len() {
        match first_pending(drafts, next.saturating_add(1), drafts.len()) {
            Some(inner) if sites.is_in_loop(next, inner) => next = inner,
            _ => break,
        }
    }
    Some(next)
}

/// Whether a state comes back and nothing else is left to follow, so that the loops don't end. The
/// mark moves on at each step whose number is a power of two, so that a circle of any length is
/// found.
fn comes_back(drafts: &[SiteDraft], mark: &mut Mark, site: usize, step: usize) -> bool {
    if first_pending(drafts, 0, site).is_some()
        || first_pending(drafts, site.saturating_add(1), drafts.len()).is_some()
    {
        return false;
    }
    let state = element_or(drafts, site, NOTHING).found;
    if (mark.site == site) & (mark.state == state) {
        return true;
    }
    if step >= mark.until {
        *mark = Mark {
            site,
            state,
            until: step.saturating_mul(2).max(1),
        }
    }
    false
}

/// Follows the segment that begins at the site. Returns the number of its instructions.
fn follow(passes: &mut Passes<'_>, site: usize) -> usize {
    let mut draft = element_or(&passes.draft.sites, site, NOTHING);
    let Some(statement) = draft.found else {
        return 0;
    };
    passes.draft.turns = draft.turns;
    draft.found = None;
    draft.turns = 0;
    put(&mut passes.draft.sites, site, draft);
    passes.begin(site, &statement);
    let first = element_or(&passes.program.sites.slots, site, 0);
    passes.follow_segment(first)
}

/// Follows the entry's segment and the reached sites until there is none left, with at most `most`
/// backward jumps that count. Returns the maximum number of those, if it gets there.
fn turns_of(passes: &mut Passes<'_>, most: u32) -> Option<u32> {
    passes.draft.purpose = Purpose::Collect;
    passes.begin_at_entry(true);
    passes.follow_segment(0);
    let mut mark = Mark {
        site: 0,
        state: None,
        until: 0,
    };
    let mut steps = 0usize;
    for step in 0..MAX_STEPS {
        let Some(site) = next_of(&passes.draft.sites, &passes.program.sites) else {
            return Some(passes.draft.max_turns);
        };
        if comes_back(&passes.draft.sites, &mut mark, site, step) {
            break;
        }
        let more = follow(passes, site).max(1);
        steps = steps.saturating_add(more);
        if (steps > MAX_STEPS) | (passes.draft.max_turns > most) {
            break;
        }
    }
    None
}

/// The program, with no site followed yet. Backward jumps to these slots count.
fn passes_of<'a>(memory: &'a Memory, code: &'a Code, hook: Hook, heads: &[usize]) -> Passes<'a> {
    let mut passes = Passes::new(memory, code, hook, &[], Vec::new(memory.alloc));
    for head in heads {
        if let Some(site) = passes.program.sites.at(*head) {
            if let Some(draft) = passes.draft.sites.get_mut(site) {
                draft.is_counted = true;
            }
        }
    }
    passes
}

/// The maximum number of backward jumps to these slots in a run of the code at the hook, by what is
/// known iteration by iteration. `None` if it may exceed `most`, or isn't found because the loops
/// are too long or nothing that is known ends them.
///
/// # Errors
/// `AllocError` if an allocation is refused.
pub fn max_turns(
    alloc: Global,
    code: &Code,
    hook: Hook,
    heads: &[usize],
    most: u32,
) -> Result<Option<u32>, AllocError> {
    let memory = Memory::new(alloc);
    let mut passes = passes_of(&memory, code, hook, heads);
    let turns = turns_of(&mut passes, most);
    memory.enough(turns)
}
