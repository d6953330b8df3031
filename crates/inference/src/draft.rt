//! The statements found so far.

use crate::edges::Edge;
use crate::joining::{Growth, Value, first_statement, joined_statement};
use crate::liveness::Registers;
use crate::memory::{Memory, element_or};
use kinds::{AbstractState, put};
use object::Statement;

/// What a pass over the code does with the state at an edge.
#[derive(Clone, Copy)]
pub enum Purpose {
    /// It widens the statement at the target.
    Rise,
    /// It collects what reaches each site from the edges alone, and counts backward jumps.
    Collect,
    /// It records the edge.
    Gather,
}

/// What was found for a site so far.
#[derive(Clone, Copy)]
pub struct SiteDraft {
    pub stated: Option<Statement>,
    /// What a narrowing pass finds, or the states at the site that aren't followed yet.
    pub found: Option<Statement>,
    /// Whether its segment is still to be visited, since its statement has changed.
    pub is_waiting: bool,
    /// How often its statement has changed.
    pub changes: u32,
    /// Whether its statement is fixed.
    pub is_kept: bool,
    /// Whether backward jumps to it count.
    pub is_counted: bool,
    /// The maximum number of those on the paths of what isn't followed yet.
    pub turns: u32,
}

pub const NOTHING: SiteDraft = SiteDraft {
    stated: None,
    found: None,
    is_waiting: false,
    changes: 0,
    is_kept: false,
    is_counted: false,
    turns: 0,
};

/// The statements found so far, with an element for each site.
#[derive(Drop)]
pub struct StatementDraft {
    pub purpose: Purpose,
    /// Whether edges that no run takes are followed too, to sites that have no statement.
    pub is_lenient: bool,
    pub has_changed: bool,
    /// Whether the entry's segment is still to be visited.
    pub is_new: bool,
    /// The limits that growing bounds are widened to.
    limits: Vec<u64>,
    pub sites: Vec<SiteDraft>,
    pub edges: Vec<Edge>,
    /// The number of backward jumps that count, up to the start of the segment that is followed.
    pub turns: u32,
    /// The maximum of these numbers.
    pub max_turns: u32,
}

/// An edge to a site: the site and its slot; the site that the edge comes from, or the number of
/// sites for the entry; whether it is a backward jump; whether any backward jump leads to the site;
/// and which registers may be read from there on.
#[derive(Clone, Copy)]
pub struct Arrival {
    pub slot: usize,
    pub site: usize,
    pub from: usize,
    pub is_back: bool,
    pub is_head: bool,
    pub live: Registers,
}

/// A statement's bounds are exact for the first `EXACT_CHANGES` changes, then widened to limits up
/// to `LIMITED_CHANGES`, and then given up.
const EXACT_CHANGES: u32 = 3;

const LIMITED_CHANGES: u32 = 40;

impl StatementDraft {
    /// A draft without statements, for `size` sites. Bounds that grow are widened to these limits.
    pub fn new(memory: &Memory, size: usize, limits: Vec<u64>) -> StatementDraft {
        StatementDraft {
            purpose: Purpose::Rise,
            is_lenient: false,
            has_changed: false,
            is_new: true,
            limits,
            sites: memory.filled(NOTHING, size),
            edges: Vec::new(memory.alloc),
            turns: 0,
            max_turns: 0,
        }
    }

    /// Whether the site lacks a statement, and edges that no run takes may give it one.
    pub fn lacks(&self, site: usize) -> bool {
        self.is_lenient && element_or(&self.sites, site, NOTHING).stated.is_none()
    }

    /// Makes what a narrowing pass found the statements. A site that no edge reached keeps its own.
    pub fn settle(&mut self) {
        for site in 0..self.sites.len() {
            let mut draft = element_or(&self.sites, site, NOTHING);
            if draft.found.is_some() {
                self.has_changed |= draft.found != draft.stated;
                draft.stated = draft.found;
                draft.found = None;
                put(&mut self.sites, site, draft);
            }
        }
    }

    /// Whether only segments whose statements have changed are visited.
    pub fn is_rising(&self) -> bool {
        matches!(self.purpose, Purpose::Rise)
    }

    /// The statement at the site, if its segment is to be visited now.
    pub fn due(&mut self, site: usize) -> Option<Statement> {
        let mut draft = element_or(&self.sites, site, NOTHING);
        let is_due = draft.is_waiting | !self.is_rising();
        let stated = if is_due { draft.stated } else { None };
        draft.is_waiting = false;
        put(&mut self.sites, site, draft);
        stated
    }

    /// Replaces the statement at the site.
    pub fn assume(&mut self, site: usize, statement: Option<Statement>) {
        let mut draft = element_or(&self.sites, site, NOTHING);
        draft.stated = statement;
        draft.changes = draft.changes.saturating_add(1);
        draft.is_waiting = true;
        put(&mut self.sites, site, draft);
        self.has_changed = true;
    }

    /// The statement at the edge's target, which has changed so often, extended by what is known at
    /// the edge.
    fn grown(
        &self,
        old: Option<Statement>,
        changes: u32,
        arrival: &Arrival,
        state: &AbstractState<Value>,
    ) -> Option<Statement> {
        let Some(old) = old else {
            return first_statement(arrival.slot, arrival.live, state);
        };
        let growth = Growth {
            is_exact: !(arrival.is_head & self.is_rising()) | (changes < EXACT_CHANGES),
            limits: if changes < LIMITED_CHANGES {
                self.limits.as_slice()
            } else {
                &[]
            },
        };
        joined_statement(growth, &old, arrival.live, state)
    }

    /// Extends the statement at the edge's target, or what was collected there, by what is known at
    /// the edge. A statement that is fixed stays as it is.
    fn grow(&mut self, arrival: &Arrival, state: &AbstractState<Value>) {
        let mut draft = element_or(&self.sites, arrival.site, NOTHING);
        if draft.is_kept {
            return;
        }
        if self.is_rising() {
            let next = self.grown(draft.stated, draft.changes, arrival, state);
            if next != draft.stated {
                self.assume(arrival.site, next)
            }
        } else {
            let is_turn = arrival.is_back & draft.is_counted;
            let turns = self.turns.saturating_add(u32::from(is_turn));
            draft.turns = draft.turns.max(turns);
            draft.found = self.grown(draft.found, draft.changes, arrival, state);
            put(&mut self.sites, arrival.site, draft);
            self.max_turns = self.max_turns.max(turns);
        }
    }

    /// Takes an edge with this state.
    pub fn take(&mut self, memory: &Memory, arrival: &Arrival, state: &AbstractState<Value>) {
        if !matches!(self.purpose, Purpose::Gather) {
            return self.grow(arrival, state);
        }
        let edge = Edge {
            from: arrival.from,
            to: arrival.site,
            is_back: arrival.is_back,
            state: AbstractState {
                kinds: memory.copied(&state.kinds),
                facts: memory.copied(&state.facts),
                entries: Vec::new(memory.alloc),
            },
        };
        memory.push(&mut self.edges, edge)
    }
}
