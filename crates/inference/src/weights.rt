//! The constants that ranks need: at the start of each edge as much as at its end, plus what the
//! edge adds.

use crate::circles::Graph;
use crate::draft::SiteDraft;
use crate::edges::Edge;
use crate::joining::Value;
use crate::loops::Circle;
use crate::memory::{Memory, element_or};
use crate::plan::{NO_RANK, RankCandidate, RankPlan};
use absdom::Domain;
use kinds::{Kind, kind_of, put};
use object::{Rank, RankTerm, StatedKind as Stated, Statement};
use verifier::bound_of;

/// The least and the greatest value of each register at the start of a segment.
#[derive(Clone, Copy)]
pub struct Bounds {
    pub lows: [u64; 10],
    pub highs: [Option<u64>; 10],
}

const NO_BOUNDS: Bounds = Bounds {
    lows: [0; 10],
    highs: [None; 10],
};

/// By how much two sums of multiples may differ: the first plus `saved` is at most the second plus
/// `needed`. Not bounded if they differ by a multiple of a number without a bound.
#[derive(Clone, Copy)]
struct Gap {
    saved: u128,
    needed: u128,
    is_bounded: bool,
}

fn bounds_at(statement: &Statement) -> Bounds {
    let mut bounds = NO_BOUNDS;
    for register in 0..10usize {
        let stated = element_or(statement.kinds(), register, Stated::Unstated);
        if let Kind::Number(value) = kind_of::<Value>(stated) {
            let (low, high) = value.range();
            bounds.lows[register] = low;
            bounds.highs[register] = Some(high);
        }
    }
    bounds
}

/// The bounds at each site, and at the entry, where no register has any.
pub fn bounds_of(memory: &Memory, drafts: &[SiteDraft]) -> Vec<Bounds> {
    let mut all = memory.filled(NO_BOUNDS, drafts.len() + 1);
    for site in 0..drafts.len() {
        if let Some(statement) = &drafts[site].stated {
            put(&mut all, site, bounds_at(statement))
        }
    }
    all
}

fn add_term(coefficients: &mut [u64; 10], term: Option<RankTerm>) {
    if let Some(term) = term {
        let register = usize::from(term.register());
        if register < 10 {
            let more = coefficients[register].saturating_add(u64::from(term.coefficient()));
            coefficients[register] = more;
        }
    }
}

/// A multiple of the number.
pub fn multiple(factor: u64, number: u64) -> u128 {
    u128::from(factor).saturating_mul(u128::from(number))
}

/// The gap between these multiples and those of a rank's terms.
fn gap_of(lefts: [u64; 10], place: RankCandidate, bounds: &Bounds) -> Gap {
    let mut rights = [0; 10];
    add_term(&mut rights, place.first);
    add_term(&mut rights, place.second);
    let mut gap = Gap {
        saved: 0,
        needed: 0,
        is_bounded: true,
    };
    for register in 0..10usize {
        let left = lefts[register];
        let right = rights[register];
        if left <= right {
            let saved = multiple(right - left, bounds.lows[register]);
            gap.saved = gap.saved.saturating_add(saved);
        } else if let Some(high) = bounds.highs[register] {
            gap.needed = gap.needed.saturating_add(multiple(left - right, high));
        } else {
            gap.is_bounded = false;
        }
    }
    gap
}

/// The least constant at the start of an edge: that at its end, plus `more`, minus `less`.
#[derive(Clone, Copy)]
struct Need {
    from: usize,
    to: usize,
    more: u128,
    less: u128,
}

/// What the edge needs; `None` if no constant is enough.
fn need_of(plan: &RankPlan, bounds: &[Bounds], edge: &Edge) -> Option<Need> {
    let end = element_or(&plan.places, edge.to, NO_RANK);
    let slope = Rank {
        constant: 0,
        first: end.first,
        second: end.second,
    };
    let Some(line) = bound_of(slope, &edge.state) else {
        return None;
    };
    let start = element_or(&plan.places, edge.from, NO_RANK);
    let from = element_or(bounds, edge.from, NO_BOUNDS);
    let gap = gap_of(line.coefficients, start, &from);
    if !gap.is_bounded {
        return None;
    }
    let step = if edge.is_back { 1 } else { 0 };
    let more = line
        .constant
        .saturating_add(gap.needed)
        .saturating_add(step);
    Some(Need {
        from: edge.from,
        to: edge.to,
        more,
        less: line.down.saturating_add(gap.saved),
    })
}

/// Raises the constants until each edge has what it needs, in at most `rounds` rounds. Returns
/// whether that succeeds: none exceeds the maximum, and they stop rising.
fn raise(plan: &mut RankPlan, needs: &[Need], rounds: usize, most: u64) -> bool {
    for _ in 0..rounds {
        let mut is_still = true;
        // An edge raises the constant at its start, so the last edges come first.
        for passed in 0..needs.len() {
            let need = &needs[needs.len() - 1 - passed];
            let end = u128::from(element_or(&plan.places, need.to, NO_RANK).now);
            let needed = end.saturating_add(need.more).saturating_sub(need.less);
            if u128::from(most) < needed {
                return false;
            }
            let mut start = element_or(&plan.places, need.from, NO_RANK);
            if u128::from(start.now) < needed {
                start.now = needed as u64;
                put(&mut plan.places, need.from, start);
                is_still = false;
            }
        }
        if is_still {
            return true;
        }
    }
    false
}

impl<'a> Graph<'a> {
    /// Adds what these edges need. Returns whether there are constants that are enough.
    fn add_needs(&self, plan: &RankPlan, kept: &[usize], needs: &mut Vec<Need>) -> bool {
        for number in kept {
            if let Some(edge) = self.edges.get(*number) {
                let Some(need) = need_of(plan, self.bounds, edge) else {
                    return false;
                };
                self.memory.push(needs, need)
            }
        }
        true
    }

    /// Raises the constants from their starting values until each edge of the loop has what it
    /// needs. Returns whether that succeeds.
    pub fn settles(&self, plan: &mut RankPlan, circle: &Circle) -> bool {
        plan.flatten(&circle.sites);
        let mut needs = Vec::new(self.memory.alloc);
        let rounds = circle.sites.len().saturating_add(1);
        self.add_needs(plan, &circle.within, &mut needs) && raise(plan, &needs, rounds, self.most)
    }
}
