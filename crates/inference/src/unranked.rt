//! Which loops have no rank.

use crate::circles::Graph;
use crate::loops::mark;
use crate::memory::element_or;
use crate::plan::RankPlan;
use crate::trouble::{Endless, unranked_loop};
use kinds::put;

/// The loops that have no rank, if there are any.
#[derive(Drop)]
pub struct Unranked {
    /// The slots at which they begin.
    pub slots: Vec<usize>,
    /// Whether each of them has one on its own, but they have none together; the outermost comes
    /// first. Else each has none on its own, though the loops within it have.
    pub are_together: bool,
    /// Which loop has none, and why.
    pub endless: Option<Endless>,
}

/// Whether one of the sites is marked.
fn has_marked(sites: &[usize], marks: &[bool]) -> bool {
    for site in sites {
        if element_or(marks, *site, false) {
            return true;
        }
    }
    false
}

impl<'a> Graph<'a> {
    /// Whether a loop begins at the site that has no rank on its own, though those within it have.
    fn is_unranked(&self, plan: &mut RankPlan, unranked: &[bool], head: usize) -> bool {
        let circle = self.ways.circle(self.memory, self.edges, head);
        !circle.sites.is_empty()
            && !has_marked(&circle.sites, unranked)
            && !self.rank_circle(plan, &circle, head)
    }

    /// Marks the heads of loops that have no rank on their own, though those within them have,
    /// found from the last site on.
    fn mark_unranked(&self, plan: &mut RankPlan, marks: &mut Vec<bool>) {
        let count = self.sites.slots.len();
        for passed in 0..count {
            let head = count - 1 - passed;
            if self.sites.is_head(head) && self.is_unranked(plan, marks, head) {
                put(marks, head, true)
            }
        }
    }

    /// Marks the sites of the loop that begins at this one; all sites if there is none.
    fn mark_together(&self, failed: Option<usize>, marks: &mut Vec<bool>) {
        match failed {
            Some(head) => mark(
                &self.ways.circle(self.memory, self.edges, head).sites,
                marks,
            ),
            None => mark(&self.all.sites, marks),
        }
    }

    /// The slots of the heads that are marked.
    fn slots_of(&self, marks: &[bool]) -> Vec<usize> {
        let mut slots = Vec::new(self.memory.alloc);
        for site in 0..self.sites.slots.len() {
            if self.sites.is_head(site) & element_or(marks, site, false) {
                let slot = element_or(&self.sites.slots, site, 0);
                self.memory.push(&mut slots, slot);
            }
        }
        slots
    }

    /// The loops without a rank. If each loop has one on its own, those that have none together: in
    /// the loop that begins at this site, or all.
    pub fn unranked_loops(&self, plan: &mut RankPlan, failed: Option<usize>) -> Unranked {
        let mut marks = self.memory.filled(false, self.bounds.len());
        self.mark_unranked(plan, &mut marks);
        let mut slots = self.slots_of(&marks);
        let are_together = slots.is_empty();
        if are_together {
            self.mark_together(failed, &mut marks);
            slots = self.slots_of(&marks);
        }
        Unranked {
            slots,
            are_together,
            endless: unranked_loop(self, failed),
        }
    }
}
