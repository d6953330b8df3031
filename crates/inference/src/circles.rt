//! Loops among the sites, and how a number is carried around one.

use crate::edges::Edge;
use crate::loops::{Circle, SiteEdges, mark};
use crate::memory::{Memory, element_or};
use crate::sites::Sites;
use crate::weights::Bounds;
use kinds::{Fact, put};

/// The edges between the sites, and the bounds of the numbers at their starts.
#[derive(Clone, Copy)]
pub struct Graph<'a> {
    pub memory: &'a Memory,
    pub sites: &'a Sites,
    pub edges: &'a [Edge],
    /// All of the edges, indexed for the search for loops.
    pub ways: &'a SiteEdges,
    /// All of the edges, all sites and the entry, as one loop.
    pub all: &'a Circle,
    /// An element for each site, and the last one for the entry.
    pub bounds: &'a [Bounds],
    /// The greatest constant that keeps the program within its budget.
    pub most: u64,
}

/// How a number is carried around a loop: in which register at each site, and on which of its edges
/// it doesn't fall. A number that is lost on an edge of the loop neither falls nor rises.
#[derive(Drop)]
pub struct Carried {
    pub registers: Vec<Option<u8>>,
    stays: Vec<bool>,
    pub has_fall: bool,
    pub has_rise: bool,
    is_lost: bool,
}

/// The fact of the register that holds the number at the edge's target.
fn fact_at(registers: &[Option<u8>], edge: &Edge) -> Option<Fact> {
    match element_or(registers, edge.to, None) {
        Some(register) => element_or(&edge.state.facts, usize::from(register), None),
        None => None,
    }
}

impl<'a> Graph<'a> {
    /// The greatest value of the register at the site.
    pub fn high(&self, node: usize, register: u8) -> u64 {
        let high = match self.bounds.get(node) {
            Some(bounds) => element_or(&bounds.highs, usize::from(register), None),
            None => None,
        };
        high.unwrap_or(u64::MAX)
    }

    /// The loop whose first site is this one, by these edges, if that is the target of a backward
    /// jump and isn't done. Marks its sites as done.
    pub fn next_circle(&self, ways: &SiteEdges, head: usize, done: &mut Vec<bool>) -> Circle {
        if !self.sites.is_head(head) | element_or(done, head, false) {
            return Circle {
                sites: Vec::new(self.memory.alloc),
                within: Vec::new(self.memory.alloc),
            };
        }
        let circle = ways.circle(self.memory, self.edges, head);
        mark(&circle.sites, done);
        circle
    }

    /// Follows the number back along each edge of the loop once, the last edges first: from the
    /// register at its end to that at its start. Returns whether anything was new.
    fn trace(&self, circle: &Circle, registers: &mut Vec<Option<u8>>) -> bool {
        let mut has_changed = false;
        for passed in 0..circle.within.len() {
            let place = circle.within.len() - 1 - passed;
            if let Some(edge) = self.edges.get(circle.within[place]) {
                if element_or(registers, edge.from, None).is_none() {
                    if let Some(fact) = fact_at(registers, edge) {
                        put(registers, edge.from, Some(fact.origin));
                        has_changed = true;
                    }
                }
            }
        }
        has_changed
    }

    /// Records on which edges of the loop the number falls, and whether it rises on any.
    fn follow(&self, circle: &Circle, carried: &mut Carried) {
        for place in 0..circle.within.len() {
            if let Some(edge) = self.edges.get(circle.within[place]) {
                match fact_at(&carried.registers, edge) {
                    Some(fact) => {
                        put(&mut carried.stays, place, fact.down <= fact.up);
                        carried.has_fall |= fact.up < fact.down;
                        carried.has_rise |= fact.down < fact.up;
                        let from = element_or(&carried.registers, edge.from, None);
                        carried.is_lost |= from != Some(fact.origin);
                    }
                    None => carried.is_lost = true,
                }
            }
        }
        carried.has_fall &= !carried.is_lost;
        carried.has_rise &= !carried.is_lost;
    }

    /// How the number that the register holds at the head is carried around the loop.
    pub fn carried(&self, circle: &Circle, head: usize, register: u8) -> Carried {
        let mut carried = Carried {
            registers: self.memory.filled(None, self.bounds.len()),
            stays: self.memory.filled(true, circle.within.len()),
            has_fall: false,
            has_rise: false,
            is_lost: false,
        };
        put(&mut carried.registers, head, Some(register));
        for _ in 0..circle.sites.len() {
            if !self.trace(circle, &mut carried.registers) {
                break;
            }
        }
        self.follow(circle, &mut carried);
        carried
    }

    /// The edges of the loop on which the number doesn't fall.
    pub fn rest(&self, circle: &Circle, carried: &Carried) -> Vec<usize> {
        let mut rest = Vec::new(self.memory.alloc);
        for place in 0..circle.within.len() {
            if element_or(&carried.stays, place, false) {
                self.memory.push(&mut rest, circle.within[place])
            }
        }
        rest
    }
}
