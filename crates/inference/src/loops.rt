//! Edges between the sites, and the loops among them.

use crate::edges::Edge;
use crate::memory::{Memory, element_or};
use kinds::put;

/// Some of the edges, by their numbers, in the order of the sites at which they start.
#[derive(Drop)]
pub struct SiteEdges {
    numbers: Vec<usize>,
    /// For each site the place of the first edge that starts there or at a later site.
    starts: Vec<usize>,
    /// For each site the last one with an edge back to it.
    lasts: Vec<usize>,
}

/// A loop, if there is one: its sites, and the edges between them, in the order of the sites at
/// which they start.
#[derive(Drop)]
pub struct Circle {
    pub sites: Vec<usize>,
    pub within: Vec<usize>,
}

/// The numbers from 0 up to but excluding `count`.
pub fn numbers_below(memory: &Memory, count: usize) -> Vec<usize> {
    let mut numbers = memory.filled(0, count);
    for number in 0..count {
        put(&mut numbers, number, number)
    }
    numbers
}

/// Records for each of these edges where it starts and leads back to. The entry, which has the last
/// number, comes first among the edges, and no edge leads back to it. A site at which no edge
/// starts gets the place of the next one's first edge.
fn note(edges: &[Edge], numbers: &[usize], starts: &mut Vec<usize>, lasts: &mut Vec<usize>) {
    for passed in 0..numbers.len() {
        let place = numbers.len() - 1 - passed;
        if let Some(edge) = edges.get(numbers[place]) {
            if edge.from.saturating_add(1) < starts.len() {
                let last = element_or(lasts, edge.to, 0);
                put(starts, edge.from, place);
                put(lasts, edge.to, last.max(edge.from))
            }
        }
    }
    let mut next = numbers.len();
    for passed in 0..starts.len() {
        let site = starts.len() - 1 - passed;
        next = next.min(starts[site]);
        put(starts, site, next)
    }
}

/// Marks these sites.
pub fn mark(sites: &[usize], marks: &mut Vec<bool>) {
    for site in sites {
        put(marks, *site, true)
    }
}

/// Whether both ends of the edge are marked.
fn is_within(marks: &[bool], edge: &Edge) -> bool {
    element_or(marks, edge.from, false) & element_or(marks, edge.to, false)
}

impl SiteEdges {
    /// These edges, between `nodes` sites, the entry included.
    pub fn new(memory: &Memory, edges: &[Edge], numbers: Vec<usize>, nodes: usize) -> SiteEdges {
        let mut starts = memory.filled(numbers.len(), nodes);
        let mut lasts = memory.filled(0, nodes);
        note(edges, &numbers, &mut starts, &mut lasts);
        SiteEdges {
            numbers,
            starts,
            lasts,
        }
    }

    /// The edges within the stretch that begins at the site, which include all edges of a loop that
    /// begins there. No edge leads back into the stretch from a site behind it.
    fn stretch(&self, memory: &Memory, edges: &[Edge], head: usize) -> Vec<usize> {
        let mut last = head;
        for site in head..self.lasts.len() {
            if last < site {
                break;
            }
            last = last.max(self.lasts[site]);
        }
        let mut kept = Vec::new(memory.alloc);
        for place in element_or(&self.starts, head, usize::MAX)..self.numbers.len() {
            let number = self.numbers[place];
            if let Some(edge) = edges.get(number) {
                if last < edge.from {
                    break;
                }
                if (head <= edge.to) & (edge.to <= last) {
                    memory.push(&mut kept, number)
                }
            }
        }
        kept
    }

    /// The loop whose first site is this one. Without sites if there is none.
    pub fn circle(&self, memory: &Memory, edges: &[Edge], head: usize) -> Circle {
        let kept = self.stretch(memory, edges, head);
        let nodes = self.starts.len();
        let forward = marked_from(memory, edges, &kept, nodes, head, true);
        let back = marked_from(memory, edges, &kept, nodes, head, false);
        let mut circle = Circle {
            sites: Vec::new(memory.alloc),
            within: Vec::new(memory.alloc),
        };
        for number in &kept {
            if let Some(edge) = edges.get(*number) {
                if is_within(&forward, edge) & is_within(&back, edge) {
                    circle.add(memory, edge.from, *number)
                }
            }
        }
        circle
    }
}

impl Circle {
    /// Adds an edge, with the site at which it starts. The edges of a site come one after the
    /// other.
    fn add(&mut self, memory: &Memory, from: usize, number: usize) {
        memory.push(&mut self.within, number);
        let last = self.sites.last().copied().unwrap_or(usize::MAX);
        if last != from {
            memory.push(&mut self.sites, from)
        }
    }
}

/// Marks the end of each of these edges that starts at a marked site or at the head, in the order
/// in which most of them lead. Returns whether anything was new.
fn spread(
    edges: &[Edge],
    kept: &[usize],
    head: usize,
    is_forward: bool,
    marks: &mut Vec<bool>,
) -> bool {
    let mut has_changed = false;
    for passed in 0..kept.len() {
        let behind = kept.len() - 1 - passed;
        let place = if is_forward { passed } else { behind };
        if let Some(edge) = edges.get(kept[place]) {
            let (here, there) = if is_forward {
                (edge.from, edge.to)
            } else {
                (edge.to, edge.from)
            };
            let is_reached = (here == head) | element_or(marks, here, false);
            if is_reached & !element_or(marks, there, false) {
                put(marks, there, true);
                has_changed = true;
            }
        }
    }
    has_changed
}

/// The sites that are reached from the head by one or more of these edges, forward or backward.
fn marked_from(
    memory: &Memory,
    edges: &[Edge],
    kept: &[usize],
    nodes: usize,
    head: usize,
    is_forward: bool,
) -> Vec<bool> {
    let mut marks = memory.filled(false, nodes);
    for _ in 0..kept.len() {
        if !spread(edges, kept, head, is_forward, &mut marks) {
            break;
        }
    }
    marks
}

/// Removes each edge whose start no remaining edge leads to. Returns how many there were.
fn take_out(edges: &[Edge], kept: &[usize], entries: &mut Vec<u32>, gone: &mut Vec<bool>) -> usize {
    let mut count = 0usize;
    for place in 0..kept.len() {
        if let Some(edge) = edges.get(kept[place]) {
            if !element_or(gone, place, false) && element_or(entries, edge.from, 0) == 0 {
                let fewer = element_or(entries, edge.to, 0).saturating_sub(1);
                put(entries, edge.to, fewer);
                put(gone, place, true);
                count = count.saturating_add(1);
            }
        }
    }
    count
}

/// Whether there is no loop among these edges, so that all can be removed one after the other.
pub fn is_straight(memory: &Memory, edges: &[Edge], kept: &[usize], nodes: usize) -> bool {
    // The number of the edges that lead to each site.
    let mut entries = memory.filled(0u32, nodes);
    for number in kept {
        if let Some(edge) = edges.get(*number) {
            let more = element_or(&entries, edge.to, 0).saturating_add(1);
            put(&mut entries, edge.to, more)
        }
    }
    let mut gone = memory.filled(false, kept.len());
    let mut left = kept.len();
    for _ in 0..kept.len() {
        let count = take_out(edges, kept, &mut entries, &mut gone);
        if count == 0 {
            break;
        }
        left = left.saturating_sub(count);
    }
    left == 0
}
