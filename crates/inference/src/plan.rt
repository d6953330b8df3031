//! Ranks under construction: at each site the terms, and the constant that they need.

use crate::memory::{Memory, element_or};
use kinds::put;
use object::{Rank, RankTerm};

/// Which of the two terms of a rank.
#[derive(Clone, Copy)]
pub enum WhichTerm {
    First,
    Second,
}

/// Ranks: an element for each site, and the last one for the entry.
#[derive(Drop)]
pub struct RankPlan {
    pub places: Vec<RankCandidate>,
}

/// The terms and the constant of a rank, and the value from which the constant is raised.
#[derive(Clone, Copy)]
pub struct RankCandidate {
    pub first: Option<RankTerm>,
    pub second: Option<RankTerm>,
    pub now: u64,
    least: u64,
}

pub const NO_RANK: RankCandidate = RankCandidate {
    first: None,
    second: None,
    now: 0,
    least: 0,
};

impl RankPlan {
    /// Ranks that are all 0.
    pub fn new(memory: &Memory, nodes: usize) -> RankPlan {
        RankPlan {
            places: memory.filled(NO_RANK, nodes),
        }
    }

    /// The rank.
    pub fn rank_at(&self, node: usize) -> Rank {
        let place = element_or(&self.places, node, NO_RANK);
        Rank {
            constant: place.now.min(1_000_000) as u32,
            first: place.first,
            second: place.second,
        }
    }

    /// Sets the rank. Its constant is the value from which it is raised.
    pub fn give(&mut self, node: usize, rank: Rank) {
        let place = RankCandidate {
            first: rank.first,
            second: rank.second,
            now: 0,
            least: u64::from(rank.constant),
        };
        put(&mut self.places, node, place)
    }

    /// Sets one of the terms.
    pub fn set_term(&mut self, node: usize, which: WhichTerm, term: Option<RankTerm>) {
        let mut place = element_or(&self.places, node, NO_RANK);
        match which {
            WhichTerm::First => place.first = term,
            WhichTerm::Second => place.second = term,
        }
        put(&mut self.places, node, place)
    }

    /// Removes the ranks at these sites.
    pub fn clear(&mut self, nodes: &[usize]) {
        for node in nodes {
            put(&mut self.places, *node, NO_RANK)
        }
    }

    /// Resets the constants at these sites to the values from which they are raised.
    pub fn flatten(&mut self, nodes: &[usize]) {
        for node in nodes {
            let mut place = element_or(&self.places, *node, NO_RANK);
            place.now = place.least;
            put(&mut self.places, *node, place)
        }
    }
}
