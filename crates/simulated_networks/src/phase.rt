//! What was seen, second by second.
use crate::seen::TableFaults;
use std::alloc::Global;

/// What was seen at the end of a second.
#[derive(Clone, Copy)]
pub struct Look {
    pub second: u64,
    /// Links that are up and not Full.
    pub not_full: usize,
    /// Links between Full neighbors whose databases differ; `None` if they weren't compared.
    pub differ: Option<usize>,
    /// What is wrong with the tables; `None` if they weren't read.
    pub seen: Option<TableFaults>,
}

impl Look {
    /// All links are Full, all databases the same, and all tables those of the rules.
    pub fn is_calm(&self) -> bool {
        match (self.differ, self.seen) {
            (Some(0), Some(seen)) => self.not_full == 0 && seen.is_nothing(),
            _ => false,
        }
    }
}

/// In how many seconds there were pairs, how many together, and the most in a second.
#[derive(Clone, Copy)]
pub struct Sum {
    pub seconds: u64,
    pub pairs: u64,
    pub most: u64,
}

impl Sum {
    fn add(&mut self, pairs: u64) {
        if pairs > 0 {
            self.seconds = self.seconds.saturating_add(1);
            self.pairs = self.pairs.saturating_add(pairs);
            self.most = self.most.max(pairs);
        }
    }
}

const NO_SUM: Sum = Sum {
    seconds: 0,
    pairs: 0,
    most: 0,
};

/// A part of a history.
#[derive(Drop)]
pub struct Phase {
    /// The last second in which a link that was up wasn't Full, and the last in which all wasn't
    /// calm.
    pub full: u64,
    pub settled: u64,
    /// How long it took.
    pub seconds: u64,
    pub looping: Sum,
    pub nowhere: Sum,
    /// All that was looked at.
    pub looks: Vec<Look>,
}

impl Phase {
    /// Nothing was seen yet.
    pub fn new(alloc: Global) -> Phase {
        Phase {
            full: 0,
            settled: 0,
            seconds: 0,
            looping: NO_SUM,
            nowhere: NO_SUM,
            looks: Vec::new(alloc),
        }
    }

    /// Keeps what was seen at the end of a second. Returns whether memory was enough.
    pub fn note(&mut self, look: Look) -> bool {
        self.seconds = look.second;
        if look.not_full > 0 {
            self.full = look.second;
        }
        if !look.is_calm() {
            self.settled = look.second;
        }
        if let Some(seen) = look.seen {
            self.looping.add(seen.looping);
            self.nowhere.add(seen.nowhere);
        }
        self.looks.push(look).is_ok()
    }

    /// Whether all has been calm for `stay` seconds.
    pub fn has_settled_for(&self, stay: u64) -> bool {
        self.seconds >= self.settled.saturating_add(stay)
    }

    /// What was seen last.
    pub fn last(&self) -> Option<Look> {
        self.looks.last().copied()
    }
}
