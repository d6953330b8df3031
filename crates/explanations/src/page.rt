//! The text of an explanation under construction.

use crate::text::Text;
use std::alloc::Global;
use std::str::Lines;

/// The text of the slots before, that of the current one, and why the program is refused.
#[derive(Drop)]
pub(crate) struct Page<'a> {
    pub before: Text,
    pub here: Text,
    pub reasons: Text,
    /// The verdict after its slot and rule: the reasons, and a hint.
    pub told: Text,
    /// The lines of the instructions to come.
    lines: Lines<'a>,
}

impl<'a> Page<'a> {
    pub fn new(alloc: Global, lines: &'a str) -> Page<'a> {
        Page {
            before: Text::new(alloc),
            here: Text::new(alloc),
            reasons: Text::new(alloc),
            told: Text::new(alloc),
            lines: lines.lines(),
        }
    }

    /// Begins the text of the next slot, with the next instruction's line. That of the current one
    /// is one of the slots before from then on.
    pub fn turn(&mut self, slot: usize) {
        self.before.push(self.here.words.as_str());
        self.here.words.clear();
        let line = self.lines.next().unwrap_or("");
        self.here.numbered("slot ", slot as u64, ": ");
        self.here.line("", line);
    }

    /// Whether an allocation was refused for a part of it.
    pub fn is_cut(&self) -> bool {
        self.before.is_cut | self.here.is_cut | self.reasons.is_cut | self.told.is_cut
    }
}
