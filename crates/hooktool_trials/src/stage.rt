//! Where a test stands, and what is found at its lines.
use isa::Hook;

/// How the last run of a program ended.
#[derive(Clone, Copy)]
pub enum Last {
    /// None was asked yet.
    Nothing,
    /// It answered this at its hook.
    Answered { hook: Hook, answer: u64 },
    /// It gave no answer, by the trap of this number at this slot.
    Stuck { trap: u8, slot: u64 },
}

/// What was found.
#[derive(Clone, Copy)]
pub enum Found {
    /// How the last run ended.
    Run(Last),
    /// The number in a counter or a cell.
    Number(u64),
    /// How many OSPF packets a capture has: each was answered.
    Packets(u64),
}

/// Whether a line is ok, and what was found.
#[derive(Clone, Copy)]
pub struct PointResult {
    pub is_ok: bool,
    pub found: Found,
}

/// The program that is asked, by its object's bytes, and how its last run ended.
#[derive(Drop)]
pub(crate) struct Stage {
    pub bytes: Vec<u8>,
    pub last: Last,
}

/// A line that asks or expects, by its number and words, and its verdict.
#[derive(Clone, Copy)]
pub struct Point<'a> {
    pub number: u64,
    pub words: &'a [&'a str],
    pub verdict: PointResult,
}
