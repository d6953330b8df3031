//! The words that programs keep from run to run: counters that all seats share, and cells of each
//! seat's own.
//!
//! They are in a table, which is no routing table. A seat is the right to use it from one thread.
//! Its history is a list of accesses that exists in contracts alone. Between any two steps of any
//! seats: a counter is the sum of all seats' adds to it; a read finds at least what its seat knows
//! of the counter; a cell holds what its seat last stored there, or 0; a seat makes at most 2^31
//! adds, each of less than 2^24, so that no counter reaches 2^61.
//!
//! Nothing clears a word while the router runs: a program that is attached finds what earlier ones
//! left, programs at all hooks use the same words, and a seat gets no new adds when they are spent.
#![tactic(auto)]

mod access;
mod error;
mod rule;
mod seat;
mod shared;
mod totals;

pub use access::{Access, History, View};
pub use error::MapsError;
pub use rule::WordsRule;
pub use seat::Seat;
pub use shared::Shared;
pub use totals::Totals;

/// The number of counters, which all seats share.
pub const COUNTERS: usize = 256;

/// The number of cells of one seat.
pub const CELLS: usize = 64;

/// The maximum number of seats of one table.
pub const MAX_SEATS: usize = 64;

/// The maximum number of adds of one seat.
pub const MAX_ADDS: u64 = 1 << 31;
