//! The counters of a table that is closed.
use crate::COUNTERS;

/// The sum of all adds to each of the 256 counters, which is below 2^61.
#[derive(Clone, Copy)]
pub struct Totals {
    pub sums: [u64; COUNTERS],
}
