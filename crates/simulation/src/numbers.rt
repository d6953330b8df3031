//! The numbers that are printed of a run, in the order in which both forms of the output have them.
use simulated_networks::{Counts, TableFaults};

/// What a run counted, with the walks that its routers made.
pub fn numbers_of_counts(counts: &Counts, walks: u64) -> [u64; 8] {
    [
        counts.events,
        counts.refused,
        walks,
        counts.packets,
        counts.bytes,
        counts.lost,
        counts.copies,
        counts.most_under_way,
    ]
}

/// What is wrong with tables.
pub fn numbers_of_faults(seen: &TableFaults) -> [u64; 5] {
    [
        seen.looping,
        seen.nowhere,
        seen.missing,
        seen.other_cost,
        seen.stray,
    ]
}
