//! Definitions of how the LSAs of a received Link State Update are processed and flooded (RFC 2328,
//! sections 13 and 13.3). The implementation is the crate `flooding`.
#![tactic(auto)]

pub mod laws;
// Names from the crates below that crates above use.
pub use adjacency::{Interface, NeighborState};
