//! The conversation with a neighbor (RFC 2328, section 10): its states, its lists, what is sent to
//! it, and the neighbor state machine for a neighbor that isn't Down.
//!
//! A call that errors with `AllocError` may have done a part of its work. The caller then rolls
//! back what it changes, and drops the drafts that it adds to.
#![tactic(auto)]

mod connectives;
pub mod descriptions;
mod draft;
mod interface;
pub mod laws;
mod listed;
mod neighbor;
mod revertible;
mod standing;
mod state;
mod verdict;

pub use draft::{Draft, DraftLists, Update};
pub use interface::Interface;
pub use listed::{ListEntry, instance_of};
pub use neighbor::{
    Neighbor, has_passed, initial_description, is_entry, is_exchange_or_loading,
    next_dd_sequence_start,
};
pub use revertible::Revertible;
pub use standing::{ReceivedDescription, Standing};
pub use state::NeighborState;
pub use verdict::{Mismatch, Verdict};
// Names from the crates below that crates above use.
pub use lsdb::{DatabaseCopy, Lsdb, age_at, compare, newer};
