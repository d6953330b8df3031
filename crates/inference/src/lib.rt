//! Finds statements for code that has none, by passing over it until nothing changes, and ranks for
//! its loops: for each loop a register that falls with each iteration, with the least sufficient
//! weight and constants. The result is a guess: an object counts only once the verifier accepts it.
#![tactic(auto)]

mod circles;
mod draft;
mod edges;
mod fixpoint;
mod flow;
mod joining;
pub mod liveness;
mod loops;
pub mod memory;
mod plan;
mod planning;
mod ranking;
mod sites;
mod trouble;
mod unranked;
mod unrolling;
mod weights;
mod widening;

pub use draft::SiteDraft;
pub use edges::{Edge, copy_of};
pub use fixpoint::{Inference, infer_statements};
pub use flow::entry_state;
pub use joining::Value;
pub use planning::{Ranking, kinds_of, rank_statements};
pub use sites::Sites;
pub use trouble::{Endless, Trouble};
pub use unranked::Unranked;
pub use unrolling::max_turns;
