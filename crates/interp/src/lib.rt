//! Runs any code on the machine, with every check that the machine requires. `run`, for accepted
//! programs and without checks, is that of `word_machine`.
//!
//! A run never blocks or allocates. What it did to the shared words is the list of its labels, by
//! exactly which the list of its seat has grown.
#![tactic(auto)]

mod assignments;
mod checked;
mod contents;
mod control;
mod error;
mod limit;
mod loads;
mod numbers;
mod objects;
mod pieces;
mod registers;
mod steps;
mod stores;
mod trap;

pub use checked::{Halt, run_checked, run_to_halt};
pub use error::RunError;
pub use limit::Limit;
pub use objects::{run_object, run_object_to_halt};
pub use trap::Trap;
pub use word_machine::{Run, run};
