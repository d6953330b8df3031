//! From code to an object that the verifier accepts: with statements and ranks that were found for
//! it.
#![tactic(auto)]

mod attempt;
mod count_error;
mod counted_code;
mod counting;
mod file;
mod fuel;
mod inside;
mod registers;
mod shortfall;
mod trimming;
mod verdict;

pub use count_error::CountError;
pub use counted_code::counted;
pub use file::annotate_file;
pub use fuel::{Fuel, answer_without_turns};
pub use inference::{Endless, Trouble};
pub use shortfall::Shortfall;
pub use verdict::{Annotated, AnnotatedObject, EndlessLoop, Rejected};
