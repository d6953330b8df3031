//! The command line of `routerd`: the words that it takes, the requests that they make, and how
//! these are carried out with files, threads and texts.
#![tactic(auto)]

mod assembly;
mod commands;
mod fault;
mod files;
pub mod laws;
pub mod program;
mod raw;
mod reading;
mod report;
mod requests;
mod routing;
mod run;
mod verify;

pub use fault::CommandError;
pub use reading::{parse, unreadable_words};
pub use report::CommandOutput;
pub use requests::CommandRequest;
pub use routing::Routing;
