//! A router that runs: UDP sockets, a thread for each interface, and a console, over the workers'
//! turns at one book.
//!
//! Nothing is said here of what sockets, files and the terminal give or take. What each turn does
//! is the contract of [`worker::turn`], how a worker ends that of [`worker::run`], what the
//! configuration and the console's lines are that of `console`.
#![tactic(auto)]

mod crew;
mod ended_router;
mod error;
mod labor;
mod lines;
mod pairs;
mod running;
mod talk;
mod texts;
mod totals;

pub use ended_router::EndedRouter;
pub use error::StartError;
pub use running::{operate, run_and_report, run_router};
pub use texts::{Unwritable, WritesTexts};
