//! What an operator's lines do to a router that runs, at port 0, and what each is answered.
//!
//! What each turn does is the contract of `worker::turn`, and what a line asks for that of
//! `console::read_command`.
#![tactic(auto)]

mod desk;
pub mod laws;
mod lists;
mod outlet;
mod programs;
mod reply;

pub use desk::Desk;
pub use outlet::Outlet;
pub use programs::{AttachError, ReadsFiles, SystemFiles};
pub use reply::Reply;
