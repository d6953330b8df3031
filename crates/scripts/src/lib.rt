//! Scripts: what happens at one router, line by line, and what it sends and shows.
//!
//! The router is the one that the first line says; or 1.1.1.1, begun at 0, with as many interfaces
//! as it says: 10.0.N.1/24 of cost 10, HelloInterval 10, RouterDeadInterval 40, RxmtInterval 5,
//! InfTransDelay 1. Each question is answered as if no program stood at any hook.
//!
//! Or an area, into which LSAs come, and the candidates of one of its routers.
#![tactic(auto)]

mod area_script;
mod beginning;
mod fault;
mod line;
mod stage;
mod telling;

pub use fault::ScriptError;
pub use stage::{answer, play};
