//! Reads and writes whole files.
#![tactic(auto)]

mod reading;
mod writing;

pub use reading::{ReadFault, read};
pub use writing::{WriteFault, write};
