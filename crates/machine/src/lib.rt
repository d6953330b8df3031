//! The machine that programs run on: its states, inputs and faults, the regions of memory that
//! loads and stores access, and the contexts of questions, which are the 64 bytes that a program is
//! run on, hook by hook.
//!
//! Numbers are little-endian, and bytes outside of all fields are 0. A prefix's address and a
//! Router ID are their 32-bit numbers.
#![tactic(auto)]

mod contexts;
mod fault;
mod fields;
mod helper;
mod input;
pub mod laws;
mod packets;
mod regions;
mod routes;
mod sizes;
mod state;

pub use contexts::Context;
pub use fault::Fault;
pub use helper::Helper;
pub use input::Input;
pub use packets::count_context;
pub use regions::Region;
pub use routes::{price_context, tag_context, veto_context};
pub use sizes::{load_length, map_length, store_length};
pub use state::{Content, Pointer, StackByte, State};
// Names from the crates below that crates above use.
pub use isa::{Hook, Map};
pub use words::TableRow;
