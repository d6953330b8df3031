//! The functions that programs call, by hook, over the shared words and the input (RFC 9669,
//! section 4.3.1).
#![tactic(auto)]

mod calls;
mod counters;
mod lookups;

pub use calls::call;
pub use counters::{cell_read, cell_write, counter_add, counter_read};
pub use lookups::{packet_byte, table_cost};
