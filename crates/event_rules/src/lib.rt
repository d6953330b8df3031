//! Definitions of what an event does to a router (RFC 2328, sections 8 to 14), and the types of a
//! router's configuration, of what it sends and of its refusals.
//!
//! The implementation is the crate `flood`, which also has the type of events; laws about runs and
//! worked conversations are beside it. Laws on runs in which the clock doesn't go back stand here,
//! each carried by a function with an empty body.
#![tactic(auto)]

pub mod laws;
mod model;
mod router_runs;

pub use model::{Config, ConfigError, CoreError, Out};
pub use router_runs::routers_refuse_clocks_that_go_back;
// Names from the crates below that crates above use.
pub use received::{Interface, NeighborState};
