//! The routing table calculation (RFC 2328, section 16): walks over the links that count, the
//! routes that they offer, and the table of the candidates that the program at `veto` let in.
//!
//! It also finds forwarding loops. A hop leads from one router to another. A packet that starts at
//! a router may take any hop there, and again at the next one. A router is on a loop if and only if
//! some such walk comes back to it. The hops may be those of all routers' routes to one prefix over
//! the links between them.
#![tactic(auto)]

mod answered;
mod best;
mod counting;
mod graph;
mod hop;
pub mod laws;
mod lookups;
mod marking;
mod node;
mod offer;
mod order;
mod reaching;
mod root;
mod rows;
mod search;
mod shared;
mod tables;

pub use answered::{is_stale, table};
pub use best::routes_in_order;
pub use counting::count_loops;
pub use graph::{Vertex, VertexKind, VertexLink, Way, is_graph};
pub use hop::Hop;
pub use marking::loops;
pub use node::Node;
pub use offer::Offer;
pub use root::Root;
pub use rows::rows_of;
pub use search::least_ways;
pub use shared::{Comparison, compare, table_among, table_of};
pub use tables::{LinkEnds, PrefixRoute, count_looping};
// Names from the crates below that crates above use.
pub use lsdb::{KeyRule, Lsdb, is_up_to};
