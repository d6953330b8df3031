//! The routes of a router at a moment, from its links, its database and the answers that let routes
//! in (RFC 2328, sections 11 and 16), by a walk that is kept from one event to the next. The graph
//! that is walked follows events: if LSAs of routers and networks change and none comes or leaves,
//! only the links of these and of their neighbors are recalculated (section 16.1).
#![tactic(auto)]

mod calculating;
mod following;
mod graph_changes;
mod graph_links;
mod graph_updates;
mod graphs;
mod kept;
mod lookups;
mod matching;
mod root;
mod surroundings;
mod unchanged;

pub use graph_updates::update_graph;
pub use kept::{AreaRoutes, Offered};
// Re-exported for the crates above.
pub use area::Link;
