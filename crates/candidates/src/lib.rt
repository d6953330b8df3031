//! The candidates for the routing table (RFC 2328, section 16): the graph of an area, the
//! least-cost walks over it (section 16.1), what LSAs offer within the area, between areas and to
//! external destinations (sections 16.1 to 16.4), and the best of all offers for each prefix. The
//! graph has the routers and transit networks of a database, and the links between them that count.
#![tactic(auto)]

mod advertised;
mod area;
mod borders;
mod calculation;
mod entries;
mod entry;
mod externals;
mod flagged;
mod gathering;
mod graph;
mod inner;
pub mod laws;
mod links;
mod lookups;
mod nodes;
mod offer;
mod order;
mod passes;
mod reached;
mod root_alone;
mod search;
mod slots;
mod starts;
mod vertices;
mod walks;
mod way_out;
mod ways;

pub use advertised::NETWORK_LSA;
pub use calculation::{Calculated, calculate, candidates, externals_at, routes_of};
pub use externals::{ExternalAdvertisement, Inner, external_offer};
pub use gathering::{network_of, push_offer};
pub use graph::{AreaGraph, copy_of};
pub use inner::InnerRoutes;
pub use links::add_exits;
pub use nodes::{is_before, nodes_of};
pub use order::routes_of_offers;
pub use reached::{Reached, find, just_root};
pub use slots::Slots;
pub use vertices::{graph_of, kind_of};
pub use walks::walk;
pub use way_out::has_no_way_out;
pub use ways::Ways;
