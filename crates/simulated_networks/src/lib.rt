//! Networks of many routers in memory, under a virtual clock: what is sent comes to the router at
//! the other end of a link, or is lost, comes later or comes twice, as numbers made from a seed
//! say. The same seed makes the same run on any machine.
//!
//! Histories are scenarios from a start over a change to rest, and lists of single acts after which
//! Full neighbors' databases differ, made shorter until none can be left out.
#![tactic(auto)]

mod acts;
mod addresses;
mod counts;
mod destinations;
mod director;
mod fault;
mod mail;
mod network;
mod one_router;
mod phase;
mod plan;
mod play;
mod random;
mod readings;
mod routers;
mod run;
mod search;
mod seen;
mod topology;
mod ways;
mod wires;

pub use acts::{HistoryStep, chosen};
pub use counts::Counts;
pub use destinations::{announcements, prefix};
pub use fault::NetworkError;
pub use network::Network;
pub use one_router::{InterfaceTimes, holds_the_same, sees_full};
pub use phase::{Look, Phase, Sum};
pub use plan::{Scenario, ScenarioPlan};
pub use random::{Faults, Random};
pub use readings::NOBODY;
pub use routers::Routers;
pub use run::{Outcome, play_scenario};
pub use search::{HistorySetting, Search, Sought};
pub use seen::TableFaults;
pub use topology::{FarEnd, Topology, TopologyShape};
pub use wires::Wires;
// Names from the crates below that crates above use.
pub use routes::LinkEnds;
