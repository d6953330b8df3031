//! Flooding over all links of an area, and processing received LSAs (RFC 2328, sections 13 and
//! 13.3).
#![tactic(auto)]

mod area;
mod cases;
mod flood;
mod link;
mod neighbor_slot;
mod on_links;
mod receiving;
mod steps;

pub use area::Area;
pub use cases::Case;
pub use link::Link;
pub use link::packets::{ReceivingAcknowledgment, ReceivingDescription, ReceivingRequest};
pub use link::timers::{EndLoading, ExpireTimers, NextRequest, SendingAgain};
pub use on_links::any_exchange_or_loading;
pub use steps::{LinkChange, LinkStep};
// Names from the crates below that crates above use.
pub use adjacency::{
    DatabaseCopy, Draft, Interface, Lsdb, NeighborState, Revertible, Update, has_passed,
};
