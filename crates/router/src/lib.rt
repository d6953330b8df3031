//! A router as one value, which an event changes and may roll back (RFC 2328, section 5): its links
//! and database, what it announces, and its self-originated LSAs (section 12.4). Each part of an
//! event is a call: what a received packet and a Tick do (sections 9.5, 10.3, 12.4, 13.5 and 13.6),
//! external destinations that an operator redistributes and withdraws (section 12.4.4), the end
//! that all events share (sections 10.3, 10.9, 12.4.1 and 14), and how the packets to be sent are
//! packed (sections 13.3, 13.5 and appendix A.3).
//!
//! A call says by `Makes` which part of an event it is: wherever in an event it comes, it does to
//! the router, and adds to what was sent, what that part of the rules does. A call that may be
//! refused an allocation says by `RouterDoes` that it is that part if it answers `Ok`. If it errors
//! with `AllocError`, it may have done a part of its work; its caller then rolls the router back,
//! which drops what was drafted, too.
#![tactic(auto)]

mod aging;
mod announcements;
mod bodies;
mod contents;
mod conversation;
mod copying;
mod described;
mod destinations;
mod due;
mod ending;
mod external;
mod instance;
pub mod laws;
mod order;
mod originate;
mod origination;
mod own_lsas;
mod packets;
mod packing;
mod received_hellos;
mod router;
mod sent_hellos;
mod sequence;
mod state;
pub mod telling;
mod ticks;
mod times;
mod updates;
mod wanted;
mod writing;

pub use announcements::{redistribute, same_external, same_network, withdraw};
pub use described::{copy_describes, links_differ};
pub use ending::end_event;
pub use external::external_instance;
pub use originate::{originate_if_wanted, originate_or_postpone};
pub use origination::{Origination, decide_external_lsa, decide_router_lsa, interval_is_over};
pub use packets::receive_packet;
pub use router::{full_routers, router_instance, subnet_mask};
pub use state::Router;
pub use ticks::tick;
pub use writing::push_packets;
// Names from the crates below that crates above use.
pub use area::Case;
