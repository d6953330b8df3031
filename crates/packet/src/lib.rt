//! Parses and encodes OSPF packets (RFC 2328, appendix A.3): version 2, area 0.0.0.0, AuType 0.
//!
//! [`read`] returns the packet that the bytes encode, or the first fault; [`write`] returns a
//! packet's canonical encoding, with zeros for the authentication and for a Hello's Designated
//! Routers.
#![tactic(auto)]

mod checksum;
mod judging;
pub mod laws;
mod model;
mod ranges;
mod reading;
mod refusal;
mod writing;

pub use model::{Description, Hello, Packet, PacketBody, PacketType};
pub use reading::read;
pub use refusal::{PacketError, PacketFault};
pub use writing::write;
