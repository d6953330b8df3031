//! The router as a state machine (RFC 2328): moments, bytes and answers in, bytes out, nothing
//! else.
//!
//! [`Core`] processes one [`Event`] after another, each with its moment, and returns what is to be
//! sent. An event that is refused leaves it unchanged.
//!
//! A [`Book`] keeps a router with its past, which is for contracts and tests alone: the router as
//! it was at the start, and the events since. It always keeps that its router now is what its
//! events make of the router at the start, by the rules of a whole event (the crate `event_rules`),
//! and that all the events that it ever took lead there from the router that its type names
//! ([`Origin`]). How many events it has taken is counted by the shares of a ledger as well, so
//! whoever brings every share knows the number.
#![tactic(auto)]

mod applying;
mod book;
mod clash;
mod event;
mod keeping;
pub mod laws;
mod part;
mod processing;
mod profile;
mod router_core;
mod sending;
mod start;

pub use adjacency::{Interface, NeighborState};
pub use area_routes::Offered;
pub use book::entry::JournalEntry;
pub use book::error::BookError;
pub use book::origin::Origin;
pub use book::{Book, MAX_JOURNAL, MAX_TAKEN};
pub use event::Event;
pub use event_rules::{Config, ConfigError, CoreError, Out};
pub use router_core::Core;
