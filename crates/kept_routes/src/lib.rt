//! What is kept of a routing table calculation from event to event (RFC 2328, section 16): a walk,
//! while the LSAs of types 1 and 2 are unchanged; and all candidates but those whose destinations
//! the changed AS-external-LSAs advertise or advertised, if an event changes no other LSA (section
//! 16.6).
#![tactic(auto)]

mod changes;
mod destination;
pub mod external_laws;
mod externals;
mod follow;
mod keys;
pub mod laws;
mod placing;
mod sameness;
mod walks;

pub use changes::possibly_changed_keys;
pub use externals::offering_lsas_are_unchanged;
pub use follow::{Followed, follow_externals};
pub use sameness::lsas_are_unchanged;
pub use walks::Routes;
