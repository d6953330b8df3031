//! What reachable routers and networks offer.
use words::{Hops, Prefix, RouteKind, RouterId};

/// An offer of a path to a network (RFC 2328, sections 16.1, 16.2 and 16.4). Ordered by prefix,
/// then better before worse, then by originator and tag.
#[derive(Clone, Copy)]
pub struct Offer {
    pub prefix: Prefix,
    pub kind: RouteKind,
    /// The total cost; for `External2` the external metric alone.
    pub cost: u32,
    /// For `External2` the cost of the path to the originator or forwarding address, else 0.
    pub distance: u32,
    /// The Advertising Router of an external LSA, else 0.0.0.0.
    pub originator: RouterId,
    /// The tag of an external LSA, else 0.
    pub tag: u32,
    pub hops: Hops,
}
