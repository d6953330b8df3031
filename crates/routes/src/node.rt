//! The vertices of the area's graph.
use words::{LinkStateId, RouterId};

/// A router, or a transit network (RFC 2328, section 16.1).
#[derive(Clone, Copy, PartialEq, Eq)]
pub enum Node {
    /// By its Router ID.
    ARouter(RouterId),
    /// By the Link State ID and the Advertising Router of its network-LSA.
    ANetwork(LinkStateId, RouterId),
}
