//! The root of the shortest-path calculation (RFC 2328, section 16.1).
use words::{Address, RouterId, Sequence};

/// The router that calculates its table: its Router ID, and the addresses of its interfaces, that
/// of interface n at index n - 1.
#[derive(Drop)]
pub struct Root {
    pub router: RouterId,
    pub addresses: Sequence<Address>,
}
