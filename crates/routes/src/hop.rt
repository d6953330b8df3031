//! A next hop of one router.

/// The router at index `from` forwards packets to the one at index `to`.
#[derive(Clone, Copy)]
pub struct Hop {
    pub from: usize,
    pub to: usize,
}
