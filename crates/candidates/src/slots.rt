//! The expected indices of nodes, and of others that have a number.
ghost use Rattle.std.specs.Prelude.{◌≡◌, ◌<◌, ◌≤◌, ℕ, Some, length, slice_get};
ghost use Rattle.std.specs.declared.cmp.Ordering.TheVariants.{Less};
ghost use Rattle.candidates.specs.Nodes.{Ascend, node_cmp};
ghost use Rattle.routes.specs.declared.node.Node.{Node as NodeValue};

use crate::nodes::index_near;
use routes::Node;
use std::alloc::{AllocError, Global};

/// The indices of some nodes or routers, each in a slot that its Router ID or Link State ID gives.
/// If two of them share a slot, it has the later one. Only the time of a lookup depends on the
/// slots: those of other nodes give the same results, but seldom the right index.
#[derive(Drop)]
pub struct Slots {
    places: Vec<u16>,
}

impl Slots {
    /// The slots of these nodes.
    ///
    /// # Errors
    /// `AllocError` if an allocation is refused.
    pub fn of_nodes(alloc: Global, nodes: &[Node]) -> Result<Self, AllocError> {
        let mut slots = Slots::with_room(alloc, nodes.len())?;
        for at in 0..nodes.len() {
            slots.put(number_of(&nodes[at]), at);
        }
        Ok(slots)
    }

    /// Four slots for each of this many, all with index 0.
    ///
    /// # Errors
    /// `AllocError` if an allocation is refused.
    pub fn with_room(alloc: Global, count: usize) -> Result<Self, AllocError> {
        let mut places = Vec::new(alloc);
        places.resize(count.saturating_mul(4), 0)?;
        Ok(Slots { places })
    }

    /// Puts an index into the slot of this number.
    pub fn put(&mut self, number: u32, at: usize) {
        let slot = slot_of(number, self.places.len());
        if let Some(place) = self.places.get_mut(slot) {
            *place = u16::try_from(at).unwrap_or(0);
        }
    }

    /// No slots, so that each is expected at index 0. Allocates nothing.
    pub fn none(alloc: Global) -> Self {
        let places = Vec::new(alloc);
        Slots { places }
    }

    /// A copy of the slots.
    ///
    /// # Errors
    /// `AllocError` if an allocation is refused.
    pub fn copy(&self, alloc: Global) -> Result<Self, AllocError> {
        let places = Vec::from_slice(alloc, &self.places)?;
        Ok(Slots { places })
    }

    /// The index of the first node that isn't before this one; their number if all are. It is
    /// searched for at its expected index, and then by binary search.
    pub fn index_of(&self, nodes: &[Node], node: &Node) -> usize
        requires { Ascend nodes.now }
        ensures within { result ≤ length nodes.now }
        ensures before { (k : ℕ) (other : NodeValue) → slice_get nodes.now k ≡ Some other
            → k < result → node_cmp other node.now ≡ Less }
        ensures beyond { (k : ℕ) (other : NodeValue) → slice_get nodes.now k ≡ Some other
            → result ≤ k → node_cmp other node.now ≡ Less → ⊥ }
    {
        index_near(nodes, self.expected_at(number_of(node)), node)
    }

    /// The index in the slot of this number, at which the search begins.
    pub fn expected_at(&self, number: u32) -> usize {
        match self.places.get(slot_of(number, self.places.len())) {
            None => 0,
            Some(place) => usize::from(*place),
        }
    }
}

// The number of which a node's slot is made.
fn number_of(node: &Node) -> u32 {
    match node {
        Node::ARouter(router) => router.number(),
        Node::ANetwork(id, _) => id.number(),
    }
}

// 2^32 divided by the golden ratio: its products with consecutive numbers lie far apart, so that
// few share a slot.
const SPREAD: u32 = 2_654_435_769;

// The slot of a number among `slots` slots.
fn slot_of(number: u32, slots: usize) -> usize {
    let mixed = number.wrapping_mul(SPREAD) as usize;
    mixed.wrapping_mul(slots) / 4_294_967_296
}
