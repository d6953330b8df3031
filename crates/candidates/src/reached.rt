//! The nodes of a database, each with its way.
ghost use Rattle.std.specs.Prelude.{◌≡◌, ℕ, ◌<◌, length, IfOk, IfSome, IfNone, IsTrue, Some};
ghost use Rattle.std.specs.Prelude.{slice_get};
ghost use Rattle.routes.specs.declared.node.Node.TheVariants.{ARouter};
ghost use Rattle.candidates.specs.Nodes.{Ascend};
ghost use Rattle.candidates.specs.Reached.{alone, way_in};

use crate::nodes::is_before;
use crate::slots::Slots;
use crate::ways::Ways;
use routes::{Node, Root, Way};
use std::alloc::{AllocError, Global};
use std::marker::Model;
use words::RouterId;

/// The nodes of a database, and the ways to those that walks from the root lead to, as `walk` found
/// them. It doesn't refer to the database, so it is valid while the LSAs of types 1 and 2 say the
/// same. Contracts see the lists of both, the nodes sorted.
#[derive(Drop)]
pub struct Reached {
    nodes: Vec<Node>,
    slots: Slots,
    // the way to the node at the same index
    ways: Vec<Option<Way>>,
}

impl Model for Reached {
    ghost use Rattle.candidates.specs.Reached.{AreBeside, NodeWays};

    ghost Value = { NodeWays };

    ghost view = { λ a. record { nodes = a.nodes.items; ways = a.ways.items } };

    ghost invariant = { λ a. AreBeside (record { nodes = a.nodes.items; ways = a.ways.items }) };
}

impl Reached {
    // The nodes with their slots, and their ways.
    pub(crate) fn new(nodes: Vec<Node>, slots: Slots, ways: Vec<Option<Way>>) -> Self
        requires ascend { Ascend nodes.items }
        requires count { length ways.items ≡ length nodes.items }
        ensures { result ≡ record { nodes = nodes.items; ways = ways.items } }
    {
        Reached { nodes, slots, ways }
    }
}

impl Ways for Reached {
    ghost ways = { λ a node. way_in a node };

    fn way_to(&self, node: &Node) -> Option<Way> {
        let at = find(&self.nodes, &self.slots, node)?;
        self.ways[at]
    }

    fn reach_root_alone(&self, root: &Root) -> bool {
        are_alone(&self.nodes, &self.ways, root)
    }
}

// Whether these are the root and its way, and nothing else.
fn are_alone(nodes: &[Node], ways: &[Option<Way>], root: &Root) -> bool
    ensures nodes { IsTrue result → nodes.now ≡ (alone root.now).nodes }
    ensures ways { IsTrue result → ways.now ≡ (alone root.now).ways }
{
    if nodes.len() != 1 || ways.len() != 1 {
        return false;
    }
    is_router(&nodes[0], root.router) && is_by_no_link(&ways[0])
}

fn is_router(node: &Node, router: RouterId) -> bool
    ensures { IsTrue result → node.now ≡ ARouter router }
{
    *node == Node::ARouter(router)
}

fn is_by_no_link(way: &Option<Way>) -> bool
    ensures { IsTrue result → way.now ≡ Some (record { distance = 0; hops = 0 }) }
{
    match way {
        None => false,
        Some(way) => way.distance == 0 && way.hops == 0,
    }
}

/// The index of a node, found where it is expected or by binary search.
pub fn find(nodes: &[Node], slots: &Slots, node: &Node) -> Option<usize>
    requires { Ascend nodes.now }
    ensures within { IfSome result (λ at. at < length nodes.now) }
    ensures found { IfSome result (λ at. slice_get nodes.now at ≡ Some node.now) }
    ensures missing { IfNone result ((at : ℕ) → slice_get nodes.now at ≡ Some node.now → ⊥) }
{
    let at = slots.index_of(nodes, node);
    if at == nodes.len() || is_before(node, &nodes[at]) {
        return None;
    }
    Some(at)
}

/// The root at distance 0, by no interface, and nothing else.
///
/// # Errors
/// `AllocError` if an allocation is refused.
pub fn just_root(alloc: Global, root: &Root) -> Result<Reached, AllocError>
    ensures { IfOk result (λ reached. reached ≡ alone root.now) }
{
    let mut nodes = Vec::new(alloc);
    nodes.push(Node::ARouter(root.router))?;
    let mut ways = Vec::new(alloc);
    ways.push(Some(Way {
        distance: 0,
        hops: 0,
    }))?;
    let slots = Slots::none(alloc);
    Ok(Reached::new(nodes, slots, ways))
}
