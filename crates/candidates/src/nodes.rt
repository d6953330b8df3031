//! The nodes of the graph, each at its index.
ghost use Rattle.std.specs.Prelude.{◌≡◌, ◌<◌, ◌≤◌, ◌↔◌, ℕ, length, IfOk, IsTrue, Some, slice_get};
ghost use Rattle.std.specs.FinMap as finite;
ghost use Rattle.std.specs.Ordering.{is_lt};
ghost use Rattle.routes.specs.Contents.{contents_at};
ghost use Rattle.candidates.specs.Nodes.{AreNodes, Ascend, node_cmp, node_of};
ghost use Rattle.routes.specs.declared.node.Node.{Node};
ghost use Rattle.std.specs.declared.cmp.Ordering.TheVariants.{Less};

use crate::advertised::NETWORK_LSA;
use lsa::LsaBody;
use lsdb::Lsdb;
use routes::Node;
use std::alloc::{AllocError, Global};
use std::cmp::Ordering;
use words::{Key, Second};

/// The routers and transit networks whose LSAs are in the database and not at MaxAge, routers
/// first, in the order of their keys (RFC 2328, section 16.1).
///
/// # Errors
/// `AllocError` if an allocation is refused.
pub fn nodes_of(alloc: Global, db: &Lsdb, moment: Second) -> Result<Vec<Node>, AllocError>
    ensures nodes { IfOk result (λ nodes. AreNodes (contents_at moment db.now.present)
        nodes.items) }
    ensures few { IfOk result (λ nodes. length nodes.items ≤ finite.len db.now.present) }
{
    let bodies = db.bodies_at(alloc, Some(NETWORK_LSA), moment)?;
    let mut nodes = Vec::new(alloc);
    for one in &bodies {
        if let Some(node) = node_of(one.key(), one.body()) {
            nodes.push(node)?;
        }
    }
    Ok(nodes)
}

// The node of the LSA with this key and body; `None` if it has none.
fn node_of(key: &Key, body: &LsaBody) -> Option<Node>
    ensures { result ≡ node_of (key.now, body.now) }
{
    let router = key.advertising_router;
    if key.ls_type == 1 && key.link_state_id.number() == router.number() {
        return match body {
            LsaBody::Router(_) => Some(Node::ARouter(router)),
            _ => None,
        };
    }
    if key.ls_type == NETWORK_LSA {
        return match body {
            LsaBody::Network(_) => Some(Node::ANetwork(key.link_state_id, router)),
            _ => None,
        };
    }
    None
}

/// The index of the first node that isn't before this one; their number if all are.
pub fn index_of(nodes: &[Node], node: &Node) -> usize
    requires { Ascend nodes.now }
    ensures within { result ≤ length nodes.now }
    ensures before { (k : ℕ) (other : Node) → slice_get nodes.now k ≡ Some other → k < result
        → node_cmp other node.now ≡ Less }
    ensures beyond { (k : ℕ) (other : Node) → slice_get nodes.now k ≡ Some other → result ≤ k
        → node_cmp other node.now ≡ Less → ⊥ }
{
    let mut low = 0;
    let mut high = nodes.len();
    while low < high {
        let middle = low + (high - low) / 2;
        if is_before(&nodes[middle], node) {
            low = middle + 1;
        } else {
            high = middle;
        }
    }
    low
}

/// The index that `index_of` gives. It is tried at `place` first, where the node usually stands.
pub fn index_near(nodes: &[Node], place: usize, node: &Node) -> usize
    requires { Ascend nodes.now }
    ensures within { result ≤ length nodes.now }
    ensures before { (k : ℕ) (other : Node) → slice_get nodes.now k ≡ Some other → k < result
        → node_cmp other node.now ≡ Less }
    ensures beyond { (k : ℕ) (other : Node) → slice_get nodes.now k ≡ Some other → result ≤ k
        → node_cmp other node.now ≡ Less → ⊥ }
{
    if place < nodes.len() && is_same(&nodes[place], node) {
        return place;
    }
    index_of(nodes, node)
}

fn is_same(a: &Node, b: &Node) -> bool
    ensures { IsTrue result ↔ (a.now ≡ b.now) }
{
    *a == *b
}

fn compare(a: &Node, b: &Node) -> Ordering
    ensures { result ≡ node_cmp a.now b.now }
{
    match a {
        Node::ARouter(a) => match b {
            Node::ARouter(b) => a.number().cmp(&b.number()),
            Node::ANetwork(..) => Ordering::Less,
        },
        Node::ANetwork(id, by) => match b {
            Node::ARouter(_) => Ordering::Greater,
            Node::ANetwork(other, its) => id
                .number()
                .cmp(&other.number())
                .then(by.number().cmp(&its.number())),
        },
    }
}

/// Whether the first node comes before the second: routers by Router ID, then networks by Link
/// State ID and Advertising Router.
pub fn is_before(a: &Node, b: &Node) -> bool
    ensures { result ≡ is_lt (node_cmp a.now b.now) }
{
    compare(a, b) == Ordering::Less
}
