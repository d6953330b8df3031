//! The graph of an area, and the walk over it.
ghost use Rattle.std.specs.Prelude.{◌≡◌, ◌≤◌, length, IfOk};
ghost use Rattle.std.specs.FinMap as finite;
ghost use Rattle.words.specs.Constants.{max_lsas};
ghost use Rattle.routes.specs.Contents.{Contents, contents_at};
ghost use Rattle.candidates.specs.Ways.{DistancesFit, AreWays};
ghost use Rattle.candidates.specs.AreaGraphs.{IsAreaGraph, IsWalkable};
ghost use Rattle.candidates.specs.Reached.{way_in};

use crate::nodes::nodes_of;
use crate::reached::{Reached, find, just_root};
use crate::slots::Slots;
use crate::vertices::graph_of;
use lsdb::Lsdb;
use routes::{Node, Root, Vertex, least_ways};
use std::alloc::{AllocError, Global};
use words::Second;

/// The graph of an area at a moment, seen from a root: the routers and transit networks, and the
/// links between them that count (RFC 2328, section 16.1).
#[derive(Drop)]
pub struct AreaGraph {
    /// The router from which walks begin, with its addresses.
    pub root: Root,
    /// The nodes, sorted.
    pub nodes: Vec<Node>,
    /// The expected indices of the nodes.
    pub slots: Slots,
    /// The vertex of each node, at the same index.
    pub vertices: Vec<Vertex>,
}

/// A copy of the root.
///
/// # Errors
/// `AllocError` if an allocation is refused.
pub fn copy_of(root: &Root) -> Result<Root, AllocError>
    ensures { IfOk result (λ copy. copy ≡ root.now) }
{
    let addresses = root.addresses.copy()?;
    Ok(Root {
        router: root.router,
        addresses,
    })
}

impl AreaGraph {
    /// The graph of a database at a moment. The database has at most 16,384 LSAs, the root at most
    /// 63 interfaces. It takes the time of two passes over the LSAs of routers and networks, and of
    /// a lookup for each link.
    ///
    /// # Errors
    /// `AllocError` if an allocation is refused.
    pub fn new(
        alloc: Global,
        db: &Lsdb,
        root: &Root,
        moment: Second,
    ) -> Result<AreaGraph, AllocError>
        requires interfaces { length root.now.addresses ≤ 63 }
        requires size { finite.len db.now.present ≤ max_lsas }
        ensures graph { IfOk result (λ graph. IsAreaGraph (contents_at moment db.now.present)
            graph) }
        ensures root { IfOk result (λ graph. graph.root ≡ root.now) }
    {
        let own = copy_of(root)?;
        let nodes = nodes_of(alloc, db, moment)?;
        let slots = Slots::of_nodes(alloc, nodes.as_slice())?;
        let vertices = graph_of(alloc, db, root, moment, &nodes, &slots)?;
        Ok(AreaGraph {
            root: own,
            nodes,
            slots,
            vertices,
        })
    }

    /// The ways to all nodes that walks from the root lead to (RFC 2328, section 16.1). If the root
    /// isn't among the nodes, it alone is reached.
    ///
    /// # Errors
    /// `AllocError` if an allocation is refused.
    pub fn walk(&self, alloc: Global) -> Result<Reached, AllocError>
        requires { IsWalkable self.now }
        ensures ways { IfOk result (λ reached. (contents : Contents) → IsAreaGraph contents self.now
            → AreWays contents self.now.root (way_in reached)) }
        ensures near { IfOk result (λ reached. DistancesFit (way_in reached)) }
    {
        match find(&self.nodes, &self.slots, &Node::ARouter(self.root.router)) {
            None => {
                let reached = just_root(alloc, &self.root)?;
                Ok(reached)
            }
            Some(at) => {
                let ways = least_ways(alloc, &self.vertices, at)?;
                let nodes = Vec::from_slice(alloc, &self.nodes)?;
                let slots = self.slots.copy(alloc)?;
                Ok(Reached::new(nodes, slots, ways))
            }
        }
    }
}
