//! The graph of a database: its nodes as vertices, each at its index, with their links.
ghost use Rattle.std.specs.Prelude.{◌≡◌, ◌≤◌, ℕ, length, IfOk};
ghost use Rattle.routes.specs.Graphs.{IsGraph, IsGraphOf};
ghost use Rattle.routes.specs.Links.{Leads};
ghost use Rattle.routes.specs.Contents.{contents_at};
ghost use Rattle.candidates.specs.Entries.{IsArea};
ghost use Rattle.candidates.specs.Graphs.{AreVertices, IsVertexOf, StandsAt, kind_of};
ghost use Rattle.candidates.specs.Nodes.{AreNodes};

use crate::advertised::{Advertised, NETWORK_LSA};
use crate::entries::entries_of;
use crate::links::{AreaTopology, links_from};
use crate::slots::Slots;
use crate::starts::starts_of;
use lsdb::Lsdb;
use routes::{Node, Root, Vertex, VertexKind};
use std::alloc::{AllocError, Global};
use words::Second;

/// The graph of the database: each of its links is one that counts (RFC 2328, section 16.1), for
/// each that counts there is one to the same node by the same interface that costs no more, and
/// each node is at its index in the list. The nodes are those of `nodes_of` at that moment; the
/// root has at most 63 interfaces. The slots are those of the nodes, so that each is found fast.
///
/// It takes the time of one pass over the LSAs of routers and networks, of a lookup for each link,
/// and of sorting the lists of networks; for the root it takes one more step for each of its links
/// at each network that lists it.
///
/// # Errors
/// `AllocError` if an allocation is refused.
pub fn graph_of(
    alloc: Global,
    db: &Lsdb,
    root: &Root,
    moment: Second,
    nodes: &[Node],
    slots: &Slots,
) -> Result<Vec<Vertex>, AllocError>
    requires nodes { AreNodes (contents_at moment db.now.present) nodes.now }
    requires interfaces { length root.now.addresses ≤ 63 }
    ensures count { IfOk result (λ graph. length graph.items ≡ length nodes.now) }
    ensures stands { IfOk result (λ graph. IsGraphOf (Leads (contents_at moment db.now.present)
        root.now) (StandsAt nodes.now) graph.items) }
    ensures lawful { IfOk result (λ graph. IsGraph graph.items) }
    ensures vertices { IfOk result (λ graph. AreVertices (contents_at moment db.now.present)
        root.now nodes.now graph.items) }
{
    let bodies = db.bodies_at(alloc, Some(NETWORK_LSA), moment)?;
    let advertised = Advertised {
        db,
        moment,
        bodies: &bodies,
    };
    let entries = entries_of(alloc, &advertised, nodes)?;
    let starts = starts_of(alloc, nodes, &entries)?;
    let area = AreaTopology {
        nodes,
        entries: &entries,
        slots,
        starts: &starts,
    };
    let graph = vertices_of(alloc, &advertised, root, &area)?;
    Ok(graph)
}

// The vertices of all nodes, each at the index of its node.
fn vertices_of(
    alloc: Global,
    advertised: &Advertised<'_>,
    root: &Root,
    area: &AreaTopology<'_>,
) -> Result<Vec<Vertex>, AllocError>
    requires area { IsArea (contents_at advertised.now.moment advertised.now.db.now.present)
        advertised.now.bodies.now area.now.nodes.now area.now.entries.now }
    requires interfaces { length root.now.addresses ≤ 63 }
    ensures { IfOk result (λ graph. AreVertices (contents_at advertised.now.moment
        advertised.now.db.now.present) root.now area.now.nodes.now graph.items) }
{
    let nodes = area.nodes;
    let mut graph = Vec::new(alloc);
    for at in 0..nodes.len() {
        let vertex = vertex_of(alloc, advertised, root, area, &nodes[at], at)?;
        graph.push(vertex)?;
    }
    Ok(graph)
}

// The vertex of the node at this index.
fn vertex_of(
    alloc: Global,
    advertised: &Advertised<'_>,
    root: &Root,
    area: &AreaTopology<'_>,
    node: &Node,
    place: usize,
) -> Result<Vertex, AllocError>
    requires area { IsArea (contents_at advertised.now.moment advertised.now.db.now.present)
        advertised.now.bodies.now area.now.nodes.now area.now.entries.now }
    requires interfaces { length root.now.addresses ≤ 63 }
    ensures { IfOk result (λ vertex. IsVertexOf (contents_at advertised.now.moment
        advertised.now.db.now.present) root.now area.now.nodes.now node.now vertex) }
{
    let kind = kind_of(node);
    let links = links_from(alloc, advertised, root, area, node, place)?;
    Ok(Vertex { kind, links })
}

/// The kind of a node's vertex.
pub fn kind_of(node: &Node) -> VertexKind
    ensures { result ≡ kind_of node.now }
{
    match node {
        Node::ARouter(_) => VertexKind::Router,
        Node::ANetwork(..) => VertexKind::Network,
    }
}
