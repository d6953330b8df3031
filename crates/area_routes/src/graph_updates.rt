//! The graph after an event.
ghost use Rattle.std.specs.Prelude.{◌≡◌, ◌≤◌, length, IfOk, IfSome, IsTrue};
ghost use Rattle.candidates.specs.Nodes.{AreNodes};
ghost use Rattle.area_routes.specs.Vertices.{IsRenewed, StayUnlessAmong};
ghost use Rattle.routes.specs.Contents.{contents_at};
ghost use Rattle.candidates.specs.AreaGraphs.{IsAreaGraph};

use crate::graph_changes::indices_to_renew;
use crate::graph_links::vertex_of;
use crate::lookups::are_costly;
use crate::surroundings::Surroundings;
use candidates::{AreaGraph, NETWORK_LSA};
use kept_routes::{lsas_are_unchanged, possibly_changed_keys};
use routes::{Lsdb, Root, Vertex};
use std::alloc::{AllocError, Global};
use words::Second;

// Recalculates the vertex at this index. Returns false if there is none.
fn renew(
    alloc: Global,
    at: &Surroundings<'_>,
    root: &Root,
    place: usize,
    vertices: &mut Vec<Vertex>,
) -> Result<bool, AllocError>
    requires nodes { AreNodes (contents_at at.now.moment at.now.db.now.present) at.now.nodes.now }
    requires interfaces { length root.now.addresses ≤ 63 }
    ensures renewed { IfOk result (λ done. IsTrue done → IsRenewed
        (contents_at at.now.moment at.now.db.now.present) root.now at.now.nodes.now place
        vertices.old.items vertices.new.items) }
{
    let Some(node) = at.nodes.get(place) else {
        return Ok(false);
    };
    if place >= vertices.len() {
        return Ok(false);
    }
    vertices[place] = vertex_of(alloc, at, root, node)?;
    Ok(true)
}

// Recalculates the vertices at these indices.
fn renewed(
    alloc: Global,
    db: &Lsdb,
    graph: AreaGraph,
    before: Second,
    moment: Second,
    places: &[usize],
) -> Result<Option<AreaGraph>, AllocError>
    requires graph { IsAreaGraph (contents_at before db.now.committed) graph }
    requires nodes { AreNodes (contents_at moment db.now.present) graph.nodes.items }
    requires others { StayUnlessAmong (contents_at before db.now.committed)
        (contents_at moment db.now.present) graph.root graph.nodes.items places.now }
    ensures graph { IfOk result (λ next. IfSome next
        (IsAreaGraph (contents_at moment db.now.present))) }
    ensures root { IfOk result (λ next. IfSome next (λ followed. followed.root ≡ graph.root)) }
{
    let AreaGraph {
        root,
        nodes,
        slots,
        mut vertices,
    } = graph;
    let at = Surroundings {
        db,
        moment,
        nodes: &nodes,
        slots: &slots,
    };
    for place in places {
        if !renew(alloc, &at, &root, *place, &mut vertices)? {
            return Ok(None);
        }
    }
    Ok(Some(AreaGraph {
        root,
        nodes,
        slots,
        vertices,
    }))
}

/// The graph of a database after an event, from the graph before it: from what the committed
/// database said at the moment `before` to what the database says at this moment. `None` if it has
/// to be rebuilt: if a router or network was added or removed, or if many LSAs changed. It takes
/// the time of two lookups, and of a pass over the LSA at the other end, for each link of the
/// routers and networks whose LSAs changed, and of those that these named or name (of one that is
/// named before and after twice): of at most as many links as there are nodes, and 64 more.
///
/// # Errors
/// `AllocError` if an allocation is refused.
pub fn update_graph(
    alloc: Global,
    db: &Lsdb,
    graph: AreaGraph,
    before: Second,
    moment: Second,
) -> Result<Option<AreaGraph>, AllocError>
    requires order { before ≤ moment }
    requires graph { IsAreaGraph (contents_at before db.now.committed) graph }
    ensures graph { IfOk result (λ next. IfSome next
        (IsAreaGraph (contents_at moment db.now.present))) }
    ensures root { IfOk result (λ next. IfSome next (λ followed. followed.root ≡ graph.root)) }
{
    if lsas_are_unchanged(alloc, db, Some(NETWORK_LSA), before, moment)? {
        return Ok(Some(graph));
    }
    let keys = possibly_changed_keys(alloc, db, before, moment)?;
    let at = Surroundings {
        db,
        moment,
        nodes: &graph.nodes,
        slots: &graph.slots,
    };
    match indices_to_renew(alloc, &at, before, &keys)? {
        None => Ok(None),
        Some(places) => {
            if are_costly(&at, &places) {
                return Ok(None);
            }
            renewed(alloc, db, graph, before, moment, &places)
        }
    }
}
