//! The graph of the area from one event to the next (RFC 2328, section 16.1).
ghost use Rattle.std.specs.Prelude.{◌≡◌, ◌≤◌, length, IfOk, IfSome};
ghost use Rattle.std.specs.FinMap as finite;
ghost use Rattle.words.specs.Constants.{max_lsas};
ghost use Rattle.area_routes.specs.Kept.{IsGraphFrom};
ghost use Rattle.area_routes.specs.Offers.{root_by};
ghost use Rattle.candidates.specs.Ways.{DistancesFit, AreWays};
ghost use Rattle.routes.specs.Contents.{contents_at};
ghost use Rattle.candidates.specs.AreaGraphs.{IsAreaGraph};
ghost use Rattle.candidates.specs.Reached.{way_in};

use crate::graph_updates::update_graph;
use crate::root::is_root_of;
use area::Area;
use candidates::{AreaGraph, Reached, has_no_way_out, walk};
use routes::Root;
use std::alloc::{AllocError, Global};
use words::{RouterId, Second};

/// The graph of the area at a moment, from this root; `None` if the root has no way out, so that it
/// is reached alone.
///
/// # Errors
/// `AllocError` if an allocation is refused.
pub fn graph_at(
    alloc: Global,
    area: &Area,
    root: &Root,
    moment: Second,
) -> Result<Option<AreaGraph>, AllocError>
    requires interfaces { length root.now.addresses ≤ 63 }
    requires size { finite.len area.now.present.database ≤ max_lsas }
    ensures { IfOk result (λ made. IfSome made
        (IsGraphFrom (contents_at moment area.now.present.database) root.now)) }
{
    let db = area.database();
    if has_no_way_out(db, root, moment) {
        return Ok(None);
    }
    let graph = AreaGraph::new(alloc, db, root, moment)?;
    Ok(Some(graph))
}

/// The ways from this root at a moment; just a search in the graph if that is kept.
///
/// # Errors
/// `AllocError` if an allocation is refused.
pub fn walk_by(
    alloc: Global,
    area: &Area,
    root: &Root,
    moment: Second,
    kept: &Option<AreaGraph>,
) -> Result<Reached, AllocError>
    requires interfaces { length root.now.addresses ≤ 63 }
    requires size { finite.len area.now.present.database ≤ max_lsas }
    requires graph { IfSome kept.now
        (IsGraphFrom (contents_at moment area.now.present.database) root.now) }
    ensures ways { IfOk result (λ reached. AreWays (contents_at moment area.now.present.database)
        root.now (way_in reached)) }
    ensures near { IfOk result (λ reached. DistancesFit (way_in reached)) }
{
    match kept {
        Some(graph) => {
            let reached = graph.walk(alloc)?;
            Ok(reached)
        }
        None => {
            let db = area.database();
            let reached = walk(alloc, db, root, moment)?;
            Ok(reached)
        }
    }
}

// The graph after an event, from the one before it; `None` if it has to be rebuilt, or an
// allocation is refused.
fn followed(
    alloc: Global,
    area: &Area,
    before: Second,
    moment: Second,
    graph: AreaGraph,
) -> Option<AreaGraph>
    requires order { before ≤ moment }
    requires graph { IsAreaGraph (contents_at before area.now.committed.database) graph }
    ensures graph { IfSome result (IsAreaGraph (contents_at moment area.now.present.database)) }
    ensures root { IfSome result (λ next. next.root ≡ graph.root) }
{
    let db = area.database();
    match update_graph(alloc, db, graph, before, moment) {
        Ok(next) => next,
        Err(_) => None,
    }
}

/// The graph after an event, if there may be none, and if it may be that of another root.
pub fn graph_after(
    alloc: Global,
    router: RouterId,
    area: &Area,
    before: Second,
    moment: Second,
    kept: Option<AreaGraph>,
) -> Option<AreaGraph>
    requires order { before ≤ moment }
    requires graph { IfSome kept (IsAreaGraph (contents_at before area.now.committed.database)) }
    ensures { IfSome result (IsGraphFrom (contents_at moment area.now.present.database)
        (root_by router area.now.present.links)) }
{
    match kept {
        None => None,
        Some(graph) => {
            if is_root_of(&graph.root, router, area) {
                return followed(alloc, area, before, moment, graph);
            }
            None
        }
    }
}
