//! The calculation of shortest paths (RFC 2328, section 16.1).
ghost use Rattle.std.specs.Prelude.{◌≤◌, length, IfOk};
ghost use Rattle.std.specs.FinMap as finite;
ghost use Rattle.words.specs.Constants.{max_lsas};
ghost use Rattle.routes.specs.Contents.{contents_at};
ghost use Rattle.candidates.specs.Ways.{DistancesFit, AreWays};
ghost use Rattle.candidates.specs.Reached.{way_in};

use crate::graph::AreaGraph;
use crate::reached::{Reached, just_root};
use crate::way_out::has_no_way_out;
use lsdb::Lsdb;
use routes::Root;
use std::alloc::{AllocError, Global};
use words::Second;

/// The ways to all nodes that walks over the links of a database lead to: for each its least cost,
/// and exactly the interfaces of the first links of all walks with that cost (RFC 2328, section
/// 16.1). If the root's router-LSA is missing, is at MaxAge or has no link to a router or a transit
/// network, the root alone is reached.
///
/// The database has at most 16,384 LSAs, the root at most 63 interfaces. It takes the time of two
/// passes over the LSAs of routers and networks, a lookup for each link and the search; if the root
/// has no such link, that of one lookup.
///
/// # Errors
/// `AllocError` if an allocation is refused.
pub fn walk(alloc: Global, db: &Lsdb, root: &Root, moment: Second) -> Result<Reached, AllocError>
    requires interfaces { length root.now.addresses ≤ 63 }
    requires size { finite.len db.now.present ≤ max_lsas }
    ensures ways { IfOk result (λ reached. AreWays (contents_at moment db.now.present) root.now
        (way_in reached)) }
    ensures near { IfOk result (λ reached. DistancesFit (way_in reached)) }
{
    if has_no_way_out(db, root, moment) {
        let reached = just_root(alloc, root)?;
        Ok(reached)
    } else {
        walk_on(alloc, db, root, moment)
    }
}

// The ways to all nodes, by building the whole graph and searching it.
fn walk_on(alloc: Global, db: &Lsdb, root: &Root, moment: Second) -> Result<Reached, AllocError>
    requires interfaces { length root.now.addresses ≤ 63 }
    requires size { finite.len db.now.present ≤ max_lsas }
    ensures ways { IfOk result (λ reached. AreWays (contents_at moment db.now.present) root.now
        (way_in reached)) }
    ensures near { IfOk result (λ reached. DistancesFit (way_in reached)) }
{
    let graph = AreaGraph::new(alloc, db, root, moment)?;
    let reached = graph.walk(alloc)?;
    Ok(reached)
}
