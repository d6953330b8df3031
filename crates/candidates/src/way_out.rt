//! Whether the root can reach any other node.
ghost use Rattle.std.specs.Prelude.{◌≡◌, IsTrue};
ghost use Rattle.std.specs.List.{list_all};
ghost use Rattle.routes.specs.Contents.{contents_at};
ghost use Rattle.candidates.specs.Alone.{HasNoWayOut, leads_nowhere};

use lsa::{LinkKind, LsaBody, RouterLink, RouterLsa};
use lsdb::Lsdb;
use routes::Root;
use words::{Second, router_key};

// Whether the link leads to neither a router nor a transit network.
fn leads_nowhere(link: &RouterLink) -> bool
    ensures { result ≡ leads_nowhere link.now.kind }
{
    match link.kind {
        LinkKind::PointToPoint | LinkKind::Transit => false,
        LinkKind::Stub | LinkKind::Virtual => true,
    }
}

fn all_lead_nowhere(lsa: &RouterLsa) -> bool
    ensures { result ≡ list_all (λ link. leads_nowhere link.kind) lsa.now.links }
{
    let links = lsa.links.as_slice();
    links.iter().all(|link| leads_nowhere(link))
}

/// Whether the root's router-LSA has only stub links and virtual links, as before its first
/// neighbor is Full. Most walks that are requested while a database is loaded are of this kind.
pub fn has_no_way_out(db: &Lsdb, root: &Root, moment: Second) -> bool
    ensures { IsTrue result → HasNoWayOut (contents_at moment db.now.present) root.now.router }
{
    let key = router_key(root.router);
    match db.body_at(moment, &key) {
        Some(LsaBody::Router(lsa)) => all_lead_nowhere(lsa),
        _ => false,
    }
}
