//! Area border routers, AS boundary routers, and what summary-LSAs advertise about these (RFC 2328,
//! sections 16.2 and 16.4).
ghost use Rattle.std.specs.Prelude.{◌≡◌, ◌<◌, IfSome};
ghost use Rattle.words.specs.Constants.{ls_infinity};
ghost use Rattle.candidates.specs.Borders.{
  RouteCostsFit,
  FlaggedDistancesFit,
  Ascend,
  AscendByRouter,
  IsBoundary,
  IsCounted,
  Tells,
};
ghost use Rattle.candidates.specs.Gathering.{IsOnly};

use crate::flagged::{BORDER, BOUNDARY, Flagged, flagged_way};
use crate::offer::{host, inner_way, inter};
use crate::search::find;
use lsa::{LsaBody, SummaryLsa};
use routes::{Offer, Root, Way};
use words::{Key, LS_INFINITY, Route, RouterId};

/// The way to the area border router of a summary-LSA, if that counts.
pub fn counted_border(
    root: &Root,
    routers: &[Flagged],
    originator: RouterId,
    lsa: &SummaryLsa,
) -> Option<Way>
    requires ascend { AscendByRouter routers.now }
    requires close { FlaggedDistancesFit routers.now }
    ensures only { IsOnly (IsCounted root.now routers.now originator lsa.now) result }
    ensures near { IfSome result (λ border. border.distance < 1073741824) }
    ensures metric { IfSome result (λ _. lsa.now.metric < ls_infinity) }
{
    if lsa.metric >= LS_INFINITY || originator == root.router {
        return None;
    }
    flagged_way(routers, 0, originator, BORDER)
}

/// What the summary-LSA with this key advertises about an AS boundary router, as an offer for the
/// router's host prefix (RFC 2328, section 16.2).
pub fn boundary_offer(root: &Root, routers: &[Flagged], key: &Key, body: &LsaBody) -> Option<Offer>
    requires ascend { AscendByRouter routers.now }
    requires close { FlaggedDistancesFit routers.now }
    ensures { IsOnly (Tells root.now routers.now (key.now, body.now)) result }
{
    if key.ls_type != 4 {
        return None;
    }
    let LsaBody::RouterSummary(lsa) = body else {
        return None;
    };
    let border = counted_border(root, routers, key.advertising_router, lsa)?;
    Some(inter(
        host(key.link_state_id.number()),
        border.distance + lsa.metric,
        border.hops,
    ))
}

/// The way to an AS boundary router: within the area if there is one, else as summary-LSAs
/// advertise. The search among the routers of the area begins at index `place`.
pub fn boundary_way(
    routers: &[Flagged],
    place: usize,
    advertised: &[Route],
    router: RouterId,
) -> Option<Way>
    requires routers { AscendByRouter routers.now × FlaggedDistancesFit routers.now }
    requires ascend { Ascend advertised.now }
    requires few { RouteCostsFit advertised.now }
    ensures only { IsOnly (IsBoundary routers.now advertised.now router) result }
    ensures near { IfSome result (λ way. way.distance < 2147483648) }
{
    match flagged_way(routers, place, router, BOUNDARY) {
        Some(way) => Some(way),
        None => {
            let route = find(advertised, host(router.number()))?;
            Some(inner_way(route))
        }
    }
}
