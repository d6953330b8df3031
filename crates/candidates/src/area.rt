//! What networks, stub links and summaries offer (RFC 2328, sections 16.1 and 16.2).
ghost use Rattle.std.specs.Prelude.{◌≡◌, ◌<◌, IfSome, OnOk};
ghost use Rattle.candidates.specs.Ways.{DistancesFit};
ghost use Rattle.candidates.specs.Borders.{FlaggedDistancesFit, AscendByRouter};
ghost use Rattle.candidates.specs.Gathering.{Adds, OfferCostsFit, IsOnly, OfEach};
ghost use Rattle.candidates.specs.Sources.{IsInner, IsStub, OfNetwork, OfRouter, OfSummary};
ghost use Rattle.candidates.specs.Sources.{leaving};

use crate::borders::counted_border;
use crate::flagged::Flagged;
use crate::gathering::{network_of, network_under, push_offer};
use crate::offer::{inter, intra};
use crate::ways::Ways;
use lsa::{LinkKind, LsaBody, RouterLink};
use routes::{Node, Offer, Root, Way};
use std::alloc::AllocError;
use words::{Address, Key, RouterId};

fn stub_offer(link: &RouterLink, way: Way) -> Option<Offer>
    requires { way.distance < 1073741824 }
    ensures only { IsOnly (IsStub way link.now) result }
    ensures few { IfSome result (λ o. o.cost < 2147483648) }
{
    if link.kind != LinkKind::Stub {
        return None;
    }
    let prefix = network_under(Address::new(link.link_id), Address::new(link.link_data))?;
    Some(intra(prefix, way.distance + u32::from(link.metric), way.hops))
}

fn push_stubs(links: &[RouterLink], way: Way, offers: &mut Vec<Offer>) -> Result<(), AllocError>
    requires { way.distance < 1073741824 }
    ensures adds { OnOk result (Adds offers.old.items offers.new.items
        (OfEach (IsStub way) links.now)) }
    ensures cheap { OnOk result (OfferCostsFit offers.old.items → OfferCostsFit offers.new.items) }
{
    for link in links {
        push_offer(offers, stub_offer(link, way))?;
    }
    Ok(())
}

// The way to the root's own networks: by interface 0 alone, the router itself, whose bit is 1.
fn leaving(root: &Root, router: RouterId, way: Way) -> Way
    ensures value { result ≡ leaving root.now router way }
    ensures near { result.distance ≡ way.distance }
{
    if router == root.router {
        Way {
            distance: way.distance,
            hops: 1,
        }
    } else {
        way
    }
}

fn push_router<W: Ways>(
    root: &Root,
    ways: &W,
    key: &Key,
    body: &LsaBody,
    offers: &mut Vec<Offer>,
) -> Result<(), AllocError>
    requires { DistancesFit (W.ways ways.now) }
    ensures adds { OnOk result (Adds offers.old.items offers.new.items
        (OfRouter root.now (W.ways ways.now) (key.now, body.now))) }
    ensures cheap { OnOk result (OfferCostsFit offers.old.items → OfferCostsFit offers.new.items) }
{
    if key.ls_type != 1 || key.link_state_id.number() != key.advertising_router.number() {
        return Ok(());
    }
    let LsaBody::Router(lsa) = body else {
        return Ok(());
    };
    let Some(way) = ways.way_to(&Node::ARouter(key.advertising_router)) else {
        return Ok(());
    };
    push_stubs(
        lsa.links.as_slice(),
        leaving(root, key.advertising_router, way),
        offers,
    )?;
    Ok(())
}

fn network_offer<W: Ways>(ways: &W, key: &Key, body: &LsaBody) -> Option<Offer>
    ensures only { IsOnly (OfNetwork (W.ways ways.now) (key.now, body.now)) result }
    ensures few { DistancesFit (W.ways ways.now) → IfSome result (λ o. o.cost < 2147483648) }
{
    if key.ls_type != 2 {
        return None;
    }
    let LsaBody::Network(lsa) = body else {
        return None;
    };
    let way = ways.way_to(&Node::ANetwork(key.link_state_id, key.advertising_router))?;
    let prefix = network_of(key, lsa.mask)?;
    Some(intra(prefix, way.distance, way.hops))
}

fn summary_offer(root: &Root, routers: &[Flagged], key: &Key, body: &LsaBody) -> Option<Offer>
    requires ascend { AscendByRouter routers.now }
    requires close { FlaggedDistancesFit routers.now }
    ensures only { IsOnly (OfSummary root.now routers.now (key.now, body.now)) result }
    ensures few { IfSome result (λ o. o.cost < 2147483648) }
{
    if key.ls_type != 3 {
        return None;
    }
    let LsaBody::NetworkSummary(lsa) = body else {
        return None;
    };
    let border = counted_border(root, routers, key.advertising_router, lsa)?;
    let prefix = network_of(key, lsa.mask)?;
    Some(inter(prefix, border.distance + lsa.metric, border.hops))
}

/// Adds what this LSA offers within the area and between areas.
///
/// # Errors
/// `AllocError` if an allocation is refused.
pub fn push_inner<W: Ways>(
    root: &Root,
    ways: &W,
    routers: &[Flagged],
    key: &Key,
    body: &LsaBody,
    offers: &mut Vec<Offer>,
) -> Result<(), AllocError>
    requires near { DistancesFit (W.ways ways.now) }
    requires ascend { AscendByRouter routers.now }
    requires close { FlaggedDistancesFit routers.now }
    ensures adds { OnOk result (Adds offers.old.items offers.new.items
        (IsInner root.now (W.ways ways.now) routers.now (key.now, body.now))) }
    ensures cheap { OnOk result (OfferCostsFit offers.old.items → OfferCostsFit offers.new.items) }
{
    push_router(root, ways, key, body, offers)?;
    push_offer(offers, network_offer(ways, key, body))?;
    push_offer(offers, summary_offer(root, routers, key, body))?;
    Ok(())
}
