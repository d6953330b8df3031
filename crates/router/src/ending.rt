//! The end of an event in its parts.
ghost use Rattle.std.specs.Prelude.{◌≡◌, List, length};
ghost use Rattle.received.specs.Links.{Link};
ghost use Rattle.event_rules.specs.Endings.{end_event, originate_router_lsa, postpone_router_lsa};
ghost use Rattle.router.specs.Full.{full_routers};
ghost use Rattle.router.specs.EndingParts.{loading_done_then_originate};
ghost use Rattle.router.specs.EndingParts.{loading_done_then_postpone};
ghost use Rattle.router.specs.Making.{RouterDoes, interfaces_of};

use crate::originate::originate_or_postpone;
use crate::state::Router;
use crate::telling::{full_routers, has_changed, is_outdated};
use std::alloc::{AllocError, Global};
use words::{RouterId, Second, router_key};

// Originates the router-LSA, at once or at a Tick, if this event has changed its body.
fn originate_router_lsa(
    router: &mut Router,
    alloc: Global,
    moment: Second,
    full_before: &[Option<RouterId>],
) -> Result<(), AllocError>
    requires before { length full_before.now ≡ length router.old.present.area.links }
    ensures { (old : List Link)
        → interfaces_of old ≡ interfaces_of router.old.present.area.links
        → full_routers old ≡ full_before.now
        → RouterDoes (originate_router_lsa old moment) router.old router.new result }
{
    let outdated = is_outdated(router, alloc, moment, full_before)?;
    if !outdated {
        return Ok(());
    }
    let key = router_key(router.id());
    originate_or_postpone(router, alloc, moment, &key)
}

// If the body of the router-LSA has changed, it waits for a Tick.
fn postpone_router_lsa(
    router: &mut Router,
    alloc: Global,
    full_before: &[Option<RouterId>],
) -> Result<(), AllocError>
    requires before { length full_before.now ≡ length router.old.present.area.links }
    ensures { (old : List Link)
        → interfaces_of old ≡ interfaces_of router.old.present.area.links
        → full_routers old ≡ full_before.now
        → RouterDoes (postpone_router_lsa old) router.old router.new result }
{
    let differ = has_changed(router, alloc, full_before)?;
    if !differ {
        return Ok(());
    }
    let key = router_key(router.id());
    router.postpone(&key)
}

// LoadingDone for each neighbor whose request list is empty, and the router-LSA is originated if
// this event has changed its body.
fn loading_done_then_originate(
    router: &mut Router,
    alloc: Global,
    moment: Second,
    full_before: &[Option<RouterId>],
) -> Result<(), AllocError>
    requires before { length full_before.now ≡ length router.old.present.area.links }
    ensures { (old : List Link)
        → interfaces_of old ≡ interfaces_of router.old.present.area.links
        → full_routers old ≡ full_before.now
        → RouterDoes (loading_done_then_originate old moment) router.old router.new result }
{
    router.end_loading();
    originate_router_lsa(router, alloc, moment, full_before)
}

// LoadingDone once more, since flooding the router-LSA may have satisfied requests; what that
// changes waits for a Tick.
fn loading_done_then_postpone(router: &mut Router, alloc: Global) -> Result<(), AllocError>
    ensures { RouterDoes loading_done_then_postpone router.old router.new result }
{
    let full_before = full_routers(router, alloc)?;
    router.end_loading();
    postpone_router_lsa(router, alloc, &full_before)
}

/// The end of an event: each neighbor goes from Loading to Full if its request list is empty; the
/// router-LSA is originated again if its body has changed since the event began; Link State
/// Requests are sent; copies at MaxAge that are on no retransmission list are removed from the
/// database, unless some neighbor is in Exchange or Loading; the moment is noted. `full_before` are
/// the neighbors that were Full when the event began.
///
/// # Errors
/// `AllocError` if an allocation is refused.
pub fn end_event(
    router: &mut Router,
    alloc: Global,
    moment: Second,
    full_before: &[Option<RouterId>],
) -> Result<(), AllocError>
    requires before { full_before.now ≡ full_routers router.old.committed.area.links }
    requires interfaces { interfaces_of router.old.present.area.links
        ≡ interfaces_of router.old.committed.area.links }
    ensures { RouterDoes (end_event router.old.committed moment) router.old router.new result }
{
    loading_done_then_originate(router, alloc, moment, full_before)?;
    loading_done_then_postpone(router, alloc)?;
    router.request_and_remove_aged(alloc, moment)
}
