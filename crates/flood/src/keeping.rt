//! The end of an event: what it sends, and what is kept for routes between events.
ghost use Rattle.std.specs.Prelude.{◌≡◌, ◌≤◌, List, IfOk, OnErr, OnOk, false, length};
ghost use Rattle.area_routes.specs.Kept.{AreKept, KeepsWalkUnlessChanged};
ghost use Rattle.received.specs.Links.{Link as LinkOfArea};
ghost use Rattle.received.specs.AreaStates.{Send};
ghost use Rattle.event_rules.specs.Packing.{outs_of};
ghost use Rattle.invariants.specs.Keeping.{AreTexts};
ghost use Rattle.flood.specs.Drafts.{AreDrafts};
ghost use Rattle.flood.specs.Occurrences.{is_install, occurrence_of};
ghost use Rattle.flood.specs.Offers.{AreKeptNow};
ghost use Rattle.flood.specs.Parts.{RefusesAtLimit};

use crate::event::Event;
use crate::sending::outs;
use adjacency::Draft;
use area_routes::AreaRoutes;
use event_rules::{CoreError, Out};
use router::Router;
use std::alloc::{AllocError, Global};
use words::{RouterId, Second};

// Updates the routes for an event of the router that isn't final yet.
fn keep(
    router: &Router,
    routes: &mut AreaRoutes,
    alloc: Global,
    before: Second,
    event: &Event,
) -> Result<(), AllocError>
    requires order { before ≤ router.now.present.moment }
    requires kept { AreKept router.now.present.id router.now.committed.area before
        router.now.committed.answers routes.old }
    requires answers { is_install (occurrence_of event.now) ≡ false
        → router.now.present.answers ≡ router.now.committed.answers }
    ensures kept { OnOk result (AreKeptNow router.now.present routes.new) }
    ensures walks { OnOk result (KeepsWalkUnlessChanged before router.now.present.moment
        router.now.present.id router.now.committed.area router.now.present.area
        routes.old routes.new) }
    ensures err { OnErr result (routes.new ≡ routes.old) }
{
    let own = router.id();
    let area = router.area();
    let moment = router.moment();
    routes.update(alloc, own, area, before, moment)?;
    if event.is_install() {
        routes.take_answers(alloc, own, area, moment, router.answers());
    }
    Ok(())
}

/// The last part of each event: packs the drafts into the packets to be sent, and updates the
/// routes that are kept, unless the router exceeds a limit. `own` is the router's Router ID,
/// `before` the moment of the last event.
///
/// # Errors
/// `Full` if the router exceeds a limit, `Memory` if an allocation is refused. The routes are
/// unchanged then.
pub fn pack_and_update_routes(
    router: &Router,
    routes: &mut AreaRoutes,
    alloc: Global,
    own: RouterId,
    before: Second,
    event: &Event,
    drafts: Vec<Draft>,
) -> Result<Vec<Out>, CoreError>
    // They are the drafts of an event's contents, each of which fits into a packet.
    requires drafts { (links : List LinkOfArea) × (sends : List Send)
        × AreDrafts links sends drafts.items }
    requires few { length drafts.items ≤ 63 }
    requires order { before ≤ router.now.present.moment }
    requires kept { AreKept router.now.present.id router.now.committed.area before
        router.now.committed.answers routes.old }
    requires answers { is_install (occurrence_of event.now) ≡ false
        → router.now.present.answers ≡ router.now.committed.answers }
    ensures outs { (links : List LinkOfArea) (sends : List Send)
        → AreDrafts links sends drafts.items
        → IfOk result (λ outs. outs.items ≡ outs_of own links sends) }
    // Each packet is encoded correctly.
    ensures texts { (links : List LinkOfArea) (sends : List Send)
        → AreDrafts links sends drafts.items → OnOk result (AreTexts own links sends) }
    ensures limit { RefusesAtLimit router.now.present result }
    ensures kept { OnOk result (AreKeptNow router.now.present routes.new) }
    ensures walks { OnOk result (KeepsWalkUnlessChanged before router.now.present.moment
        router.now.present.id router.now.committed.area router.now.present.area
        routes.old routes.new) }
    ensures err { OnErr result (routes.new ≡ routes.old) }
{
    if router.area().exceeds() {
        return Err(CoreError::Full);
    }
    let outs = outs(alloc, own, drafts)?;
    keep(router, routes, alloc, before, event)?;
    Ok(outs)
}
