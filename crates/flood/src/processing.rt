//! One event, before it is committed or rolled back.
ghost use Rattle.std.specs.Prelude.{◌≡◌, IfOk, None, OnErr, OnOk, false};
ghost use Rattle.event_rules.specs.RoomLaws.{IsRoomy};
ghost use Rattle.event_rules.specs.Events.{Happens};
ghost use Rattle.event_rules.specs.Refusals.{RefusesByRules, exceeds, is_interface, no_interface};
ghost use Rattle.area.specs.Drafted.{nothing_at};
ghost use Rattle.invariants.specs.InOrder.{IsConsistent};
ghost use Rattle.invariants.specs.Keeping.{HasNumbersInRange, KeepsWhatIsKnown};
ghost use Rattle.invariants.specs.LawfulSends.{SendsLawfully};
ghost use Rattle.flood.specs.Early.{early_refusal};
ghost use Rattle.flood.specs.Occurrences.{occurrence_of};
ghost use Rattle.flood.specs.Offers.{AreKeptNow, WalkStaysUnlessChanged};

use crate::applying::apply_part;
use crate::event::Event;
use crate::keeping::pack_and_update_routes;
use crate::part::read_part;
use area_routes::AreaRoutes;
use event_rules::{CoreError, Out};
use router::telling::full_routers;
use router::{Router, end_event};
use std::alloc::Global;
use words::Second;

fn is_interface(router: &Router, interface: u16) -> bool
    ensures { result ≡ is_interface interface router.now.present }
{
    1 <= interface && usize::from(interface) <= router.area().links().len()
}

fn refuses_interface(router: &Router, interface: u16) -> Option<CoreError>
    ensures { result ≡ no_interface interface router.now.present None }
{
    if is_interface(router, interface) {
        None
    } else {
        Some(CoreError::NoInterface)
    }
}

/// The refusal of an event that is determined before anything is allocated: for its moment, or for
/// its interface.
pub fn early_refusal(router: &Router, moment: Second, event: &Event) -> Option<CoreError>
    ensures { result ≡ early_refusal router.now.present moment (occurrence_of event.now) }
{
    if moment.count() < router.moment().count() || !moment.is_in_range() {
        return Some(CoreError::ClockBack);
    }
    match event {
        Event::Packet(interface, _) => refuses_interface(router, *interface),
        Event::Tick => None,
        Event::Redistribute(_, _) => None,
        Event::Withdraw(_) => None,
        Event::Install(_) => None,
        Event::LinkDown(interface) => refuses_interface(router, *interface),
    }
}

/// Processes one event: unless it is refused before, copies that have reached MaxAge since the last
/// event are flooded, then the event's own part is done, then the end that all events share; last,
/// what is kept for routes is updated. After a refusal the caller rolls the router back; the routes
/// are unchanged.
///
/// # Errors
/// As [`Core::step`](crate::Core::step), in the same order.
#[tactic(auto, using(crate::proofs::Early::may_lack_memory))]
pub fn process_event(
    router: &mut Router,
    routes: &mut AreaRoutes,
    alloc: Global,
    moment: Second,
    event: &Event,
) -> Result<Vec<Out>, CoreError>
    requires committed { router.old.committed ≡ router.old.present }
    requires drafted { router.old.drafted ≡ nothing_at router.old.present.area.links }
    requires roomy { IsRoomy router.old.present }
    requires order { IsConsistent router.old.present }
    requires holds { HasNumbersInRange router.old.present }
    requires kept { AreKeptNow router.old.present routes.old }
    ensures ok { IfOk result (λ outs. Happens router.old.present moment (occurrence_of event.now)
        outs.items router.new.present) }
    ensures keeps { IfOk result (λ outs. KeepsWhatIsKnown router.old.present moment
        (occurrence_of event.now) outs.items router.new.present) }
    ensures lawful { IfOk result (λ outs. SendsLawfully router.old.present moment
        (occurrence_of event.now) outs.items router.new.present) }
    ensures order { OnOk result (IsConsistent router.new.present) }
    ensures holds { OnOk result (HasNumbersInRange router.new.present) }
    ensures refused { RefusesByRules router.old.present moment (occurrence_of event.now) result }
    ensures limit { OnOk result (exceeds router.new.present ≡ false) }
    ensures committed { router.new.committed ≡ router.old.committed }
    ensures kept { OnOk result (AreKeptNow router.new.present routes.new) }
    // Shortest paths aren't calculated here, and the walk that is kept stays valid unless an LSA of
    // type 1 or 2 was added or removed, has reached MaxAge, has another body or took the place of
    // a copy at MaxAge, or the interfaces' addresses differ.
    ensures walks { OnOk result (WalkStaysUnlessChanged router.old.present router.new.present
        routes.old routes.new) }
    ensures err { OnErr result (routes.new ≡ routes.old) }
{
    if let Some(error) = early_refusal(router, moment, event) {
        return Err(error);
    }
    let part = read_part(router, alloc, event)?;
    let own = router.id();
    let before = router.moment();
    let full = full_routers(router, alloc)?;
    router.flood_aged(alloc, moment)?;
    apply_part(router, alloc, moment, part)?;
    end_event(router, alloc, moment, &full)?;
    let drafts = router.take_drafts(alloc)?;
    pack_and_update_routes(router, routes, alloc, own, before, event, drafts)
}
