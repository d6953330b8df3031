//! A Tick (RFC 2328, sections 9.5, 10.3, 12.4, 13.5 and 13.6).
ghost use Rattle.event_rules.specs.Originations.{due_keys};
ghost use Rattle.event_rules.specs.Ticks.{after_tick};
ghost use Rattle.router.specs.Making.{RouterDoes};
ghost use Rattle.router.specs.TickParts.{originate_what_is_due, expire_timers_and_forget};

use crate::due::{due_keys, originate_due};
use crate::state::Router;
use std::alloc::{AllocError, Global};
use words::Second;

// Expired timers: inactive neighbors go Down, the others discard old Database Descriptions, and
// originations are forgotten after MinLSInterval.
fn expire_timers(router: &mut Router, alloc: Global, moment: Second) -> Result<(), AllocError>
    ensures { RouterDoes (expire_timers_and_forget moment) router.old router.new result }
{
    router.expire_timers(moment);
    router.forget_originations(alloc, moment)
}

// Originates LSAs that wait or are to be refreshed. Their keys are determined before the first one
// is originated.
fn originate_what_is_due(
    router: &mut Router,
    alloc: Global,
    moment: Second,
) -> Result<(), AllocError>
    ensures { RouterDoes (originate_what_is_due moment) router.old router.new result }
{
    let keys = due_keys(router, alloc, moment)?;
    originate_due(router, alloc, moment, &keys)
}

/// What a Tick does, in order: inactive neighbors go Down, old Database Descriptions are discarded,
/// and originations are forgotten after MinLSInterval; LSAs that wait or are to be refreshed
/// are originated; what was sent RxmtInterval ago is retransmitted; delayed acknowledgments and due
/// Hellos are sent.
///
/// # Errors
/// `AllocError` if an allocation is refused.
pub fn tick(router: &mut Router, alloc: Global, moment: Second) -> Result<(), AllocError>
    ensures { RouterDoes (after_tick moment) router.old router.new result }
{
    expire_timers(router, alloc, moment)?;
    originate_what_is_due(router, alloc, moment)?;
    router.send_what_is_due(alloc, moment)
}
