//! New instances of self-originated LSAs.
ghost use Rattle.std.specs.Prelude.{◌≡◌};
ghost use Rattle.event_rules.specs.Originations.{originate_or_postpone, receive_self_originated};
ghost use Rattle.lsdb.specs.Headers.{Lsa};
ghost use Rattle.router.specs.Decisions.{after_origination};
ghost use Rattle.router.specs.Making.{RouterDoes};
ghost use Rattle.router.specs.Wanted.{originate_if_wanted};

use crate::origination::Origination;
use crate::state::Router;
use crate::wanted::{should_originate, wanted_origination};
use lsa::Header;
use std::alloc::{AllocError, Global};
use words::{Key, Second};

// Carries out what was decided for the LSA.
fn carry_out(
    router: &mut Router,
    alloc: Global,
    moment: Second,
    key: &Key,
    found: Origination,
) -> Result<(), AllocError>
    ensures { RouterDoes (after_origination moment key.now found) router.old router.new result }
{
    match found {
        Origination::Flushes => router.flush(alloc, moment, key),
        Origination::Waits => router.postpone(key),
        Origination::Originates(lsa) => router.originate(alloc, moment, key, lsa),
    }
}

/// A new instance of the LSA of this key at once or at a Tick, if it is wanted; at once only if
/// `may_now` (the database has room, or that doesn't matter) and MinLSInterval allow it.
///
/// # Errors
/// `AllocError` if an allocation is refused.
pub fn originate_if_wanted(
    router: &mut Router,
    alloc: Global,
    may_now: bool,
    moment: Second,
    key: &Key,
) -> Result<(), AllocError>
    ensures { RouterDoes (originate_if_wanted may_now moment key.now) router.old router.new result }
{
    let found = wanted_origination(router, alloc, may_now, moment, key)?;
    let Some(found) = found else {
        return Ok(());
    };
    carry_out(router, alloc, moment, key, found)
}

/// Originates the LSA of this key, if it is wanted: at once if the database has room for it and
/// MinLSInterval allows it, else at a Tick; after MaxSequenceNumber the copy is flushed first (RFC
/// 2328, sections 12.1.6 and 12.4).
///
/// # Errors
/// `AllocError` if an allocation is refused.
pub fn originate_or_postpone(
    router: &mut Router,
    alloc: Global,
    moment: Second,
    key: &Key,
) -> Result<(), AllocError>
    ensures { RouterDoes (originate_or_postpone moment key.now) router.old router.new result }
{
    let has_room = router.area().database().has_room(key);
    originate_if_wanted(router, alloc, has_room, moment, key)
}

/// Processes a self-originated LSA with this header that was received and installed (RFC 2328,
/// section 13.4): a wanted one is originated again with the next sequence number, at once or at a
/// Tick, or after its copy was flushed; any other is flushed. An LSA of another router changes
/// nothing: the second condition of section 13.4, for network-LSAs of this router's own addresses,
/// isn't tested, since it is on no transit network.
///
/// # Errors
/// `AllocError` if an allocation is refused.
pub fn receive_self_originated(
    router: &mut Router,
    alloc: Global,
    moment: Second,
    header: &Header,
) -> Result<(), AllocError>
    ensures { (lsa : Lsa) → lsa.header ≡ header.now
        → RouterDoes (receive_self_originated moment lsa) router.old router.new result }
{
    if header.advertising_router != router.id() {
        return Ok(());
    }
    let key = header.key();
    if should_originate(router, &key) {
        return originate_or_postpone(router, alloc, moment, &key);
    }
    router.flush(alloc, moment, &key)
}
