//! When a self-originated LSA is originated (RFC 2328, sections 12.1.6 and 12.4).
ghost use Rattle.std.specs.Prelude.{◌≡◌, ◌≤◌, ◌<◌, ◌^◌, ◌&&◌, length, map, IfOk};
ghost use Rattle.std.specs.FinMap as finite;
ghost use Rattle.event_rules.specs.Originations.{
  external_body,
  external_key,
  interval_is_over,
  router_body,
  router_key,
};
ghost use Rattle.area.specs.Links.{present};
ghost use Rattle.router.specs.Decisions.{of_instance, origination, unless_flushed};

use crate::external::external_instance;
use crate::router::router_instance;
use crate::sequence::next_number;
use area::{DatabaseCopy, Link, Lsdb};
use lsa::Lsa;
use std::alloc::{AllocError, Global};
use words::{External, MIN_LS_INTERVAL, RouterId, Second, external_key, router_key};

/// What happens to a wanted self-originated LSA.
#[derive(Drop)]
pub enum Origination {
    /// The copy has MaxSequenceNumber and is to be flushed first.
    Flushes,
    /// The LSA waits for a Tick.
    Waits,
    /// This instance is to be installed and flooded.
    Originates(Lsa),
}

/// Whether MinLSInterval, five seconds, has passed since `last`, when the LSA was last originated,
/// or it wasn't.
pub fn interval_is_over(moment: Second, last: Option<Second>) -> bool
    ensures { result ≡ interval_is_over moment last }
{
    let Some(last) = last else {
        return true;
    };
    MIN_LS_INTERVAL <= moment.since(last)
}

fn is_time(may_now: bool, moment: Second, last: Option<Second>) -> bool
    ensures { result ≡ (may_now && interval_is_over moment last) }
{
    may_now && interval_is_over(moment, last)
}

fn of_instance(instance: Option<Lsa>) -> Origination
    ensures { result ≡ of_instance instance }
{
    match instance {
        None => Origination::Flushes,
        Some(lsa) => Origination::Originates(lsa),
    }
}

// It waits, unless the copy is to be flushed first.
fn unless_flushed(copy: Option<DatabaseCopy<'_>>) -> Origination
    ensures { result ≡ unless_flushed copy.entry }
{
    match next_number(copy) {
        None => Origination::Flushes,
        Some(_number) => Origination::Waits,
    }
}

/// Decides what is to happen to the router-LSA for these links, interface n at index n - 1: it is
/// originated at once if `may_now` (the database has room, or that doesn't matter) and
/// MinLSInterval allow it, else at a Tick; after MaxSequenceNumber its copy is flushed first (RFC
/// 2328, sections 12.4.1 and 12.1.6). `last` is the moment of the last origination, if it is known.
/// The caller carries it out.
///
/// # Errors
/// `AllocError` if an allocation is refused.
pub fn decide_router_lsa(
    alloc: Global,
    may_now: bool,
    moment: Second,
    own: RouterId,
    links: &[Link],
    database: &Lsdb,
    last: Option<Second>,
) -> Result<Origination, AllocError>
    requires { length links.now ≤ 63 }
    ensures { let key = router_key own in
        IfOk result (λ found. found ≡ origination may_now moment key
        (router_body (map present links.now)) (finite.get database.now.present key) last) }
{
    let now = is_time(may_now, moment, last);
    if now {
        let instance = router_instance(alloc, own, links, database)?;
        return Ok(of_instance(instance));
    }
    let key = router_key(own);
    Ok(unless_flushed(database.get(&key)))
}

/// Decides what is to happen to the AS-external-LSA for this destination, as `decide_router_lsa`
/// does (RFC 2328, section 12.4.4).
///
/// # Errors
/// `AllocError` if an allocation is refused.
pub fn decide_external_lsa(
    alloc: Global,
    may_now: bool,
    moment: Second,
    own: RouterId,
    external: &External,
    database: &Lsdb,
    last: Option<Second>,
) -> Result<Origination, AllocError>
    // A metric has 24 bits.
    requires { external.now.metric < 2 ^ 24 }
    ensures { let key = external_key own external.now.prefix in
        IfOk result (λ found. found ≡ origination may_now moment key
        (external_body external.now) (finite.get database.now.present key) last) }
{
    let now = is_time(may_now, moment, last);
    if now {
        let instance = external_instance(alloc, own, external, database)?;
        return Ok(of_instance(instance));
    }
    let key = external_key(own, external.prefix);
    Ok(unless_flushed(database.get(&key)))
}
