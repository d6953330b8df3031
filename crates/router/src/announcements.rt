//! External destinations that an operator redistributes and withdraws (RFC 2328, section 12.4.4).
ghost use Rattle.std.specs.Prelude.{◌≡◌, ◌<◌, ◌^◌, option_copied};
ghost use Rattle.event_rules.specs.Commands.{after_redistribute, after_withdraw, announce_as};
ghost use Rattle.event_rules.specs.Commands.{answered_external, end_want, is_announced_as, is_for};
ghost use Rattle.event_rules.specs.Commands.{same_external, same_kind, same_network};
ghost use Rattle.event_rules.specs.Originations.{external_key};
ghost use Rattle.router.specs.Making.{RouterDoes};

use crate::originate::originate_if_wanted;
use crate::state::Router;
use std::alloc::{AllocError, Global};
use words::{External, ExternalType, Key, LS_INFINITY, Prefix, Second, external_key};

/// Whether two prefixes are the same: one address and one length.
pub fn same_network(a: Prefix, b: Prefix) -> bool
    ensures { result ≡ same_network a b }
{
    a == b
}

fn same_kind(a: ExternalType, b: ExternalType) -> bool
    ensures { result ≡ same_kind a b }
{
    a == b
}

/// Whether two destinations are the same in each field: prefix, metric, type and tag.
pub fn same_external(a: &External, b: &External) -> bool
    ensures { result ≡ same_external a.now b.now }
{
    same_network(a.prefix, b.prefix)
        && a.metric == b.metric
        && same_kind(a.kind, b.kind)
        && a.tag == b.tag
}

fn is_announced_as(external: &External, announced: Option<&External>) -> bool
    ensures { result ≡ is_announced_as external.now (option_copied announced.entry) }
{
    let Some(announced) = announced else {
        return false;
    };
    same_external(external, announced)
}

fn is_for(prefix: Prefix, announced: Option<&External>) -> bool
    ensures { result ≡ is_for prefix (option_copied announced.entry) }
{
    let Some(announced) = announced else {
        return false;
    };
    same_network(prefix, announced.prefix)
}

// The destination with the metric from the answer, and the low 32 bits of the tag.
fn answered(external: External, tag: u64, price: u32) -> External
    ensures { result ≡ answered_external external tag price }
{
    External {
        metric: price,
        tag: (tag % 0x1_0000_0000) as u32,
        ..external
    }
}

// The destination is no longer announced, and its LSA is flushed.
fn end_want(router: &mut Router, alloc: Global, moment: Second, key: &Key) -> Result<(), AllocError>
    ensures { RouterDoes (end_want moment key.now) router.old router.new result }
{
    router.unannounce(key)?;
    router.flush(alloc, moment, key)
}

// Announces the destination, unless the same is announced already.
fn announce_as(
    router: &mut Router,
    alloc: Global,
    moment: Second,
    key: &Key,
    external: External,
) -> Result<(), AllocError>
    requires key { key.now ≡ external_key router.old.present.id external.prefix }
    requires metric { external.metric < 2 ^ 24 }
    ensures { RouterDoes (announce_as moment key.now external) router.old router.new result }
{
    let announced = is_announced_as(&external, router.announced().get(key));
    if announced {
        return Ok(());
    }
    router.announce(external)?;
    // Even without room in the database: the event is then refused as `Full`, and doesn't wait.
    originate_if_wanted(router, alloc, true, moment, key)
}

/// Announces the destination with the programs' answers for its tag and its metric. Only the low 32
/// bits of the tag count; a metric of LSInfinity, 0xffffff, or more withholds the destination and
/// flushes its LSA, if there is one. If exactly the same is announced already, nothing changes.
///
/// # Errors
/// `AllocError` if an allocation is refused.
pub fn redistribute(
    router: &mut Router,
    alloc: Global,
    moment: Second,
    external: External,
    tag: u64,
    price: u64,
) -> Result<(), AllocError>
    ensures { RouterDoes (after_redistribute moment external tag price) router.old router.new
        result }
{
    let key = external_key(router.id(), external.prefix);
    if u64::from(LS_INFINITY) <= price {
        return end_want(router, alloc, moment, &key);
    }
    let external = answered(external, tag, price as u32);
    announce_as(router, alloc, moment, &key, external)
}

/// The destination with this prefix is no longer announced, and its LSA is flushed (RFC 2328,
/// section 14.1). Without such a destination nothing changes.
///
/// # Errors
/// `AllocError` if an allocation is refused.
pub fn withdraw(
    router: &mut Router,
    alloc: Global,
    moment: Second,
    prefix: Prefix,
) -> Result<(), AllocError>
    ensures { RouterDoes (after_withdraw moment prefix) router.old router.new result }
{
    let key = external_key(router.id(), prefix);
    let is_announced = is_for(prefix, router.announced().get(&key));
    if is_announced {
        return end_want(router, alloc, moment, &key);
    }
    Ok(())
}
