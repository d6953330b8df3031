//! Copies that have reached MaxAge (RFC 2328, section 14).
ghost use Rattle.area.specs.Doing.{AreaDoes};
ghost use Rattle.area.specs.Links.{with_no_sends};
ghost use Rattle.event_rules.specs.Endings.{flood_aged, remove_aged};
ghost use Rattle.router.specs.Aging.{flood_each_new_max_age, without_each};

use area::{Area, any_exchange_or_loading};
use std::alloc::{AllocError, Global};
use words::{Key, Second};

// Removes the copies of these keys that are on no retransmission list.
fn remove_each(area: &mut Area, keys: &[Key]) -> Result<(), AllocError>
    ensures { AreaDoes
        (λ a. with_no_sends (record a { database = without_each a.links a.database keys.now }))
        area.old area.new result }
{
    for i in 0..keys.len() {
        area.remove_if_unlisted(&keys[i])?;
    }
    Ok(())
}

/// Removes copies at MaxAge that are on no retransmission list from the database, unless some
/// neighbor is in Exchange or Loading (RFC 2328, section 14).
///
/// It visits all copies only if one may have reached MaxAge since the database last scanned them,
/// as in `Lsdb::max_age_keys`.
///
/// # Errors
/// `AllocError` if an allocation is refused.
pub fn remove_aged(area: &mut Area, alloc: Global, moment: Second) -> Result<(), AllocError>
    ensures { AreaDoes (λ a. remove_aged moment (with_no_sends a)) area.old area.new result }
{
    let synchronizing = any_exchange_or_loading(area.links());
    if synchronizing {
        return Ok(());
    }
    let keys = area.database().max_age_keys(alloc, moment)?;
    remove_each(area, &keys)
}

// Floods in turn the copies of these keys that have reached MaxAge since the moment `before`.
fn flood_each_new_max_age(
    area: &mut Area,
    alloc: Global,
    before: Second,
    moment: Second,
    keys: &[Key],
) -> Result<(), AllocError>
    ensures { AreaDoes (flood_each_new_max_age before moment keys.now) area.old area.new result }
{
    for i in 0..keys.len() {
        area.flood_new_max_age(alloc, before, moment, &keys[i])?;
    }
    Ok(())
}

/// Floods each copy that has reached MaxAge since the moment `before` to every neighbor (RFC 2328,
/// section 14), in the order of their keys.
///
/// If the moment is the same, it visits no copy, and otherwise all only if one may have reached
/// MaxAge since the database last scanned them, as in `Lsdb::max_age_keys`.
///
/// # Errors
/// `AllocError` if an allocation is refused.
pub fn flood_aged(
    area: &mut Area,
    alloc: Global,
    before: Second,
    moment: Second,
) -> Result<(), AllocError>
    ensures { AreaDoes (λ a. flood_aged before moment (with_no_sends a)) area.old area.new result }
{
    if before.count() == moment.count() {
        return Ok(());
    }
    let aged = area.database().max_age_keys(alloc, moment)?;
    flood_each_new_max_age(area, alloc, before, moment, &aged)
}
