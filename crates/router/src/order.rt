//! Sorting by keys.
ghost use Rattle.std.specs.Prelude.{◌≡◌, OnOk};
ghost use Rattle.event_rules.specs.Packing.{in_key_order};

use crate::contents::HasKey;
use std::alloc::AllocError;

/// Sorts the items by their keys; those with one key stay in their order.
///
/// # Errors
/// `AllocError` if an allocation is refused.
pub fn sort_by_keys<X: HasKey + Drop>(items: &mut Vec<X>) -> Result<(), AllocError>
    ensures { OnOk result (items.new.items ≡ in_key_order X.order_key items.old.items) }
{
    items.sort_by_key(|item| item.order_key())?;
    Ok(())
}
