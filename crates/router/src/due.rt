//! The self-originated LSAs that a Tick originates.
ghost use Rattle.std.specs.Prelude.{◌≡◌, ◌++◌, [], ◌∷◌, IfOk, OnOk, if◌then◌else◌};
ghost use Rattle.event_rules.specs.Originations.{due_keys, is_due, originate_due};
ghost use Rattle.router.specs.Making.{RouterDoes};

use crate::originate::originate_or_postpone;
use crate::state::Router;
use std::alloc::{AllocError, Global};
use words::{Key, Second, router_key};

fn put_due(router: &Router, moment: Second, key: Key, due: &mut Vec<Key>) -> Result<(), AllocError>
    ensures { OnOk result (due.new.items ≡ due.old.items
        ++ (if is_due moment router.now.present key then key ∷ [] else [])) }
{
    let is_due = router.is_due(moment, &key);
    if is_due {
        due.push(key)?;
    }
    Ok(())
}

/// The keys of the wanted LSAs that are due at this moment, in order: each waits for a Tick, was
/// removed from the database, or has an age of LSRefreshTime, 1800 seconds, or more (RFC 2328,
/// section 12.4).
///
/// # Errors
/// `AllocError` if an allocation is refused.
pub fn due_keys(router: &Router, alloc: Global, moment: Second) -> Result<Vec<Key>, AllocError>
    ensures { IfOk result (λ keys. keys.items ≡ due_keys moment router.now.present) }
{
    let mut due = Vec::new(alloc);
    put_due(router, moment, router_key(router.id()), &mut due)?;
    for key in router.announced().keys() {
        put_due(router, moment, key, &mut due)?;
    }
    Ok(due)
}

/// Originates the LSAs of these keys in turn, as in `originate_or_postpone`.
///
/// # Errors
/// `AllocError` if an allocation is refused.
pub fn originate_due(
    router: &mut Router,
    alloc: Global,
    moment: Second,
    keys: &[Key],
) -> Result<(), AllocError>
    ensures { RouterDoes (originate_due moment keys.now) router.old router.new result }
{
    for key in keys {
        originate_or_postpone(router, alloc, moment, key)?;
    }
    Ok(())
}
