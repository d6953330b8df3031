//! The keys of the AS-external-LSAs that may advertise a network.
ghost use Rattle.std.specs.Prelude.{◌≡◌, ◌↔◌, ◌-◌, ◌<◌, IfOk, IfSome, IsTrue, Some, false};
ghost use Rattle.std.specs.Prelude.{slice_get};
ghost use Rattle.kept_routes.specs.Destinations.{HaveAllUnder, LiesUnder, first_key};
ghost use Rattle.words.specs.declared.key.Key.{Key as KeyValue};

use routes::Lsdb;
use std::alloc::{AllocError, Global};
use words::{Address, Key, LinkStateId, Prefix, RouterId};

// The number of keys that are fetched for a network first: most networks have one, and the next key
// is in another network.
const FEW: usize = 4;

// The maximum number of keys that are fetched for one network.
const MAX_KEYS: usize = 64;

fn first_key(prefix: Prefix) -> Key
    ensures { result ≡ first_key prefix }
{
    Key {
        ls_type: 5,
        link_state_id: LinkStateId::new(prefix.address().bits()),
        advertising_router: RouterId::new(0),
    }
}

/// Whether it is the key of an AS-external-LSA whose Link State ID is in the network.
pub fn lies_under(prefix: Prefix, key: &Key) -> bool
    ensures { IsTrue result ↔ LiesUnder prefix key.now }
{
    if key.ls_type != 5 {
        return false;
    }
    prefix.contains(Address::new(key.link_state_id.number()))
}

// Whether keys in the network may be missing after these, which are the first `count`.
fn may_lack(keys: &[Key], prefix: Prefix, count: usize) -> bool
    requires { 0 < count }
    ensures { result ≡ false → (last : KeyValue) → slice_get keys.now (count - 1) ≡ Some last
        → LiesUnder prefix last → ⊥ }
{
    match keys.get(count - 1) {
        None => false,
        Some(last) => lies_under(prefix, last),
    }
}

// The keys in the network, possibly with others; `None` if there may be more than `count`.
fn first_under(
    alloc: Global,
    db: &Lsdb,
    prefix: Prefix,
    count: usize,
) -> Result<Option<Vec<Key>>, AllocError>
    requires { 0 < count }
    ensures { IfOk result (λ found. IfSome found (λ keys.
        HaveAllUnder db.now.present prefix keys.items)) }
{
    let keys = db.first_from(alloc, &first_key(prefix), count)?;
    if may_lack(&keys, prefix, count) {
        return Ok(None);
    }
    Ok(Some(keys))
}

/// The keys of all AS-external-LSAs whose Link State IDs are in the network, possibly with others;
/// `None` if there may be more than 64.
///
/// # Errors
/// `AllocError` if an allocation is refused.
pub fn keys_under(alloc: Global, db: &Lsdb, prefix: Prefix) -> Result<Option<Vec<Key>>, AllocError>
    ensures { IfOk result (λ found. IfSome found (λ keys.
        HaveAllUnder db.now.present prefix keys.items)) }
{
    let few = first_under(alloc, db, prefix, FEW)?;
    match few {
        Some(keys) => Ok(Some(keys)),
        None => first_under(alloc, db, prefix, MAX_KEYS),
    }
}
