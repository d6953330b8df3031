//! The limits on the number of LSAs in the database.
ghost use Rattle.std.specs.Prelude.{◌≡◌, if◌then◌else◌, false};
ghost use Rattle.std.specs.FinMap as map;
ghost use Rattle.keyed_map.specs.Slots.{count_after_change};
ghost use Rattle.lsdb.specs.Limits.{count_own_externals, is_own_external};

use crate::stored::StoredLsa;
use keyed_map::KeyedMap;
use words::{Key, RouterId};

/// The most LSAs in the database, whoever originated them (a limit of this project).
pub const MAX_LSAS: usize = 16_384;

/// The most AS-external-LSAs of the router itself among them (a limit of this project).
pub const MAX_OWN_EXTERNALS: usize = 4_096;

/// Whether this is the key of an AS-external-LSA of the router (RFC 2328, section 12.4.4).
pub fn is_own_external(router: RouterId, key: &Key) -> bool
    ensures { result ≡ is_own_external router key.now }
{
    key.ls_type == 5 && key.advertising_router == router
}

/// Whether this is the key of an AS-external-LSA of the router that is in the database. Other keys
/// aren't looked up.
pub fn holds_own(router: RouterId, copies: &KeyedMap<StoredLsa>, key: &Key) -> bool
    ensures { result ≡ (if is_own_external router key.now
        then map.contains_key copies.now.present key.now else false) }
{
    if is_own_external(router, key) {
        copies.contains(key)
    } else {
        false
    }
}

/// The number of the router's own AS-external-LSAs after the LSA of a key was set or removed:
/// `held` says whether the database had the key of an own AS-external-LSA before, `holds` whether
/// it has the key now.
pub fn recount(
    router: RouterId,
    copies: &KeyedMap<StoredLsa>,
    key: &Key,
    held: bool,
    holds: bool,
    externals: usize,
) -> usize
    requires { count_own_externals router copies.now.present
        ≡ (if is_own_external router key.now then count_after_change held holds externals
        else externals) }
    ensures { result ≡ count_own_externals router copies.now.present }
{
    // For the prover alone, by what the call ensures.
    let _copies = copies.len();
    if !is_own_external(router, key) {
        return externals;
    }
    if holds {
        return if held { externals } else { externals + 1 };
    }
    if held {
        externals.saturating_sub(1)
    } else {
        externals
    }
}
