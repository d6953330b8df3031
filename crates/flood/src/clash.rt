//! When the answers of a `Redistribute` clash.
ghost use Rattle.std.specs.Prelude.{◌≡◌, IsTrue};
ghost use Rattle.std.specs.FinMap as finite;
ghost use Rattle.event_rules.specs.Originations.{external_key};
ghost use Rattle.event_rules.specs.Refusals.{clashes, is_taken};

use router::{Router, same_external, same_network};
use words::{External, Prefix, external_key};

// Whether the Link State ID is that of another announced prefix.
fn is_taken(router: &Router, prefix: Prefix) -> bool
    ensures { result ≡ is_taken prefix
        (finite.get router.now.present.announced (external_key router.now.present.id prefix)) }
{
    match router.announced().get(&external_key(router.id(), prefix)) {
        None => false,
        Some(external) => !same_network(prefix, external.prefix),
    }
}

/// Whether the answers are for different destinations, or the destination's Link State ID is that
/// of another announced prefix.
pub fn clashes(router: &Router, tagged: External, priced: External) -> bool
    ensures { result ≡ clashes router.now.present tagged priced }
{
    let prefix = priced.prefix;
    !same_external(&tagged, &priced) || is_taken(router, prefix)
}
