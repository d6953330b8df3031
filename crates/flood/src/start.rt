//! A router at its start.
ghost use Rattle.std.specs.Prelude.{◌≡◌, IfOk, OnOk, map, true};
ghost use Rattle.event_rules.specs.Events.{initial};
ghost use Rattle.event_rules.specs.Routers.{in_profile, unannounced_router};
ghost use Rattle.flood.specs.Starts.{fresh_kept};

use adjacency::Interface;
use area_routes::Link;
use event_rules::Config;
use router::{Router, originate_or_postpone};
use std::alloc::{AllocError, Global};
use words::router_key;

// A link for each interface, on which nothing was received, sent or drafted.
fn links_of(alloc: Global, interfaces: &[Interface]) -> Result<Vec<Link>, AllocError>
    ensures { IfOk result (λ links. links.items ≡ map fresh_kept interfaces.now) }
{
    interfaces
        .iter()
        .map(|i| Link::new(alloc, *i))
        .collect(alloc)
}

// Installs the router-LSA of a router without neighbors in its database.
fn originate_first_router_lsa(
    router: &mut Router,
    alloc: Global,
    config: &Config,
) -> Result<(), AllocError>
    requires { router.old.present ≡ unannounced_router config.now }
    ensures { OnOk result (router.new.present ≡ initial config.now) }
{
    originate_or_postpone(router, alloc, config.start, &router_key(config.router))
}

/// A router without neighbors that has originated its router-LSA (RFC 2328, section 12.4.1).
///
/// # Errors
/// `AllocError` if an allocation is refused.
pub fn begin(alloc: Global, config: &Config) -> Result<Router, AllocError>
    requires { in_profile config.now ≡ true }
    ensures { IfOk result (λ router. router.present ≡ initial config.now) }
{
    let links = links_of(alloc, config.interfaces.as_slice())?;
    let mut router = Router::new(alloc, config.router, links, config.start);
    match originate_first_router_lsa(&mut router, alloc, config) {
        Ok(()) => Ok(router),
        Err(error) => {
            router.close();
            Err(error)
        }
    }
}
