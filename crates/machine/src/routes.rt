//! The contexts of external destinations and of routes.
ghost use Rattle.std.specs.Prelude.{◌≡◌};
ghost use Rattle.machine.specs.Contexts.{external_type_number, external_context, tag_context};
ghost use Rattle.machine.specs.Contexts.{price_context, route_kind_number, first_hop};
ghost use Rattle.machine.specs.Contexts.{type_2_distance, veto_context};

use crate::contexts::Context;
use crate::fields::{put_eight, put_four};
use isa::Hook;
use words::{External, ExternalType, Hops, Route, RouteKind, Second};

fn external_type_number(kind: ExternalType) -> u64
    ensures { result ≡ external_type_number kind }
{
    match kind {
        ExternalType::Type1 => 1,
        ExternalType::Type2 => 2,
    }
}

fn external_context(hook: Hook, external: External, moment: Second) -> Context
    ensures { result ≡ external_context hook external moment }
{
    let mut context = [0; 64];
    put_four(&mut context, 0, u64::from(hook.number()));
    put_four(&mut context, 4, u64::from(external.prefix.address().bits()));
    put_four(&mut context, 8, u64::from(external.prefix.length()));
    put_four(&mut context, 12, u64::from(external.metric));
    put_four(&mut context, 16, u64::from(external.tag));
    put_four(&mut context, 20, external_type_number(external.kind));
    put_eight(&mut context, 24, moment.count());
    context
}

/// The context of `tag` for an external destination at this moment.
pub fn tag_context(external: External, moment: Second) -> Context
    ensures { result ≡ tag_context external moment }
{
    external_context(Hook::Tag, external, moment)
}

/// The context of `price` for an external destination at this moment.
pub fn price_context(external: External, moment: Second) -> Context
    ensures { result ≡ price_context external moment }
{
    external_context(Hook::Price, external, moment)
}

fn route_kind_number(kind: RouteKind) -> u64
    ensures { result ≡ route_kind_number kind }
{
    match kind {
        RouteKind::Intra => 1,
        RouteKind::Inter => 2,
        RouteKind::External1 => 3,
        RouteKind::External2 => 4,
    }
}

/// The first interface of the set, which is 0 for the router itself; 0 too if the set is empty,
/// which the number of hops tells.
fn first_hop(hops: Hops) -> u64
    ensures { result ≡ first_hop hops }
{
    for interface in 0..64u8 {
        if hops.contains(interface) {
            return u64::from(interface);
        }
    }
    0
}

/// The type 2 distance of a type 2 external route; 0 for any other route.
fn type_2_distance(kind: RouteKind, distance: u32) -> u32
    ensures { result ≡ type_2_distance kind distance }
{
    match kind {
        RouteKind::External2 => distance,
        RouteKind::Intra | RouteKind::Inter | RouteKind::External1 => 0,
    }
}

/// The context of `veto` for a route at this moment.
pub fn veto_context(route: Route, moment: Second) -> Context
    ensures { result ≡ veto_context route moment }
{
    let mut context = [0; 64];
    put_four(&mut context, 0, u64::from(Hook::Veto.number()));
    put_four(&mut context, 4, u64::from(route.prefix.address().bits()));
    put_four(&mut context, 8, u64::from(route.prefix.length()));
    put_four(&mut context, 12, u64::from(route.cost));
    put_four(&mut context, 16, u64::from(route.tag));
    put_four(&mut context, 20, route_kind_number(route.kind));
    put_eight(&mut context, 24, moment.count());
    let distance = type_2_distance(route.kind, route.distance);
    put_four(&mut context, 32, u64::from(distance));
    put_four(&mut context, 36, u64::from(route.hops.len()));
    put_four(&mut context, 40, first_hop(route.hops));
    context
}
