//! The ways of routers to prefixes.
use routes::PrefixRoute;
use words::{Route, RouteKind};

/// The cost if there is no way.
pub const NO_COST: u32 = 0xffff_ffff;

/// There is no way.
pub const NONE: PrefixRoute = PrefixRoute {
    hops: 0,
    cost: NO_COST,
};

/// The way ends at the router itself, which announces the prefix.
pub const HERE: PrefixRoute = PrefixRoute { hops: 1, cost: 0 };

/// The way of this route.
pub fn way_of(route: &Route) -> PrefixRoute {
    let cost = match route.kind {
        RouteKind::External2 => route.distance,
        _ => route.cost,
    };
    PrefixRoute {
        hops: route.hops.bits(),
        cost,
    }
}

/// The way at this place, or `NONE`.
pub fn way_at(ways: &[PrefixRoute], place: usize) -> PrefixRoute {
    if place < ways.len() {
        ways[place]
    } else {
        NONE
    }
}
