//! The router-LSA that a router originates satisfies the premises of the laws of forwarding, as the
//! contract of a function with an empty body (RFC 2328, section 12.4.1).
ghost use Rattle.route_laws.specs.Premises.{OwnRouterLsasMeetThePremises};

/// If a router's database has its current router-LSA, that names its interfaces, and each link that
/// counts leads to the Full neighbor on the interface that it uses. So each next hop of its routes,
/// of any kind, is such an interface, or 0.
pub fn own_router_lsas_meet_the_premises()
    ensures { OwnRouterLsasMeetThePremises }
{}
