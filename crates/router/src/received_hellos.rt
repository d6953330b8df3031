//! Received Hellos (RFC 2328, section 10.5).
ghost use Rattle.std.specs.Prelude.{◌≡◌, ◌==◌};
ghost use Rattle.std.specs.List.{list_any};
ghost use Rattle.event_rules.specs.Hellos.{accepts, agrees, agrees_on, is_foreign, may_be, names};
ghost use Rattle.router.specs.ReceivedHellos.{may_be_named};

use area::{Interface, Link, LinkStep, Lsdb, NeighborState};
use packet::Hello;
use std::alloc::{AllocError, Global};
use words::{E_BIT, RouterId, Second};

/// Whether a packet with the Router ID `from` may be from a neighbor: it isn't 0.0.0.0, and not
/// this router's own, `own`. (A rule of this router; RFC 2328, section 8.2, looks at the IP
/// source.)
pub fn is_foreign(own: RouterId, from: RouterId) -> bool
    ensures { result ≡ is_foreign own from }
{
    from.number() != 0 && from.number() != own.number()
}

fn agrees_on(interface: &Interface, hello: &Hello) -> bool
    ensures { result ≡ agrees_on interface.now hello.now }
{
    hello.hello_interval == interface.hello_interval
        && hello.dead_interval == interface.dead_interval
        && hello.options & E_BIT != 0
}

fn agrees(link: &Link, hello: &Hello) -> bool
    ensures { result ≡ agrees link.now.present hello.now }
{
    let interface = link.interface();
    agrees_on(&interface, hello)
}

fn may_be_named(neighbor: Option<(RouterId, NeighborState)>, from: RouterId) -> bool
    ensures { result ≡ may_be_named neighbor from }
{
    match neighbor {
        None => true,
        Some((router, _state)) => router.number() == from.number(),
    }
}

// Another router becomes the neighbor only if there is none.
fn may_be(link: &Link, from: RouterId) -> bool
    ensures { result ≡ may_be link.now.present.neighbor from }
{
    let neighbor = link.neighbor();
    may_be_named(neighbor, from)
}

fn accepts(own: RouterId, from: RouterId, hello: &Hello, link: &Link) -> bool
    ensures { result ≡ accepts own from hello.now link.now.present }
{
    let foreign = is_foreign(own, from);
    let agreed = agrees(link, hello);
    let may_be = may_be(link, from);
    foreign && (agreed && may_be)
}

fn is_among(own: RouterId, routers: &[RouterId]) -> bool
    ensures { result ≡ list_any (λ router. router == own) routers.now }
{
    for router in routers {
        if router.number() == own.number() {
            return true;
        }
    }
    false
}

// Whether the Hello lists this router.
fn names(own: RouterId, hello: &Hello) -> bool
    ensures { result ≡ names own hello.now }
{
    is_among(own, hello.neighbors.as_slice())
}

/// A Hello from the router `from`, to the router `own` (RFC 2328, section 10.5). It is discarded if
/// its Router ID is 0.0.0.0 or this router's own, if it and the interface differ in HelloInterval,
/// RouterDeadInterval or the E-bit, or if the interface has another neighbor (a rule of this
/// router, until RouterDeadInterval is over: it has one neighbor at each interface). Otherwise the
/// inactivity timer is restarted, Down becomes Init, and 2-WayReceived or 1-WayReceived follows, by
/// whether it lists this router.
#[derive(Drop)]
pub struct ReceivingHello<'a> {
    pub own: RouterId,
    pub moment: Second,
    pub from: RouterId,
    pub hello: &'a Hello,
}

impl<'a> LinkStep for ReceivingHello<'a> {
    ghost use Rattle.router.specs.ReceivedHellos.{after_received_hello};
    ghost use Rattle.router.specs.ReceivedHellos.{sent_at_received_hello};

    ghost after = { λ a database link.
        after_received_hello a.own a.moment a.from a.hello.now link };

    ghost sends = { λ a database link.
        sent_at_received_hello a.own a.moment a.from a.hello.now link };

    fn apply(&self, alloc: Global, _database: &Lsdb, link: &mut Link) -> Result<(), AllocError> {
        let accepted = accepts(self.own, self.from, self.hello, link);
        if accepted {
            let lists_us = names(self.own, self.hello);
            return link.receive_hello(alloc, self.moment, self.from, lists_us);
        }
        Ok(())
    }
}
