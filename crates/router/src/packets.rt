//! Received packets by their types.
ghost use Rattle.std.specs.Prelude.{◌≡◌, ◌≤◌, length};
ghost use Rattle.adjacency.specs.Steps.{named_neighbor};
ghost use Rattle.received.specs.Links.{neighbor_at};
ghost use Rattle.event_rules.specs.Packets.{after_packet, neighbor_is_exchange_or_later, is_from};
ghost use Rattle.event_rules.specs.Packets.{is_heard};
ghost use Rattle.event_rules.specs.Packets.{is_hello};
ghost use Rattle.router.specs.Making.{RouterDoes};
ghost use Rattle.router.specs.Received.{is_accepted_before_exchange, is_from_named};
ghost use Rattle.router.specs.Received.{is_exchange_or_later_named, is_processed};

use crate::received_hellos::is_foreign;
use crate::state::Router;
use crate::updates::receive_lsas;
use area::NeighborState;
use packet::{Packet, PacketBody};
use std::alloc::{AllocError, Global};
use words::{RouterId, Second};

fn is_hello(body: &PacketBody) -> bool
    ensures { result ≡ is_hello body.now }
{
    match body {
        PacketBody::Hello(_hello) => true,
        PacketBody::Description(_description) => false,
        PacketBody::Request(_keys) => false,
        PacketBody::Update(_lsas) => false,
        PacketBody::Acknowledgment(_headers) => false,
    }
}

// Whether such a packet is processed before Exchange, too: Link State Requests, Updates and
// Acknowledgments aren't.
fn is_accepted_before_exchange(body: &PacketBody) -> bool
    ensures { result ≡ is_accepted_before_exchange body.now }
{
    match body {
        PacketBody::Hello(_hello) => true,
        PacketBody::Description(_description) => true,
        PacketBody::Request(_keys) => false,
        PacketBody::Update(_lsas) => false,
        PacketBody::Acknowledgment(_headers) => false,
    }
}

fn is_exchange_or_later_named(neighbor: Option<(RouterId, NeighborState)>) -> bool
    ensures { result ≡ is_exchange_or_later_named neighbor }
{
    match neighbor {
        None => false,
        Some((_router, state)) => state.is_exchange_or_later(),
    }
}

fn is_from_named(from: RouterId, neighbor: Option<(RouterId, NeighborState)>) -> bool
    ensures { result ≡ is_from_named from neighbor }
{
    match neighbor {
        None => false,
        Some((router, _state)) => router.number() == from.number(),
    }
}

// The neighbor at the interface with this number, unless it is Down.
fn neighbor_at(router: &Router, interface: usize) -> Option<(RouterId, NeighborState)>
    requires first { 1 ≤ interface }
    requires last { interface ≤ length router.now.present.area.links }
    ensures { result ≡ named_neighbor (neighbor_at interface router.now.present.area.links) }
{
    let links = router.area().links();
    let i = interface - 1;
    links[i].neighbor()
}

// Whether the neighbor at the interface with this number is in Exchange or later.
fn is_exchange_or_later(router: &Router, interface: usize) -> bool
    requires first { 1 ≤ interface }
    requires last { interface ≤ length router.now.present.area.links }
    ensures { result ≡ neighbor_is_exchange_or_later
        (neighbor_at interface router.now.present.area.links) }
{
    let neighbor = neighbor_at(router, interface);
    is_exchange_or_later_named(neighbor)
}

// Whether this is the Router ID of the neighbor at the interface with this number.
fn is_from(from: RouterId, router: &Router, interface: usize) -> bool
    requires first { 1 ≤ interface }
    requires last { interface ≤ length router.now.present.area.links }
    ensures { result ≡ is_from from (neighbor_at interface router.now.present.area.links) }
{
    let neighbor = neighbor_at(router, interface);
    is_from_named(from, neighbor)
}

// Whether the packet's Router ID is neither 0.0.0.0 nor this router's own, and it is a Hello or
// from the interface's neighbor.
fn is_heard(packet: &Packet, router: &Router, interface: usize) -> bool
    requires first { 1 ≤ interface }
    requires last { interface ≤ length router.now.present.area.links }
    ensures { result ≡ is_heard router.now.present.id packet.now
        (neighbor_at interface router.now.present.area.links) }
{
    let own = router.id();
    let from = packet.router;
    let foreign = is_foreign(own, from);
    let hello = is_hello(&packet.body);
    let from_neighbor = is_from(from, router, interface);
    foreign && (hello || from_neighbor)
}

// Whether the packet is processed: whether it is heard, and isn't discarded because the neighbor is
// before Exchange.
fn is_processed(packet: &Packet, router: &Router, interface: usize) -> bool
    requires first { 1 ≤ interface }
    requires last { interface ≤ length router.now.present.area.links }
    ensures { result ≡ is_processed router.now.present.id packet.now
        (neighbor_at interface router.now.present.area.links) }
{
    let heard = is_heard(packet, router, interface);
    let exchange_or_later = is_exchange_or_later(router, interface);
    let early = is_accepted_before_exchange(&packet.body);
    heard && (exchange_or_later || early)
}

/// Processes a packet that was received at the interface with this number (RFC 2328, section 8.2).
/// It is discarded if its Router ID is 0.0.0.0 or this router's own, or if it isn't a Hello and its
/// sender isn't the interface's neighbor. Link State Requests, Updates and Acknowledgments are
/// discarded before Exchange.
///
/// # Errors
/// `AllocError` if an allocation is refused.
pub fn receive_packet(
    router: &mut Router,
    alloc: Global,
    moment: Second,
    interface: usize,
    packet: &Packet,
) -> Result<(), AllocError>
    requires first { 1 ≤ interface }
    requires last { interface ≤ length router.old.present.area.links }
    ensures { RouterDoes (after_packet moment interface packet.now) router.old router.new result }
{
    if !is_processed(packet, router, interface) {
        return Ok(());
    }
    let from = packet.router;
    match &packet.body {
        PacketBody::Hello(hello) => router.receive_hello(alloc, moment, interface, from, hello),
        PacketBody::Description(description) => {
            router.receive_description(alloc, moment, interface, description)
        }
        PacketBody::Request(keys) => router.receive_request(
            alloc,
            moment,
            interface,
            keys.as_slice(),
        ),
        PacketBody::Update(lsas) => {
            receive_lsas(router, alloc, moment, interface, lsas.as_slice())
        }
        PacketBody::Acknowledgment(headers) => {
            router.receive_acknowledgment(alloc, moment, interface, headers.as_slice())
        }
    }
}
