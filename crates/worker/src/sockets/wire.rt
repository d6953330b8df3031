//! The sockets of the interfaces.
ghost use Rattle.std.specs.Prelude.{◌≡◌, ℕ, IfErr, IfNone, IfOk, IfSome, map, ⊤};
ghost use Rattle.std.specs.Option.{option_copied};
ghost use Rattle.worker.specs.Wires.{AreBound, IsBound, IsRefusalOf, wire_at};
ghost use Rattle.worker.specs.declared.sockets.error.SocketError.TheVariants.{Bind};

use crate::sockets::error::SocketError;
use crate::sockets::socket::address_of;
use console::ConfiguredInterface;
use mio::net::UdpSocket;
use std::alloc::{AllocFailed, Global};
use std::net::Net;

/// An interface's socket, and the UDP port that its packets go to.
#[derive(Drop)]
pub struct Wire<S = UdpSocket> {
    pub(crate) socket: S,
    pub(crate) peer: u16,
}

impl<S> Wire<S> {
    /// A socket whose packets go to this UDP port of 127.0.0.1. To UDP port 0 none can.
    pub fn new(socket: S, peer: u16) -> Wire<S>
        ensures { (result.socket ≡ socket) × (result.peer ≡ peer) }
    {
        Wire { socket, peer }
    }

    /// Its socket.
    pub fn socket(&self) -> &S
        ensures { result.now ≡ self.now.socket }
    {
        &self.socket
    }
}

/// Binds sockets to UDP ports of 127.0.0.1.
///
/// `bound` (a socket and its UDP port) and `refused` (a UDP port that can't be bound) are relations
/// that each implementation defines: code that is generic over it can establish them only by the
/// call.
pub trait BindsSockets<S> {
    ghost bound: { S → (udp_port : ℕ) → Type 0 };

    ghost refused: { (udp_port : ℕ) → Type 0 };

    /// A socket at this UDP port; `None` if that can't be bound.
    fn bind(&self, udp_port: u16) -> Option<S>
        ensures bound { IfSome result (λ socket. bound socket udp_port) }
        ensures refused { IfNone result (refused udp_port) };
}

/// Binds sockets of the system. No contract says what the system does.
#[derive(Drop)]
pub struct SystemSockets<'a, R> {
    pub rt: &'a R,
}

impl<'a, R: Net> BindsSockets<UdpSocket> for SystemSockets<'a, R> {
    ghost bound = { λ _ _. ⊤ };

    ghost refused = { λ _. ⊤ };

    fn bind(&self, udp_port: u16) -> Option<UdpSocket> {
        UdpSocket::bind(self.rt, address_of(udp_port)).ok()
    }
}

// Binds the socket of an interface.
fn bind_one<S: Drop, B: BindsSockets<S>>(
    binder: &B,
    configured: &ConfiguredInterface,
) -> Result<Wire<S>, SocketError>
    ensures wire { IfOk result (IsBound B.bound configured.now) }
    ensures udp_port { IfErr result (λ error. error ≡ Bind configured.now.udp_port) }
    ensures refused { IfErr result (λ _. B.refused configured.now.udp_port) }
{
    match binder.bind(configured.udp_port) {
        Some(socket) => Ok(Wire::new(socket, configured.peer)),
        None => Err(SocketError::Bind(configured.udp_port)),
    }
}

/// Binds a socket for each interface, in order, at the interface's own UDP port, by this binder.
/// What is sent at interface n goes to the UDP port of its peer.
///
/// # Errors
/// `Bind` with the first UDP port that can't be bound; `Memory` if an allocation was refused.
#[tactic(auto, using(crate::proofs::Refused::refused_at, crate::proofs::Binding::all_bound))]
pub fn bind_each_with<S: Drop, B: BindsSockets<S>>(
    binder: &B,
    alloc: Global,
    interfaces: &[ConfiguredInterface],
) -> Result<Vec<Wire<S>>, SocketError>
    ensures bound { IfOk result (λ wires. AreBound B.bound interfaces.now wires.items) }
    ensures udp_port { IfErr result (IsRefusalOf B.refused interfaces.now) }
{
    let mut wires = Vec::with_capacity(alloc, interfaces.len())?;
    for configured in interfaces {
        let wire = bind_one(binder, configured)?;
        wires.push(wire)?;
    }
    Ok(wires)
}

/// Binds a socket of the system for each interface, as [`bind_each_with`] does.
///
/// # Errors
/// As [`bind_each_with`].
pub fn bind_each<R: Net>(
    rt: &R,
    alloc: Global,
    interfaces: &[ConfiguredInterface],
) -> Result<Vec<Wire>, SocketError>
    ensures bound { IfOk result (λ wires.
        AreBound (λ _ _. ⊤) interfaces.now wires.items) }
    ensures udp_port { IfErr result (IsRefusalOf (λ _. ⊤) interfaces.now) }
{
    bind_each_with(&SystemSockets { rt }, alloc, interfaces)
}

/// The socket of the interface of this number, counted from 1.
pub fn wire_at<S>(wires: &[Wire<S>], interface: u16) -> Option<&Wire<S>>
    ensures { option_copied result ≡ wire_at wires.now interface }
{
    if interface == 0 {
        return None;
    }
    wires.get(interface as usize - 1)
}
