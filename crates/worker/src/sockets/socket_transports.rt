//! A worker's transport over the sockets of all interfaces: any worker sends at each of them, its
//! own worker alone receives.
ghost use Rattle.std.specs.Prelude.{◌≡◌, ◌<◌, ◌≤◌, All, IfErr, IfNone, IfOk, IfSome, OnOk};
ghost use Rattle.std.specs.Prelude.{length, map, take};
ghost use Rattle.std.specs.Prelude.{nat_lt, vec_len, ⊤};
ghost use Rattle.worker.specs.Descending.{CountDownTo};
ghost use Rattle.worker.specs.Ends.{has_failed};
ghost use Rattle.worker.specs.Wires.{HasWaited, IsHeardAt, IsListening, IsNoneThere};
ghost use Rattle.worker.specs.Wires.{IsWhyNoneWaits, IsWhyNoneWaitsAt};

use crate::sockets::error::SocketError;
use crate::sockets::refusals::{judge_receive, judge_send};
use crate::sockets::socket::DatagramSocket;
use crate::sockets::waiting::{Ear, ListensAt, SystemPoller, Waits};
use crate::sockets::wire::{Wire, wire_at};
use crate::transport::{SocketFault, Transport, datagram};
use mio::net::UdpSocket;
use std::alloc::Global;
use std::io::ErrorKind;
use std::net::Net;
use words::Sequence;

/// A worker's transport: it sends at each interface, and receives at its own, if it has one. After
/// its first fault it sends and receives nothing more: each send answers `false`, each receive
/// `None`.
#[derive(Drop)]
pub struct Sockets<'a, S = UdpSocket, E = Ear> {
    wires: &'a [Wire<S>],
    /// The number of its own interface, and 0 for the console's transport, which only sends.
    own: u16,
    ear: Option<E>,
    /// How many calls failed, 0 or 1: after the first failure none is made.
    faults: u8,
}

/// How a transport ended. Only closing a transport makes one.
#[derive(Drop)]
pub struct TransportEnd {
    faults: u8,
}

impl TransportEnd {
    /// Whether a call of the transport failed.
    pub fn has_failed(&self) -> bool
        ensures { result ≡ has_failed self.now }
    {
        self.faults > 0
    }
}

impl<'a, S, E> Sockets<'a, S, E> {
    /// The transport of the worker at the interface of this number, which waits at that interface's
    /// socket.
    ///
    /// # Errors
    /// `Wait` if the socket can't be waited at, or there is none of this number; `Memory` if memory
    /// was refused.
    #[tactic(auto, using(crate::proofs::Silent::listening_at, crate::proofs::Silent::unwaited_at, crate::proofs::Silent::no_socket))]
    pub fn of_interface_with<P: ListensAt<S, E>>(
        poller: &P,
        alloc: Global,
        wires: &'a [Wire<S>],
        interface: u16,
    ) -> Result<Sockets<'a, S, E>, SocketError>
        ensures own { IfOk result (λ transport. transport.own ≡ interface) }
        ensures wires { IfOk result (λ transport. (transport.wires.now ≡ wires.now) ×
            (transport.faults ≡ 0)) }
        ensures ear { IfOk result (λ transport. IsListening P.listens wires.now interface
            transport.ear) }
        ensures refused { IfErr result (IsWhyNoneWaitsAt P.fails wires.now interface) }
    {
        let Some(wire) = wire_at(wires, interface) else {
            return Err(SocketError::Wait);
        };
        match poller.listen(alloc, &wire.socket) {
            Ok(ear) => Ok(Sockets {
                wires,
                own: interface,
                ear: Some(ear),
                faults: 0,
            }),
            Err(error) => match error.kind() {
                ErrorKind::OutOfMemory => Err(SocketError::Memory),
                _ => Err(SocketError::Wait),
            },
        }
    }
}

impl<'a, S, E: Drop> Sockets<'a, S, E> {
    /// The end of the transport.
    pub fn end(self) -> TransportEnd
        ensures { has_failed result ≡ nat_lt 0 self.entry.faults }
    {
        TransportEnd {
            faults: self.faults,
        }
    }
}

impl<'a, S> Sockets<'a, S> {
    /// The console's transport, which only sends.
    pub fn of_console(wires: &'a [Wire<S>]) -> Sockets<'a, S>
        ensures { (result.own ≡ 0) × (result.faults ≡ 0) × (result.wires.now ≡ wires.now) }
    {
        Sockets {
            wires,
            own: 0,
            ear: None,
            faults: 0,
        }
    }

    /// The number of the interface that it receives at, and 0 for the console's.
    pub fn interface(&self) -> u16
        ensures { result ≡ self.now.own }
    {
        self.own
    }
}

/// The transports of the workers, that of the first interface last. Each sends at these sockets and
/// receives at its own interface's, at which it waits; no call of it has failed.
///
/// # Errors
/// `Wait` if a socket can't be waited at, or there are more than 65,535; `Memory` if memory was
/// refused.
#[tactic(auto, using(crate::proofs::Silent::unwaited))]
pub fn listening_with<'x, S, E: Drop, P: ListensAt<S, E>>(
    poller: &P,
    alloc: Global,
    wires: &'x [Wire<S>],
) -> Result<Vec<Sockets<'x, S, E>>, SocketError>
    ensures each { IfOk result (λ transports. vec_len transports ≡ length wires.now) }
    ensures interfaces { IfOk result (λ transports. CountDownTo 1
        (map (λ l. l.own) transports.items)) }
    ensures wires { IfOk result (λ transports.
        All (λ l. (l.wires.now ≡ wires.now) × (l.faults ≡ 0)) transports.items) }
    ensures ears { IfOk result (λ transports.
        All (λ l. IsListening P.listens wires.now l.own l.ear) transports.items) }
    ensures refused { IfErr result (IsWhyNoneWaits P.fails wires.now) }
{
    let mut transports = Vec::with_capacity(alloc, wires.len())?;
    for before in 0..wires.len() {
        let Ok(interface) = u16::try_from(wires.len() - before) else {
            return Err(SocketError::Wait);
        };
        let transport = Sockets::of_interface_with(poller, alloc, wires, interface)?;
        transports.push(transport)?;
    }
    Ok(transports)
}

/// The transports of the workers, which wait by the system.
///
/// # Errors
/// As [`listening_with`].
pub fn listening<'x, R: Net>(
    rt: &R,
    alloc: Global,
    wires: &'x [Wire],
) -> Result<Vec<Sockets<'x>>, SocketError>
    ensures each { IfOk result (λ transports. vec_len transports ≡ length wires.now) }
    ensures interfaces { IfOk result (λ transports. CountDownTo 1
        (map (λ l. l.own) transports.items)) }
    ensures wires { IfOk result (λ transports.
        All (λ l. (l.wires.now ≡ wires.now) × (l.faults ≡ 0)) transports.items) }
    ensures refused { IfErr result (IsWhyNoneWaits (λ _. ⊤) wires.now) }
{
    listening_with(&SystemPoller { rt }, alloc, wires)
}

/// One datagram that is there already. A datagram longer than the buffer is cut.
#[tactic(auto, using(crate::proofs::Silent::refused_then))]
fn take<S: DatagramSocket>(
    wire: &Wire<S>,
    buffer: &mut [u8; 8193],
) -> Result<Option<usize>, SocketFault>
    ensures length { IfOk result (λ n. IfSome n (λ n. n ≤ 8193)) }
    ensures handed { IfOk result (λ n.
        IfSome n (λ n. S.hands wire.now.socket (take n buffer.new))) }
    ensures none { IfOk result (λ n. IfNone n (IsNoneThere S.refuses wire.now.socket)) }
{
    judge_receive(wire.socket.receive(buffer))
}

/// Waits until a datagram may be there, at most a second. A transport without an ear, as the
/// console's, doesn't wait.
fn wait<E: Waits>(ear: &mut Option<E>) -> Result<(), SocketFault>
    ensures { OnOk result (HasWaited E.waited ear.old ear.new) }
{
    let Some(ear) = ear else {
        return Ok(());
    };
    match ear.wait(1) {
        Ok(()) => Ok(()),
        Err(_) => Err(SocketFault {}),
    }
}

/// A datagram that is there, or that comes within a second. The poll is edge-triggered: it needn't
/// report a datagram that was left before, so the socket is read first.
fn take_or_wait<S: DatagramSocket, E: Waits>(
    wire: &Wire<S>,
    ear: &mut Option<E>,
    buffer: &mut [u8; 8193],
) -> Result<Option<usize>, SocketFault>
    ensures length { IfOk result (λ n. IfSome n (λ n. n ≤ 8193)) }
    ensures handed { IfOk result (λ n.
        IfSome n (λ n. S.hands wire.now.socket (take n buffer.new))) }
    ensures none { IfOk result (λ n. IfNone n (IsNoneThere S.refuses wire.now.socket)) }
    ensures waited { IfOk result (λ n. IfNone n (HasWaited E.waited ear.old ear.new)) }
{
    if let Some(length) = take(wire, buffer)? {
        return Ok(Some(length));
    }
    wait(ear)?;
    take(wire, buffer)
}

// What the socket of this interface gives, as a datagram of its own.
#[tactic(auto, using(crate::proofs::Silent::receiving))]
fn receive_at<S: DatagramSocket, E: Waits>(
    wires: &[Wire<S>],
    interface: u16,
    ear: &mut Option<E>,
    alloc: Global,
    buffer: &mut [u8; 8193],
) -> Result<Option<Sequence<u8>>, SocketFault>
    ensures heard { IfOk result (IsHeardAt S.hands S.refuses
        (HasWaited E.waited ear.old ear.new) wires.now interface) }
    ensures cut { IfOk result (λ heard. IfSome heard (λ datagram. length datagram ≤ 8193)) }
{
    let Some(wire) = wire_at(wires, interface) else {
        return Ok(None);
    };
    match take_or_wait(wire, ear, buffer) {
        Ok(Some(length)) => Ok(datagram(alloc, &buffer[..length])),
        Ok(None) => Ok(None),
        Err(fault) => Err(fault),
    }
}

// Sends the bytes to the peer of this interface. To UDP port 0 no packet can go: a socket whose
// peer has it is of no use.
fn say<S: DatagramSocket>(wire: &Wire<S>, bytes: &[u8]) -> Result<bool, SocketFault>
    ensures { OnOk result (S.takes wire.now.socket wire.now.peer bytes.now) }
{
    if wire.peer == 0 {
        return Err(SocketFault {});
    }
    judge_send(wire.socket.send(bytes, wire.peer))
}

impl<'a, S: DatagramSocket, E: Waits> Transport for Sockets<'a, S, E> {
    ghost use Rattle.std.specs.Prelude.{◌⊎◌, None};
    ghost use Rattle.worker.specs.Wires.{HasWaited, IsHandedOver, IsHeardAt};

    ghost faults = { λ s. s.faults };

    ghost gives = { λ s interface bytes _. s.faults ≡ 0
        → IsHandedOver S.takes s.wires.now interface bytes };

    ghost hears = { λ s heard next.
        IsHeardAt S.hands S.refuses (HasWaited E.waited s.ear next.ear) s.wires.now s.own heard
        ⊎ ((0 < s.faults) × (heard ≡ None)) };

    fn receive(
        &mut self,
        alloc: Global,
        buffer: &mut [u8; 8193],
    ) -> Result<Option<Sequence<u8>>, SocketFault> {
        if self.faults > 0 {
            return Ok(None);
        }
        match receive_at(self.wires, self.own, &mut self.ear, alloc, buffer) {
            Ok(heard) => Ok(heard),
            Err(fault) => {
                self.faults = 1;
                Err(fault)
            }
        }
    }

    fn send(&mut self, interface: u16, bytes: &[u8]) -> Result<bool, SocketFault> {
        if self.faults > 0 {
            return Ok(false);
        }
        let Some(wire) = wire_at(self.wires, interface) else {
            return Ok(false);
        };
        match say(wire, bytes) {
            Ok(went) => Ok(went),
            Err(fault) => {
                self.faults = 1;
                Err(fault)
            }
        }
    }
}
