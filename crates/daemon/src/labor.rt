//! What the threads of the interfaces do.
ghost use Rattle.std.specs.Prelude.{◌≡◌, false, true};
ghost use Rattle.turns.specs.Askers.{IsLater, asker_state};
ghost use Rattle.worker.specs.Ends.{has_failed};
ghost use Rattle.worker.specs.Lives.{standing};
ghost use Rattle.daemon.specs.Labors.{HasServed, HasServedOn, senses_at};

use log::{Level, Log, Logged, warn};
use std::alloc::Global;
use std::sync::Wait;
use std::sync::atomic::AtomicBool;
use worker::{
    Book, DatagramSocket, Flag, Hub, Open, Port, Seconds, Site, Sockets, Transport, TransportEnd,
    Waits, run,
};

/// What all workers share.
#[derive(Drop)]
pub struct Workers<'a, R> {
    pub rt: &'a R,
    pub alloc: Global,
    /// Set when they are to end.
    pub quit: AtomicBool,
}

/// Evidence that a worker ran to its end, with how its transport ended. Only [`work`] makes one, so
/// whoever has it has run a worker.
#[derive(Drop)]
pub struct EndedWorker {
    end: TransportEnd,
}

impl EndedWorker {
    /// Whether its transport failed.
    pub fn has_failed(&self) -> bool
        ensures { result ≡ has_failed self.now.end }
    {
        self.end.has_failed()
    }
}

/// Runs a worker on a thread of its own, with its port and the transport that receives at the
/// port's interface, until it finds the flag `quit` set or its transport fails. Returns the port,
/// and how the transport ended; a warning is logged if it failed.
///
/// It is generic over sockets, clock and flag, so that tests run it with their own.
pub fn work<
    'x,
    L: Site,
    R: Wait + Log,
    S: DatagramSocket,
    E: Waits + Drop,
    C: Seconds + Drop,
    F: Flag + Drop,
>(
    rt: &R,
    alloc: Global,
    transport: Sockets<'x, S, E>,
    clock: C,
    quit: F,
    hub: &Hub<L, Book<L>>,
    port: Port<L>,
) -> (Port<L>, EndedWorker)
    requires { port.number ≡ transport.own }
    ensures number { result.0.number ≡ port.number }
    ensures later { IsLater (asker_state port.asker port.seat)
        (asker_state result.0.asker result.0.seat) }
    ensures lived { has_failed result.1.end ≡ false → HasServed
        (senses_at ⟦<Sockets<'x, S, E> as Transport>⟧.gives
        ⟦<Sockets<'x, S, E> as Transport>⟧.hears C.shows L.origin port.number)
        F.reads quit (standing transport.entry clock (asker_state port.asker port.seat)
        port.share.amount)
        (asker_state result.0.asker result.0.seat) result.0.share.amount }
    ensures lived_on { has_failed result.1.end ≡ true → transport.entry.faults ≡ 0 → HasServedOn
        (senses_at ⟦<Sockets<'x, S, E> as Transport>⟧.gives
        ⟦<Sockets<'x, S, E> as Transport>⟧.hears C.shows L.origin port.number)
        F.reads quit (standing transport.entry clock (asker_state port.asker port.seat)
        port.share.amount) }
{
    let (mut port, mut transport, mut clock, mut quit) = (port, transport, clock, quit);
    let _ended = run(
        rt,
        alloc,
        hub,
        &mut port,
        &mut Open {},
        &mut transport,
        &mut clock,
        &mut quit,
    );
    let end = transport.end();
    if end.has_failed() {
        let number = port.number();
        warn!(rt; "worker {number} stopped");
    }
    (port, EndedWorker { end })
}
