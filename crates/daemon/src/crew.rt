//! The workers on threads of their own, the console beside them, and back.
ghost use Rattle.std.specs.Prelude.{◌≡◌, ◌+◌, true, All, length, map, vec_len, IfOk};
ghost use Rattle.worker.specs.Descending.{CountDownTo};
ghost use Rattle.maps.specs.Words.{IsSeatOf};
ghost use Rattle.worker.specs.Opening.{IsSetUpFor};
ghost use Rattle.daemon.specs.Talks.{has_output_failed};
ghost use Rattle.daemon.specs.Texts.{HasFailed};

use crate::labor::{EndedWorker, Workers, work};
use crate::lines::ReadsBytes;
use crate::pairs::next_pair;
use crate::talk::{Console, EndedConsole, talk};
use crate::texts::WritesTexts;
use log::Log;
use operator::Desk;
use std::alloc::{AllocError, Global};
use std::rt::Files;
use std::sync::Wait;
use std::sync::atomic::Ordering;
use std::thread;
use std::thread::{JoinHandle, Scope, Threads};
use std::time::Clock;
use worker::{
    Book, Closed, Core, Hub, Port, Setup, Signal, Site, Sockets, SystemSeconds, close_hub, open_hub,
};

/// Runs each worker on a thread with a port of its own, and the operator on this thread at port 0,
/// until the operator is done. Every thread is joined before this returns, whatever it returns.
/// There is a transport for each port but the operator's: port n's receives at interface n.
///
/// Returns the closed book, which took just as many events as all shares count; the counters and
/// cells with all their seats, as [`Shared::close`](maps::Shared::close) requires them; how each
/// transport ended; and how the console ended, by its output only if that couldn't be written.
///
/// # Errors
/// `AllocError` if an allocation is refused, or if a thread couldn't be started.
pub fn side_by_side<
    L: Site + Send + Sync,
    R: Threads + Wait + Clock + Log + Sync,
    S: Wait + Clock + Files + AllocGlobal,
    Q: Wait + Drop,
    I: ReadsBytes,
    O: WritesTexts,
>(
    rt: &R,
    alloc: Global,
    setup: Setup,
    core: Core,
    workers: &Workers<'_, R>,
    transports: Vec<Sockets<'_>>,
    desk: &mut Desk<L, Q, Sockets<'_>, SystemSeconds<'_, S>>,
    console: &mut Console<'_, S, I, O>,
) -> Result<(Closed<L>, Vec<EndedWorker>, EndedConsole), AllocError>
    requires setup { IsSetUpFor L.name L.parts L.words L.history setup }
    requires origin { core ≡ L.origin }
    requires transports { vec_len setup.seats ≡ vec_len transports + 1 }
    requires interfaces { CountDownTo 1 (map (λ l. l.own) transports.items) }
    ensures taken { IfOk result (λ r.
        (r.0.taken ≡ r.0.share.amount) × (r.0.share.parts ≡ L.parts)) }
    ensures seats { IfOk result (λ r.
        (length r.0.seats.items ≡ r.0.shared.seats) × All (IsSeatOf r.0.shared) r.0.seats.items) }
    ensures ends { IfOk result (λ r. vec_len r.1 + 1 ≡ vec_len setup.seats) }
    ensures output { IfOk result (λ r. has_output_failed r.2 ≡ true → HasFailed O.fails) }
{
    let (hub, ports, rest) = open_hub::<L>(alloc, setup, core)?;
    match in_scope(rt, &hub, ports, workers, transports, desk, console) {
        Ok((back, ends, ended_console)) => {
            let closed = close_hub(alloc, hub, rest, Ok(back))?;
            Ok((closed, ends, ended_console))
        }
        Err(error) => {
            let _none = close_hub(alloc, hub, rest, Err(error));
            Err(AllocError)
        }
    }
}

// Starts the threads in a scope, so that they borrow the hub.
fn in_scope<
    L: Site + Send + Sync,
    R: Threads + Wait + Clock + Log + Sync,
    S: Wait + Clock + Files + AllocGlobal,
    Q: Wait + Drop,
    I: ReadsBytes,
    O: WritesTexts,
>(
    rt: &R,
    hub: &Hub<L, Book<L>>,
    ports: Vec<Port<L>>,
    workers: &Workers<'_, R>,
    transports: Vec<Sockets<'_>>,
    desk: &mut Desk<L, Q, Sockets<'_>, SystemSeconds<'_, S>>,
    console: &mut Console<'_, S, I, O>,
) -> Result<(Vec<Port<L>>, Vec<EndedWorker>, EndedConsole), AllocError>
    requires transports { vec_len ports ≡ vec_len transports + 1 }
    requires numbers { CountDownTo 0 (map (λ p. p.number) ports.items) }
    requires interfaces { CountDownTo 1 (map (λ l. l.own) transports.items) }
    ensures ports { IfOk result (λ back. vec_len back.0 ≡ vec_len ports) }
    ensures ends { IfOk result (λ back. vec_len back.1 + 1 ≡ vec_len ports) }
    ensures output { IfOk result (λ back. has_output_failed back.2 ≡ true → HasFailed O.fails) }
{
    thread::scope(
        thread::scope_env(),
        rt,
        |scope| -> Result<(Vec<Port<L>>, Vec<EndedWorker>, EndedConsole), AllocError>
            requires transports { vec_len ports ≡ vec_len transports + 1 }
            requires numbers { CountDownTo 0 (map (λ p. p.number) ports.items) }
            requires interfaces { CountDownTo 1 (map (λ l. l.own) transports.items) }
            ensures ports { IfOk result (λ back. vec_len back.0 ≡ vec_len ports) }
            ensures ends { IfOk result (λ back. vec_len back.1 + 1 ≡ vec_len ports) }
            ensures output { IfOk result (λ back. has_output_failed back.2 ≡ true → HasFailed
                O.fails) }
        { crew(scope, rt, hub, workers, transports, desk, console, ports) },
    )
}

// Starts a worker at each port but the last one, which is the console's, number 0. When the
// operator is done there, the workers are joined.
fn crew<
    's,
    E,
    L: Site + Send + Sync,
    R: Threads + Wait + Clock + Log + Sync,
    S: Wait + Clock + Files + AllocGlobal,
    Q: Wait + Drop,
    I: ReadsBytes,
    O: WritesTexts,
>(
    scope: &Scope<'s, E>,
    rt: &R,
    hub: &'s Hub<L, Book<L>>,
    workers: &'s Workers<'_, R>,
    transports: Vec<Sockets<'s>>,
    desk: &mut Desk<L, Q, Sockets<'_>, SystemSeconds<'_, S>>,
    console: &mut Console<'_, S, I, O>,
    ports: Vec<Port<L>>,
) -> Result<(Vec<Port<L>>, Vec<EndedWorker>, EndedConsole), AllocError>
    requires transports { vec_len ports ≡ vec_len transports + 1 }
    requires numbers { CountDownTo 0 (map (λ p. p.number) ports.items) }
    requires interfaces { CountDownTo 1 (map (λ l. l.own) transports.items) }
    ensures ports { IfOk result (λ back. vec_len back.0 ≡ vec_len ports) }
    ensures ends { IfOk result (λ back. vec_len back.1 + 1 ≡ vec_len ports) }
    ensures output { IfOk result (λ back. has_output_failed back.2 ≡ true → HasFailed O.fails) }
{
    let mut ports = ports;
    let back = Vec::with_capacity(workers.alloc, ports.len())?;
    let ends = Vec::with_capacity(workers.alloc, transports.len())?;
    let Some(first) = ports.pop() else {
        unreachable!()
    };
    let running = start_workers(scope, hub, workers, transports, ports)?;
    let (first, ended_console) = talk(hub, first, desk, console);
    workers.quit.store(true, Ordering::SeqCst);
    let (back, ends) = join_workers(rt, running, first, back, ends)?;
    Ok((back, ends, ended_console))
}

// A thread for each port, each with the transport that receives at the interface of its number. If
// one can't be started, the others are told to end.
fn start_workers<'s, E, L: Site + Send + Sync, R: Threads + Wait + Clock + Log + Sync>(
    scope: &Scope<'s, E>,
    hub: &'s Hub<L, Book<L>>,
    workers: &'s Workers<'_, R>,
    transports: Vec<Sockets<'s>>,
    ports: Vec<Port<L>>,
) -> Result<Vec<JoinHandle<(Port<L>, EndedWorker)>>, AllocError>
    requires { map (λ p. p.number) ports.items ≡ map (λ l. l.own) transports.items }
    ensures { IfOk result (λ running. vec_len running ≡ vec_len ports) }
{
    let (mut ports, mut transports) = (ports, transports);
    let mut running = Vec::with_capacity(workers.alloc, ports.len())?;
    let (clock, memory) = (workers.rt, workers.alloc);
    let quit = &workers.quit;
    while let Some((port, transport)) = next_pair(&mut ports, &mut transports) {
        let life = move || -> (Port<L>, EndedWorker)
            requires { port.number ≡ transport.own }
        {
            work(
                clock,
                memory,
                transport,
                SystemSeconds::new(clock),
                Signal { quit },
                hub,
                port,
            )
        };
        let Ok(thread) = scope.spawn(life) else {
            workers.quit.store(true, Ordering::SeqCst);
            return Err(AllocError);
        };
        if running.push(thread).is_err() {
            workers.quit.store(true, Ordering::SeqCst);
            return Err(AllocError);
        }
    }
    Ok(running)
}

// All ports, once the threads that have them are done, and how the threads' transports ended.
fn join_workers<L: Site, R: Threads>(
    rt: &R,
    running: Vec<JoinHandle<(Port<L>, EndedWorker)>>,
    first: Port<L>,
    back: Vec<Port<L>>,
    ends: Vec<EndedWorker>,
) -> Result<(Vec<Port<L>>, Vec<EndedWorker>), AllocError>
    requires none { vec_len back ≡ 0 }
    requires unended { vec_len ends ≡ 0 }
    ensures ports { IfOk result (λ back. vec_len back.0 ≡ vec_len running + 1) }
    ensures ends { IfOk result (λ back. vec_len back.1 ≡ vec_len running) }
{
    let (mut running, mut back, mut ends) = (running, back, ends);
    back.push(first)?;
    while let Some(thread) = running.pop() {
        let (port, end) = thread.join(rt);
        back.push(port)?;
        ends.push(end)?;
    }
    Ok((back, ends))
}
