//! A router from its configuration to its end.
ghost use Rattle.std.specs.Prelude.{◌≡◌, ◌⊎◌, ◌≤◌, ◌+◌, All, IfErr, IfOk, false, length, map};
ghost use Rattle.std.specs.Prelude.{nat_lt, vec_len, ⊤};
ghost use Rattle.worker.specs.Descending.{CountDownTo};
ghost use Rattle.hooks.specs.Known.{loader_history};
ghost use Rattle.worker.specs.Ends.{has_failed};
ghost use Rattle.worker.specs.Wires.{AreBound};
ghost use Rattle.event_rules.specs.Events.{initial};
ghost use Rattle.worker.specs.Opening.{IsSetUpFor};
ghost use Rattle.daemon.specs.Refusals.{IsLaterWhy, IsWhy};
ghost use Rattle.daemon.specs.Statuses.{EndsSo, HasRan, HasRanFor, HasRanOver, IsConfigOf};
ghost use Rattle.daemon.specs.Statuses.{status_of, status_of_ended};
ghost use Rattle.daemon.specs.Talks.{has_output_failed};
ghost use Rattle.daemon.specs.Texts.{HasFailed};

use crate::crew::side_by_side;
use crate::ended_router::EndedRouter;
use crate::error::StartError;
use crate::labor::{EndedWorker, Workers};
use crate::lines::ReadsBytes;
use crate::talk::{Console, EndedConsole};
use crate::texts::WritesTexts;
use crate::totals::{Printed, print_totals};
use console::{Config, Configured, ConfiguredInterface, Interface, read_configuration};
use hooks::Loader;
use log::Log;
use operator::{Desk, Outlet};
use std::alloc::{AllocError, Global};
use std::io::BufRead;
use std::marker::{Brand, PhantomData};
use std::net::Net;
use std::rt::Files;
use std::snapshot::Snapshot;
use std::sync::Wait;
use std::sync::atomic::AtomicBool;
use std::thread::Threads;
use std::time::Clock;
use words::Sequence;
use worker::{
    Closed, ConfigError, Core, Seconds, Setup, Site, Sockets, SystemSeconds, Wire, bind_each,
    listening,
};

// The interfaces of a configuration, without their UDP ports.
fn interfaces_of(
    alloc: Global,
    configured: &[ConfiguredInterface],
) -> Result<Sequence<Interface>, AllocError>
    ensures { IfOk result (λ r. r ≡ map (λ c. c.interface) configured.now) }
{
    let mut interfaces = Vec::new(alloc);
    for configured in configured {
        interfaces.push(configured.interface)?;
    }
    Ok(Sequence::from_vec(interfaces))
}

// The router of a configuration, from the second on that the clock shows.
fn config_of<C: Seconds>(
    alloc: Global,
    clock: &mut C,
    configured: &Configured,
) -> Result<Config, StartError>
    ensures start { IfOk result (λ config. C.shows clock.old config.start clock.new) }
    ensures said { IfOk result (IsConfigOf configured.now) }
    ensures refused { IfErr result (IsLaterWhy ⊥) }
{
    let interfaces = interfaces_of(alloc, configured.interfaces.as_slice())?;
    Ok(Config {
        router: configured.router,
        start: clock.second(),
        interfaces,
    })
}

// The router at its start.
fn core_of(alloc: Global, config: &Config) -> Result<Core, StartError>
    ensures core { IfOk result (λ core. core ≡ initial config.now) }
    ensures refused { IfErr result (IsLaterWhy ⊥) }
{
    match Core::new(alloc, config) {
        Ok(core) => Ok(core),
        Err(ConfigError::Memory) => Err(StartError::Memory),
        // What was read is within the profile.
        Err(ConfigError::Interface) => Err(StartError::Configuration(1)),
    }
}

// Runs the workers and the console over a setup, and prints the exact counters. Tells how the
// workers' transports ended, and the conversation.
fn run_crew<
    L: Site + Send + Sync,
    R: Threads + Wait + Clock + Log + Files + AllocGlobal + Sync,
    Q: Wait + Drop,
    I: ReadsBytes,
    O: WritesTexts,
>(
    rt: &R,
    setup: Setup,
    core: Core,
    workers: &Workers<'_, R>,
    transports: Vec<Sockets<'_>>,
    desk: &mut Desk<L, Q, Sockets<'_>, SystemSeconds<'_, R>>,
    console: &mut Console<'_, R, I, O>,
) -> Result<(Vec<EndedWorker>, EndedConsole, Printed), StartError>
    requires setup { IsSetUpFor L.name L.parts L.words L.history setup }
    requires origin { core ≡ L.origin }
    requires transports { vec_len setup.seats ≡ vec_len transports + 1 }
    requires interfaces { CountDownTo 1 (map (λ l. l.own) transports.items) }
    requires told { desk.old.interfaces ≡ vec_len transports }
    ensures ends { IfOk result (λ r. vec_len r.0 + 1 ≡ vec_len setup.seats) }
    ensures heard { IfOk result (λ r. has_output_failed r.1 ≡ false) }
    ensures refused { IfErr result (IsLaterWhy (HasFailed O.fails)) }
{
    let alloc = workers.alloc;
    let (closed, ends, ended_console) = side_by_side(
        rt, alloc, setup, core, workers, transports, desk, console,
    )?;
    let Closed {
        taken: _,
        share: _,
        shared,
        seats,
    } = closed;
    if ended_console.has_output_failed() {
        return Err(StartError::Output);
    }
    let printed = print_totals(alloc, shared, seats, console.output)?;
    Ok((ends, ended_console, printed))
}

// Says how a router ended, and closes what the operator worked with.
fn end_router<L: Site, Q: Wait + Drop, C: Seconds + Drop>(
    origin: Snapshot<Core>,
    workers: Vec<EndedWorker>,
    desk: Desk<L, Q, Sockets<'_>, C>,
    ended_console: EndedConsole,
    printed: Printed,
) -> EndedRouter
    ensures origin { result.origin.value ≡ origin.value }
    ensures workers { result.workers ≡ workers }
    ensures many { vec_len result.workers ≡ vec_len workers }
    ensures ended_console { result.ended_console ≡ ended_console }
    ensures console { has_failed result.console ≡ nat_lt 0 desk.entry.outlet.transport.faults }
{
    let Desk {
        alloc: _,
        loader: _,
        interfaces: _,
        outlet,
        unrefreshed: _,
        of: _,
    } = desk;
    let Outlet {
        transport,
        clock: _,
    } = outlet;
    EndedRouter {
        origin,
        workers,
        console: transport.end(),
        ended_console,
        printed,
    }
}

// The workers' and the operator's things, and what runs with them.
#[tactic(auto, using(crate::proofs::AsMany::ran_as))]
fn run_all<
    'x,
    L: Site + Send + Sync,
    R: Threads + Wait + Clock + Log + Files + AllocGlobal + Sync + Drop,
    Q: Wait + Drop,
    I: ReadsBytes,
    O: WritesTexts,
>(
    rt: &'x R,
    setup: Setup,
    loader: Loader<Q>,
    core: Core,
    transports: Vec<Sockets<'x>>,
    own: Sockets<'x>,
    input: &'x mut I,
    output: &'x mut O,
) -> Result<EndedRouter, StartError>
    requires setup { IsSetUpFor L.name L.parts L.words L.history setup }
    requires history { loader_history loader ≡ L.history }
    requires origin { core ≡ L.origin }
    requires transports { vec_len setup.seats ≡ vec_len transports + 1 }
    requires interfaces { CountDownTo 1 (map (λ l. l.own) transports.items) }
    ensures ran { IfOk result (HasRan L.origin (vec_len transports.entry)) }
    ensures refused { IfErr result (IsLaterWhy (HasFailed O.fails)) }
{
    let alloc = rt.alloc();
    let interfaces = if transports.len() <= 63 {
        transports.len() as u16
    } else {
        63
    };
    let workers = Workers {
        rt,
        alloc,
        quit: AtomicBool::new(false),
    };
    let mut desk = Desk {
        alloc,
        loader,
        interfaces,
        outlet: Outlet {
            transport: own,
            clock: SystemSeconds::new(rt),
        },
        unrefreshed: false,
        of: PhantomData::<L>,
    };
    let mut console = Console { rt, input, output };
    let origin = Snapshot::of(&core);
    let (ends, ended_console, printed) = run_crew(
        rt,
        setup,
        core,
        &workers,
        transports,
        &mut desk,
        &mut console,
    )?;
    Ok(end_router(origin, ends, desk, ended_console, printed))
}

/// Runs this router over these transports, one for each interface and that of the first one last,
/// and over one of the console's own, as [`run_router`] does.
///
/// # Errors
/// `Hooks` if the programs have no places, also for more than 63 sockets; `Configuration` with line
/// 1 if the router isn't within the profile; `Output` if the output can't be written, `Memory` if
/// memory was refused or a thread couldn't be started.
#[tactic(auto, using(hooks::proofs::Fresh::all_ask, crate::proofs::AsMany::ran_from, crate::proofs::Ended::unprinted_why))]
pub fn operate<
    'x,
    R: Threads + Wait + Clock + Log + Files + AllocGlobal + Sync + Drop,
    I: BufRead,
    O: WritesTexts,
>(
    rt: &'x R,
    config: &Config,
    transports: Vec<Sockets<'x>>,
    own: Sockets<'x>,
    input: &'x mut I,
    output: &'x mut O,
) -> Result<EndedRouter, StartError>
    requires { CountDownTo 1 (map (λ l. l.own) transports.items) }
    ensures ran { IfOk result (HasRan (initial config.now) (vec_len transports.entry)) }
    ensures refused { IfErr result (IsLaterWhy (HasFailed O.fails)) }
{
    let ports = transports.len().saturating_add(1);
    let (loader, setup) = Setup::new(rt.alloc(), rt, ports)?;
    let core = core_of(rt.alloc(), config)?;
    let ended = run_all::<Brand, R, &R, I, O>(
        rt, setup, loader, core, transports, own, input, output,
    )?;
    Ok(ended)
}

// Runs it over transports that are all at the same sockets, one for each, and of which no call has
// failed.
fn operate_at_same<
    'x,
    R: Threads + Wait + Clock + Log + Files + AllocGlobal + Sync + Drop,
    I: BufRead,
    O: WritesTexts,
>(
    rt: &'x R,
    config: &Config,
    transports: Vec<Sockets<'x>>,
    own: Sockets<'x>,
    input: &'x mut I,
    output: &'x mut O,
) -> Result<EndedRouter, StartError>
    requires interfaces { CountDownTo 1 (map (λ l. l.own) transports.items) }
    requires each { vec_len transports ≡ length own.wires.now }
    requires transports { All (λ l. (l.wires.now ≡ own.wires.now) × (l.faults ≡ 0))
        transports.items }
    requires fine { own.faults ≡ 0 }
    ensures ran { IfOk result (HasRan (initial config.now) (vec_len transports.entry)) }
    ensures refused { IfErr result (IsLaterWhy (HasFailed O.fails)) }
{
    operate(rt, config, transports, own, input, output)
}

// Runs the router of a configuration over the sockets of its interfaces, in their order.
#[tactic(auto, using(crate::proofs::AsMany::ran_over, crate::proofs::Ended::unprinted_why, crate::proofs::Ended::unwaited_why))]
fn run_over<
    R: Net + Threads + Wait + Clock + Log + Files + AllocGlobal + Sync + Drop,
    I: BufRead,
    O: WritesTexts,
>(
    rt: &R,
    configured: &Configured,
    wires: &[Wire],
    input: &mut I,
    output: &mut O,
) -> Result<EndedRouter, StartError>
    requires { AreBound (λ _ _. ⊤) configured.now.interfaces wires.now }
    ensures ran { IfOk result (HasRanOver (length wires.now) configured.now) }
    ensures refused { IfErr result (IsLaterWhy (HasFailed O.fails)) }
{
    let mut clock = SystemSeconds::new(rt);
    let config = config_of(rt.alloc(), &mut clock, configured)?;
    let transports = listening(rt, rt.alloc(), wires)?;
    let own = Sockets::of_console(wires);
    let ended = operate_at_same(rt, &config, transports, own, input, output)?;
    Ok(ended)
}

/// Runs the router that a configuration's text says, with a console that reads commands from
/// `input` and answers on `output`, until `quit` or the end of input. Every thread is joined before
/// it answers, and tells how its transport ended; for each worker whose transport failed the
/// warning `worker N stopped` is logged.
///
/// # Errors
/// `Configuration` if the text says none, `Bind` if a UDP port can't be bound, `Socket` if the
/// sockets can't be waited at, `Hooks` if the programs have no places, tried in this order;
/// `Output` if the output can't be written, `Memory` if memory was refused or a thread couldn't be
/// started.
#[tactic(auto, using(crate::proofs::Ended::text_why, crate::proofs::Ended::socket_why, crate::proofs::Ended::later_why))]
pub fn run_router<
    R: Net + Threads + Wait + Clock + Log + Files + AllocGlobal + Sync + Drop,
    I: BufRead,
    O: WritesTexts,
>(rt: &R, text: &str, input: &mut I, output: &mut O) -> Result<EndedRouter, StartError>
    ensures ran { IfOk result (HasRanFor text.now) }
    ensures refused { IfErr result (IsWhy (HasFailed O.fails) text.now) }
{
    let alloc = rt.alloc();
    let configured = read_configuration(alloc, text)?;
    let wires = bind_each(rt, alloc, configured.interfaces.as_slice())?;
    let ended = run_over(rt, &configured, &wires, input, output)?;
    Ok(ended)
}

// The status after a router ran. If none did, a line on `output` says why.
#[tactic(auto, using(crate::proofs::Ended::failed_once))]
fn report<O: WritesTexts>(outcome: Result<EndedRouter, StartError>, output: &mut O) -> u8
    ensures ran { IfOk outcome (λ ended. result ≡ status_of_ended ended) }
    ensures refused { IfErr outcome (λ error.
        (result ≡ status_of error) ⊎ ((result ≡ 3) × HasFailed O.fails)) }
    ensures few { result ≤ 4 }
{
    match outcome {
        Ok(ended) => ended.status(),
        Err(error) => match output.write_text(format_args!("{error}\n")) {
            Ok(()) => error.status(),
            Err(_) => StartError::Output.status(),
        },
    }
}

/// Runs a router as [`run_router`] does. If it doesn't run, a line on `output` says why. The answer
/// is the status: 0 ended by the operator, 1 refused, 3 a socket, a worker or the output failed, 4
/// memory was refused or a thread couldn't be started.
pub fn run_and_report<
    R: Net + Threads + Wait + Clock + Log + Files + AllocGlobal + Sync + Drop,
    I: BufRead,
    O: WritesTexts,
>(rt: &R, text: &str, input: &mut I, output: &mut O) -> u8
    ensures few { result ≤ 4 }
    ensures ends { EndsSo (HasFailed O.fails) text.now result }
{
    let outcome = run_router(rt, text, input, output);
    report(outcome, output)
}
