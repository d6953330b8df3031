//! How long a turn takes for a Hello at a router with one interface: the cost of a turn in addition
//! to its event.
ghost use Rattle.std.specs.Prelude.{◌≡◌};
ghost use Rattle.worker.specs.Opening.{IsSetUpFor};

use crate::figures::{NoFigure, PrintResult, Round, Unit, report};
use crate::programs::attach;
use flood::{Config, Interface};
use hooks::Loader;
use isa::Hook;
use std::alloc::{AllocError, Global};
use std::marker::Brand;
use std::rt::Clock;
use std::sync::Wait;
use words::{Address, RouterId, Second, Sequence};
use worker::{Core, Hub, Open, Port, Setup, Site, Taker, Work, open_hub, turn};

const TURN: Unit = Unit {
    name: "a turn",
    rounds: 10_000,
    of_a_round: 1,
};

// r1 = 5; r2 = 1; call 1; exit: adds to a counter.
const ADDING: [u8; 32] = [
    0xb7, 1, 0, 0, 5, 0, 0, 0, 0xb7, 2, 0, 0, 1, 0, 0, 0, 0x85, 0, 0, 0, 1, 0, 0, 0, 0x95, 0, 0, 0,
    0, 0, 0, 0,
];

// The interface 10.0.1.1/24.
fn interface() -> Interface {
    Interface {
        address: Address::new(0x0a00_0101),
        length: 24,
        cost: 10,
        hello_interval: 10,
        dead_interval: 40,
        retransmit_interval: 5,
        delay: 1,
    }
}

fn config(alloc: Global) -> Result<Config, AllocError> {
    let interfaces = Vec::from_slice(alloc, &[interface()])?;
    Ok(Config {
        router: RouterId::new(0x0101_0101),
        start: Second::new(0),
        interfaces: Sequence::from_vec(interfaces),
    })
}

fn core(alloc: Global) -> Result<Core, NoFigure> {
    let Ok(config) = config(alloc) else {
        return Err(NoFigure::Memory);
    };
    match Core::new(alloc, &config) {
        Ok(core) => Ok(core),
        Err(_) => Err(NoFigure::Memory),
    }
}

// A Hello of 2.2.2.2 that lists no router.
const HELLO: &[u8] = &[
    2, 1, 0, 44, 2, 2, 2, 2, 0, 0, 0, 0, 0xf8, 0x9a, 0, 0, 0, 0, 0, 0, 0, 0, 0, 0, 255, 255, 255,
    0, 0, 10, 2, 1, 0, 0, 0, 40, 0, 0, 0, 0, 0, 0, 0, 0,
];

// The packet that is received.
fn packet(alloc: Global) -> Result<Work, AllocError> {
    let bytes = Vec::from_slice(alloc, HELLO)?;
    Ok(Work::Datagram(1, Sequence::from_vec(bytes)))
}

// A port at which a packet is received, turn by turn.
#[derive(Drop)]
struct Receiving<'a, L: Site, B: Taker<L>, R: Wait> {
    rt: &'a R,
    hub: &'a Hub<L, B>,
    port: Port<L>,
    work: &'a Work,
}

impl<L: Site, B: Taker<L>, R: Wait> Round for Receiving<'_, L, B, R> {
    fn succeeds(&mut self) -> bool {
        let now = Second::new(10);
        let (rt, hub, work) = (self.rt, self.hub, self.work);
        turn(rt, hub, &mut self.port, &mut Open {}, now, work).is_ok()
    }
}

// Measures turns, attaches a program at `count`, and measures them again.
fn print_both<R: Wait + Clock + Print + AllocGlobal, W: Round>(
    rt: &R,
    turns: &mut W,
    loader: &mut Loader<&R>,
) -> PrintResult {
    let mut printed = Ok(());
    report(rt, &mut printed, "a Hello", &TURN, turns);
    attach(rt.alloc(), &mut printed, loader, Hook::Count, &ADDING);
    report(
        rt,
        &mut printed,
        "the same, counted by a program",
        &TURN,
        turns,
    );
    printed
}

fn print_turns<L: Site, B: Taker<L>, R: Wait + Clock + Print + AllocGlobal>(
    rt: &R,
    hub: &Hub<L, B>,
    port: Option<Port<L>>,
    work: &Work,
    loader: &mut Loader<&R>,
) -> PrintResult {
    let Some(port) = port else {
        return Err(NoFigure::Memory);
    };
    let mut turns = Receiving {
        rt,
        hub,
        port,
        work,
    };
    print_both(rt, &mut turns, loader)
}

// At a hub that starts with this router.
fn print_at<L: Site, R: Wait + Clock + Print + AllocGlobal>(
    rt: &R,
    setup: Setup,
    core: Core,
    work: &Work,
    loader: &mut Loader<&R>,
) -> PrintResult
    requires setup { IsSetUpFor L.name L.parts L.words L.history setup }
    requires origin { core ≡ L.origin }
{
    let Ok((hub, mut ports, _rest)) = open_hub::<L>(rt.alloc(), setup, core) else {
        return Err(NoFigure::Memory);
    };
    let printed = print_turns(rt, &hub, ports.pop(), work, loader);
    let (book, _shared) = hub.into_parts();
    let _taken = book.close();
    printed
}

/// Prints how long a turn takes for a Hello, by one worker: without a program, and with one at
/// `count` that adds to a counter.
#[tactic(auto, using(hooks::proofs::Fresh::all_ask))]
pub fn print<R: Wait + Clock + Print + AllocGlobal>(rt: &R) -> PrintResult {
    let Ok(work) = packet(rt.alloc()) else {
        return Err(NoFigure::Memory);
    };
    let (mut loader, setup) = Setup::new(rt.alloc(), rt, 2)?;
    let core = core(rt.alloc())?;
    print_at::<Brand, R>(rt, setup, core, &work, &mut loader)
}
