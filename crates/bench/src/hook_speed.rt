//! How long it takes to ask a program at each hook.
ghost use Rattle.maps.specs.Words.{IsSeatOf};

use crate::figures::{NoFigure, PrintResult, Round, Unit, report};
use crate::programs::attach;
use hooks::{Asker, Loader, programs};
use isa::Hook;
use maps::{Seat, Shared};
use std::alloc::Global;
use std::rt::Clock;
use std::sync::Wait;
use words::{Address, External, ExternalType, Hops, Prefix, Route, RouteKind, Second};

const QUESTION: Unit = Unit {
    name: "a question",
    rounds: 10_000,
    of_a_round: 1,
};

// r0 = 1; exit
const ONE: [u8; 16] = [0xb7, 0, 0, 0, 1, 0, 0, 0, 0x95, 0, 0, 0, 0, 0, 0, 0];

// A hook, what is printed of its questions without a program, and their answer.
type HookRow = (Hook, &'static str, u64);

const ROWS: [HookRow; 4] = [
    (Hook::Count, "at count\n  without a program", 0),
    (Hook::Tag, "at tag\n  without a program", 7),
    (Hook::Price, "at price\n  without a program", 20),
    (Hook::Veto, "at veto\n  without a program", 0),
];

/// An asker with a seat of a table of its own, and what it asks, with the expected answer.
#[derive(Drop)]
struct Asking {
    asker: Asker,
    shared: Shared,
    seat: Seat,
    hook: Hook,
    external: External,
    route: Route,
    word: u64,
    ghost table: { IsSeatOf shared seat },
}

fn destination(prefix: Prefix) -> External {
    External {
        prefix,
        metric: 20,
        kind: ExternalType::Type2,
        tag: 7,
    }
}

fn route(prefix: Prefix) -> Route {
    Route {
        prefix,
        kind: RouteKind::Intra,
        cost: 20,
        distance: 0,
        hops: Hops::only(1),
        tag: 0,
    }
}

impl Asking {
    fn new(alloc: Global, asker: Asker) -> Option<Asking> {
        let Ok((shared, mut seats)) = Shared::new(alloc, 1) else {
            return None;
        };
        match (seats.pop(), Prefix::new(Address::new(0xcb00_7100), 24)) {
            (Some(seat), Some(prefix)) => Some(Asking {
                asker,
                shared,
                seat,
                hook: Hook::Count,
                external: destination(prefix),
                route: route(prefix),
                word: 0,
            }),
            _ => None,
        }
    }
}

impl Round for Asking {
    fn succeeds(&mut self) -> bool {
        let now = Second::new(5);
        let (asker, shared, seat) = (&mut self.asker, &self.shared, &mut self.seat);
        match self.hook {
            Hook::Count => match asker.count(1, now, &[2, 1], shared, seat) {
                Some(answer) => answer.word() == self.word,
                None => false,
            },
            Hook::Tag => match asker.tag(&self.external, now, &[], shared, seat) {
                Some(answer) => answer.word() == self.word,
                None => false,
            },
            Hook::Price => match asker.price(&self.external, now, &[], shared, seat) {
                Some(answer) => answer.word() == self.word,
                None => false,
            },
            Hook::Veto => match asker.veto(&self.route, now, &[], shared, seat) {
                Some(answer) => answer.word() == self.word,
                None => false,
            },
        }
    }
}

// Measures the questions at a hook without a program, attaches one there, and measures them again.
fn print_row<R: Clock + Print + AllocGlobal + Wait>(
    rt: &R,
    printed: &mut PrintResult,
    loader: &mut Loader<&R>,
    asking: &mut Asking,
    row: &HookRow,
) {
    let (hook, what, word) = *row;
    asking.hook = hook;
    asking.word = word;
    report(rt, printed, what, &QUESTION, asking);
    attach(rt.alloc(), printed, loader, hook, &ONE);
    asking.word = 1;
    report(rt, printed, "  with `r0 = 1; exit`", &QUESTION, asking);
}

fn print_rows<R: Clock + Print + AllocGlobal + Wait>(
    rt: &R,
    loader: &mut Loader<&R>,
    asking: Option<Asking>,
) -> PrintResult {
    let Some(mut asking) = asking else {
        return Err(NoFigure::Memory);
    };
    let mut printed = Ok(());
    for row in &ROWS {
        print_row(rt, &mut printed, loader, &mut asking, row);
    }
    printed
}

fn asking_of(alloc: Global, askers: Vec<Asker>) -> Option<Asking> {
    let mut askers = askers;
    match askers.pop() {
        Some(asker) => Asking::new(alloc, asker),
        None => None,
    }
}

/// Prints how long a question takes at each hook: without a program, and with one of two
/// instructions.
pub fn print<R: Clock + Print + AllocGlobal + Wait>(rt: &R) -> PrintResult {
    match programs(rt.alloc(), rt, 1) {
        Ok((mut loader, askers)) => print_rows(rt, &mut loader, asking_of(rt.alloc(), askers)),
        Err(_) => Err(NoFigure::Memory),
    }
}
