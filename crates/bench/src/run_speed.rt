//! How long an instruction takes: in a checked run, and in a run of an accepted program.
ghost use Rattle.std.specs.Prelude.{◌≡◌, slice_range};
ghost use Rattle.isa.specs.Hooks.{hook_number};
ghost use Rattle.machine.specs.Memory.{number_of};
ghost use Rattle.maps.specs.Words.{IsSeatOf};

use crate::figures::{NoFigure, PrintResult, Round, Unit, report};
use crate::programs::accepted;
use interp::{run, run_checked};
use isa::{Code, Hook, decode};
use machine::Input;
use maps::{Seat, Shared};
use std::alloc::{AllocError, Global};
use std::rt::Clock;
use verifier::Accepted;

/// The number of slots of the code.
const SLOTS: u64 = 4_000;

const INSTRUCTION: Unit = Unit {
    name: "each",
    rounds: 1_000,
    of_a_round: SLOTS,
};

const CHECKED: &str = "straight-line arithmetic, 4,000 slots: 4000 instructions a run\n  they take";

const ACCEPTED: &str =
    "accepted straight-line arithmetic, 4,000 slots: 4000 instructions a run\n  they take";

/// The context of a hook: its number, and zeros.
fn context_of(hook: Hook) -> [u8; 64]
    ensures { number_of (slice_range result 0 4) ≡ hook_number hook }
{
    let mut context = [0; 64];
    context[0] = hook.number();
    context
}

// r0 = 0
const START: [u8; 8] = [0xb7, 0, 0, 0, 0, 0, 0, 0];

// r0 ^= 5; r0 -= 7; r0 += 3; r0 <<= 1
const ARITHMETIC: [u8; 32] = [
    0xa7, 0, 0, 0, 5, 0, 0, 0, 0x17, 0, 0, 0, 7, 0, 0, 0, 0x07, 0, 0, 0, 3, 0, 0, 0, 0x67, 0, 0, 0,
    1, 0, 0, 0,
];

// r0 ^= 5; r0 -= 7; exit
const END: [u8; 24] = [
    0xa7, 0, 0, 0, 5, 0, 0, 0, 0x17, 0, 0, 0, 7, 0, 0, 0, 0x95, 0, 0, 0, 0, 0, 0, 0,
];

// 4,000 slots of code.
fn straight_line(alloc: Global) -> Result<Vec<u8>, AllocError> {
    let mut code = Vec::from_slice(alloc, &START)?;
    for _turn in 0..999 {
        code.extend_from_slice(&ARITHMETIC)?;
    }
    code.extend_from_slice(&END)?;
    Ok(code)
}

/// Straight-line code as it was accepted, and as it is if each step is tested, and the only seat of
/// a table.
#[derive(Drop)]
struct Running {
    accepted: Accepted,
    code: Code,
    is_checked: bool,
    shared: Shared,
    seat: Seat,
    ghost table: { IsSeatOf shared seat },
}

// Runs the code, on no packet and no table rows.
impl Round for Running {
    fn succeeds(&mut self) -> bool {
        let hook = self.accepted.hook();
        let input = Input {
            context: context_of(hook),
            packet: &[],
            rows: &[],
        };
        let (shared, seat) = (&self.shared, &mut self.seat);
        if !self.is_checked {
            return run(&self.accepted, &input, shared, seat).used == SLOTS;
        }
        match run_checked(&self.code, hook, 10_000_000, &input, shared, seat) {
            Ok(run) => run.used == SLOTS,
            Err(_) => false,
        }
    }
}

fn with_table(alloc: Global, accepted: Accepted, code: Code) -> Option<Running> {
    let Ok((shared, mut seats)) = Shared::new(alloc, 1) else {
        return None;
    };
    match seats.pop() {
        Some(seat) => Some(Running {
            accepted,
            code,
            is_checked: true,
            shared,
            seat,
        }),
        None => None,
    }
}

fn running_of(alloc: Global) -> Option<Running> {
    let Ok(bytes) = straight_line(alloc) else {
        return None;
    };
    let Ok(code) = decode(alloc, &bytes) else {
        return None;
    };
    match accepted(alloc, Hook::Price, bytes) {
        Some(accepted) => with_table(alloc, accepted, code),
        None => None,
    }
}

/// Prints how long an instruction takes: in a checked run, and in a run of an accepted program.
pub fn print<R: Clock + Print + AllocGlobal>(rt: &R) -> PrintResult {
    let Some(mut running) = running_of(rt.alloc()) else {
        return Err(NoFigure::Memory);
    };
    let mut printed = Ok(());
    report(rt, &mut printed, CHECKED, &INSTRUCTION, &mut running);
    running.is_checked = false;
    report(rt, &mut printed, ACCEPTED, &INSTRUCTION, &mut running);
    printed
}
