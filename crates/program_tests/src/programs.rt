//! Runs of code within a limit. trials/runs.rows has the result of each instruction.
use crate::seats::one_seat;
use interp::{Run, Trap, run_checked};
use isa::{Code, decode};
use machine::{Hook, Input};
use std::alloc::Global;
use std::process::Abort;

// r1 = 10; r0 = 0; r0 += r1; r1 += -1; if r1 != 0 goto -3; exit
const SUMMING: &[u8] =
    b"\xb7\x01\x00\x00\x0a\x00\x00\x00\xb7\x00\x00\x00\x00\x00\x00\x00\x0f\x10\x00\x00\x00\x00\x00\
        \x00\x07\x01\x00\x00\xff\xff\xff\xff\x55\x01\xfd\xff\x00\x00\x00\x00\x95\x00\x00\x00\x00\
        \x00\x00\x00";

// r0 = 7, with no instruction after it.
const ENDLESS: &[u8] = b"\xb7\x00\x00\x00\x07\x00\x00\x00";

// A limit, a program, and the outcome: a run's answer and number of instructions, or a trap's
// number and 0.
const LIMITS: &[(u64, &[u8], (u64, u64))] = &[
    (33, SUMMING, (55, 33)),
    (u64::MAX, SUMMING, (55, 33)),
    (32, SUMMING, (11, 0)),
    (0, SUMMING, (11, 0)),
    (1, ENDLESS, (11, 0)),
    (2, ENDLESS, (1, 0)),
];

fn shown(outcome: Result<Run, Trap>) -> (u64, u64) {
    match outcome {
        Ok(run) => (run.answer, run.used),
        Err(trap) => (u64::from(trap.number()), 0),
    }
}

// The outcome of a run of at most `limit` instructions, on a new table.
fn outcome_of(alloc: Global, limit: u64, code: &Code) -> Option<(u64, u64)> {
    let (words, mut seat) = one_seat(alloc)?;
    let input = Input {
        context: [0; 64],
        packet: &[],
        rows: &[],
    };
    Some(shown(run_checked(code, Hook::Veto, limit, &input, &words, &mut seat)))
}

// The outcome of a run of the code that these bytes spell. Retries once: a test run may refuse one
// allocation.
fn outcome(alloc: Global, limit: u64, bytes: &[u8]) -> Option<(u64, u64)> {
    match decode(alloc, bytes) {
        Ok(code) => outcome_of(alloc, limit, &code),
        Err(_) => {
            let code = decode(alloc, bytes).ok()?;
            outcome_of(alloc, limit, &code)
        },
    }
}

#[test]
fn a_limit_that_is_just_enough(rt: HostRuntime) {
    for row in LIMITS {
        let (limit, bytes, want) = *row;
        let found = outcome(rt.alloc(), limit, bytes);
        assert!(rt; found == Some(want), "{limit}: {found:?}");
    }
}
