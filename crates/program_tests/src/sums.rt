//! Sums of the numbers from n down to 1: their bounds, their answers and the number of instructions
//! that they execute.
ghost use Rattle.std.specs.Prelude.{◌≤◌};

use crate::trials::{ProgramOutcome, tried_text};
use interp::Run;
use std::alloc::{AllocError, Global};
use std::process::Abort;

fn text_of(alloc: Global, n: u64) -> Result<String, AllocError> {
    format!(in alloc;
        "hook price\nrank {n}\nr1 = {n}\nr0 = 0\nL:\nr0 += r1\nr1 += -1\nif r1 != 0 goto L\nexit\n\
        state L rank 0 r1 * 1\nwith r0 number 0 18446744073709551615 0 0\n\
        with r1 number 1 {n} 0 0"
    )
}

// Whether the sum from n takes 3 * n + 3 instructions, by both interpreters.
fn ends(alloc: Global, n: u64) -> bool
    requires { n ≤ 1000 }
{
    let (answer, used) = (n * (n + 1) / 2, 3 * n + 3);
    match text_of(alloc, n) {
        Ok(text) => match tried_text(alloc, &text, 1) {
            ProgramOutcome::Right(bound, ended) => bound == 6 * n + 6
                && ended == Run { answer, used },
            _ => false,
        },
        Err(_) => false,
    }
}

// An allocation may be refused once.
#[test]
fn sums_of_up_to_1000_numbers_end_within_their_bound(rt: HostRuntime) {
    for n in 1..=1_000u64 {
        assert!(rt; ends(rt.alloc(), n) || ends(rt.alloc(), n), "{n}");
    }
}
