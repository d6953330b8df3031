//! The object of the sum of the numbers from 10 down to 1, with one bit of it flipped.
use crate::trials::{ProgramOutcome, file_of, tried};
use std::alloc::Global;
use std::process::Abort;

const SUM: &str = "hook price\nrank 10\nr1 = 10\nr0 = 0\nL:\nr0 += r1\nr1 += -1\n\
        if r1 != 0 goto L\nexit\nstate L rank 0 r1 * 1\n\
        with r0 number 0 18446744073709551615 0 0\nwith r1 number 1 10 0 0";

/// The length of its file.
const BYTES: usize = 548;

/// The hook may be `count` or `tag` in place of `price`. The entry rank 10 may gain one of its
/// other bits below 2^18, of which there are 16; with one of its own two bits cleared, or a higher
/// one set, the object is refused.
const SURELY_ACCEPTED: usize = 18;

fn flip(bytes: &mut [u8], bit: usize) {
    if let Some(byte) = bytes.get_mut(bit / 8) {
        *byte ^= 1 << (bit % 8);
    }
}

// The number of objects with one flipped bit that are accepted, and of those whose runs are wrong.
fn tried_all(alloc: Global, bytes: &mut [u8]) -> (usize, usize) {
    let (mut accepted, mut wrong) = (0_usize, 0_usize);
    for bit in 0..8 * BYTES {
        flip(bytes, bit);
        match tried(alloc, bytes, 100) {
            ProgramOutcome::Refused => {}
            ProgramOutcome::Right(_, _) => accepted = accepted.saturating_add(1),
            ProgramOutcome::Wrong => wrong = wrong.saturating_add(1),
        }
        flip(bytes, bit);
    }
    (accepted, wrong)
}

// Whether enough of them are accepted, and the runs of each are correct.
fn are_well(alloc: Global) -> bool {
    let Some(mut bytes) = file_of(alloc, SUM) else {
        return false;
    };
    let (accepted, wrong) = tried_all(alloc, &mut bytes);
    bytes.len() == BYTES && accepted >= SURELY_ACCEPTED && wrong == 0
}

// An allocation may be refused once.
#[test]
fn a_flipped_bit_is_refused_or_runs_within_its_bound(rt: HostRuntime) {
    assert!(rt; are_well(rt.alloc()) || are_well(rt.alloc()));
}
