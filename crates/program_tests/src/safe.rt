//! Accepted programs: `run` gives what `run_checked` gives, on a hundred inputs.
//! trials/programs.rows has their bounds and answers.
use crate::trials::{ProgramOutcome, tried_text};
use std::alloc::Global;
use std::process::Abort;

const SAFE: &[&str] = &[
    // the sum of the first eight bytes
    "hook count\nrank 8\nr6 = 8\nr7 = 0\nL:\nr1 = r6\nr1 += -1\ncall 3\nr7 += r0\n\
        r6 += -1\nif r6 != 0 goto L\nr0 = r7\nexit\nstate L rank 0 r6 * 1\n\
        with r6 number 1 8 0 0\nwith r7 number 0 18446744073709551615 0 0",
    // how many of the bytes 1 to 16 are zero
    "hook count\nrank 16\nr6 = 16\nr7 = 0\nL:\nr1 = r6\ncall 3\nif r0 != 0 goto NEXT\n\
        r7 += 1\nNEXT:\nr6 += -1\nif r6 != 0 goto L\nr0 = r7\nexit\nstate L rank 0 r6 * 1\n\
        with r6 number 1 16 0 0\nwith r7 number 0 18446744073709551615 0 0\n\
        state NEXT rank 0 r6 * 1\nwith r6 number 1 16 0 0\n\
        with r7 number 0 18446744073709551615 0 0",
    // the length of the packet, up to 32: one register counts up and another one down
    "hook count\nrank 32\nr6 = 32\nr7 = 0\nL:\nr1 = r7\ncall 3\nif r0 > 255 goto END\n\
        r7 += 1\nr6 += -1\nif r6 != 0 goto L\nEND:\nr0 = r7\nexit\nstate L rank 0 r6 * 1\n\
        with r6 number 1 32 0 0\nwith r7 number 0 18446744073709551615 0 0\n\
        state END rank 0\nwith r7 number 0 18446744073709551615 0 0",
    // counts each of the first four bytes at its own counter, and reads counter 1
    "hook count\nrank 4\nr6 = 4\nL:\nr1 = r6\nr1 += -1\ncall 3\nif r0 > 255 goto NEXT\n\
        r1 = r0\nr2 = 1\ncall 1\nNEXT:\nr6 += -1\nif r6 != 0 goto L\nr1 = 1\ncall 2\nexit\n\
        state L rank 0 r6 * 1\nwith r6 number 1 4 0 0\nstate NEXT rank 0 r6 * 1\n\
        with r6 number 1 4 0 0",
    // the last of the first 20 offsets whose byte isn't zero, searched from the end
    "hook count\nrank 20\nr6 = 20\nL:\nr6 += -1\nr1 = r6\ncall 3\nif r0 != 0 goto FOUND\n\
        if r6 != 0 goto L\nr0 = 0\nexit\nFOUND:\nr0 = r6\nexit\nstate L rank 0 r6 * 1\n\
        with r6 number 1 20 0 0\nstate FOUND rank 0\nwith r6 number 0 19 0 0",
    // the exclusive or of the first eight bytes, in 32 bits
    "hook count\nrank 8\nr6 = 8\nr7 = 0\nL:\nr1 = r6\nr1 += -1\ncall 3\nw7 ^= w0\n\
        r6 += -1\nif r6 != 0 goto L\nr0 = r7\nexit\nstate L rank 0 r6 * 1\n\
        with r6 number 1 8 0 0\nwith r7 number 0 18446744073709551615 0 0",
    // the number of two bytes, without a loop
    "hook count\nrank 0\nr1 = 2\ncall 3\nr6 = r0\nr6 &= 255\nr6 <<= 8\nr1 = 3\ncall 3\n\
        r0 &= 255\nr0 |= r6\nexit",
    // the even numbers down from 20, added
    "hook price\nrank 20\nr6 = 20\nr0 = 0\nL:\nr0 += r6\nr6 += -2\nif r6 > 1 goto L\n\
        exit\nstate L rank 0 r6 * 1\nwith r0 number 0 18446744073709551615 0 0\n\
        with r6 number 2 20 0 0",
    // the count goes through another register
    "hook price\nrank 10\nr6 = 10\nr0 = 0\nL:\nr0 += r6\nr5 = r6\nr5 -= 1\nr6 = r5\n\
        if r6 != 0 goto L\nexit\nstate L rank 0 r6 * 1\n\
        with r0 number 0 18446744073709551615 0 0\nwith r6 number 1 10 0 0",
    // the rank has a constant and a coefficient
    "hook price\nrank 23\nr6 = 10\nr0 = 0\nL:\nr0 += 1\nr6 += -1\nif r6 != 0 goto L\n\
        exit\nstate L rank 3 r6 * 2\nwith r0 number 0 18446744073709551615 0 0\n\
        with r6 number 1 10 0 0",
    // the test comes first, and the jump back is the long one
    "hook price\nrank 6\nr6 = 6\nr0 = 1\nL:\nif r6 == 0 goto END\nr0 += r0\nr6 += -1\n\
        gotol L\nEND:\nexit\nstate L rank 0 r6 * 1\n\
        with r0 number 0 18446744073709551615 0 0\nwith r6 number 0 6 0 0\nstate END rank 0\n\
        with r0 number 0 18446744073709551615 0 0",
    // the number of bits that are set in a number of the context; ends early if none is left
    "hook price\nrank 32\nr2 = *u32 r1 16\nr6 = 32\nr0 = 0\nL:\nr3 = r2\nr3 &= 1\n\
        r0 += r3\nr2 >>= 1\nif r2 == 0 goto END\nr6 += -1\nif r6 != 0 goto L\nEND:\nexit\n\
        state L rank 0 r6 * 1\nwith r0 number 0 18446744073709551615 0 0\n\
        with r2 number 0 18446744073709551615 0 0\nwith r6 number 1 32 0 0\n\
        state END rank 0\nwith r0 number 0 18446744073709551615 0 0",
    // as many iterations as a byte of the context says, at most 255
    "hook price\nrank 255\nr6 = *u8 r1 16\nr0 = 0\nif r6 == 0 goto END\nL:\nr0 += 2\n\
        r6 += -1\nif r6 != 0 goto L\nEND:\nexit\nstate L rank 0 r6 * 1\n\
        with r0 number 0 18446744073709551615 0 0\nwith r6 number 1 255 0 0\n\
        state END rank 0\nwith r0 number 0 18446744073709551615 0 0",
    // three rows of four bytes of the packet, added
    "hook count\nrank 19\nr6 = 3\nr8 = 0\nOUTER:\nr7 = 4\nINNER:\nr1 = r6\nr1 += -1\n\
        r1 <<= 2\nr1 += r7\nr1 += -1\ncall 3\nr8 += r0\nr7 += -1\nif r7 != 0 goto INNER\n\
        r6 += -1\nif r6 != 0 goto OUTER\nr0 = r8\nexit\nstate OUTER rank 4 r6 * 5\n\
        with r6 number 1 3 0 0\nwith r8 number 0 18446744073709551615 0 0\n\
        state INNER rank 0 r6 * 5 r7 * 1\nwith r6 number 1 3 0 0\nwith r7 number 1 4 0 0\n\
        with r8 number 0 18446744073709551615 0 0",
    // the inner loop has as many iterations as are left of the outer one
    "hook price\nrank 35\nr6 = 5\nr0 = 0\nOUTER:\nr7 = r6\nINNER:\nr0 += 1\nr7 += -1\n\
        if r7 != 0 goto INNER\nr6 += -1\nif r6 != 0 goto OUTER\nexit\n\
        state OUTER rank 0 r6 * 7\nwith r0 number 0 18446744073709551615 0 0\n\
        with r6 number 1 5 0 0\nstate INNER rank 0 r6 * 6 r7 * 1\n\
        with r0 number 0 18446744073709551615 0 0\nwith r6 number 1 5 0 0\n\
        with r7 number 1 5 0 0",
    // one of two counts falls, depending on a bit of the context; the answer is what is left of the
    // other
    "hook price\nrank 14\nr8 = *u32 r1 16\nr6 = 7\nr7 = 7\nL:\nif r8 & 1 goto ODD\n\
        r8 >>= 1\nr6 += -1\nif r6 != 0 goto L\nr0 = r7\nexit\nODD:\nr8 >>= 1\nr7 += -1\n\
        if r7 != 0 goto L\nr0 = r6\nexit\nstate L rank 0 r6 * 1 r7 * 1\n\
        with r6 number 1 7 0 0\nwith r7 number 1 7 0 0\n\
        with r8 number 0 18446744073709551615 0 0\nstate ODD rank 0 r6 * 1 r7 * 1\n\
        with r6 number 1 7 0 0\nwith r7 number 1 7 0 0\n\
        with r8 number 0 18446744073709551615 0 0",
    // two loops, one after the other: the second is ranked by its own register
    "hook price\nrank 9\nr6 = 4\nr7 = 5\nr0 = 0\nA:\nr0 += 10\nr6 += -1\n\
        if r6 != 0 goto A\nB:\nr0 += 1\nr7 += -1\nif r7 != 0 goto B\nexit\n\
        state A rank 0 r6 * 1 r7 * 1\nwith r0 number 0 18446744073709551615 0 0\n\
        with r6 number 1 4 0 0\nwith r7 number 1 5 0 0\nstate B rank 0 r7 * 1\n\
        with r0 number 0 18446744073709551615 0 0\nwith r7 number 1 5 0 0",
    "hook price\nrank 0\n*u8 r10 -2 = 1\n*u8 r10 -1 = 2\nr0 = *u16 r10 -2\nexit",
    // another register points to the stack
    "hook price\nrank 0\nr6 = r10\nr6 += -16\n*u64 r6 8 = 41\nr0 = *u64 r10 -8\nr0 += 1\n\
        exit",
    // a number replaces a pointer
    "hook price\nrank 0\n*u64 r10 -8 = r1\n*u64 r10 -8 = 3\nr0 = *u64 r10 -8\nexit",
    // a sum that stays on the stack through a loop
    "hook count\nrank 5\n*u64 r10 -8 = 0\nr6 = 5\nL:\nr1 = r6\ncall 3\nr2 = *u64 r10 -8\n\
        r2 += r0\n*u64 r10 -8 = r2\nr6 += -1\nif r6 != 0 goto L\nr0 = *u64 r10 -8\nexit\n\
        state L rank 0 r6 * 1\nwith r6 number 1 5 0 0\nbytes 504 512",
    // the context's pointer, saved across a call, which empties r1
    "hook count\nrank 0\n*u64 r10 -8 = r1\nr1 = 0\ncall 3\nr1 = *u64 r10 -8\n\
        r2 = *u32 r1 16\nr0 += r2\nexit",
    // a map's pointer at an unknown distance
    "hook price\nrank 0\nr2 = *u8 r1 16\nr2 &= 63\nr2 <<= 3\nr3 = map 1 0\nr3 += r2\n\
        *u64 r10 -8 = r3\nr3 = 0\nr4 = *u64 r10 -8\n*u64 r4 0 = 8\nr0 = *u64 r4 0\nexit",
    // two pointers, swapped
    "hook price\nrank 0\nr2 = map 1 16\n*u64 r10 -8 = r1\n*u64 r10 -16 = r2\n\
        r1 = *u64 r10 -16\nr2 = *u64 r10 -8\nr3 = *u32 r2 4\n*u64 r1 0 = r3\nr0 = *u64 r1 0\n\
        exit",
    // a pointer to the stack itself
    "hook price\nrank 0\nr6 = r10\nr6 += -8\n*u64 r10 -16 = r6\nr7 = *u64 r10 -16\n\
        *u64 r7 0 = 5\nr0 = *u64 r10 -8\nexit",
    // a store next to a stored pointer leaves it intact
    "hook price\nrank 0\n*u64 r10 -16 = r1\n*u64 r10 -8 = 1\nr2 = *u64 r10 -16\n\
        r0 = *u32 r2 4\nexit",
    // forward and backward within the context
    "hook price\nrank 0\nr1 += 60\nr0 = *u32 r1 -44\nexit",
    // a counter, read after it was counted
    "hook price\nrank 0\nr6 = *u64 r1 8\nr6 &= 255\nr1 = r6\nr2 = 5\ncall 1\nr6 <<= 3\n\
        r3 = map 0 0\nr3 += r6\nr0 = *u64 r3 0\nexit",
    "hook price\nrank 0\nr2 = *u32 r1 16\nr2 &= 63\nr2 <<= 3\nr3 = map 1 0\nr3 += r2\n\
        *u64 r3 0 = 9\nr0 = *u64 r3 0\nexit",
    // a mask of multiples of eight needs no shift
    "hook price\nrank 0\nr2 = *u32 r1 16\nr2 &= 504\nr3 = map 1 0\nr3 += r2\n\
        r0 = *u64 r3 0\nr0 += 1\n*u64 r3 0 = r0\nexit",
    "hook price\nrank 0\nr2 = *u64 r1 8\nr2 %= 64\nr2 <<= 3\nr3 = map 1 0\nr3 += r2\n\
        *u64 r3 0 = 3\nr0 = *u64 r3 0\nexit",
    "hook price\nrank 0\nr2 = *u64 r1 8\nr2 >>= 58\nr2 <<= 3\nr3 = map 1 0\nr3 += r2\n\
        *u64 r3 0 = r2\nr0 = *u64 r3 0\nexit",
    "hook price\nrank 0\nr2 = *u8 r1 16\nr2 /= 4\nr2 <<= 3\nr3 = map 1 0\nr3 += r2\n\
        *u64 r3 0 = r2\nr0 = *u64 r3 0\nexit",
    "hook price\nrank 0\nr2 = *u32 r1 4\nw2 &= 31\nw2 <<= 3\nr3 = map 1 0\nr3 += r2\n\
        *u64 r3 0 = r2\nr0 = *u64 r3 0\nexit",
    // the number that is used is the one that was tested
    "hook price\nrank 0\nr2 = *u32 r1 20\nif r2 > 63 goto NONE\nr2 <<= 3\nr3 = map 1 0\n\
        r3 += r2\n*u64 r3 0 = 1\nr0 = *u64 r3 0\nexit\nNONE:\nr0 = 7\nexit\nstate NONE rank 0",
    // a pointer to eight bytes before the one that it is based on
    "hook price\nrank 0\nr2 = *u32 r1 16\nr2 &= 31\nr2 <<= 3\nr3 = map 1 8\nr3 += r2\n\
        *u64 r3 -8 = 6\nr0 = *u64 r3 -8\nexit",
    // each cell is written and read, and all are summed
    "hook veto\nrank 64\nr6 = 64\nr7 = 0\nL:\nr2 = r6\nr2 += -1\nr2 <<= 3\nr3 = map 1 0\n\
        r3 += r2\n*u64 r3 0 = r6\nr4 = *u64 r3 0\nr7 += r4\nr6 += -1\nif r6 != 0 goto L\n\
        r0 = r7\nexit\nstate L rank 0 r6 * 1\nwith r6 number 1 64 0 0\n\
        with r7 number 0 18446744073709551615 0 0",
    // two edges lead to one statement with two pointers
    "hook tag\nrank 0\nr2 = *u32 r1 4\nr3 = map 1 0\nif r2 == 0 goto USE\nr3 = map 1 8\n\
        USE:\n*u64 r3 0 = r2\nr0 = *u64 r3 0\nexit\nstate USE rank 0\n\
        with r2 number 0 4294967295 0 0\nwith r3 map 1 0 8 7 0",
    // twice the cost of a route, if there is one
    "hook tag\nrank 0\nr1 = wide 3221225984\nr2 = 24\ncall 4\nr1 = wide 4294967296\n\
        if r0 == r1 goto NONE\nr0 *= 2\nexit\nNONE:\nr0 = 0\nexit\nstate NONE rank 0",
    // a masked amount
    "hook price\nrank 0\nr2 = *u32 r1 16\nr2 &= 16777215\nr1 = 3\ncall 1\nr1 = 3\ncall 2\n\
        exit",
    // another byte order
    "hook veto\nrank 0\nr0 = *u32 r1 16\nr0 = be32\nexit",
    // a signed byte: 200 is 56 below 0
    "hook veto\nrank 0\nr0 = *s8 r1 16\nexit",
    // the low half of a number is tested
    "hook veto\nrank 0\nr2 = *u64 r1 8\nif w2 > 4000 goto BIG\nr0 = 1\nexit\nBIG:\n\
        r0 = 2\nexit\nstate BIG rank 0",
    // code that no run reaches isn't checked
    "hook veto\nrank 0\nr2 = 5\nif r2 == 5 goto L\nr0 = *u64 r9 0\nL:\nr0 = 1\nexit\n\
        state L rank 0",
    // a division by zero isn't stuck: it gives 0
    "hook veto\nrank 0\nr2 = *u8 r1 4\nr0 = 49\nr0 /= r2\nexit",
    "hook price\nrank 0\nr0 = 7\nexit",
    // the hook's number, by a pointer that was stored
    "hook count\nrank 0\n*u64 r10 -8 = r1\nr2 = *u64 r10 -8\nr0 = *u32 r2 0\nexit",
    // slots that no run reaches
    "hook veto\nrank 0\nr0 = 0\nif r0 == 0 goto +2\nr5 = r6\nexit\nexit\nstate 4 rank 0\n\
        with r0 number 0 18446744073709551615 0 0",
    // the greatest bound
    "hook tag\nrank 249999\nr0 = 1\nr0 = 2\nr0 = 3\nexit",
    // a counter by a number of the context
    "hook price\nrank 0\nr1 = *u64 r1 8\nr1 &= 255\nr1 <<= 3\nr2 = map 0 0\nr2 += r1\n\
        r0 = *u64 r2 0\nexit",
    // the cost of a route, and of none
    "hook tag\nrank 0\nr1 = wide 3221225984\nr2 = 24\ncall 4\nexit",
    "hook tag\nrank 0\nr1 = wide 3221225984\nr2 = 25\ncall 4\nexit",
    // a byte of the packet, and none
    "hook count\nrank 0\nr1 = 1\ncall 3\nexit",
    "hook count\nrank 0\nr1 = 44\ncall 3\nexit",
    // how often the seat has run it
    "hook price\nrank 0\nr6 = map 1 8\nr0 = *u64 r6 0\nr0 += 1\n*u64 r6 0 = r0\nexit",
    // the counter with the moment's number, if the moment is from 0 to 63 by two signed tests, else
    // 0
    "hook price\nrank 0\nr1 = *u64 r1 24\nif r1 s> 63 goto L\nif r1 s< 0 goto L\n\
        r1 <<= 3\nr2 = map 0 0\nr2 += r1\nr0 = *u64 r2 0\nexit\nL:\nr0 = 0\nexit\n\
        state L rank 0",
];

// Whether the program of the text is accepted, and both interpreters run it alike.
fn runs_alike(alloc: Global, text: &str) -> bool {
    matches!(tried_text(alloc, text, 100), ProgramOutcome::Right(_, _))
}

// An allocation may be refused once.
#[test]
fn safe_programs_run_the_same_by_both_interpreters(rt: HostRuntime) {
    for text in SAFE {
        assert!(rt;
            runs_alike(rt.alloc(), text) || runs_alike(rt.alloc(), text),
            "{text}"
        );
    }
}
