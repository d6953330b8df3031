//! Whether code goes on at its own instructions alone.
ghost use Rattle.std.specs.Prelude.{◌≡◌, ◌<◌, true};
ghost use Rattle.isa.specs.declared.instruction.Instruction.{Instruction};
ghost use Rattle.isa.specs.Flow.{BeginsAt};
ghost use Rattle.annotations.specs.CountedCode.{LeadsInside, StaysInside};

use isa::{Code, Instruction, Slot};
use verifier::places::{begins, falls_through, jump_of, slots_of};

/// Whether an instruction begins behind the one at the slot, if that goes on, and where it jumps
/// to, if it jumps.
fn leads_inside(code: &Code, slot: usize, instruction: &Instruction) -> bool
    requires { slot < 4096 }
    ensures { result ≡ true → LeadsInside code.now slot instruction.now }
{
    if falls_through(instruction) && !begins(code, slot + slots_of(instruction)) {
        return false;
    }
    match jump_of(slot, instruction) {
        Some(to) => begins(code, to),
        None => true,
    }
}

/// Whether the instruction that begins at the slot leads only to instructions; true if none begins
/// there.
fn leads_inside_at(code: &Code, slot: usize) -> bool
    requires { slot < 4096 }
    ensures { result ≡ true → (i : Instruction) → BeginsAt i code.now slot
        → LeadsInside code.now slot i }
{
    match code.at(slot as u64) {
        Some(Slot::Start(instruction)) => leads_inside(code, slot, &instruction),
        Some(Slot::SecondHalf) | None => true,
    }
}

/// Whether each instruction leads to another one of the code. Behind code that counts turns stand
/// instructions that the given code doesn't have.
pub fn stays_inside(code: &Code) -> bool
    ensures { result ≡ true → StaysInside code.now }
{
    for slot in 0..code.len() {
        if !leads_inside_at(code, slot) {
            return false;
        }
    }
    true
}
