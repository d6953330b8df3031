//! Where the instruction at a slot may lead, and whether it may lead there.
ghost use Rattle.std.specs.Prelude.{◌≡◌, ◌↔◌, ◌+◌, ◌<◌, ◌≤◌, ◌⊎◌, List, IfErr, IfOk, IfSome};
ghost use Rattle.std.specs.Prelude.{IsSome, IsSomeAnd, IsTrue, MatchResult, None, Some, false};
ghost use Rattle.std.specs.Prelude.{length, slice_get, true};
ghost use Rattle.object.specs.Statements.{StatementParts};
ghost use Rattle.isa.specs.declared.code.Slot.TheVariants.{Start};
ghost use Rattle.isa.specs.Flow.{Begins, size, jump_target, slot_at_distance};
ghost use Rattle.verifier.specs.Places.{IsWellPlaced, falls_through, segment_start_at};
ghost use Rattle.verifier.specs.SegmentsStated.{AreSegmentStarts};
ghost use Rattle.verifier.specs.Refusals.{IsPassedTo, IsPlaceRefusal, IsWellMade};

use crate::starts::is_stated;
use absdom::Domain;
use isa::laws::an_instruction_is_followed;
use isa::{Code, Instruction, Slot};
use kinds::SegmentStart;
use transfer::rule::Rule;

/// The number of slots that the instruction takes.
pub fn slots_of(instruction: &Instruction) -> usize
    ensures value { result ≡ size instruction.now }
    ensures some { 1 ≤ result }
    ensures few { result ≤ 2 }
{
    if instruction.is_wide() { 2 } else { 1 }
}

/// Whether the instruction may fall through.
pub fn falls_through(instruction: &Instruction) -> bool
    ensures { result ≡ falls_through instruction.now }
{
    !matches!(
        instruction,
        Instruction::Jump { .. } | Instruction::LongJump { .. } | Instruction::Exit
    )
}

/// The slot at a distance from a jump.
pub fn jumped(slot: usize, distance: i32) -> usize
    requires { slot < 4096 }
    ensures { result ≡ slot_at_distance slot distance }
{
    (slot as u64 + 1).wrapping_add(i64::from(distance).cast_unsigned()) as usize
}

/// The slot at a distance of 16 bits from a jump.
pub fn jumped_near(slot: usize, distance: i16) -> usize
    requires { slot < 4096 }
    ensures { result ≡ slot_at_distance slot distance }
{
    jumped(slot, i32::from(distance))
}

/// The slot that the instruction may jump to.
pub fn jump_of(slot: usize, instruction: &Instruction) -> Option<usize>
    requires { slot < 4096 }
    ensures { result ≡ jump_target slot instruction.now }
{
    match *instruction {
        Instruction::Jump { distance } => Some(jumped_near(slot, distance)),
        Instruction::Branch { distance, .. } => Some(jumped_near(slot, distance)),
        Instruction::LongJump { distance } => Some(jumped(slot, distance)),
        _ => None,
    }
}

/// Whether an instruction begins at the slot.
pub fn begins(code: &Code, slot: usize) -> bool
    ensures { IsTrue result ↔ Begins code.now slot }
{
    match code.at(slot as u64) {
        Some(Slot::Start(_)) => true,
        Some(Slot::SecondHalf) | None => false,
    }
}

/// Whether the instruction jumps to a slot where none begins: rule 1.
fn jumps_nowhere(code: &Code, to: Option<usize>) -> bool
    ensures begins { result ≡ false → IfSome to (Begins code.now) }
    ensures nowhere { result ≡ true → IsSomeAnd to (λ slot. Begins code.now slot → ⊥) }
{
    match to {
        Some(to) => !begins(code, to),
        None => false,
    }
}

/// Whether the instruction jumps to a slot without a statement: rule 4.
fn jumps_unstated<'a, D: Domain>(
    segment_starts: &[Option<SegmentStart<'a, D>>],
    to: Option<usize>,
) -> bool
    ensures stated { result ≡ false
        → IfSome to (λ slot. IsSome (segment_start_at segment_starts.now slot)) }
    ensures unstated { result ≡ true
        → IsSomeAnd to (λ slot. segment_start_at segment_starts.now slot ≡ None) }
{
    match to {
        Some(to) => !is_stated(segment_starts, to),
        None => false,
    }
}

/// Whether the code ends after an instruction that may fall through: rule 2.
fn falls_off(code: &Code, slot: usize, instruction: &Instruction) -> bool
    requires { slot < 4096 }
    ensures off { result ≡ true → (falls_through instruction.now ≡ true)
        × (Begins code.now (slot + size instruction.now) → ⊥) }
    ensures on { result ≡ false → falls_through instruction.now ≡ true
        → Begins code.now (slot + size instruction.now) }
{
    falls_through(instruction) && !begins(code, slot + slots_of(instruction))
}

/// Whether nothing falls through to the slot and it has no statement: rule 3.
fn is_unreached<'a, D: Domain>(
    segment_starts: &[Option<SegmentStart<'a, D>>],
    is_passed_to: bool,
    slot: usize,
) -> bool
    ensures unreached { result ≡ true
        → (is_passed_to ≡ false) × (segment_start_at segment_starts.now slot ≡ None) }
    ensures reached { result ≡ false
        → (is_passed_to ≡ true) ⊎ IsSome (segment_start_at segment_starts.now slot) }
{
    !is_passed_to && !is_stated(segment_starts, slot)
}

/// Checks the slots that may come after the instruction: rules 1 to 4.
///
/// # Errors
/// The first of: `Target` if it jumps to where no instruction begins, `FallsOff` if the code ends
/// after it although it may fall through, `Unreached` if nothing falls through to it and it has no
/// statement, `Unstated` if it
/// jumps to a slot without a statement.
pub fn check_places<'a, D: Domain>(
    code: &Code,
    segment_starts: &[Option<SegmentStart<'a, D>>],
    is_passed_to: bool,
    slot: usize,
    instruction: &Instruction,
) -> Result<(), Rule>
    requires small { slot < 4096 }
    requires here { slice_get code.now slot ≡ Some (Start instruction.now) }
    ensures placed { IfOk result
        (λ _. IsWellPlaced code.now segment_starts.now slot instruction.now) }
    ensures made { (statements : List StatementParts)
        → AreSegmentStarts D.contains statements segment_starts.now
        → IsPassedTo is_passed_to code.now slot
        → MatchResult result (λ _. IsWellMade code.now statements slot)
        (IsPlaceRefusal code.now statements slot) }
{
    // For the prover alone, by what the call ensures.
    an_instruction_is_followed();
    // For the prover alone: the slots are code.
    let _is_code = code.slots();
    let to = jump_of(slot, instruction);
    if jumps_nowhere(code, to) {
        return Err(Rule::Target);
    }
    if falls_off(code, slot, instruction) {
        return Err(Rule::FallsOff);
    }
    if is_unreached(segment_starts, is_passed_to, slot) {
        return Err(Rule::Unreached);
    }
    if jumps_unstated(segment_starts, to) {
        return Err(Rule::Unstated);
    }
    Ok(())
}
