//! What is known after one instruction, and where it may lead.
ghost use Rattle.std.specs.Prelude.{◌≡◌, ◌<◌, ℕ, List, IfErr, IfOk, IsOk, IsSome, IsSomeAnd, Some};
ghost use Rattle.std.specs.Prelude.{false, nat_le, true, slice_get};
ghost use Rattle.isa.specs.declared.code.Slot.{Slot as AnySlot};
ghost use Rattle.isa.specs.declared.code.Slot.TheVariants.{Start};
ghost use Rattle.isa.specs.declared.hook.Hook.{Hook as AnyHook};
ghost use Rattle.isa.specs.declared.instruction.Instruction.TheVariants.{Exit};
ghost use Rattle.machine.specs.declared.fault.Fault.{Fault};
ghost use Rattle.machine.specs.Steps.{IsAt};
ghost use Rattle.machine.specs.Faults.{Stuck};
ghost use Rattle.transfer.specs.Given.{Given, setting_of};
ghost use Rattle.machine.specs.declared.state.State.{State as Machine};
ghost use Rattle.machine.specs.State.{held, operand};
ghost use Rattle.kinds.specs.Meaning.{StateHolds, SegmentStartHolds};
ghost use Rattle.kinds.specs.Plain.{HoldsNumber};
ghost use Rattle.transfer.specs.Branches.{HoldsBesides, PairHolds};
ghost use Rattle.transfer.specs.Plain.{IsStraight, KeepsFilled};
ghost use Rattle.transfer.specs.Rules.{IsOfExit};
ghost use Rattle.verifier.specs.SegmentsPlain.{IsPlainHere, KeepsNumbers, IsPlainEdgeIfStated};
ghost use Rattle.verifier.specs.Places.{IsWellPlaced, falls_through, segment_start_at};
ghost use Rattle.verifier.specs.Refusals.{IsOfEdge, MayRefuseInstruction};
ghost use Rattle.verifier.specs.Segments.{EntersNext, IsFollowed, IsKnown, PassesTo};

use crate::edge::enter;
use crate::known::Known;
use crate::places::{jumped, jumped_near, slots_of};
use crate::starts::stated_at;
use absdom::Domain;
use isa::{Code, Hook, Instruction, Register, Source, Test, Width};
use kinds::{AbstractState, SegmentStart};
use transfer::branch::{refined, tested};
use transfer::exit::check_answer;
use transfer::laws::{
    a_sound_instruction_is_met, an_answer_is_never_stuck, what_can_step_is_never_stuck,
};
use transfer::rule::Rule;
use transfer::straight::straight;

/// The operands that a conditional jump compares.
#[derive(Clone, Copy)]
pub struct Operands {
    pub left: Register,
    pub right: Source,
}

/// Checks that a jump may enter the statement at its target.
///
/// # Errors
/// As [`enter`].
pub fn jump_to<'a, D: Domain>(
    segment_starts: &[Option<SegmentStart<'a, D>>],
    segment: &SegmentStart<'a, D>,
    state: &AbstractState<D>,
    slot: usize,
    to: usize,
) -> Result<(), Rule>
    requires stated { IsSome (segment_start_at segment_starts.now to) }
    ensures enters { IfOk result (λ _. (start next : Machine) → next.slot ≡ to
        → IsKnown D.contains segment.now state.now start next
        → EntersNext D.contains segment_starts.now segment.now slot start next) }
    ensures named { IfErr result IsOfEdge }
    ensures plain { IsPlainEdgeIfStated D.contains segment_starts.now segment.now
        (nat_le to slot) to (HoldsNumber state.now) → IsOk result }
{
    let Some(target) = stated_at(segment_starts, to) else {
        unreachable!()
    };
    enter(target, to <= slot, segment, state)
}

/// Passes the state on to the next slot. If that has a statement, the edge to it is checked, and
/// the state isn't live any more: beyond the statement only what that states is known.
///
/// # Errors
/// As [`enter`], if the next slot has a statement.
pub fn pass_on<'a, D: Domain>(
    segment_starts: &[Option<SegmentStart<'a, D>>],
    segment: &SegmentStart<'a, D>,
    state: AbstractState<D>,
    next_slot: usize,
) -> Result<Known<D>, Rule>
    ensures passes { IfOk result (λ after. (start next : Machine) (slot : ℕ)
        → slot < next_slot → next.slot ≡ next_slot
        → IsKnown D.contains segment.now state start next
        → PassesTo D.contains segment_starts.now segment.now slot next_slot after start next) }
    ensures named { IfErr result IsOfEdge }
    ensures plain { IsPlainEdgeIfStated D.contains segment_starts.now segment.now false next_slot
        (HoldsNumber state)
        → IsOk result }
    ensures same { IfOk result (λ after. after.state ≡ state) }
{
    let Some(target) = stated_at(segment_starts, next_slot) else {
        return Ok(Known {
            state,
            is_live: true,
        });
    };
    enter(target, false, segment, &state)?;
    Ok(Known {
        state,
        is_live: false,
    })
}

/// Checks that a conditional jump may enter the statement at its target, if its test can hold. The
/// resulting state serves the other edge, where what it says of the two operands is replaced.
fn take<'a, D: Domain>(
    segment_starts: &[Option<SegmentStart<'a, D>>],
    segment: &SegmentStart<'a, D>,
    state: AbstractState<D>,
    slot: usize,
    operands: &Operands,
    taken: Option<(D, D)>,
    to: usize,
) -> Result<AbstractState<D>, Rule>
    requires stated { IsSome (segment_start_at segment_starts.now to) }
    ensures besides { IfOk result (λ after. (start now : Machine)
        → HoldsBesides D.contains operands.now.left operands.now.right state start now
        → HoldsBesides D.contains operands.now.left operands.now.right after start now) }
    ensures enters { IfOk result (λ _. (start now next : Machine)
        → SegmentStartHolds D.contains segment.now start
        → HoldsBesides D.contains operands.now.left operands.now.right state start now
        → IsSomeAnd taken (λ values. PairHolds D.contains values (held now operands.now.left)
        (operand now operands.now.right))
        → next ≡ record now { slot = to }
        → EntersNext D.contains segment_starts.now segment.now slot start next) }
    ensures named { IfErr result IsOfEdge }
    ensures plain { IsPlainEdgeIfStated D.contains segment_starts.now segment.now
        (nat_le to slot) to (HoldsNumber state) → IsOk result }
    ensures keeps { IfOk result (KeepsNumbers state) }
{
    let Some(values) = taken else {
        return Ok(state);
    };
    let there = refined(state, operands.left, operands.right, values);
    jump_to(segment_starts, segment, &there, slot, to)?;
    Ok(there)
}

/// Passes the state on to the next slot after a conditional jump, if its test can fail.
fn stay<'a, D: Domain>(
    segment_starts: &[Option<SegmentStart<'a, D>>],
    segment: &SegmentStart<'a, D>,
    state: AbstractState<D>,
    operands: &Operands,
    not_taken: Option<(D, D)>,
    next_slot: usize,
) -> Result<Known<D>, Rule>
    ensures passes { IfOk result (λ after. (start now next : Machine) (slot : ℕ)
        → SegmentStartHolds D.contains segment.now start
        → HoldsBesides D.contains operands.now.left operands.now.right state start now
        → IsSomeAnd not_taken (λ values. PairHolds D.contains values (held now operands.now.left)
        (operand now operands.now.right))
        → slot < next_slot → next ≡ record now { slot = next_slot }
        → PassesTo D.contains segment_starts.now segment.now slot next_slot after start next) }
    ensures named { IfErr result IsOfEdge }
    ensures plain { IsPlainEdgeIfStated D.contains segment_starts.now segment.now false next_slot
        (HoldsNumber state)
        → IsOk result }
    ensures keeps { IfOk result (λ after. KeepsNumbers state after.state) }
{
    let Some(values) = not_taken else {
        return Ok(Known {
            state,
            is_live: false,
        });
    };
    let here = refined(state, operands.left, operands.right, values);
    let after = pass_on(segment_starts, segment, here, next_slot)?;
    Ok(after)
}

/// Checks both edges of a conditional jump, and returns what is known at the next slot.
fn branch<'a, D: Domain>(
    code: &Code,
    hook: Hook,
    segment_starts: &[Option<SegmentStart<'a, D>>],
    segment: &SegmentStart<'a, D>,
    state: AbstractState<D>,
    slot: usize,
    width: Width,
    test: Test,
    operands: &Operands,
    distance: i16,
) -> Result<Known<D>, Rule>
    requires small { slot < 4096 }
    requires here { slice_get code.now slot ≡ Some (Start
        (Instruction.Branch width test operands.now.left operands.now.right distance)) }
    requires placed { IsWellPlaced code.now segment_starts.now slot
        (Instruction.Branch width test operands.now.left operands.now.right distance) }
    ensures followed { IfOk result
        (IsFollowed D.contains code.now hook segment_starts.now segment.now slot
        (Instruction.Branch width test operands.now.left operands.now.right distance) state) }
    ensures named { IfErr result (MayRefuseInstruction hook
        (Instruction.Branch width test operands.now.left operands.now.right distance)) }
    ensures plain { IsPlainHere D.contains segment_starts.now segment.now slot
        (Instruction.Branch width test operands.now.left operands.now.right distance) state
        → IsOk result }
    ensures keeps { IfOk result (λ after. KeepsNumbers state after.state) }
{
    // For the prover alone, by what the call ensures.
    what_can_step_is_never_stuck();
    let edges = tested(&state, width, test, operands.left, operands.right)?;
    let to = jumped_near(slot, distance);
    let left = take(
        segment_starts,
        segment,
        state,
        slot,
        operands,
        edges.taken,
        to,
    )?;
    let after = stay(
        segment_starts,
        segment,
        left,
        operands,
        edges.not_taken,
        slot + 1,
    )?;
    Ok(after)
}

/// Checks that an unconditional jump may enter the statement at its target; nothing is known after
/// it.
fn leave<'a, D: Domain>(
    segment_starts: &[Option<SegmentStart<'a, D>>],
    segment: &SegmentStart<'a, D>,
    state: AbstractState<D>,
    slot: usize,
    to: usize,
) -> Result<Known<D>, Rule>
    requires stated { IsSome (segment_start_at segment_starts.now to) }
    ensures enters { IfOk result (λ _. (start now next : Machine)
        → IsKnown D.contains segment.now state start now → next ≡ record now { slot = to }
        → EntersNext D.contains segment_starts.now segment.now slot start next) }
    ensures named { IfErr result IsOfEdge }
    ensures plain { IsPlainEdgeIfStated D.contains segment_starts.now segment.now
        (nat_le to slot) to (HoldsNumber state) → IsOk result }
    ensures same { IfOk result (λ after. after.state ≡ state) }
{
    jump_to(segment_starts, segment, &state, slot, to)?;
    Ok(Known {
        state,
        is_live: false,
    })
}

/// Checks that EXIT has an answer; nothing is known after it.
fn end<D: Domain>(state: AbstractState<D>) -> Result<Known<D>, Rule>
    ensures free { IfOk result (λ _. (code : List AnySlot) (hook : AnyHook) (input : Given)
        (start now : Machine) → StateHolds D.contains state start now
        → IsAt (setting_of code hook input) now Exit
        → (fault : Fault) → Stuck (setting_of code hook input) now fault → ⊥) }
    ensures named { IfErr result IsOfExit }
    ensures plain { HoldsNumber state 0 → IsOk result }
    ensures same { IfOk result (λ after. after.state ≡ state) }
{
    // For the prover alone, by what the call ensures.
    an_answer_is_never_stuck(&state);
    check_answer(&state)?;
    Ok(Known {
        state,
        is_live: false,
    })
}

/// Passes the state on over an instruction that always falls through.
fn go_on<'a, D: Domain>(
    code: &Code,
    hook: Hook,
    segment_starts: &[Option<SegmentStart<'a, D>>],
    segment: &SegmentStart<'a, D>,
    state: AbstractState<D>,
    slot: usize,
    instruction: Instruction,
) -> Result<Known<D>, Rule>
    requires small { slot < 4096 }
    requires here { slice_get code.now slot ≡ Some (Start instruction) }
    requires placed { IsWellPlaced code.now segment_starts.now slot instruction }
    requires goes_on { falls_through instruction ≡ true }
    requires straight { IsStraight instruction }
    ensures followed { IfOk result
        (IsFollowed D.contains code.now hook segment_starts.now segment.now slot instruction
        state) }
    ensures named { IfErr result (MayRefuseInstruction hook instruction) }
    ensures plain { IsPlainHere D.contains segment_starts.now segment.now slot instruction state
        → IsOk result }
    ensures keeps { IsPlainHere D.contains segment_starts.now segment.now slot instruction state
        → IfOk result (λ after. KeepsFilled instruction state after.state) }
{
    // For the prover alone, by what the call ensures.
    what_can_step_is_never_stuck();
    let next_slot = slot + slots_of(&instruction);
    let known = straight(state, hook, instruction)?;
    let after = pass_on(segment_starts, segment, known, next_slot)?;
    Ok(after)
}

/// Follows one instruction: checks each edge from it to a statement, and returns what is known at
/// the next slot, live if control may reach that within the segment.
///
/// # Errors
/// The first rule that the instruction, or an edge from it, may break: as [`straight`] for one that
/// falls through, as [`tested`](transfer::branch::tested) for a conditional jump, as
/// [`check_answer`] for EXIT; then as [`enter`], of the edge that is taken first.
pub fn follow<'a, D: Domain>(
    code: &Code,
    hook: Hook,
    segment_starts: &[Option<SegmentStart<'a, D>>],
    segment: &SegmentStart<'a, D>,
    state: AbstractState<D>,
    slot: usize,
    instruction: Instruction,
) -> Result<Known<D>, Rule>
    requires small { slot < 4096 }
    requires here { slice_get code.now slot ≡ Some (Start instruction) }
    requires placed { IsWellPlaced code.now segment_starts.now slot instruction }
    ensures followed { IfOk result
        (IsFollowed D.contains code.now hook segment_starts.now segment.now slot instruction
        state) }
    ensures named { IfErr result (MayRefuseInstruction hook instruction) }
    ensures plain { IsPlainHere D.contains segment_starts.now segment.now slot instruction state
        → IsOk result }
    ensures keeps { IsPlainHere D.contains segment_starts.now segment.now slot instruction state
        → IfOk result (λ after. KeepsFilled instruction state after.state) }
{
    // For the prover alone, by what the calls ensure.
    what_can_step_is_never_stuck();
    instruction.prove_ranges();
    match instruction {
        Instruction::Jump { distance } => Ok(leave(
            segment_starts,
            segment,
            state,
            slot,
            jumped_near(slot, distance),
        )?),
        Instruction::LongJump { distance } => Ok(leave(
            segment_starts,
            segment,
            state,
            slot,
            jumped(slot, distance),
        )?),
        Instruction::Branch {
            width,
            test,
            left,
            right,
            distance,
        } => {
            let operands = Operands { left, right };
            Ok(branch(
                code,
                hook,
                segment_starts,
                segment,
                state,
                slot,
                width,
                test,
                &operands,
                distance,
            )?)
        }
        Instruction::Exit => Ok(end(state)?),
        _ => Ok(go_on(
            code,
            hook,
            segment_starts,
            segment,
            state,
            slot,
            instruction,
        )?),
    }
}
