//! The pass over the slots, in ascending order.
ghost use Rattle.std.specs.Prelude.{◌≡◌, ◌+◌, ◌<◌, ℕ, List, false, true, IfErr, IfOk, IsOk, IsSome};
ghost use Rattle.std.specs.Prelude.{MatchOption, None, Some, length, slice_get};
ghost use Rattle.isa.specs.Code.{is_wide};
ghost use Rattle.isa.specs.declared.code.Slot.TheVariants.{Start};
ghost use Rattle.isa.specs.Flow.{Begins, size};
ghost use Rattle.machine.specs.declared.state.State.{State as Machine};
ghost use Rattle.kinds.specs.Meaning.{StateHolds, SegmentStartHolds};
ghost use Rattle.object.specs.Statements.{StatementParts};
ghost use Rattle.kinds.specs.Plain.{kind_in};
ghost use Rattle.kinds.specs.declared.statement.SegmentStart.{SegmentStart as AnySegmentStart};
ghost use Rattle.verifier.specs.Kept.{GoesInto, HasRecordedRegion};
ghost use Rattle.verifier.specs.Pass.{ComesPlainly, HasRank, IsPlainIfLive, IsPlainProgram};
ghost use Rattle.verifier.specs.Pass.{KeepsPlain};
ghost use Rattle.verifier.specs.Places.{IsWellPlaced, segment_of, segment_start_at};
ghost use Rattle.verifier.specs.Refusals.{IsFirst, IsFirstHere, IsPassedTo, IsWellMade};
ghost use Rattle.verifier.specs.Refusals.{MayRefuse, MayRefuseInstruction};
ghost use Rattle.verifier.specs.Segments.{IsCurrentUnlessStated, IsFine, IsFollowed};
ghost use Rattle.verifier.specs.SegmentsStated.{AreSegmentStarts};

use crate::follow::follow;
use crate::known::Known;
use crate::places::{check_places, falls_through, slots_of};
use crate::refusal::Refusal;
use crate::region::region_at;
use crate::starts::{is_stated, stated_at};
use absdom::Domain;
use isa::laws::{
    a_wide_instruction_has_its_second_half, an_instruction_is_followed,
    one_instruction_ends_at_a_slot,
};
use isa::{Code, Hook, Instruction, Slot};
use kinds::{SegmentStart, reset};
use machine::Region;
use transfer::rule::Rule;

/// What is known at the slot, with the start of the segment that it is in; a statement starts a new
/// one.
fn arrive<'a, D: Domain>(
    segment_starts: &[Option<SegmentStart<'a, D>>],
    slot: usize,
    begun: Option<usize>,
    known: Known<D>,
) -> (Option<usize>, Known<D>)
    ensures arrived { MatchOption (segment_start_at segment_starts.now slot)
        ((result.0 ≡ begun) × (result.1 ≡ known))
        (λ segment. (result.0 ≡ Some slot) × (result.1.is_live ≡ true)
        × ((machine : Machine) → SegmentStartHolds D.contains segment machine
        → StateHolds D.contains result.1.state machine machine)) }
    ensures ten { length known.state.kinds.items ≡ 10 → length result.1.state.kinds.items ≡ 10 }
    ensures kinds { length known.state.kinds.items ≡ 10 → (segment : AnySegmentStart D)
        → segment_start_at segment_starts.now slot ≡ Some segment
        → (r : ℕ) → r < 10 → kind_in result.1.state.kinds.items r ≡ kind_in segment.kinds.items r }
{
    match stated_at(segment_starts, slot) {
        Some(segment) => (
            Some(slot),
            Known {
                state: reset(known.state, segment),
                is_live: true,
            },
        ),
        None => (begun, known),
    }
}

/// What is known at the next slot; nothing unless this one is live.
fn pass<'a, D: Domain>(
    code: &Code,
    hook: Hook,
    segment_starts: &[Option<SegmentStart<'a, D>>],
    segment: &SegmentStart<'a, D>,
    known: Known<D>,
    slot: usize,
    instruction: Instruction,
) -> Result<Known<D>, Rule>
    requires small { slot < 4096 }
    requires here { slice_get code.now slot ≡ Some (Start instruction) }
    requires placed { IsWellPlaced code.now segment_starts.now slot instruction }
    ensures passed { IfOk result (λ after. known.is_live ≡ true
        → IsFollowed D.contains code.now hook segment_starts.now segment.now slot instruction
        known.state after) }
    ensures named { IfErr result (MayRefuseInstruction hook instruction) }
    ensures plain { IsPlainIfLive D.contains segment_starts.now segment.now slot instruction known
        → IsOk result }
    ensures keeps { IsPlainIfLive D.contains segment_starts.now segment.now slot instruction known
        → length known.state.kinds.items ≡ 10 → IfOk result (KeepsPlain instruction known) }
{
    if !known.is_live {
        return Ok(known);
    }
    let after = follow(
        code,
        hook,
        segment_starts,
        segment,
        known.state,
        slot,
        instruction,
    )?;
    Ok(after)
}

/// What is known at the next slot, in the segment that begins at the entry or at a statement.
fn pass_in<'a, D: Domain>(
    code: &Code,
    hook: Hook,
    segment_starts: &[Option<SegmentStart<'a, D>>],
    entry: &SegmentStart<'a, D>,
    begun: Option<usize>,
    known: Known<D>,
    slot: usize,
    instruction: &Instruction,
) -> Result<Known<D>, Rule>
    requires small { slot < 4096 }
    requires here { slice_get code.now slot ≡ Some (Start instruction.now) }
    requires placed { IsWellPlaced code.now segment_starts.now slot instruction.now }
    ensures passed { IfOk result (λ after. known.is_live ≡ true
        → IsFollowed D.contains code.now hook segment_starts.now
        (segment_of segment_starts.now entry.now begun)
        slot instruction.now known.state after) }
    ensures named { IfErr result (MayRefuseInstruction hook instruction.now) }
    ensures plain { IsPlainIfLive D.contains segment_starts.now
        (segment_of segment_starts.now entry.now begun)
        slot instruction.now known → IsOk result }
    ensures keeps { IsPlainIfLive D.contains segment_starts.now
        (segment_of segment_starts.now entry.now begun)
        slot instruction.now known → length known.state.kinds.items ≡ 10
        → IfOk result (KeepsPlain instruction.now known) }
{
    let Some(start) = begun else {
        let first = pass(code, hook, segment_starts, entry, known, slot, *instruction)?;
        return Ok(first);
    };
    let Some(segment) = stated_at(segment_starts, start) else {
        let first = pass(code, hook, segment_starts, entry, known, slot, *instruction)?;
        return Ok(first);
    };
    let after = pass(
        code,
        hook,
        segment_starts,
        segment,
        known,
        slot,
        *instruction,
    )?;
    Ok(after)
}

/// Moves from one instruction to the next slot, and gives the region that a load or store accesses.
fn step<'a, D: Domain>(
    code: &Code,
    hook: Hook,
    segment_starts: &[Option<SegmentStart<'a, D>>],
    entry: &SegmentStart<'a, D>,
    begun: Option<usize>,
    known: Known<D>,
    is_passed_to: bool,
    slot: usize,
    instruction: &Instruction,
) -> Result<(Option<usize>, Known<D>, Region), Rule>
    requires small { slot < 4096 }
    requires here { slice_get code.now slot ≡ Some (Start instruction.now) }
    ensures fine { IfOk result
        (λ _. IsCurrentUnlessStated D.contains code.now hook segment_starts.now
        entry.now slot (segment_of segment_starts.now entry.now begun) known
        → IsFine D.contains code.now hook segment_starts.now entry.now slot) }
    ensures current { IfOk result (λ next. IsCurrentUnlessStated D.contains code.now hook
        segment_starts.now entry.now slot (segment_of segment_starts.now entry.now begun) known
        → IsCurrentUnlessStated D.contains code.now hook segment_starts.now entry.now
        (slot + size instruction.now) (segment_of segment_starts.now entry.now next.0) next.1) }
    ensures kept { IfOk result
        (λ next. IsCurrentUnlessStated D.contains code.now hook segment_starts.now
        entry.now slot (segment_of segment_starts.now entry.now begun) known
        → GoesInto D.contains code.now hook segment_starts.now entry.now slot next.2) }
    ensures made { (statements : List StatementParts)
        → AreSegmentStarts D.contains statements segment_starts.now
        → IsPassedTo is_passed_to code.now slot
        → IfOk result (λ _. IsWellMade code.now statements slot) }
    ensures named { (statements : List StatementParts) (entry_rank : ℕ)
        → AreSegmentStarts D.contains statements segment_starts.now
        → IsPassedTo is_passed_to code.now slot
        → IfErr result (λ rule. MayRefuse hook code.now entry_rank statements slot rule
        × IsFirstHere code.now statements slot rule) }
    ensures plain { (statements : List StatementParts) (entry_rank : ℕ)
        → IsPlainProgram D.contains code.now entry_rank statements segment_starts.now
        → IsPassedTo is_passed_to code.now slot
        → ComesPlainly code.now entry_rank statements slot
        (segment_of segment_starts.now entry.now begun) known
        → IsOk result }
    ensures keeps { (statements : List StatementParts) (entry_rank : ℕ)
        → IsPlainProgram D.contains code.now entry_rank statements segment_starts.now
        → ComesPlainly code.now entry_rank statements slot
        (segment_of segment_starts.now entry.now begun) known
        → IfOk result (λ next. ComesPlainly code.now entry_rank statements
        (slot + size instruction.now) (segment_of segment_starts.now entry.now next.0) next.1) }
{
    // For the prover alone, by what the call ensures.
    one_instruction_ends_at_a_slot();
    // For the prover alone: the slots are code.
    let _is_code = code.slots();
    check_places(code, segment_starts, is_passed_to, slot, instruction)?;
    let (here, arrived) = arrive(segment_starts, slot, begun, known);
    let region = region_at(&arrived, instruction)?;
    let after = pass_in(
        code,
        hook,
        segment_starts,
        entry,
        here,
        arrived,
        slot,
        instruction,
    )?;
    Ok((here, after, region))
}

/// Whether there is a statement for the second half of the instruction.
fn splits<'a, D: Domain>(
    segment_starts: &[Option<SegmentStart<'a, D>>],
    slot: usize,
    instruction: &Instruction,
) -> bool
    requires { slot < 4096 }
    ensures split { result ≡ true → (is_wide instruction.now ≡ true)
        × IsSome (segment_start_at segment_starts.now (slot + 1)) }
    ensures whole { result ≡ false → is_wide instruction.now ≡ true
        → segment_start_at segment_starts.now (slot + 1) ≡ None }
{
    instruction.is_wide() && is_stated(segment_starts, slot + 1)
}

/// Passes once over the instructions. The result, which reuses `regions`, has at each slot the
/// region that a load or store there accesses.
///
/// # Errors
/// The first slot that breaks a rule, with the rule of those broken there that is checked first.
pub fn pass_all<'a, D: Domain>(
    code: &Code,
    hook: Hook,
    segment_starts: &[Option<SegmentStart<'a, D>>],
    entry: &SegmentStart<'a, D>,
    start: Known<D>,
    mut regions: Vec<Region>,
) -> Result<Vec<Region>, Refusal>
    requires live { start.is_live ≡ true }
    requires own { (machine : Machine) → SegmentStartHolds D.contains entry.now machine
        → StateHolds D.contains start.state machine machine }
    requires ten { length start.state.kinds.items ≡ 10 }
    requires long { length regions.items ≡ length code.now }
    ensures fine { IfOk result (λ _. (slot : ℕ) → Begins code.now slot
        → IsFine D.contains code.now hook segment_starts.now entry.now slot) }
    ensures kept { IfOk result (λ kept. (slot : ℕ) → Begins code.now slot
        → HasRecordedRegion D.contains code.now hook segment_starts.now entry.now kept.items slot) }
    ensures long { IfOk result (λ kept. length kept.items ≡ length code.now) }
    ensures named { (statements : List StatementParts) (entry_rank : ℕ)
        → AreSegmentStarts D.contains statements segment_starts.now
        → IfErr result (λ refusal.
        MayRefuse hook code.now entry_rank statements refusal.slot refusal.rule) }
    ensures first { (statements : List StatementParts)
        → AreSegmentStarts D.contains statements segment_starts.now
        → IfErr result (λ refusal. IsFirst code.now statements refusal.slot refusal.rule) }
    ensures plain { (statements : List StatementParts) (entry_rank : ℕ)
        → IsPlainProgram D.contains code.now entry_rank statements segment_starts.now
        → HasRank entry.now entry_rank → IsOk result }
{
    // For the prover alone, by what the calls ensure.
    a_wide_instruction_has_its_second_half();
    an_instruction_is_followed();
    one_instruction_ends_at_a_slot();
    // For the prover alone: the slots are code.
    let _is_code = code.slots();
    let mut begun = None;
    let mut known = start;
    let mut is_passed_to = true;
    let mut slot = 0;
    while slot < code.len() {
        let Some(Slot::Start(instruction)) = code.at(slot as u64) else {
            unreachable!()
        };
        let (here, after, region) = match step(
            code,
            hook,
            segment_starts,
            entry,
            begun,
            known,
            is_passed_to,
            slot,
            &instruction,
        ) {
            Ok(next) => next,
            Err(rule) => return Err(Refusal { slot, rule }),
        };
        begun = here;
        known = after;
        regions[slot] = region;
        is_passed_to = falls_through(&instruction);
        if splits(segment_starts, slot, &instruction) {
            return Err(Refusal {
                slot: slot + 1,
                rule: Rule::Target,
            });
        }
        slot += slots_of(&instruction);
    }
    Ok(regions)
}
