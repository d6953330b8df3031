//! Counted code: it counts the turns of its loops, and answers as it is told once they are used up.
ghost use Rattle.std.specs.Prelude.{◌≡◌, ◌==◌, ◌+◌, ◌*◌, ◌^◌, ◌<◌, ◌≤◌, ◌++◌, IfErr, IfOk, OnOk};
ghost use Rattle.std.specs.Prelude.{length, position};
ghost use Rattle.isa.specs.Flow.{jump_target};
ghost use Rattle.annotations.specs.CountedCode.{IsCounted, IsUncounted, detour, detour_at, detours};
ghost use Rattle.annotations.specs.CountedCode.{distance_between, distance_of, place_of};
ghost use Rattle.annotations.specs.CountedCode.{redirected_from, slots_at};
ghost use Rattle.annotations.specs.CountedCode.{counted_code, with_distance, with_number};

use crate::count_error::CountError;
use crate::registers::unnamed;
use isa::{
    BuildError, Code, CodeBuilder, Instruction, Operation, Register, Slot, Source, Test, Width,
};
use std::alloc::Global;
use verifier::places::jump_of;

/// A program may take fewer turns than this number.
const MAX_TURNS: u32 = 1_000_000;

/// The greatest number that an instruction moves into a register as it is.
const MAX_ANSWER: u32 = 0x7fff_ffff;

/// The register becomes the number, or that much more.
fn with_number(operation: Operation, target: Register, number: i32) -> Instruction
    ensures { result ≡ with_number operation target number }
{
    Instruction::Arithmetic {
        width: Width::Bits64,
        operation,
        target,
        source: Source::Immediate(number),
    }
}

/// The distance of a jump from one slot to another.
fn distance_between(from: usize, to: usize) -> i16
    requires from { from < 30000 }
    requires to { to < 30000 }
    ensures { result ≡ distance_between from to }
{
    to as i16 - (from as i16 + 1)
}

/// The jump, to elsewhere.
fn with_distance(instruction: Instruction, distance: i16) -> Instruction
    ensures { result ≡ with_distance instruction distance }
{
    match instruction {
        Instruction::Jump { .. } | Instruction::LongJump { .. } => Instruction::Jump { distance },
        Instruction::Branch {
            width,
            test,
            left,
            right,
            ..
        } => Instruction::Branch {
            width,
            test,
            left,
            right,
            distance,
        },
        other => other,
    }
}

/// The place of this one among the heads.
fn place_among(heads: &[usize], to: usize) -> Option<usize>
    ensures { result ≡ position (λ head. head == to) heads.now }
{
    heads.iter().position(|head| *head == to)
}

/// The place among the heads of the one that a jump at this slot goes back to.
fn place_of(heads: &[usize], slot: usize, target: Option<usize>) -> Option<usize>
    ensures { result ≡ place_of heads.now slot target }
{
    match target {
        Some(to) => {
            if to <= slot {
                place_among(heads, to)
            } else {
                None
            }
        }
        None => None,
    }
}

/// The slot at which the turns of the loop in this place are counted: four slots for each, behind
/// the code.
fn detour_at(slots: usize, place: usize) -> usize
    requires slots { slots ≤ 4096 }
    requires place { place ≤ 4096 }
    ensures value { result ≡ detour_at slots place }
    ensures near { result < 30000 }
{
    slots + 1 + 4 * place
}

/// How far the jump of an instruction at the slot goes to the detour of its head, if it jumps back
/// to one.
fn distance_of(slots: usize, heads: &[usize], slot: usize, instruction: &Instruction) -> Option<i16>
    requires slots { slots ≤ 4096 }
    requires slot { slot < 4096 }
    requires few { length heads.now ≤ 4096 }
    ensures { result ≡ distance_of slots slot (place_of heads.now slot
        (jump_target slot instruction.now)) }
{
    match place_of(heads, slot, jump_of(slot, instruction)) {
        Some(place) => Some(distance_between(slot + 1, detour_at(slots, place))),
        None => None,
    }
}

/// Adds the instruction that begins at the slot, if one does. It goes to the detour of its head
/// instead, if it jumps back to one.
fn push_slot(
    builder: &mut CodeBuilder,
    slots: usize,
    heads: &[usize],
    slot: usize,
    place: &Slot,
) -> Result<(), BuildError>
    requires slots { slots ≤ 4096 }
    requires slot { slot < 4096 }
    requires few { length heads.now ≤ 4096 }
    ensures { OnOk result (builder.new ≡ builder.old ++ slots_at slots heads.now slot place.now) }
{
    match place {
        Slot::Start(instruction) => {
            match distance_of(slots, heads, slot, instruction) {
                Some(distance) => builder.push(with_distance(*instruction, distance)),
                None => builder.push(*instruction),
            }
        }
        Slot::SecondHalf => Ok(()),
    }
}

/// Adds the code, in which the jumps back to the heads go to their detours.
fn push_code(builder: &mut CodeBuilder, code: &Code, heads: &[usize]) -> Result<(), BuildError>
    requires { length heads.now ≤ 4096 }
    ensures { OnOk result (builder.new ≡ builder.old ++ redirected_from (length code.now) heads.now
        0 code.now) }
{
    let slots = code.len();
    for (slot, place) in code.slots().iter().enumerate() {
        push_slot(builder, slots, heads, slot, place)?;
    }
    Ok(())
}

/// Adds what counts a turn: it goes on at the loop's head, or answers this after the last one.
fn push_detour(
    builder: &mut CodeBuilder,
    answer: u32,
    counter: Register,
    at: usize,
    head: usize,
) -> Result<(), BuildError>
    requires answer { answer < 2 ^ 31 }
    requires at { at < 29000 }
    requires head { head < 4096 }
    ensures { OnOk result (builder.new ≡ builder.old ++ detour answer counter at head) }
{
    let Some(answered) = Register::new(0) else {
        unreachable!()
    };
    let again = Instruction::Branch {
        width: Width::Bits64,
        test: Test::NotEqual,
        left: counter,
        right: Source::Immediate(0),
        distance: distance_between(at + 1, head + 1),
    };
    builder
        .push(with_number(Operation::Add, counter, -1))
        .and(builder.push(again))
        .and(builder.push(with_number(Operation::Move, answered, answer as i32)))
        .and(builder.push(Instruction::Exit))
}

/// Adds what counts the turns of each loop.
fn push_detours(
    builder: &mut CodeBuilder,
    answer: u32,
    counter: Register,
    slots: usize,
    heads: &[usize],
) -> Result<(), BuildError>
    requires answer { answer < 2 ^ 31 }
    requires slots { slots ≤ 4096 }
    requires few { length heads.now ≤ 4096 }
    ensures { OnOk result (builder.new ≡ builder.old ++ detours answer counter (slots + 1)
        heads.now) }
{
    let mut at = slots + 1;
    for head in heads {
        if *head >= 4096 {
            return Err(BuildError::TooLong);
        }
        push_detour(builder, answer, counter, at, *head)?;
        at += 4;
    }
    Ok(())
}

/// Adds all of the counted code.
fn push_counted(
    builder: &mut CodeBuilder,
    answer: u32,
    counter: Register,
    turns: u32,
    code: &Code,
    heads: &[usize],
) -> Result<(), BuildError>
    requires answer { answer < 2 ^ 31 }
    requires few { length heads.now ≤ 4096 }
    requires turns { turns < 1000000 }
    ensures { OnOk result (builder.new ≡ builder.old ++ counted_code answer counter turns
        heads.now code.now) }
{
    builder
        .push(with_number(Operation::Move, counter, turns as i32 + 1))
        .and(push_code(builder, code, heads))
        .and(push_detours(builder, answer, counter, code.len(), heads))
}

/// The code that counts each jump back to one of these heads, and answers this instead of going
/// back more often than `turns` times in all. Each slot of the code stands one slot later in it.
///
/// # Errors
/// If the code names each of r6 to r9; if `turns` isn't below 1,000,000, which no program may take,
/// or `answer` is 2^31 or more; if the code would be longer than 4096 slots, or a jump go farther
/// than its distance can say; and if memory is refused.
pub fn counted(
    alloc: Global,
    code: &Code,
    heads: &[usize],
    turns: u32,
    answer: u32,
) -> Result<Code, CountError>
    ensures counted { IfOk result (λ counted. IsCounted answer turns heads.now code.now counted) }
    ensures fault { IfErr result (IsUncounted answer turns code.now) }
{
    let Some(counter) = unnamed(code) else {
        return Err(CountError::NoRegister);
    };
    if turns >= MAX_TURNS {
        return Err(CountError::TooMany);
    }
    if answer > MAX_ANSWER {
        return Err(CountError::TooGreat);
    }
    if heads.len() > code.len() {
        return Err(CountError::TooLong);
    }
    let mut builder = CodeBuilder::new(alloc);
    match push_counted(&mut builder, answer, counter, turns, code, heads) {
        Ok(()) => builder.finish().ok_or(CountError::TooLong),
        Err(error) => Err(CountError::from(error)),
    }
}
