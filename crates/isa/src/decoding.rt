//! From bytes to code (RFC 9669, section 3).
ghost use Rattle.std.specs.Prelude.{List, [], MatchResult, ◌≡◌, ◌+◌, ◌*◌, ◌≤◌, ◌<◌, ◌/◌, ◌%◌, ◌⊎◌};
ghost use Rattle.std.specs.Prelude.{◌↔◌, ◌++◌, ℕ, take, length, IfSome, Some, Ok, IfErr, IfOk};
ghost use Rattle.std.specs.Prelude.{OnOk, OnErr, IsTrue};
ghost use Rattle.isa.specs.declared.instruction.Instruction.{Instruction};
ghost use Rattle.std.specs.List.{flat_map, AllByRecursion};
ghost use Rattle.isa.specs.declared.code.Slot.{Slot};
ghost use Rattle.isa.specs.Code.{is_wide, slots_of};
ghost use Rattle.isa.specs.Spelling.{second_half, bytes_of, bytes_of_fields, IsInstruction, Spells};
ghost use Rattle.isa.specs.Spelling.{SpellsSlots};
ghost use Rattle.isa.specs.Slots.{IsHeldBy};
ghost use Rattle.isa.specs.Refusals.{Fails, Refuses, AreSlots};
ghost use Rattle.isa.specs.Shapes.{MayBe};

use crate::builder::push_slots;
use crate::code::{Code, MAX_SLOTS, Slot};
use crate::fields::Fields;
use crate::instruction::Instruction;
use crate::register::Register;
use crate::shape::{self, Shape};
use crate::slot;
use std::alloc::Global;
use thiserror::Error;

/// Why bytes aren't code.
#[derive(Clone, Copy, Debug, Error)]
pub enum DecodeFault {
    /// There are no bytes, or not whole slots of them.
    #[error("the code is not of whole slots")]
    Length,
    /// No instruction has this opcode.
    #[error("the opcode is unknown")]
    Opcode,
    /// A register's number is above 10.
    #[error("a register is above 10")]
    Register,
    /// An unused field isn't zero, or a field holds a value that isn't listed.
    #[error("a field holds what is not listed")]
    Reserved,
    /// The code ends inside a wide instruction.
    #[error("a wide instruction is cut off")]
    HalfWide,
    /// There are more than 4096 slots.
    #[error("the code is longer than 4096 slots")]
    TooLong,
    /// Memory ran out.
    #[error("out of memory")]
    Memory,
}

impl DecodeFault {
    ghost use Rattle.std.specs.Prelude.{◌≡◌};
    ghost use Rattle.isa.specs.Refusals.{fault_number};

    /// The number that users see: 1 to 7, in the order of the variants.
    pub fn number(self) -> u8
        ensures { result ≡ fault_number self }
    {
        match self {
            DecodeFault::Length => 1,
            DecodeFault::Opcode => 2,
            DecodeFault::Register => 3,
            DecodeFault::Reserved => 4,
            DecodeFault::HalfWide => 5,
            DecodeFault::TooLong => 6,
            DecodeFault::Memory => 7,
        }
    }
}

/// The first fault and its slot. A fault in a wide instruction's second slot counts for its first
/// one; `Length`, `TooLong` and `Memory` are reported at slot 0.
#[derive(Clone, Copy, Debug, Error)]
#[error("slot {slot}: {kind}")]
pub struct DecodeError {
    pub slot: usize,
    pub kind: DecodeFault,
}

/// Whether the first slot of a wide instruction is valid on its own.
fn begins_wide(fields: Fields) -> bool
    ensures { IsTrue result ↔ ((fields.offset ≡ 0) × ((fields.source ≡ 0) ⊎ (fields.source ≡ 6))) }
{
    fields.offset == 0 && (fields.source == 0 || fields.source == 6)
}

/// The wide instruction of two slots with these fields: with source 0 it loads a number of 64 bits,
/// with source 6 a pointer, `map_val(map_by_idx(imm)) + next_imm` (RFC 9669, section 5.4).
fn wide_instruction(fields: Fields, second: Fields) -> Option<Instruction>
    requires opcode { fields.opcode ≡ 24 }
    requires target { fields.target ≤ 10 }
    requires source { fields.source ≤ 10 }
    ensures only { (i : Instruction) → MayBe Shape.Wide fields i
        → second_half i ≡ bytes_of_fields second → result ≡ Some i }
    ensures found { IfSome result (λ i. IsHeldBy fields i × (second_half i ≡ bytes_of_fields second)
        × IsTrue (is_wide i)) }
{
    if fields.offset != 0
        || second.opcode != 0
        || second.target != 0
        || second.source != 0
        || second.offset != 0
    {
        return None;
    }
    let target = Register::new(fields.target)?;
    match fields.source {
        0 => Some(Instruction::LoadNumber {
            target,
            number: u64::from(second.immediate) * 4294967296 + u64::from(fields.immediate),
        }),
        6 => Some(Instruction::LoadMap {
            target,
            map: fields.immediate.cast_signed(),
            offset: second.immediate.cast_signed(),
        }),
        _ => None,
    }
}

/// The instruction at the front of the bytes.
fn first_instruction(bytes: &[u8]) -> Result<Instruction, DecodeFault>
    requires { 8 ≤ length bytes.now }
    ensures found { IfOk result (λ i. IsInstruction i
        × (bytes_of i ≡ take (length (bytes_of i)) bytes.now)) }
    ensures only { (i : Instruction) → IsInstruction i → bytes_of i ≡ take (length (bytes_of i))
        bytes.now → result ≡ Ok i }
    ensures fault { IfErr result (λ fault. Fails bytes.now fault) }
{
    let fields = Fields::read(&bytes[..8]);
    let Some(shape) = shape::shape_of(fields.opcode) else {
        return Err(DecodeFault::Opcode);
    };
    if fields.target > 10 || fields.source > 10 {
        return Err(DecodeFault::Register);
    }
    if !matches!(shape, Shape::Wide) {
        return match slot::short_instruction(shape, fields) {
            Some(instruction) => Ok(instruction),
            None => Err(DecodeFault::Reserved),
        };
    }
    if !begins_wide(fields) {
        return Err(DecodeFault::Reserved);
    }
    if bytes.len() < 16 {
        return Err(DecodeFault::HalfWide);
    }
    match wide_instruction(fields, Fields::read(&bytes[8..16])) {
        Some(instruction) => Ok(instruction),
        None => Err(DecodeFault::Reserved),
    }
}

/// The code that the bytes spell (RFC 9669, section 3).
///
/// # Errors
/// The first fault, and the slot of its instruction: `Length` (slot 0) if there are no bytes, or
/// not whole slots of eight; `TooLong` (slot 0) if there are more than 4096 slots; then for each
/// instruction in turn `Opcode` if no instruction has its opcode, `Register` if a register is above
/// r10, `Reserved` if a field that it doesn't use isn't 0 or one that it uses holds a value that
/// isn't listed, `HalfWide` if the second slot of a wide one is missing. `Memory` (slot 0) only if
/// there is no fault, and an allocation is refused.
pub fn decode(alloc: Global, bytes: &[u8]) -> Result<Code, DecodeError>
    // Whatever is read, the bytes spell it.
    ensures found { IfOk result (λ code. Spells bytes.now code) }
    // Whatever the bytes spell is read, unless an allocation is refused.
    ensures only { (code : List Slot) → Spells bytes.now code
        → MatchResult result (λ found. found ≡ code) (λ e. e.kind ≡ DecodeFault.Memory) }
    // Which fault it is, and where; `Memory` only if the bytes spell code.
    ensures why { IfErr result (λ e. Refuses bytes.now e.slot e.kind) }
{
    if bytes.is_empty() || bytes.len() % 8 != 0 {
        return Err(DecodeError {
            slot: 0,
            kind: DecodeFault::Length,
        });
    }
    if bytes.len() / 8 > MAX_SLOTS {
        return Err(DecodeError {
            slot: 0,
            kind: DecodeFault::TooLong,
        });
    }
    Ok(Code::new(slots_of(alloc, bytes)?))
}

/// The error after a refused allocation: the first fault of the bytes, or `Memory` if they have
/// none.
fn want_of_memory(bytes: &[u8]) -> DecodeError
    requires { AreSlots bytes.now }
    ensures only { (is : List Instruction) → AllByRecursion IsInstruction is
        → bytes.now ≡ flat_map bytes_of is → result.kind ≡ DecodeFault.Memory }
    ensures why { Refuses bytes.now result.slot result.kind }
{
    let mut slot = 0;
    let mut rest = bytes;
    while !rest.is_empty() {
        let instruction = match first_instruction(rest) {
            Ok(instruction) => instruction,
            Err(kind) => return DecodeError { slot, kind },
        };
        let taken = if instruction.is_wide() { 2 } else { 1 };
        let (_, after) = rest.split_at(8 * taken);
        rest = after;
        slot += taken;
    }
    DecodeError {
        slot: 0,
        kind: DecodeFault::Memory,
    }
}

/// The slots of the instructions that the bytes spell.
fn slots_of(alloc: Global, bytes: &[u8]) -> Result<Vec<Slot>, DecodeError>
    requires { AreSlots bytes.now }
    ensures found { IfOk result (λ slots. SpellsSlots bytes.now slots.items) }
    ensures only { (is : List Instruction) → AllByRecursion IsInstruction is
        → bytes.now ≡ flat_map bytes_of is → MatchResult result (λ slots. slots.items
        ≡ flat_map slots_of is) (λ e. e.kind ≡ DecodeFault.Memory) }
    ensures why { IfErr result (λ e. Refuses bytes.now e.slot e.kind) }
{
    let Ok(mut slots) = Vec::with_capacity(alloc, bytes.len() / 8) else {
        return Err(want_of_memory(bytes));
    };
    let mut rest = bytes;
    while !rest.is_empty() {
        let slot = slots.len();
        let instruction = match first_instruction(rest) {
            Ok(instruction) => instruction,
            Err(kind) => return Err(DecodeError { slot, kind }),
        };
        let Ok(()) = push_slots(&mut slots, instruction) else {
            return Err(want_of_memory(bytes));
        };
        let (_, after) = rest.split_at(8 * (slots.len() - slot));
        rest = after;
    }
    Ok(slots)
}
