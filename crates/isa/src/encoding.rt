//! From instructions to the bytes that spell them.
ghost use Rattle.std.specs.Prelude.{◌≡◌, ◌+◌, ◌*◌, ◌<◌, ◌≤◌, ◌++◌, IfOk, OnOk};
ghost use Rattle.std.specs.Int.{w16, cast_unsigned};
ghost use Rattle.isa.specs.Code.{IsCode};
ghost use Rattle.isa.specs.Spelling.{Spells, fields, fields_of, fields_of_extension};
ghost use Rattle.isa.specs.Spelling.{fields_of_store, bytes_of, second_half, bytes_of_fields};
ghost use Rattle.isa.specs.Spelling.{source_bit, source_register, source_number, operation_code};
ghost use Rattle.isa.specs.Spelling.{operation_offset, test_code, load_code, store_code};
ghost use Rattle.isa.specs.Spelling.{order_opcode, swap_bits, arithmetic_class, jump_class};
ghost use Rattle.isa.specs.Slots.{bytes_of_half};

use crate::code::{Code, Slot};
use crate::fields::Fields;
use crate::instruction::{
    ByteOrder, Extension, Instruction, LoadSize, Operation, Source, StoreSize, SwapWidth, Test,
    Width,
};
use std::alloc::{AllocError, Global};

fn arithmetic_class(width: Width) -> u8
    ensures value { result ≡ arithmetic_class width }
    ensures within { result ≤ 7 }
{
    match width {
        Width::Bits32 => 4,
        Width::Bits64 => 7,
    }
}

fn jump_class(width: Width) -> u8
    ensures value { result ≡ jump_class width }
    ensures within { result ≤ 7 }
{
    match width {
        Width::Bits32 => 6,
        Width::Bits64 => 5,
    }
}

fn operation_code(operation: Operation) -> u8
    ensures value { result ≡ operation_code operation }
    ensures within { result < 13 }
{
    match operation {
        Operation::Add => 0,
        Operation::Subtract => 1,
        Operation::Multiply => 2,
        Operation::Divide | Operation::SignedDivide => 3,
        Operation::Or => 4,
        Operation::And => 5,
        Operation::ShiftLeft => 6,
        Operation::ShiftRight => 7,
        Operation::Modulo | Operation::SignedModulo => 9,
        Operation::Xor => 10,
        Operation::Move => 11,
        Operation::ArithmeticShiftRight => 12,
    }
}

/// The offset distinguishes the signed division and modulo from the unsigned ones (RFC 9669,
/// section 4.1).
fn operation_offset(operation: Operation) -> u16
    ensures { result ≡ operation_offset operation }
{
    match operation {
        Operation::SignedDivide | Operation::SignedModulo => 1,
        _ => 0,
    }
}

fn test_code(test: Test) -> u8
    ensures value { result ≡ test_code test }
    ensures within { result < 14 }
{
    match test {
        Test::Equal => 1,
        Test::Greater => 2,
        Test::GreaterOrEqual => 3,
        Test::AnyBitSet => 4,
        Test::NotEqual => 5,
        Test::SignedGreater => 6,
        Test::SignedGreaterOrEqual => 7,
        Test::Less => 10,
        Test::LessOrEqual => 11,
        Test::SignedLess => 12,
        Test::SignedLessOrEqual => 13,
    }
}

fn load_code(size: LoadSize) -> u8
    ensures value { result ≡ load_code size }
    ensures within { result < 160 }
{
    match size {
        LoadSize::Unsigned8 => 112,
        LoadSize::Unsigned16 => 104,
        LoadSize::Unsigned32 => 96,
        LoadSize::Unsigned64 => 120,
        LoadSize::Signed8 => 144,
        LoadSize::Signed16 => 136,
        LoadSize::Signed32 => 128,
    }
}

fn store_code(size: StoreSize) -> u8
    ensures value { result ≡ store_code size }
    ensures within { result < 128 }
{
    match size {
        StoreSize::Bits8 => 112,
        StoreSize::Bits16 => 104,
        StoreSize::Bits32 => 96,
        StoreSize::Bits64 => 120,
    }
}

fn order_opcode(order: ByteOrder) -> u8
    ensures { result ≡ order_opcode order }
{
    match order {
        ByteOrder::Little => 212,
        ByteOrder::Big => 220,
        ByteOrder::Swap => 215,
    }
}

fn swap_bits(width: SwapWidth) -> u32
    ensures { result ≡ swap_bits width }
{
    match width {
        SwapWidth::Bits16 => 16,
        SwapWidth::Bits32 => 32,
        SwapWidth::Bits64 => 64,
    }
}

/// What the second operand puts into a slot.
#[derive(Clone, Copy)]
struct Operand {
    bit: u8,
    register: u8,
    number: u32,
}

fn operand_of(source: Source) -> Operand
    ensures bit { result.bit ≡ source_bit source }
    ensures register { result.register ≡ source_register source }
    ensures number { result.number ≡ source_number source }
    ensures bit_within { result.bit ≤ 8 }
    ensures register_within { result.register ≤ 10 }
{
    match source {
        Source::Immediate(number) => Operand {
            bit: 0,
            register: 0,
            number: number.cast_unsigned(),
        },
        Source::Register(register) => Operand {
            bit: 8,
            register: register.number(),
            number: 0,
        },
    }
}

/// The first, or only, slot of a sign-extending move.
fn extension_fields(extension: Extension, target: u8, source: u8) -> Fields
    ensures { result ≡ fields_of_extension extension target source }
{
    let (class, offset) = match extension {
        Extension::Byte(width) => (arithmetic_class(width), 8),
        Extension::Half(width) => (arithmetic_class(width), 16),
        Extension::Word => (7, 32),
    };
    Fields {
        opcode: 184 + class,
        target,
        source,
        offset,
        immediate: 0,
    }
}

/// The slot of an operation on two operands.
fn arithmetic_fields(width: Width, operation: Operation, target: u8, source: Source) -> Fields
    ensures value { result ≡ fields (16 * operation_code operation + source_bit source
        + arithmetic_class width) target (source_register source) (operation_offset operation)
        (source_number source) }
    ensures source { result.source ≤ 10 }
{
    let operand = operand_of(source);
    Fields {
        opcode: 16 * operation_code(operation) + operand.bit + arithmetic_class(width),
        target,
        source: operand.register,
        offset: operation_offset(operation),
        immediate: operand.number,
    }
}

/// The slot of a conditional jump.
fn branch_fields(width: Width, test: Test, left: u8, right: Source, distance: i16) -> Fields
    ensures value { result ≡ fields (16 * test_code test + source_bit right + jump_class width) left
        (source_register right) (cast_unsigned w16 distance) (source_number right) }
    ensures source { result.source ≤ 10 }
{
    let operand = operand_of(right);
    Fields {
        opcode: 16 * test_code(test) + operand.bit + jump_class(width),
        target: left,
        source: operand.register,
        offset: distance.cast_unsigned(),
        immediate: operand.number,
    }
}

/// The slot of an instruction that names one register or none, with a number.
fn fields_with(opcode: u8, target: u8, immediate: u32) -> Fields
    ensures { result ≡ fields opcode target 0 0 immediate }
{
    Fields {
        opcode,
        target,
        source: 0,
        offset: 0,
        immediate,
    }
}

/// The first, or only, slot of an instruction.
fn fields_of(instruction: &Instruction) -> Fields
    ensures value { result ≡ fields_of instruction.now }
    ensures target { result.target ≤ 10 }
    ensures source { result.source ≤ 10 }
{
    match *instruction {
        Instruction::Arithmetic {
            width,
            operation,
            target,
            source,
        } => arithmetic_fields(width, operation, target.number(), source),
        Instruction::Negate { width, target } => {
            fields_with(128 + arithmetic_class(width), target.number(), 0)
        }
        Instruction::SignExtend {
            extension,
            target,
            source,
        } => extension_fields(extension, target.number(), source.number()),
        Instruction::Reorder {
            order,
            width,
            target,
        } => fields_with(order_opcode(order), target.number(), swap_bits(width)),
        Instruction::Jump { distance } => Fields {
            offset: distance.cast_unsigned(),
            ..fields_with(5, 0, 0)
        },
        Instruction::LongJump { distance } => fields_with(6, 0, distance.cast_unsigned()),
        Instruction::Branch {
            width,
            test,
            left,
            right,
            distance,
        } => branch_fields(width, test, left.number(), right, distance),
        Instruction::Call { helper } => fields_with(133, 0, helper.cast_unsigned()),
        Instruction::Exit => fields_with(149, 0, 0),
        Instruction::Load {
            size,
            target,
            base,
            offset,
        } => load_fields(size, target.number(), base.number(), offset),
        Instruction::Store {
            size,
            base,
            offset,
            source,
        } => store_fields(size, base.number(), offset, source),
        Instruction::LoadNumber { target, number } => {
            fields_with(24, target.number(), (number % 4294967296) as u32)
        }
        Instruction::LoadMap { target, map, .. } => Fields {
            source: 6,
            ..fields_with(24, target.number(), map.cast_unsigned())
        },
    }
}

fn load_fields(size: LoadSize, target: u8, base: u8, offset: i16) -> Fields
    ensures { result ≡ fields (load_code size + 1) target base (cast_unsigned w16 offset) 0 }
{
    Fields {
        opcode: load_code(size) + 1,
        target,
        source: base,
        offset: offset.cast_unsigned(),
        immediate: 0,
    }
}

fn store_fields(size: StoreSize, base: u8, offset: i16, source: Source) -> Fields
    ensures value { result ≡ fields_of_store size base offset source }
    ensures source { result.source ≤ 10 }
{
    let class = match source {
        Source::Immediate(_) => 2,
        Source::Register(_) => 3,
    };
    let operand = operand_of(source);
    Fields {
        opcode: store_code(size) + class,
        target: base,
        source: operand.register,
        offset: offset.cast_unsigned(),
        immediate: operand.number,
    }
}

/// The number in the second slot of a wide instruction.
fn second_number(instruction: &Instruction) -> Option<u32>
    ensures { second_half instruction.now ≡ bytes_of_half result }
{
    match *instruction {
        Instruction::LoadNumber { number, .. } => Some((number / 4294967296) as u32),
        Instruction::LoadMap { offset, .. } => Some(offset.cast_unsigned()),
        _ => None,
    }
}

/// Adds the bytes of an instruction.
fn push_instruction(bytes: &mut Vec<u8>, instruction: &Instruction) -> Result<(), AllocError>
    ensures { OnOk result (bytes.new.items ≡ bytes.old.items ++ bytes_of instruction.now) }
{
    fields_of(instruction).write(bytes)?;
    if let Some(immediate) = second_number(instruction) {
        let second = Fields {
            opcode: 0,
            target: 0,
            source: 0,
            offset: 0,
            immediate,
        };
        second.write(bytes)?;
    }
    Ok(())
}

/// The bytes that spell the code (RFC 9669, section 3).
///
/// # Errors
/// `AllocError` if an allocation is refused.
pub fn encode(alloc: Global, code: &Code) -> Result<Vec<u8>, AllocError>
    ensures { IfOk result (λ bytes. Spells bytes.items code.now) }
{
    let mut bytes = Vec::with_capacity(alloc, 8 * code.len())?;
    let slots = code.slots();
    for slot in slots {
        if let Slot::Start(instruction) = slot {
            push_instruction(&mut bytes, instruction)?;
        }
    }
    Ok(bytes)
}
