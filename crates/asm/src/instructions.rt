//! The instruction of a line, and the line of an instruction.
ghost use Rattle.std.specs.Prelude.{◌≡◌, ◌⊎◌, ℕ, Option, true, false, Some, Ok, Err, MatchResult};
ghost use Rattle.std.specs.Prelude.{OnErr};
ghost use Rattle.asm.specs.Instructions.{or_range_fault, source_of, distance_to, distance_of};
ghost use Rattle.asm.specs.Instructions.{instruction_of, code_step};
ghost use Rattle.asm.specs.Forms.{names_label};
ghost use Rattle.asm.specs.declared.error.AsmFault.{AsmFault};
ghost use Rattle.asm.specs.Shapes.{is_jump, is_register, is_access};
ghost use Rattle.asm.specs.Assembling.{Takes};
ghost use Rattle.asm.specs.Listing.{the_operand, instruction_line};

use crate::error::AsmFault;
use crate::line::{AssemblyLine, LabelOrNumber, Operand};
use crate::numbers::{natural_64, signed_16, signed_32};
use crate::numeral::Numeral;
use isa::{BuildError, CodeBuilder, Instruction, Source};

/// A number that fits its field, or `Range`.
fn in_range<T: Drop>(number: Option<T>) -> Result<T, AsmFault>
    ensures { result ≡ or_range_fault number }
{
    match number {
        Some(number) => Ok(number),
        None => Err(AsmFault::Range),
    }
}

/// The second operand; `None` if its number doesn't fit in 32 bits.
fn source_of(operand: Operand) -> Option<Source>
    ensures { result ≡ source_of operand }
{
    match operand {
        Operand::Register(register) => Some(Source::Register(register)),
        Operand::Number(number) => {
            let number = signed_32(number)?;
            Some(Source::Immediate(number))
        }
    }
}

/// The distance from the slot after a jump to the slot of a label, as a text would write it.
fn distance_to(slot: usize, place: usize) -> Numeral
    ensures { result ≡ distance_to slot place }
{
    if slot < place {
        Numeral::Natural((place - slot - 1) as u64)
    } else {
        match u32::try_from(slot - place) {
            Ok(less) => Numeral::Negative(less),
            Err(_) => Numeral::Huge,
        }
    }
}

/// How far a jump at this slot goes; `Label` if no line defines its label.
fn distance_of(
    target: LabelOrNumber,
    slot: usize,
    place: Option<usize>,
) -> Result<Numeral, AsmFault>
    ensures { result ≡ distance_of target slot place }
{
    match target {
        LabelOrNumber::Number(number) => Ok(number),
        LabelOrNumber::Label => match place {
            Some(place) => Ok(distance_to(slot, place)),
            None => Err(AsmFault::Label),
        },
    }
}

/// The instruction of a line at this slot; `Syntax` if the line has none. `place` is the slot that
/// the line's label names.
pub(crate) fn instruction_of(
    line: AssemblyLine,
    slot: usize,
    place: Option<usize>,
) -> Result<Instruction, AsmFault>
    ensures { result ≡ instruction_of line slot place }
{
    match line {
        AssemblyLine::Jump(target) => {
            let distance = distance_of(target, slot, place)?;
            let distance = in_range(signed_16(distance))?;
            Ok(Instruction::Jump { distance })
        }
        AssemblyLine::LongJump(target) => {
            let distance = distance_of(target, slot, place)?;
            let distance = in_range(signed_32(distance))?;
            Ok(Instruction::LongJump { distance })
        }
        AssemblyLine::Branch {
            width,
            test,
            left,
            right,
            target,
        } => {
            let distance = distance_of(target, slot, place)?;
            let distance = in_range(signed_16(distance))?;
            let right = in_range(source_of(right))?;
            Ok(Instruction::Branch {
                width,
                test,
                left,
                right,
                distance,
            })
        }
        AssemblyLine::Call(helper) => {
            let helper = in_range(signed_32(helper))?;
            Ok(Instruction::Call { helper })
        }
        AssemblyLine::Exit => Ok(Instruction::Exit),
        other => data_instruction_of(other, slot, place),
    }
}

/// The instruction of a line that assigns to a register, loads or stores.
fn data_instruction_of(
    line: AssemblyLine,
    slot: usize,
    place: Option<usize>,
) -> Result<Instruction, AsmFault>
    requires { is_jump line ≡ false }
    ensures { result ≡ instruction_of line slot place }
{
    match line {
        AssemblyLine::Arithmetic {
            width,
            operation,
            target,
            source,
        } => {
            let source = in_range(source_of(source))?;
            Ok(Instruction::Arithmetic {
                width,
                operation,
                target,
                source,
            })
        }
        AssemblyLine::Negate { width, target } => Ok(Instruction::Negate { width, target }),
        AssemblyLine::SignExtend {
            extension,
            target,
            source,
        } => Ok(Instruction::SignExtend {
            extension,
            target,
            source,
        }),
        AssemblyLine::Reorder {
            order,
            width,
            target,
        } => Ok(Instruction::Reorder {
            order,
            width,
            target,
        }),
        other => memory_instruction_of(other, slot, place),
    }
}

/// The instruction of a line that loads or stores.
fn memory_instruction_of(
    line: AssemblyLine,
    slot: usize,
    place: Option<usize>,
) -> Result<Instruction, AsmFault>
    requires jump { is_jump line ≡ false }
    requires register { is_register line ≡ false }
    ensures { result ≡ instruction_of line slot place }
{
    match line {
        AssemblyLine::Load {
            size,
            target,
            base,
            offset,
        } => {
            let offset = in_range(signed_16(offset))?;
            Ok(Instruction::Load {
                size,
                target,
                base,
                offset,
            })
        }
        AssemblyLine::Store {
            size,
            base,
            offset,
            source,
        } => {
            let offset = in_range(signed_16(offset))?;
            let source = in_range(source_of(source))?;
            Ok(Instruction::Store {
                size,
                base,
                offset,
                source,
            })
        }
        other => wide_instruction_of(other, slot, place),
    }
}

/// The instruction of a line that loads a number or an address in a map, which takes two slots.
fn wide_instruction_of(
    line: AssemblyLine,
    slot: usize,
    place: Option<usize>,
) -> Result<Instruction, AsmFault>
    requires jump { is_jump line ≡ false }
    requires register { is_register line ≡ false }
    requires access { is_access line ≡ false }
    ensures { result ≡ instruction_of line slot place }
{
    match line {
        AssemblyLine::LoadNumber { target, number } => {
            let number = in_range(natural_64(number))?;
            Ok(Instruction::LoadNumber { target, number })
        }
        AssemblyLine::LoadMap {
            target,
            map,
            offset,
        } => {
            let map = in_range(signed_32(map))?;
            let offset = in_range(signed_32(offset))?;
            Ok(Instruction::LoadMap {
                target,
                map,
                offset,
            })
        }
        _ => Err(AsmFault::Syntax),
    }
}

/// Appends the instruction of a line to the code. After an error the code is unchanged; `Range`
/// also if there would be more than 4096 slots.
pub(crate) fn push_instruction(
    code: &mut CodeBuilder,
    line: AssemblyLine,
    place: Option<usize>,
) -> Result<(), AsmFault>
    ensures taken { Takes result code.new (code_step code.old line place) }
    ensures same { OnErr result (code.new ≡ code.old) }
{
    // Names the type of a part of the instruction; the generated proof has to know its module.
    let _none: Option<Source> = None;
    let instruction = instruction_of(line, code.len(), place)?;
    match code.push(instruction) {
        Ok(()) => Ok(()),
        Err(BuildError::TooLong) => Err(AsmFault::Range),
        Err(BuildError::Memory) => Err(AsmFault::Memory),
    }
}

fn operand_of(source: Source) -> Operand
    ensures line { result ≡ the_operand source }
    ensures again { source_of result ≡ Some source }
{
    // For the prover alone, by what the call ensures.
    source.prove_ranges();
    match source {
        Source::Register(register) => Operand::Register(register),
        Source::Immediate(number) => Operand::Number(Numeral::from_signed(number)),
    }
}

/// The line of an instruction, with distances in place of labels.
pub(crate) fn line_of(instruction: Instruction) -> AssemblyLine
    ensures line { result ≡ instruction_line instruction }
    ensures plain { names_label result ≡ false }
    ensures again { (slot : ℕ) (place : Option ℕ) → instruction_of result slot place
        ≡ Ok instruction }
{
    // For the prover alone, by what the call ensures.
    instruction.prove_ranges();
    match instruction {
        Instruction::Jump { distance } => {
            AssemblyLine::Jump(LabelOrNumber::Number(Numeral::from_signed(i32::from(distance))))
        }
        Instruction::LongJump { distance } => {
            AssemblyLine::LongJump(LabelOrNumber::Number(Numeral::from_signed(distance)))
        }
        Instruction::Branch {
            width,
            test,
            left,
            right,
            distance,
        } => AssemblyLine::Branch {
            width,
            test,
            left,
            right: operand_of(right),
            target: LabelOrNumber::Number(Numeral::from_signed(i32::from(distance))),
        },
        Instruction::Call { helper } => AssemblyLine::Call(Numeral::from_signed(helper)),
        Instruction::Exit => AssemblyLine::Exit,
        other => data_line_of(other),
    }
}

/// The line of an instruction that assigns to a register, loads or stores.
fn data_line_of(instruction: Instruction) -> AssemblyLine
    requires { is_jump (instruction_line instruction) ≡ false }
    ensures line { result ≡ instruction_line instruction }
    ensures plain { names_label result ≡ false }
    ensures again { (slot : ℕ) (place : Option ℕ) → instruction_of result slot place
        ≡ Ok instruction }
{
    match instruction {
        Instruction::Arithmetic {
            width,
            operation,
            target,
            source,
        } => AssemblyLine::Arithmetic {
            width,
            operation,
            target,
            source: operand_of(source),
        },
        Instruction::Negate { width, target } => AssemblyLine::Negate { width, target },
        Instruction::SignExtend {
            extension,
            target,
            source,
        } => AssemblyLine::SignExtend {
            extension,
            target,
            source,
        },
        Instruction::Reorder {
            order,
            width,
            target,
        } => AssemblyLine::Reorder {
            order,
            width,
            target,
        },
        other => memory_line_of(other),
    }
}

/// The line of an instruction that loads or stores.
fn memory_line_of(instruction: Instruction) -> AssemblyLine
    requires jump { is_jump (instruction_line instruction) ≡ false }
    requires register { is_register (instruction_line instruction) ≡ false }
    ensures line { result ≡ instruction_line instruction }
    ensures plain { names_label result ≡ false }
    ensures again { (slot : ℕ) (place : Option ℕ) → instruction_of result slot place
        ≡ Ok instruction }
{
    // For the prover alone, by what the call ensures.
    instruction.prove_ranges();
    match instruction {
        Instruction::Load {
            size,
            target,
            base,
            offset,
        } => AssemblyLine::Load {
            size,
            target,
            base,
            offset: Numeral::from_signed(i32::from(offset)),
        },
        Instruction::Store {
            size,
            base,
            offset,
            source,
        } => AssemblyLine::Store {
            size,
            base,
            offset: Numeral::from_signed(i32::from(offset)),
            source: operand_of(source),
        },
        other => wide_line_of(other),
    }
}

/// The line of an instruction that loads a number or an address in a map, which takes two slots.
fn wide_line_of(instruction: Instruction) -> AssemblyLine
    requires jump { is_jump (instruction_line instruction) ≡ false }
    requires register { is_register (instruction_line instruction) ≡ false }
    requires access { is_access (instruction_line instruction) ≡ false }
    ensures line { result ≡ instruction_line instruction }
    ensures plain { names_label result ≡ false }
    ensures again { (slot : ℕ) (place : Option ℕ) → instruction_of result slot place
        ≡ Ok instruction }
{
    // For the prover alone, by what the call ensures.
    instruction.prove_ranges();
    match instruction {
        Instruction::LoadNumber { target, number } => AssemblyLine::LoadNumber {
            target,
            number: Numeral::Natural(number),
        },
        Instruction::LoadMap {
            target,
            map,
            offset,
        } => AssemblyLine::LoadMap {
            target,
            map: Numeral::from_signed(map),
            offset: Numeral::from_signed(offset),
        },
        _ => unreachable!(),
    }
}
