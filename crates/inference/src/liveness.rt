//! Live registers: those that may still be read before they are written.

ghost use Rattle.std.specs.Prelude.{◌<◌};

use crate::memory::{Memory, element_or};
use isa::{Code, Hook, Instruction, Operation, Register, Slot, Source};
use kinds::put;
use machine::Helper;
use verifier::places::{falls_through, jump_of, slots_of};

/// Registers, r0 in bit 0.
pub type Registers = u16;

fn bit(register: Register) -> Registers {
    1 << register.index()
}

fn bit_of(source: Source) -> Registers {
    match source {
        Source::Immediate(_) => 0,
        Source::Register(register) => bit(register),
    }
}

/// The registers that the instruction reads.
pub fn reads(hook: Hook, instruction: &Instruction) -> Registers {
    match *instruction {
        Instruction::Arithmetic {
            operation: Operation::Move,
            source,
            ..
        } => bit_of(source),
        Instruction::Arithmetic {
            target: register,
            source,
            ..
        }
        | Instruction::Branch {
            left: register,
            right: source,
            ..
        }
        | Instruction::Store {
            base: register,
            source,
            ..
        } => bit(register) | bit_of(source),
        Instruction::Negate {
            target: register,
            ..
        }
        | Instruction::Reorder {
            target: register,
            ..
        }
        | Instruction::SignExtend {
            source: register,
            ..
        }
        | Instruction::Load { base: register, .. } => bit(register),
        Instruction::Call { helper } => match Helper::at(hook, helper) {
            Some(Helper::CounterAdd | Helper::TableCost) => 0b110,
            Some(Helper::CounterRead | Helper::PacketByte) => 0b10,
            None => 0,
        },
        Instruction::Exit => 1,
        _ => 0,
    }
}

/// Whether an instruction of the code reads r10; without that, none accesses the stack.
pub fn reads_frame(code: &Code, hook: Hook) -> bool {
    for slot in code.slots() {
        if let Slot::Start(instruction) = slot {
            if has(reads(hook, instruction), 10) {
                return true;
            }
        }
    }
    false
}

/// The register that the instruction writes, other than a call.
pub fn target_of(instruction: &Instruction) -> Option<Register> {
    match *instruction {
        Instruction::Arithmetic { target, .. }
        | Instruction::Negate { target, .. }
        | Instruction::Reorder { target, .. }
        | Instruction::SignExtend { target, .. }
        | Instruction::Load { target, .. }
        | Instruction::LoadNumber { target, .. }
        | Instruction::LoadMap { target, .. } => Some(target),
        _ => None,
    }
}

/// The registers that the instruction writes.
fn writes(instruction: &Instruction) -> Registers {
    match target_of(instruction) {
        Some(target) => bit(target),
        None if matches!(instruction, Instruction::Call { .. }) => 0b11_1111,
        None => 0,
    }
}

/// The registers that may be read from the instruction on.
fn live_before(live: &[Registers], hook: Hook, slot: usize, instruction: &Instruction) -> Registers
    requires { slot < 4096 }
{
    let mut after = 0;
    if falls_through(instruction) {
        after |= element_or(live, slot + slots_of(instruction), 0);
    }
    if let Some(to) = jump_of(slot, instruction) {
        after |= element_or(live, to, 0);
    }
    after & !writes(instruction) | reads(hook, instruction)
}

/// One pass over the code, last slot first: notes the registers that may be read from each slot on
/// at which an instruction begins. Whether anything changed.
fn refine(code: &Code, hook: Hook, live: &mut Vec<Registers>) -> bool {
    let mut has_changed = false;
    for passed in 0..code.len() {
        let slot = code.len() - 1 - passed;
        if let Some(Slot::Start(instruction)) = code.at(slot as u64) {
            let before = live_before(live, hook, slot, &instruction);
            has_changed |= before != element_or(live, slot, 0);
            put(live, slot, before);
        }
    }
    has_changed
}

/// For each slot the registers that may be read from there on before they are written.
pub fn live_registers(memory: &Memory, code: &Code, hook: Hook) -> Vec<Registers> {
    let mut live = memory.filled(0, code.len());
    // Passes over the code until nothing changes.
    for _ in 0..code.len() {
        if !refine(code, hook, &mut live) {
            break;
        }
    }
    live
}

/// Whether the register of this number is among them.
pub fn has(registers: Registers, number: usize) -> bool {
    number < 16 && registers >> number & 1 == 1
}
