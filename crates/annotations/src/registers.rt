//! Which registers a program names.
ghost use Rattle.std.specs.Prelude.{◌≡◌, ◌≤◌, IfNone, IfSome, false, true};
ghost use Rattle.annotations.specs.CountedCode.{IsUnnamed, NamesAll, is_operand, names};

use isa::{Code, Instruction, Register, Slot, Source};

/// Whether the operand is the register.
fn is_operand(source: Source, register: Register) -> bool
    ensures { result ≡ is_operand register source }
{
    match source {
        Source::Immediate(_) => false,
        Source::Register(other) => other.number() == register.number(),
    }
}

/// Whether the instruction names the register.
fn names(instruction: &Instruction, register: Register) -> bool
    ensures { result ≡ names register instruction.now }
{
    let number = register.number();
    match *instruction {
        Instruction::Arithmetic {
            target: named,
            source,
            ..
        }
        | Instruction::Branch {
            left: named,
            right: source,
            ..
        }
        | Instruction::Store {
            base: named,
            source,
            ..
        } => (named.number() == number) | is_operand(source, register),
        Instruction::Negate { target, .. }
        | Instruction::Reorder { target, .. }
        | Instruction::LoadNumber { target, .. }
        | Instruction::LoadMap { target, .. } => target.number() == number,
        Instruction::SignExtend { target, source, .. }
        | Instruction::Load {
            target,
            base: source,
            ..
        } => (target.number() == number) | (source.number() == number),
        Instruction::Jump { .. }
        | Instruction::LongJump { .. }
        | Instruction::Call { .. }
        | Instruction::Exit => false,
    }
}

/// Whether an instruction of the code names the register.
fn is_named(code: &Code, register: Register) -> bool
    ensures unnamed { result ≡ false → IsUnnamed code.now register }
    ensures named { result ≡ true → IsUnnamed code.now register → ⊥ }
{
    for slot in code.slots() {
        if let Slot::Start(instruction) = slot {
            if names(instruction, register) {
                return true;
            }
        }
    }
    false
}

/// A register of r6 to r9, which a call leaves as they are, that the code doesn't name.
pub fn unnamed(code: &Code) -> Option<Register>
    ensures unnamed { IfSome result (λ register. IsUnnamed code.now register) }
    ensures least { IfSome result (λ register. 6 ≤ register) }
    ensures most { IfSome result (λ register. register ≤ 9) }
    ensures none { IfNone result (NamesAll code.now) }
{
    for number in 6..10u8 {
        let Some(register) = Register::new(number) else {
            unreachable!()
        };
        if !is_named(code, register) {
            return Some(register);
        }
    }
    None
}
