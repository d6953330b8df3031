//! What breaks a rule at an instruction, and what is allowed.
ghost use Rattle.std.specs.Prelude.{◌<◌};

use crate::phrases::{Value, end_of, known_at, push_place, push_register};
use crate::rules::words_of;
use crate::text::Text;
use absdom::Domain;
use inference::liveness::{has, reads};
use isa::{Hook, Instruction, Operation, Register, Width};
use kinds::{AbstractState, Kind, PointerPlace, kind_at};
use machine::{load_length, map_length, store_length};
use transfer::place::reached;
use verifier::Rule;
use verifier::places::jump_of;

/// A load or store: the register with its base, the offset, and the number of bytes.
#[derive(Clone, Copy)]
struct Access {
    base: Register,
    offset: i16,
    length: u64,
}

fn access_of(instruction: &Instruction) -> Option<Access> {
    match *instruction {
        Instruction::Load {
            size,
            base,
            offset,
            ..
        } => Some(Access {
            base,
            offset,
            length: load_length(size),
        }),
        Instruction::Store {
            size,
            base,
            offset,
            ..
        } => Some(Access {
            base,
            offset,
            length: store_length(size),
        }),
        _ => None,
    }
}

/// The operands that the instruction allows.
fn allowed_kinds(instruction: &Instruction) -> &'static str {
    match *instruction {
        Instruction::Load { .. } =>
            "  allowed: a pointer as the base; of a stored pointer its eight bytes, as a u64\n",
        Instruction::Store { .. } =>
            "  allowed: a pointer into the stack or the cells (map 1) as the base; a pointer is \
                stored on the stack alone, as a u64\n",
        Instruction::Arithmetic {
            width: Width::Bits64,
            operation: Operation::Add | Operation::Subtract,
            ..
        } => "  allowed: two numbers, or a pointer on the left and a number on the right, a single \
                one for the context and the stack\n",
        Instruction::Arithmetic { .. } =>
            "  allowed: two numbers; a pointer is copied with all of its 64 bits\n",
        Instruction::Branch { .. } => "  allowed: two numbers\n",
        _ => "  allowed: a number\n",
    }
}

/// The greatest number that may be passed in r1, a counter, and in r2, the amount to add.
const MAX_COUNTER: u64 = 255;

const MAX_ADDED: u64 = 16_777_215;

/// Whether a register of this kind breaks the rule when it is read.
fn is_wrong(rule: Rule, register: usize, kind: Kind<Value>) -> bool {
    match (rule, kind) {
        (Rule::Kind | Rule::ExitKind, _) | (Rule::Empty, Kind::Unknown) => true,
        (Rule::Argument, Kind::Number(value)) => {
            let most = if register == 1 {
                MAX_COUNTER
            } else {
                MAX_ADDED
            };
            value.range().1 > most
        }
        _ => false,
    }
}

/// A line for each register that the instruction reads and that breaks the rule, with what is
/// allowed if that depends on the register.
fn push_registers(
    out: &mut Text,
    hook: Hook,
    state: &AbstractState<Value>,
    instruction: &Instruction,
    rule: Rule,
) {
    let read = reads(hook, instruction);
    for register in 0..10usize {
        let kind = known_at(&state.kinds, register);
        if has(read, register) & is_wrong(rule, register, kind) {
            let behind = match (rule, register) {
                (Rule::Argument, 1) => "\n  allowed: r1, the counter, 0..255\n",
                (Rule::Argument, _) => "\n  allowed: r2, the amount that is added, 0..16777215\n",
                _ => "\n",
            };
            push_register(out, "  r{}: ", register, kind, behind)
        }
    }
}

/// The bytes of an access, as `8 bytes at r6 + 4: map 1, offset 4`.
fn push_bytes(out: &mut Text, access: &Access, place: PointerPlace<Value>) {
    let (length, base) = (access.length as u128, access.base.index() as u128);
    out.fill("  {} bytes at r{} + ", &[length, base]);
    out.signed(access.offset as i64);
    out.push(": ");
    push_place(out, place);
    out.push("\n")
}

/// What is wrong with the bytes of the access: on the stack the first one that isn't known to be a
/// byte of a number; if they are out of bounds, also the allowed offsets.
fn push_access(out: &mut Text, state: &AbstractState<Value>, access: &Access, rule: Rule) {
    if let Ok(place) = reached(kind_at(state, access.base), access.offset) {
        match rule {
            Rule::Empty => {
                if let PointerPlace::Stack(start) = place {
                    let byte = end_of(&state.entries, start as usize) as u64;
                    if (byte < 512) & (byte.wrapping_sub(start) < access.length) {
                        out.numbered("  stack ", byte, ": may be empty, or a part of a pointer\n");
                    }
                }
            }
            Rule::Align => push_bytes(out, access, place),
            Rule::Bounds => {
                push_bytes(out, access, place);
                let length = match place {
                    PointerPlace::Context(_) => 64,
                    PointerPlace::Stack(_) => 512,
                    PointerPlace::Map(map, _) => map_length(map),
                };
                let most = length.saturating_sub(access.length);
                out.numbered("  allowed: 0..", most, "\n")
            }
            _ => {}
        }
    }
}

/// The line of what is allowed, if that contains no number.
fn allowed(hook: Hook, instruction: &Instruction, rule: Rule) -> &'static str {
    match (rule, hook) {
        (Rule::Kind, _) => allowed_kinds(instruction),
        (Rule::Helper, Hook::Count) => "\n  allowed: 1 add, 2 read, 3 packet byte\n",
        (Rule::Helper, _) => "\n  allowed: 1 add, 2 read, 4 table cost\n",
        _ => words_of(rule),
    }
}

/// What breaks the rule at the instruction: registers that it reads, the bytes that it loads or
/// stores, the helper that it calls, or the slot that comes after it; and what is allowed.
pub(crate) fn push_reason(
    out: &mut Text,
    hook: Hook,
    slot: usize,
    instruction: &Instruction,
    state: &AbstractState<Value>,
    rule: Rule,
)
    requires { slot < 4096 }
{
    push_registers(out, hook, state, instruction, rule);
    if let Some(access) = access_of(instruction) {
        push_access(out, state, &access, rule)
    }
    if let (Rule::Helper, Instruction::Call { helper }) = (rule, *instruction) {
        out.push("  the hook ");
        out.push(hook.name());
        out.push(" has no helper ");
        out.signed(helper as i64)
    }
    let to = match rule {
        Rule::Unreached => slot,
        _ => jump_of(slot, instruction).unwrap_or(slot),
    };
    out.fill(allowed(hook, instruction, rule), &[to as u128])
}
