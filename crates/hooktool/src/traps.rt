//! Runs that gave no answer.

use explanations::{Text, line_at};
use hooktool_trials::RunEnding;
use interp::Trap;
use isa::Code;
use machine::{Content, Pointer};

/// What the trap of this number is: the faults' names are those of docs/reference/MACHINE.md.
fn sentence_of(number: u8) -> &'static str {
    match number {
        1 => "trap {} Outside at slot {}: ",
        2 => "trap {} HalfWide at slot {}: ",
        3 => "trap {} Empty at slot {}: ",
        4 => "trap {} Kind at slot {}: ",
        5 => "trap {} Bounds at slot {}: ",
        6 => "trap {} Align at slot {}: ",
        7 => "trap {} Helper at slot {}: ",
        8 => "trap {} Argument at slot {}: ",
        9 => "trap {} Frame at slot {}: ",
        10 => "trap {} ExitKind at slot {}: ",
        _ => "trap {}: all instructions were used, at slot {}: ",
    }
}

/// A line for the register, unless it is empty.
fn push_register(out: &mut Text, register: u64, content: Content) {
    let (sentence, first, second) = match content {
        Content::Nothing => ("", 0, 0),
        Content::Number(word) => ("  r{}: {}\n", word, 0),
        Content::Address(Pointer::Context(at)) => ("  r{}: context, byte {}\n", at, 0),
        Content::Address(Pointer::Stack(at)) => ("  r{}: stack, byte {}\n", at, 0),
        Content::Address(Pointer::Map(map, at)) => {
            ("  r{}: map {}, byte {}\n", u64::from(map.number()), at)
        }
    };
    out.fill(
        sentence,
        &[u128::from(register), u128::from(first), u128::from(second)],
    )
}

/// The trap's number, what it is, the slot and the instruction at which it is, and the registers
/// there, but for those that are empty.
pub(crate) fn push_trap(out: &mut Text, trap: Trap, ending: &RunEnding, code: &Code, lines: &str) {
    let number = trap.number();
    out.fill(
        sentence_of(number),
        &[u128::from(number), u128::from(ending.slot)],
    );
    out.push(line_at(lines, code, ending.slot).unwrap_or("no instruction begins there"));
    out.push("\n");
    for (register, content) in ending.registers.iter().enumerate() {
        push_register(out, register as u64, *content)
    }
}
