//! What registers hold, and the moves to the next slot.
ghost use Rattle.std.specs.Prelude.{◌≡◌, ◌<◌, ◌+◌};
ghost use Rattle.machine.specs.State.{held, operand, with_register, moved_on, after_jump};
ghost use Rattle.machine.specs.Helpers.{state_after_call};

use isa::{Register, Source};
use machine::{Content, State};

/// What a register holds.
#[inline(always)]
pub(crate) fn held(state: &State, register: Register) -> Content
    ensures { result ≡ held state.now register }
{
    state.registers[register.index()]
}

/// The second operand: a number, sign-extended, or what a register holds.
#[inline(always)]
pub(crate) fn operand(state: &State, source: Source) -> Content
    ensures { result ≡ operand state.now source }
{
    match source {
        Source::Immediate(number) => Content::Number(i64::from(number).cast_unsigned()),
        Source::Register(register) => held(state, register),
    }
}

/// Writes a register, and moves on to the next slot.
pub(crate) fn fill(state: &mut State, target: Register, content: Content)
    requires { state.old.slot < 4096 }
    ensures { state.new ≡ with_register state.old target content }
{
    state.registers[target.index()] = content;
    state.slot += 1;
}

/// Writes a register, and moves on past a wide instruction.
pub(crate) fn fill_wide(state: &mut State, target: Register, content: Content)
    requires { state.old.slot < 4096 }
    ensures { state.new
        ≡ record (with_register state.old target content) { slot = state.old.slot + 2 } }
{
    state.registers[target.index()] = content;
    state.slot += 2;
}

/// Moves on to the next slot.
pub(crate) fn move_on(state: &mut State)
    requires { state.old.slot < 4096 }
    ensures { state.new ≡ moved_on state.old }
{
    state.slot += 1;
}

/// Jumps by a distance from the next slot. The slot is a word and wraps.
pub(crate) fn jump(state: &mut State, distance: i32)
    requires { state.old.slot < 4096 }
    ensures { state.new ≡ after_jump state.old distance }
{
    state.slot = (state.slot + 1).wrapping_add(i64::from(distance).cast_unsigned());
}

/// Puts a helper's answer into r0, empties r1 to r5, and moves on to the next slot.
pub(crate) fn take_answer(state: &mut State, answer: u64)
    requires { state.old.slot < 4096 }
    ensures { state.new ≡ state_after_call state.old answer }
{
    state.registers[0] = Content::Number(answer);
    state.registers[1] = Content::Nothing;
    state.registers[2] = Content::Nothing;
    state.registers[3] = Content::Nothing;
    state.registers[4] = Content::Nothing;
    state.registers[5] = Content::Nothing;
    state.slot += 1;
}
