//! Instructions that choose the next slot.
ghost use Rattle.std.specs.Prelude.{◌≡◌, ◌<◌, [], ◌∷◌, OnOk, OnErr, IfOk, IfErr, Some};
ghost use Rattle.machine.specs.declared.state.Content.TheVariants.{Number};
ghost use Rattle.machine.specs.Given.{given_by};
ghost use Rattle.machine.specs.State.{Setting, held, operand};
ghost use Rattle.machine.specs.Label.{Label, Silent};
ghost use Rattle.machine.specs.Steps.{Branches, test_result};
ghost use Rattle.machine.specs.Helpers.{helper_of};
ghost use Rattle.helpers.specs.Calls.{fault_of_call};
ghost use Rattle.helpers.specs.Seats.{SeatMakes};
ghost use Rattle.maps.specs.Words.{IsSeatOf};
ghost use Rattle.interp.specs.Classes.{fault_of_test, fault_of_exit, CallsInto};

use crate::{contents, registers};
use isa::{Register, Source, Test, Width};
use machine::{Content, Fault, Hook, Input, State};
use maps::{Seat, Shared};

/// Executes a conditional jump.
pub(crate) fn branch(
    state: &mut State,
    width: Width,
    test: Test,
    left: Register,
    right: Source,
    distance: i16,
) -> Result<(), Fault>
    requires { state.old.slot < 4096 }
    ensures ok { OnOk result (Branches state.old (test_result width test (held state.old left)
        (operand state.old right)) distance Silent state.new) }
    ensures err { IfErr result (λ fault. fault_of_test (held state.old left)
        (operand state.old right) ≡ Some fault) }
    ensures still { OnErr result (state.new ≡ state.old) }
{
    let first = registers::held(state, left);
    let second = registers::operand(state, right);
    let Some(taken) = contents::tested(width, test, first, second) else {
        if matches!(first, Content::Nothing) || matches!(second, Content::Nothing) {
            return Err(Fault::Empty);
        }
        return Err(Fault::Kind);
    };
    if taken {
        registers::jump(state, i32::from(distance));
    } else {
        registers::move_on(state);
    }
    Ok(())
}

/// The answer at EXIT: the number in r0.
pub(crate) fn exit(state: &State) -> Result<u64, Fault>
    ensures ok { IfOk result (λ word. held state.now 0 ≡ Number word) }
    ensures err { IfErr result (λ fault. fault_of_exit (held state.now 0) ≡ Some fault) }
{
    match state.registers[0] {
        Content::Nothing => Err(Fault::Empty),
        Content::Number(word) => Ok(word),
        Content::Address(_) => Err(Fault::ExitKind),
    }
}

/// Executes a call of a helper.
pub(crate) fn call(
    state: &mut State,
    hook: Hook,
    number: i32,
    input: &Input,
    shared: &Shared,
    seat: &mut Seat,
) -> Result<(), Fault>
    requires slot { state.old.slot < 4096 }
    requires table { IsSeatOf shared.now seat.old }
    ensures ok { OnOk result ((label : Label) × CallsInto hook number (given_by input.now) state.old
        label state.new × SeatMakes seat.old (label ∷ []) seat.new) }
    ensures err { IfErr result (λ fault. fault_of_call (helper_of hook number) (held state.old 1)
        (held state.old 2) ≡ Some fault) }
    ensures still { OnErr result (state.new ≡ state.old) }
    ensures unchanged { OnErr result (seat.new ≡ seat.old) }
{
    let first = state.registers[1];
    let second = state.registers[2];
    let answer = helpers::call(hook, number, first, second, input, shared, seat)?;
    registers::take_answer(state, answer);
    Ok(())
}
