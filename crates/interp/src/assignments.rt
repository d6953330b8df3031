//! Instructions that put a content into a register.
ghost use Rattle.std.specs.Prelude.{◌≡◌, ◌≢◌, ◌<◌, ◌+◌, ℕ, OnOk, OnErr, IfOk, IfErr, Some};
ghost use Rattle.isa.specs.Arithmetic.{negated_number, sign_extended};
ghost use Rattle.isa.specs.Arithmetic.{in_byte_order, widened_immediate};
ghost use Rattle.isa.specs.declared.map.Map.{Map};
ghost use Rattle.machine.specs.declared.state.Content.TheVariants.{Number, Address};
ghost use Rattle.machine.specs.declared.state.Pointer.TheVariants as pointers;
ghost use Rattle.machine.specs.State.{held, operand, with_register};
ghost use Rattle.machine.specs.Label.{Silent};
ghost use Rattle.isa.specs.Maps.{map_of};
ghost use Rattle.machine.specs.Steps.{Fills, result_of, on_number};
ghost use Rattle.machine.specs.Faults.{operation_reads};
ghost use Rattle.interp.specs.Classes.{fault_of_fill, fault_of_change, fault_of_target};
ghost use Rattle.interp.specs.Classes.{fault_of_map};

use crate::{contents, registers};
use isa::{ByteOrder, Extension, Map, Operation, Register, Source, SwapWidth, Width, arithmetic};
use machine::{Content, Fault, Pointer, State};

/// Executes an operation on two operands.
pub(crate) fn arithmetic(
    state: &mut State,
    width: Width,
    operation: Operation,
    target: Register,
    source: Source,
) -> Result<(), Fault>
    requires { state.old.slot < 4096 }
    ensures ok { OnOk result (Fills state.old target (result_of width operation
        (held state.old target) (operand state.old source)) Silent state.new) }
    ensures err { IfErr result (λ fault. fault_of_fill (operation_reads operation
        (held state.old target) (operand state.old source)) (result_of width operation
        (held state.old target) (operand state.old source)) target ≡ Some fault) }
    ensures still { OnErr result (state.new ≡ state.old) }
{
    let left = registers::held(state, target);
    let right = registers::operand(state, source);
    let Some(content) = contents::result_of(width, operation, left, right) else {
        if contents::reads_nothing(operation, left, right) {
            return Err(Fault::Empty);
        }
        return Err(Fault::Kind);
    };
    if target.index() == 10 {
        return Err(Fault::Frame);
    }
    registers::fill(state, target, content);
    Ok(())
}

/// The number that a register holds.
fn number_in(state: &State, register: Register) -> Result<u64, Fault>
    ensures ok { IfOk result (λ number. held state.now register ≡ Number number) }
    ensures err { IfErr result (λ fault. (target : ℕ) → fault_of_change (held state.now register)
        target ≡ Some fault) }
{
    match registers::held(state, register) {
        Content::Nothing => Err(Fault::Empty),
        Content::Number(number) => Ok(number),
        Content::Address(_) => Err(Fault::Kind),
    }
}

/// Executes NEG.
pub(crate) fn negate(state: &mut State, width: Width, target: Register) -> Result<(), Fault>
    requires { state.old.slot < 4096 }
    ensures ok { OnOk result (Fills state.old target (on_number (negated_number width)
        (held state.old target)) Silent state.new) }
    ensures err { IfErr result (λ fault. fault_of_change (held state.old target) target
        ≡ Some fault) }
    ensures still { OnErr result (state.new ≡ state.old) }
{
    let number = number_in(state, target)?;
    if target.index() == 10 {
        return Err(Fault::Frame);
    }
    registers::fill(
        state,
        target,
        Content::Number(arithmetic::negated(width, number)),
    );
    Ok(())
}

/// Executes MOVSX, a sign-extending move.
pub(crate) fn sign_extend(
    state: &mut State,
    extension: Extension,
    target: Register,
    source: Register,
) -> Result<(), Fault>
    requires { state.old.slot < 4096 }
    ensures ok { OnOk result (Fills state.old target (on_number (sign_extended extension)
        (held state.old source)) Silent state.new) }
    ensures err { IfErr result (λ fault. fault_of_change (held state.old source) target
        ≡ Some fault) }
    ensures still { OnErr result (state.new ≡ state.old) }
{
    let number = number_in(state, source)?;
    if target.index() == 10 {
        return Err(Fault::Frame);
    }
    registers::fill(
        state,
        target,
        Content::Number(arithmetic::extended(extension, number)),
    );
    Ok(())
}

/// Executes END, a reordering of bytes.
pub(crate) fn reorder(
    state: &mut State,
    order: ByteOrder,
    width: SwapWidth,
    target: Register,
) -> Result<(), Fault>
    requires { state.old.slot < 4096 }
    ensures ok { OnOk result (Fills state.old target (on_number (in_byte_order order width)
        (held state.old target)) Silent state.new) }
    ensures err { IfErr result (λ fault. fault_of_change (held state.old target) target
        ≡ Some fault) }
    ensures still { OnErr result (state.new ≡ state.old) }
{
    let number = number_in(state, target)?;
    if target.index() == 10 {
        return Err(Fault::Frame);
    }
    registers::fill(
        state,
        target,
        Content::Number(arithmetic::reordered(order, width, number)),
    );
    Ok(())
}

/// Executes LDDW of a number.
pub(crate) fn load_number(state: &mut State, target: Register, number: u64) -> Result<(), Fault>
    requires { state.old.slot < 4096 }
    ensures ok { OnOk result ((target ≢ 10)
        × (state.new ≡ record (with_register state.old target (Number number)) {
          slot = state.old.slot + 2;
        })) }
    ensures err { IfErr result (λ fault. fault_of_target target ≡ Some fault) }
    ensures still { OnErr result (state.new ≡ state.old) }
{
    if target.index() == 10 {
        return Err(Fault::Frame);
    }
    registers::fill_wide(state, target, Content::Number(number));
    Ok(())
}

/// Executes LDDW of a pointer into a map.
pub(crate) fn load_map(
    state: &mut State,
    target: Register,
    map: i32,
    offset: i32,
) -> Result<(), Fault>
    requires { state.old.slot < 4096 }
    ensures ok { OnOk result ((m : Map) × (map_of map ≡ Some m) × (target ≢ 10)
        × (state.new ≡ record (with_register state.old target
        (Address (pointers.Map m (widened_immediate offset)))) { slot = state.old.slot + 2 })) }
    ensures err { IfErr result (λ fault. fault_of_map (map_of map) target ≡ Some fault) }
    ensures still { OnErr result (state.new ≡ state.old) }
{
    let Some(map) = Map::from_immediate(map) else {
        return Err(Fault::Kind);
    };
    if target.index() == 10 {
        return Err(Fault::Frame);
    }
    let pointer = Pointer::Map(map, i64::from(offset).cast_unsigned());
    registers::fill_wide(state, target, Content::Address(pointer));
    Ok(())
}
