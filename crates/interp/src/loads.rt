//! Loads.
ghost use Rattle.std.specs.Prelude.{◌≡◌, ◌≢◌, ℕ, ◌+◌, ◌<◌, ◌≤◌, ◌/◌, ◌%◌, [], ◌∷◌, OnOk, OnErr};
ghost use Rattle.std.specs.Prelude.{IfOk, IfErr, IfSome, None, Some, slice_range};
ghost use Rattle.machine.specs.declared.state.Content.{Content};
ghost use Rattle.machine.specs.declared.state.Pointer.{Pointer};
ghost use Rattle.machine.specs.declared.state.Pointer.TheVariants as pointers;
ghost use Rattle.machine.specs.Given.{Given, given_by};
ghost use Rattle.machine.specs.State.{held, with_register};
ghost use Rattle.machine.specs.Label.{Label, Silent};
ghost use Rattle.machine.specs.Memory.{Loads, StackGives, load_length, number_of, loaded_number};
ghost use Rattle.maps.specs.Words.{IsSeatOf};
ghost use Rattle.helpers.specs.Seats.{SeatMakes};
ghost use Rattle.interp.specs.Classes.{fault_of_load, fault_of_base_load, LoadsInto, LoadsFrom};

use crate::{contents, pieces, registers};
use isa::{LoadSize, Map, Register};
use machine::{Content, Fault, Input, Pointer, State, load_length, map_length};
use maps::{Seat, Shared};

fn load_context(
    state: &mut State,
    size: LoadSize,
    target: Register,
    at: u64,
    input: &Input,
) -> Result<(), Fault>
    requires { state.old.slot < 4096 }
    ensures ok { OnOk result (LoadsInto size (pointers.Context at) (given_by input.now) target
        state.old Silent state.new) }
    ensures err { IfErr result (λ fault. fault_of_load state.old size (pointers.Context at) target
        ≡ Some fault) }
    ensures still { OnErr result (state.new ≡ state.old) }
{
    let length = load_length(size);
    if at > 64 - length {
        return Err(Fault::Bounds);
    }
    if target.index() == 10 {
        return Err(Fault::Frame);
    }
    let start = at as usize;
    let number = word_machine::number_of(&input.context[start..start + length as usize]);
    let content = Content::Number(word_machine::loaded(size, number));
    registers::fill(state, target, content);
    Ok(())
}

/// What a load from the stack finds.
fn stack_content(state: &State, size: LoadSize, at: u64) -> Result<Content, Fault>
    ensures ok { IfOk result (λ content. (input : Given)
        → Loads size (pointers.Stack at) input state.now Silent content) }
    ensures err { IfErr result (λ fault. (target : ℕ)
        → fault_of_load state.now size (pointers.Stack at) target ≡ Some fault) }
{
    let length = load_length(size);
    if at > 512 - length {
        return Err(Fault::Bounds);
    }
    let start = at as usize;
    let found = &state.stack[start..start + length as usize];
    if let Some(number) = pieces::number_in(found) {
        return Ok(Content::Number(word_machine::loaded(size, number)));
    }
    if pieces::has_nothing(found) {
        return Err(Fault::Empty);
    }
    if let LoadSize::Unsigned64 = size {
        if let Some(pointer) = pieces::pointer_in(found) {
            return Ok(Content::Address(pointer));
        }
    }
    Err(Fault::Kind)
}

fn load_stack(state: &mut State, size: LoadSize, target: Register, at: u64) -> Result<(), Fault>
    requires { state.old.slot < 4096 }
    ensures ok { OnOk result ((input : Given) → LoadsInto size (pointers.Stack at) input target
        state.old Silent state.new) }
    ensures err { IfErr result (λ fault. fault_of_load state.old size (pointers.Stack at) target
        ≡ Some fault) }
    ensures still { OnErr result (state.new ≡ state.old) }
{
    let content = stack_content(state, size, at)?;
    if target.index() == 10 {
        return Err(Fault::Frame);
    }
    registers::fill(state, target, content);
    Ok(())
}

fn load_map(
    state: &mut State,
    size: LoadSize,
    target: Register,
    map: Map,
    at: u64,
    shared: &Shared,
    seat: &mut Seat,
) -> Result<(), Fault>
    requires slot { state.old.slot < 4096 }
    requires table { IsSeatOf shared.now seat.old }
    ensures ok { OnOk result ((label : Label) × ((input : Given)
        → LoadsInto size (pointers.Map map at) input target state.old label state.new)
        × SeatMakes seat.old (label ∷ []) seat.new) }
    ensures err { IfErr result (λ fault. fault_of_load state.old size (pointers.Map map at) target
        ≡ Some fault) }
    ensures still { OnErr result (state.new ≡ state.old) }
    ensures unchanged { OnErr result (seat.new ≡ seat.old) }
{
    if at > map_length(map) - load_length(size) {
        return Err(Fault::Bounds);
    }
    let is_word = matches!(size, LoadSize::Unsigned64);
    if !is_word || at % 8 != 0 {
        return Err(Fault::Align);
    }
    if target.index() == 10 {
        return Err(Fault::Frame);
    }
    let word = match map {
        Map::Counters => helpers::counter_read(shared, seat, at / 8),
        Map::Cells => helpers::cell_read(shared, seat, at / 8),
    };
    registers::fill(state, target, Content::Number(word));
    Ok(())
}

/// A load at an address into a register.
fn load_at(
    state: &mut State,
    size: LoadSize,
    target: Register,
    pointer: Pointer,
    input: &Input,
    shared: &Shared,
    seat: &mut Seat,
) -> Result<(), Fault>
    requires slot { state.old.slot < 4096 }
    requires table { IsSeatOf shared.now seat.old }
    ensures ok { OnOk result ((label : Label) × LoadsInto size pointer (given_by input.now) target
        state.old label state.new × SeatMakes seat.old (label ∷ []) seat.new) }
    ensures err { IfErr result (λ fault. fault_of_load state.old size pointer target ≡ Some fault) }
    ensures still { OnErr result (state.new ≡ state.old) }
    ensures unchanged { OnErr result (seat.new ≡ seat.old) }
{
    match pointer {
        Pointer::Context(at) => load_context(state, size, target, at, input),
        Pointer::Stack(at) => load_stack(state, size, target, at),
        Pointer::Map(map, at) => load_map(state, size, target, map, at, shared, seat),
    }
}

/// Executes LDX: a load into a register, from the pointer in the base register plus the offset.
pub(crate) fn load(
    state: &mut State,
    size: LoadSize,
    target: Register,
    base: Register,
    offset: i16,
    input: &Input,
    shared: &Shared,
    seat: &mut Seat,
) -> Result<(), Fault>
    requires slot { state.old.slot < 4096 }
    requires table { IsSeatOf shared.now seat.old }
    ensures ok { OnOk result ((label : Label) × LoadsFrom size base offset (given_by input.now)
        target state.old label state.new × SeatMakes seat.old (label ∷ []) seat.new) }
    ensures err { IfErr result (λ fault. fault_of_base_load state.old size (held state.old base)
        offset target ≡ Some fault) }
    ensures still { OnErr result (state.new ≡ state.old) }
    ensures unchanged { OnErr result (seat.new ≡ seat.old) }
{
    match registers::held(state, base) {
        Content::Nothing => Err(Fault::Empty),
        Content::Number(_) => Err(Fault::Kind),
        Content::Address(pointer) => {
            let pointer = contents::at_distance(pointer, i64::from(offset).cast_unsigned());
            load_at(state, size, target, pointer, input, shared, seat)
        }
    }
}
