//! Stores.
ghost use Rattle.std.specs.Prelude.{◌≡◌, ◌<◌, ◌≤◌, ◌+◌, List, [], ◌∷◌, OnOk, OnErr, IfErr, Some};
ghost use Rattle.machine.specs.declared.state.Content.TheVariants.{Number, Address};
ghost use Rattle.machine.specs.declared.state.Pointer.TheVariants as pointers;
ghost use Rattle.isa.specs.declared.map.Map.TheVariants.{Cells};
ghost use Rattle.machine.specs.State.{held, operand};
ghost use Rattle.machine.specs.Label.{Label, Silent};
ghost use Rattle.maps.specs.Words.{IsSeatOf};
ghost use Rattle.helpers.specs.Seats.{SeatMakes};
ghost use Rattle.interp.specs.Classes.{fault_of_store, fault_of_base_store, StoresAt, StoresFrom};

use crate::{contents, pieces, registers};
use isa::{Map, Register, Source, StoreSize};
use machine::{Content, Fault, Pointer, State, map_length, store_length};
use maps::{Seat, Shared};

/// A store of a number on the stack.
fn store_bytes(state: &mut State, size: StoreSize, at: u64, number: u64) -> Result<(), Fault>
    requires { state.old.slot < 4096 }
    ensures ok { OnOk result (StoresAt size (pointers.Stack at) (Number number) state.old Silent
        state.new) }
    ensures err { IfErr result (λ fault. fault_of_store size (pointers.Stack at) (Number number)
        ≡ Some fault) }
    ensures still { OnErr result (state.new ≡ state.old) }
{
    let length = store_length(size);
    if at > 512 - length {
        return Err(Fault::Bounds);
    }
    let bytes = pieces::bytes_of(number);
    pieces::overwrite(&mut state.stack, at as usize, &bytes[..length as usize]);
    registers::move_on(state);
    Ok(())
}

fn store_pointer(state: &mut State, size: StoreSize, at: u64, pointer: Pointer) -> Result<(), Fault>
    requires { state.old.slot < 4096 }
    ensures ok { OnOk result (StoresAt size (pointers.Stack at) (Address pointer) state.old Silent
        state.new) }
    ensures err { IfErr result (λ fault. fault_of_store size (pointers.Stack at) (Address pointer)
        ≡ Some fault) }
    ensures still { OnErr result (state.new ≡ state.old) }
{
    if !matches!(size, StoreSize::Bits64) {
        return Err(Fault::Kind);
    }
    if at > 504 {
        return Err(Fault::Bounds);
    }
    let bytes = pieces::pieces_of(pointer);
    pieces::overwrite(&mut state.stack, at as usize, &bytes);
    registers::move_on(state);
    Ok(())
}

/// A store of a number in a cell of the seat's own.
fn store_cell(
    state: &mut State,
    size: StoreSize,
    at: u64,
    number: u64,
    shared: &Shared,
    seat: &mut Seat,
) -> Result<(), Fault>
    requires slot { state.old.slot < 4096 }
    requires table { IsSeatOf shared.now seat.old }
    ensures ok { OnOk result ((label : Label) × StoresAt size (pointers.Map Cells at)
        (Number number) state.old label state.new × SeatMakes seat.old (label ∷ []) seat.new) }
    ensures err { IfErr result (λ fault. fault_of_store size (pointers.Map Cells at) (Number number)
        ≡ Some fault) }
    ensures still { OnErr result (state.new ≡ state.old) }
    ensures unchanged { OnErr result (seat.new ≡ seat.old) }
{
    if at > map_length(Map::Cells) - store_length(size) {
        return Err(Fault::Bounds);
    }
    let is_word = matches!(size, StoreSize::Bits64);
    if !is_word || at % 8 != 0 {
        return Err(Fault::Align);
    }
    helpers::cell_write(shared, seat, at / 8, number);
    registers::move_on(state);
    Ok(())
}

/// A store of a content at an address.
fn store_at(
    state: &mut State,
    size: StoreSize,
    pointer: Pointer,
    content: Content,
    shared: &Shared,
    seat: &mut Seat,
) -> Result<(), Fault>
    requires slot { state.old.slot < 4096 }
    requires table { IsSeatOf shared.now seat.old }
    ensures ok { OnOk result ((label : Label) × StoresAt size pointer content state.old label
        state.new × SeatMakes seat.old (label ∷ []) seat.new) }
    ensures err { IfErr result (λ fault. fault_of_store size pointer content ≡ Some fault) }
    ensures still { OnErr result (state.new ≡ state.old) }
    ensures unchanged { OnErr result (seat.new ≡ seat.old) }
{
    match content {
        Content::Nothing => Err(Fault::Empty),
        Content::Number(number) => match pointer {
            Pointer::Context(_) => Err(Fault::Kind),
            Pointer::Stack(at) => store_bytes(state, size, at, number),
            Pointer::Map(Map::Counters, _) => Err(Fault::Kind),
            Pointer::Map(Map::Cells, at) => store_cell(state, size, at, number, shared, seat),
        },
        Content::Address(stored) => match pointer {
            Pointer::Stack(at) => store_pointer(state, size, at, stored),
            _ => Err(Fault::Kind),
        },
    }
}

/// Executes ST or STX: a store at the pointer in the base register plus the offset.
pub(crate) fn store(
    state: &mut State,
    size: StoreSize,
    base: Register,
    offset: i16,
    source: Source,
    shared: &Shared,
    seat: &mut Seat,
) -> Result<(), Fault>
    requires slot { state.old.slot < 4096 }
    requires table { IsSeatOf shared.now seat.old }
    ensures ok { OnOk result ((label : Label) × StoresFrom size base offset source state.old label
        state.new × SeatMakes seat.old (label ∷ []) seat.new) }
    ensures err { IfErr result (λ fault. fault_of_base_store size (held state.old base) offset
        (operand state.old source) ≡ Some fault) }
    ensures still { OnErr result (state.new ≡ state.old) }
    ensures unchanged { OnErr result (seat.new ≡ seat.old) }
{
    let content = registers::operand(state, source);
    match registers::held(state, base) {
        Content::Nothing => Err(Fault::Empty),
        Content::Number(_) => match content {
            Content::Nothing => Err(Fault::Empty),
            _ => Err(Fault::Kind),
        },
        Content::Address(pointer) => {
            let pointer = contents::at_distance(pointer, i64::from(offset).cast_unsigned());
            store_at(state, size, pointer, content, shared, seat)
        }
    }
}
