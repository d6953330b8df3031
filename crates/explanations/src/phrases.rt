//! What is known of a register, in words.

use crate::text::Text;
use absdom::Domain;
pub(crate) use inference::Value;
use inference::memory::element_or;
use kinds::{Fact, Kind, PointerPlace, StackEntry};
use object::{Rank, RankTerm};

/// What is known of the bits beyond what the range says.
fn push_bits(out: &mut Text, value: Value, high: u64) {
    let multiple = value.multiple();
    let unit = if multiple < 64 { 1u64 << multiple } else { 0 };
    if unit > 1 {
        out.numbered(", multiple of ", unit, "");
    }
    // The bits of the numbers from 0 to `high`: its highest set bit, and all below.
    let span = u64::MAX.checked_shr(high.leading_zeros()).unwrap_or(0);
    let known = value.second.mask & span & !unit.wrapping_sub(1);
    if known != 0 {
        let set = value.second.value & known;
        out.is_cut |= write!(out.words, ", of the bits {known:x} (hex) {set:x} are set").is_err();
    }
}

pub(crate) fn push_numbers(out: &mut Text, value: Value) {
    let (low, high) = value.range();
    if low == high {
        out.number(low as u128)
    } else {
        out.fill("{}..{}", &[low as u128, high as u128]);
        push_bits(out, value, high)
    }
}

fn push_number(out: &mut Text, value: Value) {
    let (low, high) = value.range();
    if (low == 0) & (high == u64::MAX) {
        out.push("any number");
        push_bits(out, value, high)
    } else {
        out.push("number ");
        push_numbers(out, value)
    }
}

/// The place that a pointer points to.
pub(crate) fn push_place(out: &mut Text, place: PointerPlace<Value>) {
    match place {
        PointerPlace::Context(at) => out.numbered("context, byte ", at, ""),
        PointerPlace::Stack(at) => out.numbered("stack, byte ", at, ""),
        PointerPlace::Map(map, value) => {
            out.numbered("map ", map.number() as u64, ", offset ");
            push_numbers(out, value)
        }
    }
}

/// What is known of the register.
pub(crate) fn known_at(kinds: &[Kind<Value>], register: usize) -> Kind<Value> {
    element_or(kinds, register, Kind::Unknown)
}

/// What is known of a register.
pub(crate) fn push_kind(out: &mut Text, kind: Kind<Value>) {
    match kind {
        Kind::Unknown => out.push("may be empty"),
        Kind::Number(value) => push_number(out, value),
        Kind::Pointer(place) => push_place(out, place),
    }
}

/// What is known of a register, between two texts, of which the first has a `{}` for its number.
pub(crate) fn push_register(
    out: &mut Text,
    before: &str,
    register: usize,
    kind: Kind<Value>,
    behind: &str,
) {
    out.fill(before, &[register as u128]);
    push_kind(out, kind);
    out.push(behind)
}

/// How the register relates to the statement at the slot, unless it is unchanged.
pub(crate) fn push_fact(out: &mut Text, register: usize, fact: Fact, begun: usize) {
    let Fact { origin, up, down } = fact;
    if (origin as usize != register) | (up != down) {
        out.fill("; r{} at slot {}", &[origin as u128, begun as u128]);
        if up > 0 {
            out.fill(" + {}", &[up])
        }
        if down > 0 {
            out.fill(" - {}", &[down])
        }
    }
}

fn push_term(out: &mut Text, term: Option<RankTerm>) {
    if let Some(term) = term {
        let register = term.register() as u128;
        let coefficient = term.coefficient() as u128;
        out.fill(" + r{} * {}", &[register, coefficient])
    }
}

/// A rank between two texts.
pub(crate) fn push_rank(out: &mut Text, before: &str, rank: Rank, behind: &str) {
    out.numbered(before, rank.constant as u64, "");
    push_term(out, rank.first);
    push_term(out, rank.second);
    out.push(behind)
}

/// Whether the byte at this place of the stack is known to be one of a number.
pub(crate) fn is_byte(entries: &[StackEntry<Value>], place: usize) -> bool {
    matches!(
        element_or(entries, place, StackEntry::Unknown),
        StackEntry::Byte
    )
}

/// The end of the range of bytes that begins at this place.
pub(crate) fn end_of(entries: &[StackEntry<Value>], start: usize) -> usize {
    for place in start..entries.len() {
        if !is_byte(entries, place) {
            return place;
        }
    }
    entries.len()
}

/// A line for the bytes or the pointer that begin at this place of the stack. Returns the end of
/// the bytes, if there are any.
fn push_entry(out: &mut Text, entries: &[StackEntry<Value>], place: usize) -> usize {
    match element_or(entries, place, StackEntry::Unknown) {
        StackEntry::Byte => {
            let end = end_of(entries, place);
            let last = end.saturating_sub(1);
            out.fill("    stack {}..{}: bytes\n", &[place as u128, last as u128]);
            end
        }
        StackEntry::Kept(kept) => {
            out.numbered("    stack ", place as u64, ": ");
            push_place(out, kept);
            out.push("\n");
            place
        }
        StackEntry::Unknown | StackEntry::Filled => place,
    }
}

/// What is known of the stack, a line for each range of bytes and each pointer.
pub(crate) fn push_stack(out: &mut Text, entries: &[StackEntry<Value>]) {
    let mut done = 0;
    for place in 0..entries.len() {
        if place >= done {
            done = push_entry(out, entries, place)
        }
    }
}
