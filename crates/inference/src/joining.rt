//! Joins of statements.
ghost use Rattle.std.specs.Prelude.{◌<◌};

use crate::liveness::{Registers, has};
use crate::memory::element_or;
use crate::widening::{above, below};
use absdom::{Domain, Pair};
use interval::Interval;
use isa::Map;
use kinds::{AbstractState, Kind as Known, PointerPlace, are_bytes};
use knownbits::KnownBits;
use object::{ContextOffset, Rank, StackBytes, StackOffset, StatedKind, StatedNumber, Statement};

/// The abstract values that the verifier of object files uses.
pub type Value = Pair<Interval, KnownBits>;

/// The rank of statements that have none yet.
pub const NO_RANK: Rank = Rank {
    constant: 0,
    first: None,
    second: None,
};

/// What becomes of a bound that has grown.
#[derive(Clone, Copy)]
pub struct Growth<'a> {
    /// It is kept as it is.
    pub is_exact: bool,
    /// Else it is widened to the next of these, or given up if there is none.
    pub limits: &'a [u64],
}

fn number(low: u64, high: u64, mask: u64, value: u64) -> Option<StatedNumber> {
    if low == high {
        return StatedNumber::new(low, high, 0, 0);
    }
    StatedNumber::new(low, high, mask, value & mask)
}

/// The numbers of the value.
fn stated_of(value: Value) -> Option<StatedNumber> {
    let (low, high) = value.range();
    number(low, high, value.second.mask, value.second.value)
}

/// The kind of one of these numbers, if there are any.
fn numbered(numbers: Option<StatedNumber>) -> StatedKind {
    match numbers {
        Some(numbers) => StatedKind::Number(numbers),
        None => StatedKind::Unstated,
    }
}

/// The kind of a pointer into the map at one of these offsets, if there are any.
fn placed(map: Map, numbers: Option<StatedNumber>) -> StatedKind {
    match numbers {
        Some(numbers) => StatedKind::MapValue(map, numbers),
        None => StatedKind::Unstated,
    }
}

/// The statement of what is known of a register: `Empty` if an object can't express it.
fn told(known: Known<Value>) -> StatedKind {
    match known {
        Known::Unknown => StatedKind::Unstated,
        Known::Number(value) => numbered(stated_of(value)),
        Known::Pointer(PointerPlace::Context(at)) => match ContextOffset::new(at.min(65) as u32) {
            Some(offset) => StatedKind::Context(offset),
            None => StatedKind::Unstated,
        },
        Known::Pointer(PointerPlace::Stack(at)) => match StackOffset::new(at.min(513) as u32) {
            Some(offset) => StatedKind::Stack(offset),
            None => StatedKind::Unstated,
        },
        Known::Pointer(PointerPlace::Map(map, value)) => placed(map, stated_of(value)),
    }
}

/// The known bits of the numbers, and which of those are set; all bits of a single number are
/// known.
fn known_bits(numbers: StatedNumber) -> (u64, u64) {
    if numbers.low() == numbers.high() {
        (u64::MAX, numbers.low())
    } else {
        (numbers.mask(), numbers.value())
    }
}

/// The join of both sets of numbers. Known are the bits with the same known value in both; of
/// numbers that keep growing only the lowest ones, since higher ones would give the old bounds
/// back.
fn joined_numbers(
    growth: Growth<'_>,
    old: StatedNumber,
    new: StatedNumber,
) -> Option<StatedNumber> {
    let (old_mask, old_bits) = known_bits(old);
    let (new_mask, new_bits) = known_bits(new);
    let mut mask = old_mask & new_mask & !(old_bits ^ new_bits);
    let mut low = old.low().min(new.low());
    let mut high = old.high().max(new.high());
    let falls = low < old.low();
    let rises = old.high() < high;
    if !growth.is_exact & (falls | rises) {
        mask &= !mask.wrapping_add(1);
        if falls {
            low = below(growth.limits, low);
        }
        if rises {
            high = above(growth.limits, high);
        }
    }
    number(low, high, mask, old_bits)
}

/// The join of what both say of a register.
fn joined_kind(growth: Growth<'_>, old: &StatedKind, new: &StatedKind) -> StatedKind {
    if *old == *new {
        return *old;
    }
    match (old, new) {
        (StatedKind::Number(old), StatedKind::Number(new)) => numbered(joined_numbers(
            growth, *old, *new,
        )),
        (StatedKind::MapValue(map, old), StatedKind::MapValue(other, new)) => {
            if *map == *other {
                placed(*map, joined_numbers(growth, *old, *new))
            } else {
                StatedKind::Unstated
            }
        }
        _ => StatedKind::Unstated,
    }
}

/// What is known of the live registers, as statements say it.
fn kinds_of(live: Registers, known: &[Known<Value>]) -> [StatedKind; 10] {
    let mut kinds = [StatedKind::Unstated; 10];
    for register in 0..10 {
        if has(live, register) {
            kinds[register] = told(element_or(known, register, Known::Unknown));
        }
    }
    kinds
}

/// Those of these stack bytes that are known to be bytes of numbers.
fn bytes_of(state: &AbstractState<Value>, others: &StackBytes) -> StackBytes {
    let mut bytes = StackBytes::new();
    for place in 0..state.entries.len().min(512) {
        if others.contains(place) && are_bytes(&state.entries, place, place + 1) {
            bytes.insert_range(place, place + 1);
        }
    }
    bytes
}

fn statement_at(slot: usize, kinds: [StatedKind; 10], bytes: StackBytes) -> Option<Statement> {
    match u32::try_from(slot) {
        Ok(slot) => Statement::new(slot, NO_RANK, kinds, bytes),
        Err(_) => None,
    }
}

/// The statement of what is known.
pub fn first_statement(
    slot: usize,
    live: Registers,
    state: &AbstractState<Value>,
) -> Option<Statement> {
    let mut all = StackBytes::new();
    all.insert_range(0, 512);
    statement_at(slot, kinds_of(live, &state.kinds), bytes_of(state, &all))
}

/// The join of the old statement and what is known.
pub fn joined_statement(
    growth: Growth<'_>,
    old: &Statement,
    live: Registers,
    state: &AbstractState<Value>,
) -> Option<Statement> {
    let mut kinds = kinds_of(live, &state.kinds);
    for register in 0..10 {
        let before = element_or(old.kinds(), register, StatedKind::Unstated);
        let joined = joined_kind(growth, &before, &kinds[register]);
        kinds[register] = joined;
    }
    let bytes = bytes_of(state, old.stack());
    Statement::new(old.slot(), NO_RANK, kinds, bytes)
}

/// What is known of a register that may hold any number.
pub fn any_number() -> Known<Value> {
    Known::Number(Value::top())
}

/// A statement for a slot that no edge reaches: registers that are read hold any number.
pub fn idle_statement(slot: usize, live: Registers) -> Option<Statement> {
    let known = [any_number(); 10];
    statement_at(slot, kinds_of(live, &known), StackBytes::new())
}
