//! What instructions make of numbers and pointers.
ghost use Rattle.std.specs.Prelude.{◌≡◌, ◌<◌, ◌^◌};
ghost use Rattle.machine.specs.Memory.{at_distance};
ghost use Rattle.machine.specs.Steps.{moved_pointer, combined_content};
ghost use Rattle.machine.specs.Steps.{copied_content, result_of, test_result};
ghost use Rattle.machine.specs.Faults.{has, is_nothing, operation_reads, is_same_pointer};

use isa::{Map, Operation, Test, Width, arithmetic};
use machine::{Content, Pointer};

/// The pointer moved within its region. Its offset wraps.
pub(crate) fn at_distance(pointer: Pointer, distance: u64) -> Pointer
    ensures { result ≡ at_distance pointer distance }
{
    match pointer {
        Pointer::Context(offset) => Pointer::Context(offset.wrapping_add(distance)),
        Pointer::Stack(offset) => Pointer::Stack(offset.wrapping_add(distance)),
        Pointer::Map(map, offset) => Pointer::Map(map, offset.wrapping_add(distance)),
    }
}

fn is_same_map(a: Map, b: Map) -> bool
    ensures { result ≡ Rattle.machine.specs.Faults.is_same_map a b }
{
    match (a, b) {
        (Map::Counters, Map::Counters) | (Map::Cells, Map::Cells) => true,
        _ => false,
    }
}

pub(crate) fn is_same_pointer(a: Pointer, b: Pointer) -> bool
    ensures { result ≡ is_same_pointer a b }
{
    match (a, b) {
        (Pointer::Context(i), Pointer::Context(j)) => i == j,
        (Pointer::Stack(i), Pointer::Stack(j)) => i == j,
        (Pointer::Map(m, i), Pointer::Map(n, j)) => is_same_map(m, n) && i == j,
        _ => false,
    }
}

/// A pointer with a number added or subtracted; `None` for any other operation.
fn displaced(operation: Operation, pointer: Pointer, number: u64) -> Option<Content>
    ensures { result ≡ moved_pointer operation pointer number }
{
    match operation {
        Operation::Add => Some(Content::Address(at_distance(pointer, number))),
        Operation::Subtract => {
            Some(Content::Address(at_distance(pointer, 0u64.wrapping_sub(number))))
        }
        _ => None,
    }
}

/// The result of an operation other than a move on two contents; `None` if it isn't allowed.
fn combined(width: Width, operation: Operation, left: Content, right: Content) -> Option<Content>
    ensures { result ≡ combined_content width operation left right }
{
    match (left, right) {
        (Content::Number(a), Content::Number(b)) => {
            Some(Content::Number(arithmetic::operate(width, operation, a, b)))
        }
        (Content::Address(pointer), Content::Number(b)) => match width {
            Width::Bits32 => None,
            Width::Bits64 => displaced(operation, pointer, b),
        },
        _ => None,
    }
}

/// What a move copies; `None` if it isn't allowed.
fn copied(width: Width, content: Content) -> Option<Content>
    ensures { result ≡ copied_content width content }
{
    match content {
        Content::Nothing => None,
        Content::Number(number) => Some(Content::Number(arithmetic::low(width, number))),
        Content::Address(_) => match width {
            Width::Bits32 => None,
            Width::Bits64 => Some(content),
        },
    }
}

/// The result of an operation on two contents; `None` if it isn't allowed.
pub(crate) fn result_of(
    width: Width,
    operation: Operation,
    left: Content,
    right: Content,
) -> Option<Content>
    ensures { result ≡ result_of width operation left right }
{
    match operation {
        Operation::Move => copied(width, right),
        _ => combined(width, operation, left, right),
    }
}

/// Whether an operation reads an empty register.
pub(crate) fn reads_nothing(operation: Operation, left: Content, right: Content) -> bool
    ensures { result ≡ has is_nothing (operation_reads operation left right) }
{
    match operation {
        Operation::Move => matches!(right, Content::Nothing),
        _ => matches!(left, Content::Nothing) || matches!(right, Content::Nothing),
    }
}

/// Whether a test of two contents holds; `None` if it isn't allowed.
pub(crate) fn tested(width: Width, test: Test, left: Content, right: Content) -> Option<bool>
    ensures { result ≡ test_result width test left right }
{
    match (left, right) {
        (Content::Number(a), Content::Number(b)) => Some(arithmetic::test_holds(width, test, a, b)),
        _ => None,
    }
}
