//! The results of each operation on the numbers of two spans.
ghost use Rattle.std.specs.Prelude.{◌≡◌, ℕ, ◌+◌, ◌-◌, ◌*◌, ◌%◌, ◌<◌, ◌≤◌, ◌^◌};
ghost use Rattle.isa.specs.declared.instruction.Operation.TheVariants.{Add, Subtract, Multiply};
ghost use Rattle.isa.specs.declared.instruction.Operation.TheVariants.{Divide, And, ShiftLeft};
ghost use Rattle.isa.specs.declared.instruction.Operation.TheVariants.{ShiftRight, Modulo};
ghost use Rattle.isa.specs.Arithmetic.{bits, low};
ghost use Rattle.absdom.specs.Unary.{unary_result, unary_modulus};
ghost use Rattle.interval.specs.Bounds.{IsIn, bounds_of, IsSingle};
ghost use Rattle.interval.specs.Results.{HasResults, IsNarrow, IsNarrowResult, IsNarrowUnaryResult};

use crate::bounds::{cut, every, modulus, single, wrapped};
use crate::span::Span;
use absdom::UnaryOperation;
use absdom::arithmetic::unary;
use isa::{Extension, Operation, SwapWidth, Width, arithmetic};

fn sum(width: Width, left: Span, right: Span) -> Span
    requires left { left.high < 2 ^ bits width }
    requires right { right.high < 2 ^ bits width }
    ensures holds { HasResults width Add left right result }
    ensures narrow { IsNarrow width Add (bounds_of left) (bounds_of right) (bounds_of result) }
    ensures small { result.high < 2 ^ bits width }
{
    wrapped(
        width,
        left.low as u128 + right.low as u128,
        left.high as u128 + right.high as u128,
    )
}

fn difference(width: Width, left: Span, right: Span) -> Span
    requires left { left.high < 2 ^ bits width }
    requires right { right.high < 2 ^ bits width }
    ensures holds { HasResults width Subtract left right result }
    ensures narrow { IsNarrow width Subtract (bounds_of left) (bounds_of right) (bounds_of result) }
    ensures small { result.high < 2 ^ bits width }
{
    let modulus = modulus(width);
    wrapped(
        width,
        left.low as u128 + (modulus - right.high as u128),
        left.high as u128 + (modulus - right.low as u128),
    )
}

fn product(width: Width, left: Span, right: Span) -> Span
    ensures holds { HasResults width Multiply left right result }
    ensures narrow { IsNarrow width Multiply (bounds_of left) (bounds_of right) (bounds_of result) }
    ensures small { result.high < 2 ^ bits width }
{
    wrapped(
        width,
        left.low as u128 * right.low as u128,
        left.high as u128 * right.high as u128,
    )
}

/// The quotients. A quotient by 0 is 0.
fn quotient(width: Width, left: Span, right: Span) -> Span
    requires left { left.high < 2 ^ bits width }
    ensures holds { HasResults width Divide left right result }
    ensures narrow { IsNarrow width Divide (bounds_of left) (bounds_of right) (bounds_of result) }
    ensures small { result.high < 2 ^ bits width }
{
    if right.low == 0 {
        return Span {
            low: 0,
            high: left.high,
        };
    }
    Span {
        low: left.low / right.high,
        high: left.high / right.low,
    }
}

/// The remainders. A remainder by 0 is the dividend.
fn remainder(width: Width, left: Span, right: Span) -> Span
    requires left { left.high < 2 ^ bits width }
    ensures holds { HasResults width Modulo left right result }
    ensures narrow { IsNarrow width Modulo (bounds_of left) (bounds_of right) (bounds_of result) }
    ensures small { result.high < 2 ^ bits width }
{
    if right.low == 0 {
        return Span {
            low: 0,
            high: left.high,
        };
    }
    Span {
        low: 0,
        high: left.high.min(right.high - 1),
    }
}

/// The results of an AND.
#[tactic(auto, using(std::proofs::lemmas::Nat::and_le_l, std::proofs::lemmas::Nat::and_le_r))]
fn conjunction(width: Width, left: Span, right: Span) -> Span
    requires left { left.high < 2 ^ bits width }
    ensures holds { HasResults width And left right result }
    ensures narrow { IsNarrow width And (bounds_of left) (bounds_of right) (bounds_of result) }
    ensures small { result.high < 2 ^ bits width }
{
    Span {
        low: 0,
        high: left.high.min(right.high),
    }
}

/// The number of bits that a shift by this number moves.
fn shift_count(width: Width, number: u64) -> u64
    ensures value { result ≡ number % bits width }
    ensures small { result < 64 }
{
    match width {
        Width::Bits32 => number % 32,
        Width::Bits64 => number % 64,
    }
}

/// The power of two that a left shift multiplies by.
fn power(width: Width, number: u64) -> u64
    ensures { result ≡ 2 ^ (number % bits width) }
{
    1 << shift_count(width, number)
}

/// The numbers shifted to the left; by a single count, the products with its power of two.
fn left_shift(width: Width, left: Span, right: Span) -> Span
    ensures holds { HasResults width ShiftLeft left right result }
    ensures narrow { IsNarrow width ShiftLeft (bounds_of left) (bounds_of right)
        (bounds_of result) }
    ensures small { result.high < 2 ^ bits width }
{
    if right.low != right.high {
        return every(width);
    }
    product(width, left, single(power(width, right.low)))
}

/// The numbers shifted to the right; no result exceeds the number.
fn right_shift(width: Width, left: Span, right: Span) -> Span
    requires left { left.high < 2 ^ bits width }
    ensures holds { HasResults width ShiftRight left right result }
    ensures narrow { IsNarrow width ShiftRight (bounds_of left) (bounds_of right)
        (bounds_of result) }
    ensures small { result.high < 2 ^ bits width }
{
    if right.low != right.high {
        return Span {
            low: 0,
            high: left.high,
        };
    }
    let count = shift_count(width, right.low);
    Span {
        low: left.low >> count,
        high: left.high >> count,
    }
}

/// The results of an operation on numbers of the width.
pub(crate) fn results(width: Width, operation: Operation, left: Span, right: Span) -> Span
    requires left { left.high < 2 ^ bits width }
    requires right { right.high < 2 ^ bits width }
    ensures holds { HasResults width operation left right result }
    ensures narrow { IsNarrowResult width operation (bounds_of left) (bounds_of right)
        (bounds_of result) }
{
    if left.low == left.high && right.low == right.high {
        return single(arithmetic::operate(width, operation, left.low, right.low));
    }
    match operation {
        Operation::Add => sum(width, left, right),
        Operation::Subtract => difference(width, left, right),
        Operation::Multiply => product(width, left, right),
        Operation::Divide => quotient(width, left, right),
        Operation::Modulo => remainder(width, left, right),
        Operation::And => conjunction(width, left, right),
        Operation::ShiftLeft => left_shift(width, left, right),
        Operation::ShiftRight => right_shift(width, left, right),
        Operation::Move => right,
        _ => every(width),
    }
}

/// The negations of numbers of the width.
fn negation(width: Width, operand: Span) -> Span
    requires { operand.high < 2 ^ bits width }
    ensures holds { (n : ℕ) → IsIn operand n → IsIn result (low width (2 ^ bits width - n)) }
    ensures narrow { 0 < operand.low → (result.low ≡ 2 ^ bits width - operand.high)
        × (result.high ≡ 2 ^ bits width - operand.low) }
    ensures small { result.high < 2 ^ bits width }
{
    let modulus = modulus(width);
    wrapped(
        width,
        modulus - operand.high as u128,
        modulus - operand.low as u128,
    )
}

/// The greatest possible result of an operation on one number.
fn greatest(operation: UnaryOperation) -> u64
    ensures { result + 1 ≡ unary_modulus operation }
{
    match operation {
        UnaryOperation::Negate(Width::Bits32)
        | UnaryOperation::Extend(Extension::Byte(Width::Bits32) | Extension::Half(Width::Bits32))
        | UnaryOperation::Reorder(_, SwapWidth::Bits32) => 4294967295,
        UnaryOperation::Reorder(_, SwapWidth::Bits16) => 65535,
        _ => 18446744073709551615,
    }
}

/// The results of an operation on one number.
pub(crate) fn unary_results(operation: UnaryOperation, operand: Span) -> Span
    ensures holds { (n : ℕ) → IsIn operand n → IsIn result (unary_result operation n) }
    ensures narrow { IsNarrowUnaryResult operation (bounds_of operand) (bounds_of result) }
{
    if operand.low == operand.high {
        return single(unary(operation, operand.low));
    }
    match operation {
        UnaryOperation::Negate(width) => negation(width, cut(width, operand)),
        _ => Span {
            low: 0,
            high: greatest(operation),
        },
    }
}
