//! The signed results of 64-bit operations. The numbers of the spans are biased.
ghost use Rattle.std.specs.Prelude.{◌≡◌, ℕ, ◌+◌, ◌-◌, ◌*◌, ◌%◌, ◌<◌, ◌≤◌, ◌^◌};
ghost use Rattle.isa.specs.declared.instruction.Operation.TheVariants.{Add, Subtract};
ghost use Rattle.isa.specs.declared.instruction.Width.TheVariants.{Bits64};
ghost use Rattle.isa.specs.Arithmetic.{low, operate};
ghost use Rattle.interval.specs.Bounds.{IsIn, bounds_of};
ghost use Rattle.interval.specs.Signs.{biased_number, IsNarrowSigned};

use crate::bounds::{every, wrapped};
use crate::span::Span;
use isa::{Operation, Width};

/// The difference between a biased number and the signed one.
const BIAS: u128 = 1 << 63;

/// The sums. Two biases are added instead of one; adding a third removes the other, modulo 2^64.
fn signed_sum(left: Span, right: Span) -> Span
    ensures holds { (a b : ℕ) → IsIn left (biased_number a) → IsIn right (biased_number b)
        → IsIn result (biased_number (low Bits64 (a + b))) }
    ensures narrow { IsNarrowSigned Bits64 Add (bounds_of left) (bounds_of right)
        (bounds_of result) }
{
    wrapped(
        Width::Bits64,
        left.low as u128 + right.low as u128 + BIAS,
        left.high as u128 + right.high as u128 + BIAS,
    )
}

/// The differences. The two biases cancel out, so one is added again.
fn signed_difference(left: Span, right: Span) -> Span
    ensures holds { (a b : ℕ) → b < 2 ^ 64 → IsIn left (biased_number a)
        → IsIn right (biased_number b)
        → IsIn result (biased_number (low Bits64 (a + (2 ^ 64 - b)))) }
    ensures narrow { IsNarrowSigned Bits64 Subtract (bounds_of left) (bounds_of right)
        (bounds_of result) }
{
    wrapped(
        Width::Bits64,
        left.low as u128 + (3 * BIAS - right.high as u128),
        left.high as u128 + (3 * BIAS - right.low as u128),
    )
}

/// The results of an operation: sums, differences and moves of 64 bits; else every number.
pub(crate) fn signed_results(width: Width, operation: Operation, left: Span, right: Span) -> Span
    ensures holds { (a b : ℕ) → a < 2 ^ 64 → b < 2 ^ 64 → IsIn left (biased_number a)
        → IsIn right (biased_number b)
        → IsIn result (biased_number (operate width operation (low width a)
        (low width b))) }
    ensures narrow { IsNarrowSigned width operation (bounds_of left) (bounds_of right)
        (bounds_of result) }
{
    match (width, operation) {
        (Width::Bits64, Operation::Add) => signed_sum(left, right),
        (Width::Bits64, Operation::Subtract) => signed_difference(left, right),
        (Width::Bits64, Operation::Move) => right,
        _ => every(Width::Bits64),
    }
}
