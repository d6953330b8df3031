//! Intervals as abstract values.
ghost use Rattle.std.specs.Prelude.{◌≡◌, ℕ, ◌≤◌, ◌<◌, ◌↔◌, IsTrue};
ghost use Rattle.std.specs.Int.{trailing_zeros, w64};
ghost use Rattle.interval.specs.Bounds.{bounds_of, IsInside};
ghost use Rattle.interval.specs.Results.{IsNarrowUnaryResult};
ghost use Rattle.interval.specs.Members.{IsMember};
ghost use Rattle.interval.specs.Narrow.{IsNarrowInterval, IsTrimmedAnswer};

use crate::bounds::{cut, every, single};
use crate::order::assumed;
use crate::results::{results, unary_results};
use crate::signed_order::assumed_signed;
use crate::signed_results::signed_results;
use crate::signs::{between_both, narrowed, of};
use crate::span::Span;
use crate::value::Interval;
use absdom::{Domain, UnaryOperation};
use isa::{Operation, Test, Width};

/// Whether the bounds of one span lie within those of the other.
fn is_inside(inner: Span, outer: Span) -> bool
    ensures { IsTrue result ↔ IsInside (bounds_of inner) (bounds_of outer) }
{
    outer.low <= inner.low && inner.high <= outer.high
}

impl Domain for Interval {
    ghost contains = { IsMember };

    ghost constant_gives = { λ number i. (i.unsigned.low ≡ number) × (i.unsigned.high ≡ number) };

    ghost stated_gives = { λ low high mask value i. low ≤ high → (i.unsigned.low ≡ low)
        × (i.unsigned.high ≡ high) };

    ghost within_gives = { λ i other answer. IsInside (bounds_of i.unsigned)
        (bounds_of other.unsigned) → IsInside (bounds_of i.signed) (bounds_of other.signed)
        → IsTrue answer };

    ghost alu_gives = { IsNarrowInterval };

    ghost unary_gives = { λ operation operand i. IsNarrowUnaryResult operation
        (bounds_of operand.unsigned) (bounds_of i.unsigned) };

    ghost assume_gives = { IsTrimmedAnswer };

    ghost range_gives = { λ i answer. (answer.0 ≡ i.unsigned.low) × (answer.1 ≡ i.unsigned.high) };

    ghost multiple_gives = { λ i k. i.unsigned.low ≡ i.unsigned.high
        → k ≡ trailing_zeros w64 i.unsigned.low };

    fn constant(number: u64) -> Self {
        of(single(number))
    }

    fn top() -> Self {
        of(every(Width::Bits64))
    }

    fn stated(low: u64, high: u64, mask: u64, value: u64) -> Self {
        let _ = (mask, value);
        if low <= high {
            of(Span { low, high })
        } else {
            Self::top()
        }
    }

    fn within(self, other: Self) -> bool {
        is_inside(self.unsigned, other.unsigned) && is_inside(self.signed, other.signed)
    }

    fn alu(operation: Operation, width: Width, left: Self, right: Self) -> Self {
        let low_left = cut(width, left.unsigned);
        let low_right = cut(width, right.unsigned);
        between_both(
            results(width, operation, low_left, low_right),
            signed_results(width, operation, left.signed, right.signed),
        )
    }

    fn unary(operation: UnaryOperation, operand: Self) -> Self {
        of(unary_results(operation, operand.unsigned))
    }

    fn assume(test: Test, width: Width, left: Self, right: Self) -> Option<(Self, Self)> {
        let (low_left, low_right) = assumed(test, width, left.unsigned, right.unsigned)?;
        let (signed_left, signed_right) = assumed_signed(test, width, left.signed, right.signed)?;
        let left = narrowed(low_left, signed_left)?;
        let right = narrowed(low_right, signed_right)?;
        Some((left, right))
    }

    fn range(self) -> (u64, u64) {
        (self.unsigned.low, self.unsigned.high)
    }

    fn multiple(self) -> u32 {
        if self.unsigned.low == self.unsigned.high {
            self.unsigned.low.trailing_zeros()
        } else {
            0
        }
    }

    ghost below = { λ i n inside. inside.unsigned.small };
}
