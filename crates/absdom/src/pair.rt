//! Two abstract values side by side.
ghost use Rattle.std.specs.Prelude.{◌≡◌, ℕ, Bool, Option, Some, IfSome, max, false, if◌then◌else◌};
ghost use Rattle.absdom.specs.Narrowing.{IsNarrowed};

use crate::domain::Domain;
use crate::narrowing::{narrowed, paired};
use crate::unary::UnaryOperation;
use isa::{Operation, Test, Width};

/// The numbers that both parts stand for.
///
/// Each result is narrowed: the first part lies in the range of the second, and if the first is a
/// single number, so is the second, as far as the tests of the two domains can tell.
#[derive(Clone, Copy)]
pub struct Pair<A, B> {
    pub first: A,
    pub second: B,
}

impl<A: Domain, B: Domain> Domain for Pair<A, B> {
    ghost contains = { λ p n. A.contains p.first n × B.contains p.second n };

    ghost constant_gives = { λ n p. A.constant_gives n p.first × B.constant_gives n p.second };

    ghost stated_gives = { λ low high mask value p. (x : A) × (y : B)
        × A.stated_gives low high mask value x × B.stated_gives low high mask value y
        × ((n : ℕ) → A.contains x n → B.contains y n → IsNarrowed A.constant_gives A.assume_gives
        A.range_gives B.constant_gives B.assume_gives B.range_gives x y p) };

    ghost within_gives = { λ p other answer. (x : Bool) × (y : Bool)
        × A.within_gives p.first other.first x × B.within_gives p.second other.second y
        × (answer ≡ (if x then y else false)) };

    ghost alu_gives = { λ operation width left right p. (x : A) × (y : B)
        × A.alu_gives operation width left.first right.first x
        × B.alu_gives operation width left.second right.second y × ((n : ℕ) → A.contains x n
        → B.contains y n → IsNarrowed A.constant_gives A.assume_gives A.range_gives B.constant_gives
        B.assume_gives B.range_gives x y p) };

    ghost unary_gives = { λ operation operand p. (x : A) × (y : B)
        × A.unary_gives operation operand.first x × B.unary_gives operation operand.second y
        × ((n : ℕ) → A.contains x n → B.contains y n → IsNarrowed A.constant_gives A.assume_gives
        A.range_gives B.constant_gives B.assume_gives B.range_gives x y p) };

    ghost assume_gives = { λ test width left right answer. IfSome answer (λ both. (x : A × A)
        × (y : B × B) × A.assume_gives test width left.first right.first (Some x)
        × B.assume_gives test width left.second right.second (Some y)
        × IsNarrowed A.constant_gives A.assume_gives A.range_gives B.constant_gives B.assume_gives
        B.range_gives x.0 y.0 both.0 × IsNarrowed A.constant_gives A.assume_gives A.range_gives
        B.constant_gives B.assume_gives B.range_gives x.1 y.1 both.1) };

    ghost range_gives = { λ p answer. A.range_gives p.first answer };

    ghost multiple_gives = { λ p k. (x : ℕ) × (y : ℕ) × A.multiple_gives p.first x
        × B.multiple_gives p.second y × (k ≡ max x y) };

    fn constant(number: u64) -> Self {
        Pair {
            first: A::constant(number),
            second: B::constant(number),
        }
    }

    fn top() -> Self {
        Pair {
            first: A::top(),
            second: B::top(),
        }
    }

    fn stated(low: u64, high: u64, mask: u64, value: u64) -> Self {
        let first = A::stated(low, high, mask, value);
        let second = B::stated(low, high, mask, value);
        paired(first, second)
    }

    fn within(self, other: Self) -> bool {
        let first = self.first.within(other.first);
        let second = self.second.within(other.second);
        first && second
    }

    fn alu(operation: Operation, width: Width, left: Self, right: Self) -> Self {
        let first = A::alu(operation, width, left.first, right.first);
        let second = B::alu(operation, width, left.second, right.second);
        paired(first, second)
    }

    fn unary(operation: UnaryOperation, operand: Self) -> Self {
        let first = A::unary(operation, operand.first);
        let second = B::unary(operation, operand.second);
        paired(first, second)
    }

    fn assume(test: Test, width: Width, left: Self, right: Self) -> Option<(Self, Self)> {
        let (left_first, right_first) = A::assume(test, width, left.first, right.first)?;
        let (left_second, right_second) = B::assume(test, width, left.second, right.second)?;
        let left = narrowed(left_first, left_second)?;
        let right = narrowed(right_first, right_second)?;
        Some((left, right))
    }

    fn range(self) -> (u64, u64) {
        self.first.range()
    }

    fn multiple(self) -> u32 {
        self.first.multiple().max(self.second.multiple())
    }

    ghost below = { λ p n both. A.below p.first n both.0 };
}
