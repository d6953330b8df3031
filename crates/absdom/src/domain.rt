//! The operations of an abstract domain, and their laws.
ghost use Rattle.std.specs.Prelude.{◌≡◌, ℕ, ◌<◌, ◌≤◌, ◌^◌, ◌%◌, Bool, Option, IsTrue, IsSomeAnd};
ghost use Rattle.std.specs.Prelude.{bit_and};
ghost use Rattle.isa.specs.declared.instruction.Operation.{Operation};
ghost use Rattle.isa.specs.declared.instruction.Test.{Test};
ghost use Rattle.isa.specs.declared.instruction.Width.{Width};
ghost use Rattle.isa.specs.Arithmetic.{low, operate, test_holds};
ghost use Rattle.absdom.specs.declared.unary.UnaryOperation.{UnaryOperation};
ghost use Rattle.absdom.specs.Unary.{unary_result};

use crate::unary::UnaryOperation;
use isa::{Operation, Test, Width};

/// An abstract value: a set of numbers below 2^64.
///
/// The laws say that no number is lost. What a domain promises on top, about how narrow its results
/// are, is in the members whose names end in `gives`.
pub trait Domain: Copy {
    /// The numbers that a value stands for.
    ghost contains: { Self → ℕ → Type 0 };

    ghost constant_gives: { ℕ → Self → Type 0 };

    ghost stated_gives: { ℕ → ℕ → ℕ → ℕ → Self → Type 0 };

    ghost within_gives: { Self → Self → Bool → Type 0 };

    ghost alu_gives: { Operation → Width → Self → Self → Self → Type 0 };

    ghost unary_gives: { UnaryOperation → Self → Self → Type 0 };

    ghost assume_gives: { Test → Width → Self → Self → Option (Self × Self) → Type 0 };

    ghost range_gives: { Self → ℕ × ℕ → Type 0 };

    ghost multiple_gives: { Self → ℕ → Type 0 };

    /// A value for one number.
    fn constant(number: u64) -> Self
        ensures holds { contains result number }
        ensures gives { constant_gives number result };

    /// A value for every number.
    fn top() -> Self
        ensures holds { (n : ℕ) → n < 2 ^ 64 → contains result n };

    /// A value for the numbers from low to high whose bits under the mask are those of value.
    fn stated(low: u64, high: u64, mask: u64, value: u64) -> Self
        ensures holds { (n : ℕ) → low ≤ n → n ≤ high → bit_and n mask ≡ value → contains result n }
        ensures gives { stated_gives low high mask value result };

    /// Whether the other value is known to have each number of this one.
    fn within(self, other: Self) -> bool
        ensures included { IsTrue result → (n : ℕ) → contains self n → contains other n }
        ensures everything { ((n : ℕ) → n < 2 ^ 64 → contains other n) → IsTrue result }
        ensures gives { within_gives self other result };

    /// A value for the results of the operation on the low bits of two numbers. The result of an
    /// operation of 32 bits is below 2^32.
    fn alu(operation: Operation, width: Width, left: Self, right: Self) -> Self
        ensures holds { (a b : ℕ) → contains left a → contains right b
            → contains result (operate width operation (low width a) (low width b)) }
        ensures gives { alu_gives operation width left right result };

    /// A value for the results of the operation on one number.
    fn unary(operation: UnaryOperation, operand: Self) -> Self
        ensures holds { (a : ℕ) → contains operand a → contains result (unary_result operation a) }
        ensures gives { unary_gives operation operand result };

    /// Values for the pairs whose low bits meet the test. `None` only if no pair meets it.
    fn assume(test: Test, width: Width, left: Self, right: Self) -> Option<(Self, Self)>
        ensures holds { (a b : ℕ) → contains left a → contains right b
            → IsTrue (test_holds width test (low width a) (low width b))
            → IsSomeAnd result (λ pair. contains pair.0 a × contains pair.1 b) }
        ensures gives { assume_gives test width left right result };

    /// A lower and an upper bound of the numbers.
    fn range(self) -> (u64, u64)
        ensures holds { (n : ℕ) → contains self n → (result.0 ≤ n) × (n ≤ result.1) }
        ensures gives { range_gives self result };

    /// The exponent of a power of two that divides each number, from 0 to 64: 0 says nothing, and
    /// 64 that 0 is the only number of 64 bits. It needn't be the greatest such exponent.
    fn multiple(self) -> u32
        ensures holds { (n : ℕ) → contains self n → n % 2 ^ result ≡ 0 }
        ensures gives { multiple_gives self result };

    ghost below: { (value : Self) (n : ℕ) → contains value n → n < 2 ^ 64 };
}
