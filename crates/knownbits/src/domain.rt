//! Known bits as abstract values.
ghost use Rattle.std.specs.Prelude.{◌≡◌, ℕ, ◌%◌, ◌<◌, ◌≤◌, ◌^◌, Option};
ghost use Rattle.isa.specs.declared.instruction.Operation.TheVariants.{Add, Subtract, ShiftLeft};
ghost use Rattle.isa.specs.declared.instruction.Operation.TheVariants.{ShiftRight};
ghost use Rattle.isa.specs.Arithmetic.{bits, operate};
ghost use Rattle.absdom.specs.Unary.{unary_result};
ghost use Rattle.knownbits.specs.Masks.{HasBits, KnowsBelow};
ghost use Rattle.knownbits.specs.Known.{IsPrecise, IsPreciseResult, IsPreciseOf, IsPreciseRange};
ghost use Rattle.knownbits.specs.Known.{IsPreciseUnary, IsPreciseTest, IsPreciseWithin, HasResults};
ghost use Rattle.knownbits.specs.Known.{KnowsUpper, KnowsZerosTo, unary_width};

use crate::bits::{and, cut, every, is_single, join, low_zeros, or, shared, single, xor};
use crate::shift::{left_shift, right_shift, shift_count};
use crate::sum::{difference, sum};
use crate::value::KnownBits;
use absdom::arithmetic::unary;
use absdom::{Domain, UnaryOperation};
use isa::{Extension, Operation, SwapWidth, Test, Width, arithmetic};

/// The numbers shifted to the left; a single count moves the bits.
fn shifted_left(width: Width, left: KnownBits, right: KnownBits) -> KnownBits
    ensures holds { HasResults width ShiftLeft left right result }
    ensures precise { IsPrecise width ShiftLeft left right result }
    ensures upper { KnowsUpper width result }
{
    if !is_single(right) {
        return every(width);
    }
    left_shift(width, left, shift_count(width, right.value))
}

/// The numbers shifted to the right; a single count moves the bits.
fn shifted_right(width: Width, left: KnownBits, right: KnownBits) -> KnownBits
    ensures holds { HasResults width ShiftRight left right result }
    ensures precise { IsPrecise width ShiftRight left right result }
    ensures upper { KnowsUpper width result }
{
    if !is_single(right) {
        return every(width);
    }
    right_shift(width, left, shift_count(width, right.value))
}

/// The sums of numbers of the width.
fn added(width: Width, left: KnownBits, right: KnownBits) -> KnownBits
    ensures holds { HasResults width Add left right result }
    ensures precise { IsPrecise width Add left right result }
    ensures upper { KnowsUpper width result }
{
    cut(width, sum(left, right))
}

/// The differences of numbers of the width.
fn subtracted(width: Width, left: KnownBits, right: KnownBits) -> KnownBits
    ensures holds { HasResults width Subtract left right result }
    ensures precise { IsPrecise width Subtract left right result }
    ensures upper { KnowsUpper width result }
{
    cut(width, difference(left, right))
}

/// The known bits of the results of an operation on numbers of the width.
fn results(width: Width, operation: Operation, left: KnownBits, right: KnownBits) -> KnownBits
    requires left { KnowsUpper width left }
    requires right { KnowsUpper width right }
    ensures holds { HasResults width operation left right result }
    ensures precise { IsPrecise width operation left right result }
    ensures upper { KnowsUpper width result }
{
    match operation {
        Operation::And => and(left, right),
        Operation::Or => or(left, right),
        Operation::Xor => xor(left, right),
        Operation::Add => added(width, left, right),
        Operation::Subtract => subtracted(width, left, right),
        Operation::ShiftLeft => shifted_left(width, left, right),
        Operation::ShiftRight => shifted_right(width, left, right),
        Operation::Move => right,
        _ => every(width),
    }
}

/// The width that an instruction on one number reads and writes.
fn unary_width(operation: UnaryOperation) -> Width
    ensures { result ≡ unary_width operation }
{
    match operation {
        UnaryOperation::Negate(width) => width,
        UnaryOperation::Extend(Extension::Byte(width)) => width,
        UnaryOperation::Extend(Extension::Half(width)) => width,
        UnaryOperation::Extend(Extension::Word) => Width::Bits64,
        UnaryOperation::Reorder(_, SwapWidth::Bits64) => Width::Bits64,
        UnaryOperation::Reorder(_, _) => Width::Bits32,
    }
}

impl Domain for KnownBits {
    ghost contains = { HasBits };

    ghost constant_gives = { λ n k. KnowsBelow k 64 };

    ghost stated_gives = { λ low high mask value k. (k.mask ≡ mask) × (k.value ≡ value) };

    ghost within_gives = { IsPreciseWithin };

    ghost alu_gives = { IsPreciseOf };

    ghost unary_gives = { IsPreciseUnary };

    ghost assume_gives = { IsPreciseTest };

    ghost range_gives = { IsPreciseRange };

    ghost multiple_gives = { KnowsZerosTo };

    fn constant(number: u64) -> Self {
        single(number)
    }

    fn top() -> Self {
        KnownBits { mask: 0, value: 0 }
    }

    fn stated(low: u64, high: u64, mask: u64, value: u64) -> Self {
        let _ = (low, high);
        KnownBits { mask, value }
    }

    fn within(self, other: Self) -> bool {
        self.mask & other.mask == other.mask && self.value & other.mask == other.value
    }

    fn alu(operation: Operation, width: Width, left: Self, right: Self) -> Self {
        let left = cut(width, left);
        let right = cut(width, right);
        if is_single(left) && is_single(right) {
            return single(arithmetic::operate(width, operation, left.value, right.value));
        }
        results(width, operation, left, right)
    }

    fn unary(operation: UnaryOperation, operand: Self) -> Self {
        let width = unary_width(operation);
        let operand = cut(width, operand);
        if is_single(operand) {
            return single(unary(operation, operand.value));
        }
        every(width)
    }

    fn assume(test: Test, width: Width, left: Self, right: Self) -> Option<(Self, Self)> {
        match test {
            Test::Equal => {
                let joined_left = join(left, shared(width, right))?;
                let joined_right = join(right, shared(width, left))?;
                Some((joined_left, joined_right))
            }
            _ => Some((left, right)),
        }
    }

    fn range(self) -> (u64, u64) {
        (self.value, self.value | !self.mask)
    }

    fn multiple(self) -> u32 {
        low_zeros(self)
    }

    ghost below = { λ known n inside. inside.small };
}
