//! How the parts of a pair narrow each other.
ghost use Rattle.std.specs.Prelude.{◌≡◌, ℕ, ◌≤◌, IsTrue, IsSomeAnd, IfSome};
ghost use Rattle.isa.specs.declared.instruction.Width.TheVariants.{Bits64};
ghost use Rattle.isa.specs.Arithmetic.{test_holds};
ghost use Rattle.absdom.specs.Narrowing.{IsLeft, IsWithinRange, IsWithinSingle, IsNarrowed};

use crate::domain::Domain;
use crate::pair::Pair;
use isa::{Test, Width};

/// The numbers of the value that meet the test against a number.
fn left_by<D: Domain>(test: Test, value: D, number: u64) -> Option<D>
    ensures holds { (n : ℕ) → D.contains value n → IsTrue (test_holds Bits64 test n number)
        → IsSomeAnd result (λ left. D.contains left n) }
    ensures gives { IfSome result (λ left. IsLeft D.constant_gives D.assume_gives test value number
        left) }
{
    let (left, _) = D::assume(test, Width::Bits64, value, D::constant(number))?;
    Some(left)
}

/// The numbers of the value that lie in the range, both ends included.
fn within_range<D: Domain>(value: D, range: (u64, u64)) -> Option<D>
    ensures holds { (n : ℕ) → D.contains value n → range.0 ≤ n → n ≤ range.1
        → IsSomeAnd result (λ left. D.contains left n) }
    ensures gives { IfSome result (λ left. IsWithinRange D.constant_gives D.assume_gives value range
        left) }
{
    let above = left_by(Test::GreaterOrEqual, value, range.0)?;
    left_by(Test::LessOrEqual, above, range.1)
}

/// What the value has of the range, if that is a single number; else the value unchanged.
fn within_single<D: Domain>(value: D, range: (u64, u64)) -> Option<D>
    ensures holds { (n : ℕ) → D.contains value n → range.0 ≤ n → n ≤ range.1
        → IsSomeAnd result (λ left. D.contains left n) }
    ensures gives { IfSome result (λ left. IsWithinSingle D.constant_gives D.assume_gives value
        range left) }
{
    if range.0 == range.1 {
        left_by(Test::Equal, value, range.0)
    } else {
        Some(value)
    }
}

/// The pair of both values, each narrowed by the other: the first to the range of the second, and
/// then the second to the first, if that is a single number. `None` only if they have no number in
/// common.
pub(crate) fn narrowed<A: Domain, B: Domain>(first: A, second: B) -> Option<Pair<A, B>>
    ensures holds { (n : ℕ) → A.contains first n → B.contains second n
        → IsSomeAnd result (λ pair. A.contains pair.first n × B.contains pair.second n) }
    ensures gives { IfSome result (λ pair. IsNarrowed A.constant_gives A.assume_gives A.range_gives
        B.constant_gives B.assume_gives B.range_gives first second pair) }
{
    let first = within_range(first, second.range())?;
    let second = within_single(second, first.range())?;
    Some(Pair { first, second })
}

/// The pair of both values, narrowed; unchanged if they have no number in common.
pub(crate) fn paired<A: Domain, B: Domain>(first: A, second: B) -> Pair<A, B>
    ensures holds { (n : ℕ) → A.contains first n → B.contains second n → A.contains result.first n
        × B.contains result.second n }
    ensures gives { (n : ℕ) → A.contains first n → B.contains second n
        → IsNarrowed A.constant_gives A.assume_gives A.range_gives B.constant_gives B.assume_gives
        B.range_gives first second result }
{
    match narrowed(first, second) {
        Some(pair) => pair,
        None => Pair { first, second },
    }
}
