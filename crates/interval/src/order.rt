//! The pairs of numbers of two spans that meet a test.
ghost use Rattle.std.specs.Prelude.{◌≡◌, ℕ, ◌*◌, ◌<◌, ◌≤◌, ◌^◌, ◌⊎◌, ◌↔◌, ◌==◌, not, nat_lt};
ghost use Rattle.std.specs.Prelude.{nat_le, Bool, IsTrue, IsSome, IsSomeAnd, IfSome};
ghost use Rattle.isa.specs.declared.instruction.Width.{Width};
ghost use Rattle.isa.specs.Arithmetic.{bits, low, test_holds};
ghost use Rattle.interval.specs.Bounds.{IsIn, bounds_of, IsInside};
ghost use Rattle.interval.specs.Order.{KeepsPairs, HasPartner, StaysInside, IsTightAnswer};
ghost use Rattle.interval.specs.Order.{IsUnsigned, AreNotNegative, IsTrimmed};

use crate::bounds::{between, modulus};
use crate::span::Span;
use isa::{Test, Width};

fn equal(left: Span, right: Span) -> Option<(Span, Span)>
    ensures holds { KeepsPairs (λ a b. a == b) left right result }
    ensures inside { StaysInside left right result }
    ensures tight { IsTightAnswer (λ a b. a == b) left right result }
{
    let both = between(left.low.max(right.low), left.high.min(right.high))?;
    Some((both, both))
}

/// The pairs whose first number is less.
fn less(left: Span, right: Span) -> Option<(Span, Span)>
    ensures holds { KeepsPairs nat_lt left right result }
    ensures inside { StaysInside left right result }
    ensures tight { IsTightAnswer nat_lt left right result }
{
    if left.low >= right.high {
        return None;
    }
    let before = Span {
        low: left.low,
        high: left.high.min(right.high - 1),
    };
    let after = Span {
        low: right.low.max(left.low + 1),
        high: right.high,
    };
    Some((before, after))
}

/// The pairs whose first number is less or equal.
fn at_most(left: Span, right: Span) -> Option<(Span, Span)>
    ensures holds { KeepsPairs nat_le left right result }
    ensures inside { StaysInside left right result }
    ensures tight { IsTightAnswer nat_le left right result }
{
    if left.low > right.high {
        return None;
    }
    let before = Span {
        low: left.low,
        high: left.high.min(right.high),
    };
    let after = Span {
        low: right.low.max(left.low),
        high: right.high,
    };
    Some((before, after))
}

/// The span without an end that is the only number of the other; `None` if nothing is left.
fn trimmed(left: Span, right: Span) -> Option<Span>
    ensures holds { (a b : ℕ) → IsIn left a → IsIn right b → IsTrue (not (a == b))
        → IsSomeAnd result (λ i. IsIn i a) }
    ensures inside { IfSome result (λ i. IsInside (bounds_of i) (bounds_of left)) }
    ensures tight { IfSome result (λ i. HasPartner (λ b. not (i.low == b)) (bounds_of right)
        × HasPartner (λ b. not (i.high == b)) (bounds_of right)) }
{
    if right.low != right.high {
        return Some(left);
    }
    if left.low == left.high && left.low == right.low {
        return None;
    }
    if left.low == right.low {
        return between(left.low + 1, left.high);
    }
    if left.high == right.low {
        return between(left.low, left.high - 1);
    }
    Some(left)
}

/// The pairs that differ.
fn different(left: Span, right: Span) -> Option<(Span, Span)>
    ensures holds { KeepsPairs (λ a b. not (a == b)) left right result }
    ensures inside { StaysInside left right result }
    ensures tight { IsTightAnswer (λ a b. not (a == b)) left right result }
{
    let before = trimmed(left, right)?;
    let after = trimmed(right, left)?;
    Some((before, after))
}

/// The pairs with their parts swapped.
fn swapped(answer: Option<(Span, Span)>) -> Option<(Span, Span)>
    ensures holds { (meets : ℕ → ℕ → Bool) (left right : Span) → KeepsPairs meets right left answer
        → KeepsPairs (λ a b. meets b a) left right result }
    ensures inside { (left right : Span) → StaysInside right left answer
        → StaysInside left right result }
    ensures tight { (meets : ℕ → ℕ → Bool) (left right : Span)
        → IsTightAnswer meets right left answer → IsTightAnswer (λ a b. meets b a) left right
        result }
{
    let (left, right) = answer?;
    Some((right, left))
}

/// The pairs of numbers that meet an unsigned test. Other tests trim nothing here.
pub(crate) fn met_unsigned(test: Test, left: Span, right: Span) -> Option<(Span, Span)>
    ensures holds { (width : Width) → KeepsPairs (test_holds width test) left right result }
    ensures inside { StaysInside left right result }
    ensures tight { (width : Width) → IsUnsigned test → IsTightAnswer (test_holds width test) left
        right result }
{
    match test {
        Test::Equal => equal(left, right),
        Test::NotEqual => different(left, right),
        Test::Less => less(left, right),
        Test::LessOrEqual => at_most(left, right),
        Test::Greater => swapped(less(right, left)),
        Test::GreaterOrEqual => swapped(at_most(right, left)),
        _ => Some((left, right)),
    }
}

/// An unsigned test that is equivalent to this one on nonnegative numbers.
fn unsigned(test: Test) -> Test
    ensures same { (width : Width) (a b : ℕ) → 2 * a < 2 ^ bits width → 2 * b < 2 ^ bits width
        → test_holds width result a b ≡ test_holds width test a b }
    ensures unsigned { test ≡ Test.AnyBitSet ⊎ IsUnsigned result }
    ensures kept { IsUnsigned test → result ≡ test }
{
    match test {
        Test::SignedLess => Test::Less,
        Test::SignedLessOrEqual => Test::LessOrEqual,
        Test::SignedGreater => Test::Greater,
        Test::SignedGreaterOrEqual => Test::GreaterOrEqual,
        _ => test,
    }
}

/// Whether no number is negative when it is read as a signed one of the width.
fn are_not_negative(width: Width, left: Span, right: Span) -> bool
    ensures { IsTrue result ↔ AreNotNegative width left right }
{
    let half = modulus(width) / 2;
    (left.high as u128) < half && (right.high as u128) < half
}

/// The pairs whose low bits meet a test. Spans with numbers above the width's greatest are left
/// unchanged, and so are, for a signed order, those with negative numbers.
pub(crate) fn assumed(test: Test, width: Width, left: Span, right: Span) -> Option<(Span, Span)>
    ensures holds { KeepsPairs (λ a b. test_holds width test (low width a) (low width b)) left right
        result }
    ensures trimmed { IsTrimmed test width left right result }
{
    let modulus = modulus(width);
    if left.high as u128 >= modulus || right.high as u128 >= modulus {
        return Some((left, right));
    }
    if are_not_negative(width, left, right) {
        return met_unsigned(unsigned(test), left, right);
    }
    met_unsigned(test, left, right)
}
