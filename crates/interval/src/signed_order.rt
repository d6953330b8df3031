//! The pairs of signed numbers of two spans that meet a test. The numbers of the spans are biased.
ghost use Rattle.std.specs.Prelude.{◌≡◌, ℕ, ◌<◌, ◌^◌, ◌↔◌, IsSome, IfSome};
ghost use Rattle.isa.specs.declared.instruction.Width.{Width};
ghost use Rattle.isa.specs.declared.instruction.Width.TheVariants.{Bits64};
ghost use Rattle.isa.specs.Arithmetic.{low, test_holds};
ghost use Rattle.interval.specs.Order.{KeepsPairs, IsUnsigned};
ghost use Rattle.interval.specs.Signs.{biased_number, TrimsSigned};
ghost use Rattle.interval.specs.Narrow.{IsTrimmedSigned};

use crate::order::met_unsigned;
use crate::span::Span;
use isa::{Test, Width};

/// The unsigned test that biased numbers meet if and only if the numbers meet this one. `None` for
/// a test that does not go by the signed order.
/// that does not go by the signed order.
fn of_biased(test: Test) -> Option<Test>
    ensures same { IfSome result (λ other. (width : Width) (a b : ℕ) → a < 2 ^ 64 → b < 2 ^ 64
        → test_holds width other a b ≡ test_holds Bits64 test (low Bits64 (biased_number a))
        (low Bits64 (biased_number b))) }
    ensures unsigned { IfSome result IsUnsigned }
    ensures some { TrimsSigned Bits64 test → IsSome result }
{
    match test {
        Test::Equal => Some(Test::Equal),
        Test::NotEqual => Some(Test::NotEqual),
        Test::SignedLess => Some(Test::Less),
        Test::SignedLessOrEqual => Some(Test::LessOrEqual),
        Test::SignedGreater => Some(Test::Greater),
        Test::SignedGreaterOrEqual => Some(Test::GreaterOrEqual),
        _ => None,
    }
}

/// The pairs that meet a test of 64 bits that goes by the signed order. Other tests leave the spans
/// unchanged.
pub(crate) fn assumed_signed(
    test: Test,
    width: Width,
    left: Span,
    right: Span,
) -> Option<(Span, Span)>
    ensures holds { KeepsPairs (λ a b. test_holds width test (low width (biased_number a))
        (low width (biased_number b))) left right result }
    ensures trimmed { IsTrimmedSigned test width left right result }
{
    match (width, of_biased(test)) {
        (Width::Bits64, Some(order)) => met_unsigned(order, left, right),
        _ => Some((left, right)),
    }
}
