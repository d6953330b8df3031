//! Unsigned and signed bounds, which narrow each other.
ghost use Rattle.std.specs.Prelude.{◌≡◌, ℕ, ◌+◌, ◌%◌, ◌<◌, ◌≤◌, ◌^◌, ◌⊎◌, ◌↔◌, IsTrue, IsSomeAnd};
ghost use Rattle.std.specs.Prelude.{IfSome, max, min};
ghost use Rattle.interval.specs.Bounds.{IsIn, bounds_of, IsInside};
ghost use Rattle.interval.specs.Signs.{biased_number, biased_bounds, IsOnOneSide};
ghost use Rattle.interval.specs.Members.{IsMember};

use crate::bounds::{between, every};
use crate::span::Span;
use crate::value::Interval;
use isa::Width;

/// The difference between a biased number and the signed one.
const BIAS: u64 = 1 << 63;

/// Whether all numbers lie on one side of 2^63.
fn is_on_one_side(span: Span) -> bool
    ensures { IsTrue result ↔ IsOnOneSide (bounds_of span) }
{
    span.high < BIAS || BIAS <= span.low
}

/// The biased numbers of a span that does not cross 2^63.
fn turned(span: Span) -> Span
    requires { IsOnOneSide (bounds_of span) }
    ensures bounds { bounds_of result ≡ biased_bounds (bounds_of span) }
    ensures biased { (n : ℕ) → IsIn span n → IsIn result (biased_number n) }
    ensures plain { (n : ℕ) → n < 2 ^ 64 → IsIn span (biased_number n) → IsIn result n }
{
    Span {
        low: span.low.wrapping_add(BIAS),
        high: span.high.wrapping_add(BIAS),
    }
}

/// The numbers that both spans have.
fn common(left: Span, right: Span) -> Option<Span>
    ensures holds { (n : ℕ) → IsIn left n → IsIn right n → IsSomeAnd result (λ span. IsIn span n) }
    ensures left { IfSome result (λ span. IsInside (bounds_of span) (bounds_of left)) }
    ensures right { IfSome result (λ span. IsInside (bounds_of span) (bounds_of right)) }
{
    between(left.low.max(right.low), left.high.min(right.high))
}

/// The numbers that lie between the unsigned bounds and, biased, between the signed ones. Bounds
/// that do not cross 2^63 narrow the other ones.
pub(crate) fn narrowed(unsigned: Span, signed: Span) -> Option<Interval>
    ensures holds { (n : ℕ) → IsIn unsigned n → IsIn signed (biased_number n)
        → IsSomeAnd result (λ interval. IsMember interval n) }
    ensures unsigned { IfSome result (λ interval. IsInside (bounds_of interval.unsigned)
        (bounds_of unsigned)) }
    ensures signed { IfSome result (λ interval. IsInside (bounds_of interval.signed)
        (bounds_of signed)) }
{
    if is_on_one_side(signed) {
        let unsigned = common(unsigned, turned(signed))?;
        let signed = turned(unsigned);
        return Some(Interval { unsigned, signed });
    }
    if is_on_one_side(unsigned) {
        let signed = common(signed, turned(unsigned))?;
        let unsigned = turned(signed);
        return Some(Interval { unsigned, signed });
    }
    Some(Interval { unsigned, signed })
}

/// The numbers of the span, whatever their signs.
pub(crate) fn of(unsigned: Span) -> Interval
    ensures holds { (n : ℕ) → IsIn unsigned n → IsMember result n }
    ensures unsigned { bounds_of result.unsigned ≡ bounds_of unsigned }
{
    if is_on_one_side(unsigned) {
        return Interval {
            unsigned,
            signed: turned(unsigned),
        };
    }
    Interval {
        unsigned,
        signed: every(Width::Bits64),
    }
}

/// The numbers that lie between both pairs of bounds; if there are none, those between the unsigned
/// ones.
pub(crate) fn between_both(unsigned: Span, signed: Span) -> Interval
    ensures holds { (n : ℕ) → IsIn unsigned n → IsIn signed (biased_number n) → IsMember result n }
    ensures unsigned { IsInside (bounds_of result.unsigned) (bounds_of unsigned) }
    ensures signed { (n : ℕ) → IsIn unsigned n → IsIn signed (biased_number n)
        → IsInside (bounds_of result.signed) (bounds_of signed) }
{
    match narrowed(unsigned, signed) {
        Some(interval) => interval,
        None => of(unsigned),
    }
}
