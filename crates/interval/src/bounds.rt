//! Spans of the numbers of a width, and their bounds.
ghost use Rattle.std.specs.Prelude.{◌≡◌, ℕ, ◌-◌, ◌*◌, ◌%◌, ◌<◌, ◌≤◌, ◌^◌, ◌↔◌, IsSome, IfSome};
ghost use Rattle.isa.specs.Arithmetic.{bits, low};
ghost use Rattle.interval.specs.Bounds.{IsIn, bounds_of, every_of, cut_bounds};

use crate::span::Span;
use isa::Width;

/// One more than the greatest number of the width.
pub(crate) fn modulus(width: Width) -> u128
    ensures value { result ≡ 2 ^ bits width }
    ensures most { result ≤ 2 ^ 64 }
    ensures some { 0 < result }
{
    match width {
        Width::Bits32 => 1 << 32,
        Width::Bits64 => 1 << 64,
    }
}

/// Every number of the width.
pub(crate) fn every(width: Width) -> Span
    ensures holds { (n : ℕ) → n < 2 ^ bits width → IsIn result n }
    ensures bounds { bounds_of result ≡ every_of width }
    ensures small { result.high < 2 ^ bits width }
{
    Span {
        low: 0,
        high: (modulus(width) - 1) as u64,
    }
}

/// One number.
pub(crate) fn single(number: u64) -> Span
    ensures holds { IsIn result number }
    ensures low { result.low ≡ number }
    ensures high { result.high ≡ number }
{
    Span {
        low: number,
        high: number,
    }
}

/// The low bits of each number.
pub(crate) fn cut(width: Width, span: Span) -> Span
    ensures holds { (n : ℕ) → IsIn span n → IsIn result (low width n) }
    ensures bounds { bounds_of result ≡ cut_bounds width (bounds_of span) }
    ensures small { result.high < 2 ^ bits width }
{
    let modulus = modulus(width);
    let (low, high) = (u128::from(span.low), u128::from(span.high));
    if low / modulus != high / modulus {
        return every(width);
    }
    Span {
        low: (low % modulus) as u64,
        high: (high % modulus) as u64,
    }
}

/// The numbers from low to high, modulo the width's power of two.
pub(crate) fn wrapped(width: Width, low: u128, high: u128) -> Span
    requires { low ≤ high }
    ensures holds { (n : ℕ) → low ≤ n → n ≤ high → IsIn result (n % 2 ^ bits width) }
    ensures none_wraps { high < 2 ^ bits width → (result.low ≡ low) × (result.high ≡ high) }
    ensures every_wraps { 2 ^ bits width ≤ low → high < 2 * 2 ^ bits width
        → (result.low ≡ low - 2 ^ bits width) × (result.high ≡ high - 2 ^ bits width) }
    ensures small { result.high < 2 ^ bits width }
{
    let modulus = modulus(width);
    if high < modulus {
        return Span {
            low: low as u64,
            high: high as u64,
        };
    }
    if modulus <= low && high < 2 * modulus {
        return Span {
            low: (low - modulus) as u64,
            high: (high - modulus) as u64,
        };
    }
    every(width)
}

/// The numbers from low to high; `None` if there are none.
pub(crate) fn between(low: u64, high: u64) -> Option<Span>
    ensures some { IsSome result ↔ (low ≤ high) }
    ensures ends { IfSome result (λ i. (i.low ≡ low) × (i.high ≡ high)) }
{
    if low <= high {
        Some(Span { low, high })
    } else {
        None
    }
}
