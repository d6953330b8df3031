//! Shifts by a single count: the bits move, and zeros come in.
ghost use Rattle.std.specs.Prelude.{◌≡◌, ℕ, ◌*◌, ◌/◌, ◌%◌, ◌+◌, ◌<◌, ◌≤◌, ◌^◌};
ghost use Rattle.isa.specs.Arithmetic.{bits, low};
ghost use Rattle.knownbits.specs.Masks.{HasBits, Knows, KnowsBelow};
ghost use Rattle.knownbits.specs.Known.{KnowsUpper};

use crate::bits::{cut, low_mask};
use crate::value::KnownBits;
use isa::Width;

/// The number of bits that a shift by this number moves.
pub(crate) fn shift_count(width: Width, number: u64) -> u32
    ensures value { result ≡ number % bits width }
    ensures small { result < bits width }
{
    match width {
        Width::Bits32 => (number % 32) as u32,
        Width::Bits64 => (number % 64) as u32,
    }
}

/// The numbers moved to the left.
pub(crate) fn left_shift(width: Width, known: KnownBits, count: u32) -> KnownBits
    requires { count < bits width }
    ensures holds { (n : ℕ) → n < 2 ^ bits width → HasBits known n
        → HasBits result (low width (n * 2 ^ count)) }
    ensures filled { KnowsBelow result count }
    ensures moved { (i : ℕ) → i + count < bits width → Knows known i → Knows result (i + count) }
    ensures upper { KnowsUpper width result }
{
    let moved = KnownBits {
        mask: (known.mask << count) | low_mask(count),
        value: known.value << count,
    };
    cut(width, moved)
}

/// The numbers moved to the right.
pub(crate) fn right_shift(width: Width, known: KnownBits, count: u32) -> KnownBits
    requires { count < bits width }
    ensures holds { (n : ℕ) → n < 2 ^ bits width → HasBits known n
        → HasBits result (n / 2 ^ count) }
    ensures filled { (i : ℕ) → bits width ≤ i + count → i < 64 → Knows result i }
    ensures moved { (i : ℕ) → i + count < 64 → Knows known (i + count) → Knows result i }
{
    let known = cut(width, known);
    KnownBits {
        mask: (known.mask >> count) | !(u64::MAX >> count),
        value: known.value >> count,
    }
}
