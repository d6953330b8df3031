//! Sums and differences: the low bits that are known in both numbers are known in the result.
ghost use Rattle.std.specs.Prelude.{◌≡◌, ℕ, ◌+◌, ◌-◌, ◌%◌, ◌<◌, ◌≤◌, ◌^◌};
ghost use Rattle.isa.specs.declared.instruction.Operation.TheVariants.{Add, Subtract};
ghost use Rattle.isa.specs.Arithmetic.{bits, operate};
ghost use Rattle.knownbits.specs.Masks.{HasBits, Knows, KnowsBelow};

use crate::bits::low_mask;
use crate::value::KnownBits;

/// The number of low bits that are known in both.
fn known_in_both(left: KnownBits, right: KnownBits) -> u32
    ensures most { result ≤ 64 }
    ensures left { KnowsBelow left result }
    ensures right { KnowsBelow right result }
    ensures all { (count : ℕ) → count ≤ 64 → KnowsBelow left count → KnowsBelow right count
        → count ≤ result }
{
    let both = left.mask & right.mask;
    if both == u64::MAX {
        return 64;
    }
    both.trailing_ones()
}

/// The known bits of the sums: those below the first one that isn't known in both.
pub(crate) fn sum(left: KnownBits, right: KnownBits) -> KnownBits
    ensures holds { (x y : ℕ) → HasBits left x → HasBits right y
        → HasBits result ((x + y) % 2 ^ 64) }
    ensures knows { (count : ℕ) → count ≤ 64 → KnowsBelow left count → KnowsBelow right count
        → KnowsBelow result count }
{
    let mask = low_mask(known_in_both(left, right));
    KnownBits {
        mask,
        value: left.value.wrapping_add(right.value) & mask,
    }
}

/// The known bits of the differences: those below the first one that isn't known in both.
pub(crate) fn difference(left: KnownBits, right: KnownBits) -> KnownBits
    ensures holds { (x y : ℕ) → HasBits left x → HasBits right y
        → HasBits result ((x + (2 ^ 64 - y)) % 2 ^ 64) }
    ensures knows { (count : ℕ) → count ≤ 64 → KnowsBelow left count → KnowsBelow right count
        → KnowsBelow result count }
{
    let mask = low_mask(known_in_both(left, right));
    KnownBits {
        mask,
        value: left.value.wrapping_sub(right.value) & mask,
    }
}
