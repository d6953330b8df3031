//! What is known bit by bit.
ghost use Rattle.std.specs.Prelude.{◌≡◌, ℕ, ◌-◌, ◌%◌, ◌<◌, ◌≤◌, ◌^◌, IsSomeAnd, IfSome, None, true};
ghost use Rattle.std.specs.Prelude.{bit_and, bit_or, bit_xor};
ghost use Rattle.isa.specs.declared.instruction.Width.{Width};
ghost use Rattle.isa.specs.declared.instruction.Operation.TheVariants.{And, Or, Xor};
ghost use Rattle.isa.specs.Arithmetic.{bits, low};
ghost use Rattle.knownbits.specs.Masks.{HasBits, Knows, KnowsBelow};
ghost use Rattle.knownbits.specs.Known.{IsPrecise, KnowsBoth, KnowsZero, KnowsOne, KnowsUpper};
ghost use Rattle.knownbits.specs.Known.{KnowsZerosTo, low_known, shared_known};

use crate::value::KnownBits;
use isa::Width;

/// The upper half of a word.
const UPPER: u64 = 0xffff_ffff_0000_0000;

/// The lower half of a word.
const LOWER: u64 = 0xffff_ffff;

/// One number.
pub(crate) fn single(number: u64) -> KnownBits
    ensures holds { HasBits result number }
    ensures knows { KnowsBelow result 64 }
{
    KnownBits {
        mask: u64::MAX,
        value: number,
    }
}

/// Whether every bit is known.
pub(crate) fn is_single(known: KnownBits) -> bool
    ensures single { result ≡ true → known.mask ≡ 18446744073709551615 }
    ensures otherwise { KnowsBelow known 64 → result ≡ true }
{
    known.mask == u64::MAX
}

/// Every number of the width: the bits above it are known to be 0.
pub(crate) fn every(width: Width) -> KnownBits
    ensures holds { (n : ℕ) → n < 2 ^ bits width → HasBits result n }
    ensures upper { KnowsUpper width result }
{
    match width {
        Width::Bits32 => KnownBits {
            mask: UPPER,
            value: 0,
        },
        Width::Bits64 => KnownBits { mask: 0, value: 0 },
    }
}

/// The low bits of each number; the bits above the width are known to be 0.
pub(crate) fn cut(width: Width, known: KnownBits) -> KnownBits
    ensures is { result ≡ low_known width known }
    ensures holds { (n : ℕ) → HasBits known n → HasBits result (low width n) }
    ensures keeps { (i : ℕ) → i < 64 → Knows known i → Knows result i }
    ensures upper { KnowsUpper width result }
{
    match width {
        Width::Bits32 => KnownBits {
            mask: known.mask | UPPER,
            value: known.value & LOWER,
        },
        Width::Bits64 => known,
    }
}

/// What is known of the low bits alone; nothing is known of those above the width.
pub(crate) fn shared(width: Width, known: KnownBits) -> KnownBits
    ensures is { result ≡ shared_known width known }
    ensures holds { (a b : ℕ) → a < 2 ^ 64 → HasBits known b → low width a ≡ low width b
        → HasBits result a }
{
    match width {
        Width::Bits32 => KnownBits {
            mask: known.mask & LOWER,
            value: known.value & LOWER,
        },
        Width::Bits64 => known,
    }
}

/// The known bits of an AND.
pub(crate) fn and(left: KnownBits, right: KnownBits) -> KnownBits
    ensures holds { (x y : ℕ) → HasBits left x → HasBits right y → HasBits result (bit_and x y) }
    ensures precise { (width : Width) → IsPrecise width And left right result }
{
    let both = left.mask & right.mask;
    let zeros_left = left.mask & !left.value;
    let zeros_right = right.mask & !right.value;
    KnownBits {
        mask: both | zeros_left | zeros_right,
        value: left.value & right.value,
    }
}

/// The known bits of an OR.
pub(crate) fn or(left: KnownBits, right: KnownBits) -> KnownBits
    ensures holds { (x y : ℕ) → HasBits left x → HasBits right y → HasBits result (bit_or x y) }
    ensures precise { (width : Width) → IsPrecise width Or left right result }
{
    let ones_left = left.mask & left.value;
    let ones_right = right.mask & right.value;
    KnownBits {
        mask: (left.mask & right.mask) | ones_left | ones_right,
        value: left.value | right.value,
    }
}

/// The known bits of an XOR.
pub(crate) fn xor(left: KnownBits, right: KnownBits) -> KnownBits
    ensures holds { (x y : ℕ) → HasBits left x → HasBits right y → HasBits result (bit_xor x y) }
    ensures precise { (width : Width) → IsPrecise width Xor left right result }
{
    let mask = left.mask & right.mask;
    KnownBits {
        mask,
        value: (left.value ^ right.value) & mask,
    }
}

/// What both know of one number; `None` if they contradict each other.
pub(crate) fn join(left: KnownBits, right: KnownBits) -> Option<KnownBits>
    ensures holds { (n : ℕ) → HasBits left n → HasBits right n
        → IsSomeAnd result (λ known. HasBits known n) }
    ensures precise { IfSome result (KnowsBoth left right) }
    ensures contradiction { (i : ℕ) → i < 64 → KnowsZero left i → KnowsOne right i → result ≡ None }
{
    if (left.value ^ right.value) & (left.mask & right.mask) != 0 {
        return None;
    }
    Some(KnownBits {
        mask: left.mask | right.mask,
        value: left.value | right.value,
    })
}

/// The number of low bits that are known to be 0.
pub(crate) fn low_zeros(known: KnownBits) -> u32
    ensures holds { (n : ℕ) → HasBits known n → n % 2 ^ result ≡ 0 }
    ensures all { KnowsZerosTo known result }
{
    let zeros = known.mask & !known.value;
    if zeros == u64::MAX {
        return 64;
    }
    zeros.trailing_ones()
}

/// A mask of the low `count` bits.
pub(crate) fn low_mask(count: u32) -> u64
    requires { count ≤ 64 }
    ensures { result ≡ 2 ^ count - 1 }
{
    if count == 64 {
        return u64::MAX;
    }
    (1 << count) - 1
}
