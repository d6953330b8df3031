//! The numbers of a text in the fields that hold them. `None` is a number out of the field's range.
ghost use Rattle.std.specs.Prelude.{◌≡◌, ◌^◌, negsuc};
ghost use Rattle.asm.specs.Numbers.{signed_in, natural_in};

use crate::numeral::Numeral;

/// The signed number `-1 - less`.
fn below_zero(less: u32) -> i64
    ensures { result ≡ negsuc less }
{
    -1 - i64::from(less)
}

/// A number from -2^63 to 2^63 - 1; `None` if the text's is outside.
fn signed_64(number: Numeral) -> Option<i64>
    ensures { result ≡ signed_in (2 ^ 63) number }
{
    match number {
        Numeral::Natural(n) => match i64::try_from(n) {
            Ok(n) => Some(n),
            Err(_) => None,
        },
        Numeral::Negative(n) => Some(below_zero(n)),
        Numeral::Huge => None,
    }
}

/// An offset or a distance of 16 bits.
pub(crate) fn signed_16(number: Numeral) -> Option<i16>
    ensures { result ≡ signed_in (2 ^ 15) number }
{
    let number = signed_64(number)?;
    match i16::try_from(number) {
        Ok(number) => Some(number),
        Err(_) => None,
    }
}

/// An immediate number or a distance of 32 bits.
pub(crate) fn signed_32(number: Numeral) -> Option<i32>
    ensures { result ≡ signed_in (2 ^ 31) number }
{
    let number = signed_64(number)?;
    match i32::try_from(number) {
        Ok(number) => Some(number),
        Err(_) => None,
    }
}

/// A number from 0 to 2^64 - 1.
pub(crate) fn natural_64(number: Numeral) -> Option<u64>
    ensures { result ≡ natural_in (2 ^ 64) number }
{
    match number {
        Numeral::Natural(n) => Some(n),
        _ => None,
    }
}

/// A number from 0 to 2^32 - 1.
pub(crate) fn natural_32(number: Numeral) -> Option<u32>
    ensures { result ≡ natural_in (2 ^ 32) number }
{
    let number = natural_64(number)?;
    match u32::try_from(number) {
        Ok(number) => Some(number),
        Err(_) => None,
    }
}
