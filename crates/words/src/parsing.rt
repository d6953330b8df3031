//! From words to values. Each value has one text: numbers are decimal without a leading zero or a
//! sign, addresses are four such numbers below 256 separated by dots, and a prefix is an address, a
//! slash and its length.
ghost use Rattle.std.specs.Prelude.{◌≡◌, ◌≢◌, ◌<◌, ◌≤◌, ◌^◌, ◌==◌, ◌&&◌, ℕ, MatchOption};
ghost use Rattle.std.specs.Prelude.{decimal, length, not, slice_index};
ghost use Rattle.std.specs.Str.{all_ascii_digits};
ghost use Rattle.words.specs.Prefixes.{Network, IsNetwork};
ghost use Rattle.words.specs.Text.{dotted_address, prefix_text};

use crate::address::Address;
use crate::prefix::Prefix;
use std::net::Ipv4Addr;

/// Whether the word consists of decimal digits.
fn is_digits(word: &str) -> bool
    ensures { result ≡ all_ascii_digits word.now }
{
    for byte in word.as_bytes() {
        if !byte.is_ascii_digit() {
            return false;
        }
    }
    true
}

/// Whether a number with two digits or more begins with a zero.
fn has_leading_zero(word: &str) -> bool
    ensures { result ≡ ((slice_index word.now 0 == 48) && not (length word.now == 1)) }
{
    match word.as_bytes() {
        [b'0'] => false,
        [b'0', ..] => true,
        _ => false,
    }
}

/// The number that the word spells in decimal; `None` if it is 2^64 or more, or not a number.
fn read_decimal(word: &str) -> Option<u64>
    ensures { MatchOption result
        ((n : ℕ) → n < 2 ^ 64 → word.now ≢ decimal n)
        (λ n. (word.now ≡ decimal n) × (n < 2 ^ 64)) }
{
    if !is_digits(word) {
        return None;
    }
    if has_leading_zero(word) {
        return None;
    }
    match word.parse::<u64>() {
        Ok(number) => Some(number),
        Err(_) => None,
    }
}

/// The number from `least` to `most`, both included, that the word spells in decimal.
pub fn read_within(word: &str, least: u64, most: u64) -> Option<u64>
    ensures { MatchOption result
        ((n : ℕ) → least ≤ n → n ≤ most → word.now ≢ decimal n)
        (λ n. (word.now ≡ decimal n) × (least ≤ n) × (n ≤ most)) }
{
    match read_decimal(word) {
        Some(number) if least <= number && number <= most => Some(number),
        _ => None,
    }
}

/// The address that the word spells.
pub fn read_address(word: &str) -> Option<Address>
    ensures { MatchOption result
        ((a : ℕ) → a < 2 ^ 32 → word.now ≢ dotted_address a)
        (λ a. (word.now ≡ dotted_address a) × (a < 2 ^ 32)) }
{
    match word.parse::<Ipv4Addr>() {
        Ok(address) => Some(Address::new(address.to_bits())),
        Err(_) => None,
    }
}

/// The address and the length that the word spells, separated by a slash. Host bits may be set.
pub fn read_address_and_length(word: &str) -> Option<(Address, u8)>
    ensures { MatchOption result
        ((n : Network) → n.address < 2 ^ 32 → n.length ≤ 32 → word.now ≢ prefix_text n)
        (λ p. (word.now ≡ prefix_text (record { address = p.0; length = p.1 })) × (p.0 < 2 ^ 32)
        × (p.1 ≤ 32)) }
{
    let Some((address, length)) = word.split_once('/') else {
        return None;
    };
    let Some(address) = read_address(address) else {
        return None;
    };
    match read_within(length, 0, 32) {
        Some(length) => Some((address, length as u8)),
        None => None,
    }
}

/// The prefix that the word spells, without host bits.
pub fn read_prefix(word: &str) -> Option<Prefix>
    ensures { MatchOption result
        ((n : Network) → IsNetwork n → word.now ≢ prefix_text n)
        (λ n. (word.now ≡ prefix_text n) × IsNetwork n) }
{
    let (address, length) = read_address_and_length(word)?;
    Prefix::new(address, length)
}
