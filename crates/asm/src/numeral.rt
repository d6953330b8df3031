//! The numbers of a text: decimal, with an optional sign.
ghost use Rattle.std.specs.Prelude.{◌≡◌};
ghost use Rattle.asm.specs.WordNumbers.{is_numeral, natural_of, negative_of, number_of};
ghost use Rattle.asm.specs.WordNumbers.{distance_of};

/// A number as a text writes it.
#[derive(Clone, Copy)]
pub enum Numeral {
    /// From 0 to 2^64 - 1.
    Natural(u64),
    /// Below 0: -1 minus this, down to -2^32.
    Negative(u32),
    /// A number further from 0, which no field holds.
    Huge,
}

/// Whether the word is made of decimal digits, at least one.
fn is_numeral(word: &str) -> bool
    ensures { result ≡ is_numeral word.now }
{
    for byte in word.as_bytes() {
        if !byte.is_ascii_digit() {
            return false;
        }
    }
    !word.is_empty()
}

/// The number that decimal digits spell.
fn read_natural(word: &str) -> Option<Numeral>
    ensures { result ≡ natural_of word.now }
{
    if !is_numeral(word) {
        return None;
    }
    match word.parse::<u64>() {
        Ok(number) => Some(Numeral::Natural(number)),
        Err(_) => Some(Numeral::Huge),
    }
}

/// Minus the number that decimal digits spell.
fn read_negative(word: &str) -> Option<Numeral>
    ensures { result ≡ negative_of word.now }
{
    match read_natural(word) {
        Some(Numeral::Natural(0)) => Some(Numeral::Natural(0)),
        Some(Numeral::Natural(number)) => match u32::try_from(number - 1) {
            Ok(less) => Some(Numeral::Negative(less)),
            Err(_) => Some(Numeral::Huge),
        },
        Some(other) => Some(other),
        None => None,
    }
}

/// The number that the word spells: decimal digits, after a `-` if it is below 0.
pub fn read_number(word: &str) -> Option<Numeral>
    ensures { result ≡ number_of word.now }
{
    match word.strip_prefix('-') {
        Some(digits) => read_negative(digits),
        None => read_natural(word),
    }
}

/// The distance that the word spells: a sign, and decimal digits.
pub fn read_distance(word: &str) -> Option<Numeral>
    ensures { result ≡ distance_of word.now }
{
    if let Some(digits) = word.strip_prefix('+') {
        return read_natural(digits);
    }
    match word.strip_prefix('-') {
        Some(digits) => read_negative(digits),
        None => None,
    }
}

impl Numeral {
    ghost use Rattle.asm.specs.WordNumbers.{numeral_of};

    /// The number as a text writes it.
    pub fn from_signed(number: i32) -> Numeral
        ensures { result ≡ numeral_of number }
    {
        if number < 0 {
            Numeral::Negative((-1 - number) as u32)
        } else {
            Numeral::Natural(number as u64)
        }
    }
}
