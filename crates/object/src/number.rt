//! Numbers with a known range and some known bits.
ghost use Rattle.std.specs.Prelude.{◌≡◌, ◌↔◌, Some, IfSome, IsSome};
ghost use Rattle.object.specs.Numbers.{Numbers, IsNumbers};

use std::marker::Model;

/// The numbers from `low` to `high` whose bits under `mask` are those of `value`. `low` is at most
/// `high`, and `value` has no bit outside `mask`. Contracts see the record of all four.
#[derive(Clone, Copy, PartialEq, Eq)]
pub struct StatedNumber {
    low: u64,
    high: u64,
    mask: u64,
    value: u64,
}

impl Model for StatedNumber {
    ghost use Rattle.object.specs.Numbers.{Numbers, IsNumbers};

    ghost Value = { Numbers };

    ghost view = { λ n. record { low = n.low; high = n.high; mask = n.mask; value = n.value } };

    ghost invariant = { λ n. IsNumbers (record {
      low = n.low;
      high = n.high;
      mask = n.mask;
      value =
          n.value;
    }) };

    ghost inverse = { λ n. record { low = n.low; high = n.high; mask = n.mask; value = n.value } };
}

impl StatedNumber {
    /// The numbers from `low` to `high` with these known bits. `None` if `low` is above `high` or
    /// `value` has a bit outside `mask`.
    pub fn new(low: u64, high: u64, mask: u64, value: u64) -> Option<StatedNumber>
        ensures some { IsSome result
            ↔ IsNumbers (record { low = low; high = high; mask = mask; value = value }) }
        ensures value { IfSome result (λ numbers. numbers
            ≡ record { low = low; high = high; mask = mask; value = value }) }
    {
        if high < low || value & mask != value {
            return None;
        }
        Some(StatedNumber {
            low,
            high,
            mask,
            value,
        })
    }

    /// The least number of the range.
    pub fn low(&self) -> u64
        ensures value { result ≡ self.now.low }
        ensures are { IsNumbers self.now }
    {
        self.low
    }

    /// The greatest number of the range.
    pub fn high(&self) -> u64
        ensures value { result ≡ self.now.high }
        ensures are { IsNumbers self.now }
    {
        self.high
    }

    /// The mask of the known bits.
    pub fn mask(&self) -> u64
        ensures value { result ≡ self.now.mask }
        ensures are { IsNumbers self.now }
    {
        self.mask
    }

    /// The known bits' values; 0 at each unknown bit.
    pub fn value(&self) -> u64
        ensures value { result ≡ self.now.value }
        ensures are { IsNumbers self.now }
    {
        self.value
    }
}
