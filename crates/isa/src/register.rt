//! The registers r0 to r10.
ghost use Rattle.std.specs.Prelude.{◌≡◌, ◌<◌, ◌≤◌, ◌↔◌, ℕ, IsSome, IfSome};

use std::marker::Model;

/// One of the registers r0 to r10, which contracts see as its number.
#[derive(Clone, Copy, PartialEq, Eq)]
pub struct Register {
    number: u8,
}

impl Model for Register {
    ghost Value = { ℕ };

    ghost view = { λ register. register.number };

    ghost invariant = { λ register. register.number ≤ 10 };

    ghost inverse = { λ number. record { number = number } };
}

impl Register {
    /// The register with this number; `None` above 10.
    pub fn new(number: u8) -> Option<Register>
        ensures within { IsSome result ↔ (number ≤ 10) }
        ensures value { IfSome result (λ register. register ≡ number) }
    {
        if number <= 10 {
            Some(Register { number })
        } else {
            None
        }
    }

    /// Its number, 0 to 10.
    pub fn number(self) -> u8
        ensures value { result ≡ self }
        ensures within { result ≤ 10 }
    {
        self.number
    }

    /// Its number, as an index.
    pub fn index(self) -> usize
        ensures value { result ≡ self }
        ensures within { result ≤ 10 }
    {
        usize::from(self.number)
    }
}
