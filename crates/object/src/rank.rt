//! Ranks: what decreases with each iteration of a loop.
ghost use Rattle.std.specs.Prelude.{◌≡◌, ◌↔◌, IfSome, IsSome};
ghost use Rattle.object.specs.Numbers.{Term, IsTerm};

use std::marker::Model;

/// The number in one of r0 to r9 times a coefficient above 0. Contracts see the record of both.
#[derive(Clone, Copy, PartialEq, Eq)]
pub struct RankTerm {
    register: u8,
    coefficient: u32,
}

impl Model for RankTerm {
    ghost use Rattle.object.specs.Numbers.{Term, IsTerm};

    ghost Value = { Term };

    ghost view = { λ t. record { register = t.register; coefficient = t.coefficient } };

    ghost invariant = { λ t. IsTerm (record {
      register = t.register;
      coefficient = t.coefficient;
    }) };

    ghost inverse = { λ t. record { register = t.register; coefficient = t.coefficient } };
}

impl RankTerm {
    /// The register with this number times the coefficient; `None` for a register above 9 or a
    /// coefficient of 0.
    pub fn new(register: u8, coefficient: u32) -> Option<RankTerm>
        ensures some { IsSome result
            ↔ IsTerm (record { register = register; coefficient = coefficient }) }
        ensures value { IfSome result (λ term. term ≡ record {
          register = register;
          coefficient =
              coefficient;
        }) }
    {
        if register > 9 || coefficient == 0 {
            return None;
        }
        Some(RankTerm {
            register,
            coefficient,
        })
    }

    /// The register's number, 0 to 9.
    pub fn register(&self) -> u8
        ensures value { result ≡ self.now.register }
        ensures is_term { IsTerm self.now }
    {
        self.register
    }

    /// The factor of the register's number, above 0.
    pub fn coefficient(&self) -> u32
        ensures value { result ≡ self.now.coefficient }
        ensures is_term { IsTerm self.now }
    {
        self.coefficient
    }
}

/// A constant and up to two terms, whose registers may be the same.
#[derive(Clone, Copy, PartialEq, Eq)]
pub struct Rank {
    pub constant: u32,
    pub first: Option<RankTerm>,
    pub second: Option<RankTerm>,
}
