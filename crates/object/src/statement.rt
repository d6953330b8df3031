//! Statements: what a file claims to hold at a slot of its code whenever execution reaches it.
ghost use Rattle.std.specs.Prelude.{◌≡◌, ◌↔◌, length, IfSome, IsSome, IsTrue};
ghost use Rattle.std.specs.List.{All};
ghost use Rattle.object.specs.Statements.{IsKind, IsRankOver, IsStatement, IsTermOrNone};
ghost use Rattle.object.specs.Statements.{IsTermOver, StatementParts};

use crate::kind::StatedKind;
use crate::rank::{Rank, RankTerm};
use crate::stack::StackBytes;
use std::marker::Model;

/// What is stated at a slot: what r0 to r9 hold, which stack bytes hold bytes of numbers, and the
/// rank, over registers that are stated as numbers. Contracts see the record of all four.
#[derive(Clone, Copy, PartialEq, Eq)]
pub struct Statement {
    slot: u32,
    rank: Rank,
    kinds: [StatedKind; 10],
    stack: StackBytes,
}

impl Model for Statement {
    ghost use Rattle.object.specs.Statements.{IsStatement, StatementParts};

    ghost Value = { StatementParts };

    ghost view = { λ s. record { slot = s.slot; rank = s.rank; kinds = s.kinds; stack = s.stack } };

    ghost invariant = { λ s. IsStatement (record {
      slot = s.slot;
      rank = s.rank;
      kinds = s.kinds;
      stack = s.stack;
    }) };

    ghost inverse = { λ s. record {
      slot = s.slot;
      rank = s.rank;
      kinds = s.kinds;
      stack = s.stack;
    } };
}

/// For the prover alone: tells it that what is stated of each register is in its range.
fn check_kinds(kinds: &[StatedKind])
    ensures { All IsKind kinds.now }
{
    for kind in kinds {
        kind.prove_ranges();
    }
}

/// Whether a term's register is stated as a number.
fn is_term_over(kinds: &[StatedKind], term: Option<RankTerm>) -> bool
    requires { length kinds.now ≡ 10 }
    ensures over { IsTrue result ↔ IsTermOver kinds.now term }
    ensures is_term { IsTermOrNone term }
{
    let Some(term) = term else {
        return true;
    };
    matches!(kinds[usize::from(term.register())], StatedKind::Number(_))
}

impl Statement {
    /// What is stated at a slot; `None` if a term of the rank names a register that isn't stated as
    /// a number.
    pub fn new(
        slot: u32,
        rank: Rank,
        kinds: [StatedKind; 10],
        stack: StackBytes,
    ) -> Option<Statement>
        ensures some { IsSome result ↔ IsRankOver kinds rank }
        ensures value { IfSome result (λ s. s ≡ record {
          slot = slot;
          rank = rank;
          kinds = kinds;
          stack = stack;
        }) }
    {
        check_kinds(&kinds);
        let _is_set = stack.contains(0);
        let is_first = is_term_over(&kinds, rank.first);
        let is_second = is_term_over(&kinds, rank.second);
        if !is_first || !is_second {
            return None;
        }
        Some(Statement {
            slot,
            rank,
            kinds,
            stack,
        })
    }

    /// The slot that it is stated for.
    pub fn slot(&self) -> u32
        ensures value { result ≡ self.now.slot }
        ensures is_statement { IsStatement self.now }
    {
        self.slot
    }

    /// The rank at the slot: what bounds the jumps back that are still to come.
    pub fn rank(&self) -> Rank
        ensures value { result ≡ self.now.rank }
        ensures is_statement { IsStatement self.now }
    {
        self.rank
    }

    /// What r0 to r9 hold there, ten in order.
    pub fn kinds(&self) -> &[StatedKind]
        ensures value { result.now ≡ self.now.kinds }
        ensures is_statement { IsStatement self.now }
    {
        &self.kinds
    }

    /// The stack bytes that hold bytes of numbers there.
    pub fn stack(&self) -> &StackBytes
        ensures value { result.now ≡ self.now.stack }
        ensures is_statement { IsStatement self.now }
    {
        &self.stack
    }
}
