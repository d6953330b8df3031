//! A rank at an edge, as a linear bound over the start of the segment.
ghost use Rattle.std.specs.Prelude.{◌≡◌, ◌+◌, ◌*◌, ◌≤◌, ℕ, IfSome, slice_index_or, Some, None};
ghost use Rattle.machine.specs.declared.state.State.{State as Machine};
ghost use Rattle.kinds.specs.Meaning.{StateHolds, number_in};
ghost use Rattle.verifier.specs.Dots.{dot};
ghost use Rattle.verifier.specs.Lines.{IsBound, IsConstant, flat, term_value, rank_value};

use crate::line::LinearBound;
use crate::range::{greatest, listed};
use absdom::Domain;
use kinds::{AbstractState, Fact};
use object::{Rank, RankTerm};

/// The bound of a constant.
pub fn level(constant: u128) -> LinearBound
    ensures value { result ≡ flat constant }
    ensures constant { result.constant ≡ constant }
    ensures down { result.down ≡ 0 }
    ensures none { (x : ℕ → ℕ) → dot 10 result.coefficients x ≡ 0 }
{
    LinearBound {
        constant,
        down: 0,
        coefficients: [0; 10],
    }
}

/// Adds to one of the coefficients. `None` if there is no such register or the sum overflows; the
/// coefficients are then unchanged.
fn raise(coefficients: &mut [u64], register: usize, by: u32) -> Option<()>
    requires { register ≤ 9 }
    ensures more { IfSome result (λ _. (x : ℕ → ℕ) → dot 10 coefficients.new x
        ≡ dot 10 coefficients.old x + by * x register) }
{
    if register >= coefficients.len() {
        return None;
    }
    let sum = coefficients[register].checked_add(by as u64)?;
    coefficients[register] = sum;
    Some(())
}

/// The bound plus a multiple of a register. `None` if the sum overflows or the register is none of
/// r0 to r9.
pub fn steeper(line: LinearBound, register: u8, coefficient: u32) -> Option<LinearBound>
    ensures constant { IfSome result (λ after. after.constant ≡ line.constant) }
    ensures down { IfSome result (λ after. after.down ≡ line.down) }
    ensures more { IfSome result (λ after. (x : ℕ → ℕ) → dot 10 after.coefficients x
        ≡ dot 10 line.coefficients x + coefficient * x register) }
{
    if register > 9 {
        return None;
    }
    let mut coefficients = line.coefficients;
    raise(&mut coefficients, usize::from(register), coefficient)?;
    Some(LinearBound {
        constant: line.constant,
        down: line.down,
        coefficients,
    })
}

/// How a register relates to the start of the segment, if that is known.
fn followed(facts: &[Option<Fact>], register: usize) -> Option<Fact>
    ensures value { result ≡ slice_index_or facts.now register None }
{
    facts.get(register).copied().unwrap_or(None)
}

/// The bound plus a term whose register relates to one at the start of the segment.
fn plus_followed(line: LinearBound, coefficient: u32, fact: Fact) -> Option<LinearBound>
    ensures holds { IfSome result (λ after. (start : Machine) (value number : ℕ)
        → IsBound line start value → number + fact.down ≡ number_in start fact.origin + fact.up
        → IsBound after start (value + coefficient * number)) }
{
    let up = (coefficient as u128).checked_mul(fact.up)?;
    let down = (coefficient as u128).checked_mul(fact.down)?;
    let steep = steeper(line, fact.origin, coefficient)?;
    let constant = steep.constant.checked_add(up)?;
    let less = steep.down.checked_add(down)?;
    let coefficients = steep.coefficients;
    Some(LinearBound {
        constant,
        down: less,
        coefficients,
    })
}

/// The bound plus a term whose register's number is at most `most`.
fn plus_most(line: LinearBound, coefficient: u32, most: u64) -> Option<LinearBound>
    ensures holds { IfSome result (λ after. (start : Machine) (value number : ℕ)
        → IsBound line start value → number ≤ most
        → IsBound after start (value + coefficient * number)) }
{
    let more = (coefficient as u128).checked_mul(most as u128)?;
    let constant = line.constant.checked_add(more)?;
    let coefficients = line.coefficients;
    Some(LinearBound {
        constant,
        down: line.down,
        coefficients,
    })
}

/// The bound plus a term: by the fact of its register, or by the greatest number of its kind.
pub fn plus_term<D: Domain>(
    line: LinearBound,
    term: Option<RankTerm>,
    state: &AbstractState<D>,
) -> Option<LinearBound>
    ensures holds { IfSome result (λ after. (start now : Machine) (value : ℕ)
        → StateHolds D.contains state.now start now → IsBound line start value
        → IsBound after start (value + term_value term now)) }
    ensures plain { term ≡ None → result ≡ Some line }
{
    let Some(term) = term else {
        return Some(line);
    };
    let register = usize::from(term.register());
    let coefficient = term.coefficient();
    if let Some(fact) = followed(&state.facts, register) {
        let after = plus_followed(line, coefficient, fact)?;
        return Some(after);
    }
    let most = greatest(listed(&state.kinds, register))?;
    let above = plus_most(line, coefficient, most)?;
    Some(above)
}

/// A bound of a rank over the start of the segment, from what is known now. `None` if a sum
/// overflows or a register has no bound.
pub fn bound_of<D: Domain>(rank: Rank, state: &AbstractState<D>) -> Option<LinearBound>
    ensures holds { IfSome result (λ line. (start now : Machine)
        → StateHolds D.contains state.now start now → IsBound line start (rank_value rank now)) }
    ensures plain { IsConstant rank → result ≡ Some (flat rank.constant) }
{
    let flat = level(rank.constant as u128);
    let line = plus_term(flat, rank.first, state)?;
    let whole = plus_term(line, rank.second, state)?;
    Some(whole)
}
