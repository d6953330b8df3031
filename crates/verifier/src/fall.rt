//! Whether a bound is below the segment's rank.
ghost use Rattle.std.specs.Prelude.{◌≡◌, ◌+◌, ◌≤◌, ◌<◌, ◌^◌, ℕ, IfSome, IsTrue, Some, None};
ghost use Rattle.std.specs.Prelude.{if◌then◌else◌};
ghost use Rattle.machine.specs.declared.state.State.{State as Machine};
ghost use Rattle.kinds.specs.Meaning.{SegmentStartHolds, number_in};
ghost use Rattle.verifier.specs.Dots.{dot};
ghost use Rattle.verifier.specs.Lines.{IsBound, IsConstant, flat, term_value, rank_value};

use crate::bound::{level, steeper};
use crate::gap::gap_of;
use crate::line::LinearBound;
use absdom::Domain;
use kinds::SegmentStart;
use object::{Rank, RankTerm};

/// The line plus a term of a rank.
fn drawn_term(line: LinearBound, term: Option<RankTerm>) -> Option<LinearBound>
    ensures constant { IfSome result (λ after. after.constant ≡ line.constant) }
    ensures more { IfSome result (λ after. (machine : Machine)
        → dot 10 after.coefficients (number_in machine) ≡ dot 10 line.coefficients
        (number_in machine) + term_value term machine) }
    ensures plain { term ≡ None → result ≡ Some line }
{
    let Some(term) = term else {
        return Some(line);
    };
    let register = term.register();
    let after = steeper(line, register, term.coefficient())?;
    Some(after)
}

/// The rank itself as a line.
fn drawn(rank: Rank) -> Option<LinearBound>
    ensures value { IfSome result (λ line. (machine : Machine) → rank_value rank machine
        ≡ line.constant + dot 10 line.coefficients (number_in machine)) }
    ensures plain { IsConstant rank → result ≡ Some (flat rank.constant) }
{
    let flat = level(rank.constant as u128);
    let line = drawn_term(flat, rank.first)?;
    let whole = drawn_term(line, rank.second)?;
    Some(whole)
}

/// Whether `constant + needed`, plus 1 on a backward jump, is at most `down + saved + own`; false
/// if either side overflows.
fn fits(constant: u128, needed: u128, back: bool, down: u128, saved: u128, own: u128) -> bool
    ensures holds { IsTrue result → constant + needed + (if back then 1 else 0)
        ≤ down + saved + own }
    ensures plain { constant + needed + (if back then 1 else 0) ≤ down + saved + own
        → down + saved + own < 2 ^ 128 → IsTrue result }
{
    let Some(most) = constant.checked_add(needed) else {
        return false;
    };
    let Some(more) = most.checked_add(back as u128) else {
        return false;
    };
    let Some(less) = down.checked_add(saved) else {
        return false;
    };
    let Some(left) = less.checked_add(own) else {
        return false;
    };
    more <= left
}

/// Whether every value with this bound is at most the segment's rank, or below it on a backward
/// jump.
pub fn falls<D: Domain>(line: LinearBound, back: bool, segment: &SegmentStart<D>) -> bool
    ensures holds { IsTrue result → (start : Machine) (value : ℕ)
        → SegmentStartHolds D.contains segment.now start → IsBound line start value
        → value + (if back then 1 else 0) ≤ rank_value segment.now.statement.now.rank start }
    ensures plain { IsConstant segment.now.statement.now.rank → (constant : ℕ)
        → line ≡ flat constant → constant + (if back then 1 else 0)
        ≤ segment.now.statement.now.rank.constant → IsTrue result }
{
    let Some(own) = drawn(segment.statement.rank()) else {
        return false;
    };
    let Some(gap) = gap_of(line.coefficients, own.coefficients, &segment.kinds) else {
        return false;
    };
    fits(
        line.constant,
        gap.needed,
        back,
        line.down,
        gap.saved,
        own.constant,
    )
}
