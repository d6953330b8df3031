//! What has to hold where control enters a statement.
ghost use Rattle.std.specs.Prelude.{IfErr, IfOk, IsOk};
ghost use Rattle.machine.specs.declared.state.State.{State as Machine};
ghost use Rattle.kinds.specs.Plain.{HoldsNumber};
ghost use Rattle.verifier.specs.SegmentsPlain.{IsPlainEdge};
ghost use Rattle.verifier.specs.Refusals.{IsOfEdge};
ghost use Rattle.verifier.specs.Segments.{Enters, IsKnown};

use crate::bound::bound_of;
use crate::fall::falls;
use absdom::Domain;
use kinds::{AbstractState, SegmentStart, bytes_within, kinds_within};
use transfer::rule::Rule;

/// Checks that what is known at an edge is within the statement at its target, and that the rank
/// decreases as required.
///
/// # Errors
/// The first of: `NotWithin` if more is stated of a register or a stack byte than is known here;
/// `Rank` if the rank at the target isn't known to be at most that at the start of the segment, or
/// below it if the jump goes `back`.
pub fn enter<'a, D: Domain>(
    target: &SegmentStart<'a, D>,
    back: bool,
    segment: &SegmentStart<'a, D>,
    state: &AbstractState<D>,
) -> Result<(), Rule>
    ensures enters { IfOk result (λ _. (start now : Machine)
        → IsKnown D.contains segment.now state.now start now
        → Enters D.contains back segment.now target.now start now) }
    ensures named { IfErr result IsOfEdge }
    ensures plain { IsPlainEdge D.contains back segment.now target.now (HoldsNumber state.now)
        → IsOk result }
{
    if !kinds_within(&state.kinds, &target.kinds) {
        return Err(Rule::NotWithin);
    }
    if !bytes_within(&state.entries, target.statement.stack()) {
        return Err(Rule::NotWithin);
    }
    let Some(line) = bound_of(target.statement.rank(), state) else {
        return Err(Rule::Rank);
    };
    if falls(line, back, segment) {
        Ok(())
    } else {
        Err(Rule::Rank)
    }
}
