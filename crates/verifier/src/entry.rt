//! The start of a run.
ghost use Rattle.std.specs.Prelude.{◌≡◌, ℕ, true, false, length, IfErr, IfOk, IsOk, Some};
ghost use Rattle.machine.specs.declared.state.State.{State as Machine};
ghost use Rattle.machine.specs.State.{start};
ghost use Rattle.object.specs.Sets.{no_bytes};
ghost use Rattle.kinds.specs.declared.statement.SegmentStart.{SegmentStart as AnySegmentStart};
ghost use Rattle.kinds.specs.Meaning.{SegmentStartHolds, StateHolds};
ghost use Rattle.verifier.specs.Lines.{IsConstant, rank_value};
ghost use Rattle.verifier.specs.Places.{segment_start_at};
ghost use Rattle.verifier.specs.SegmentsPlain.{IsPlainEdgeIfStated};
ghost use Rattle.verifier.specs.Refusals.{IsOfEdge};
ghost use Rattle.verifier.specs.Segments.{Enters};

use crate::edge::enter;
use crate::known::Known;
use crate::refusal::Refusal;
use crate::starts::stated_at;
use absdom::Domain;
use kinds::{AbstractState, Kind, PointerPlace, SegmentStart, StackEntry, reset};
use object::{Rank, StackBytes, StatedKind as Stated, Statement};
use std::alloc::{AllocError, Global};

/// What is stated at the start of a run: only the rank.
pub fn entry_statement(rank: u32) -> Statement
    ensures stack { result.stack ≡ no_bytes }
    ensures rank { (machine : Machine) → rank_value result.rank machine ≡ rank }
    ensures flat { IsConstant result.rank }
    ensures constant { result.rank.constant ≡ rank }
{
    let constant = Rank {
        constant: rank,
        first: None,
        second: None,
    };
    match Statement::new(0, constant, [Stated::Unstated; 10], StackBytes::new()) {
        Some(statement) => statement,
        None => unreachable!(),
    }
}

/// The start of a run as the start of a segment: r1 points to the context.
///
/// # Errors
/// `AllocError` if an allocation is refused.
pub fn entry_of<'a, D: Domain>(
    alloc: Global,
    statement: &'a Statement,
) -> Result<SegmentStart<'a, D>, AllocError>
    requires { statement.now.stack ≡ no_bytes }
    ensures statement { IfOk result (λ entry. entry.statement.now ≡ statement.now) }
    ensures holds { IfOk result (λ entry. SegmentStartHolds D.contains entry start) }
{
    let mut kinds = Vec::new(alloc);
    kinds.push(Kind::Unknown)?;
    kinds.push(Kind::Pointer(PointerPlace::Context(0)))?;
    for register in 2..10usize {
        kinds.push(Kind::Unknown)?;
    }
    Ok(SegmentStart { statement, kinds })
}

/// A state in which nothing is known, whose memory the pass reuses at each slot.
///
/// # Errors
/// `AllocError` if an allocation is refused.
pub fn unknown<D: Domain>(alloc: Global) -> Result<AbstractState<D>, AllocError>
    ensures ten { IfOk result (λ state. length state.kinds.items ≡ 10) }
{
    let mut kinds = Vec::new(alloc);
    let mut facts = Vec::new(alloc);
    for register in 0..10usize {
        kinds.push(Kind::Unknown)?;
        facts.push(None)?;
    }
    let mut entries = Vec::new(alloc);
    for place in 0..512usize {
        entries.push(StackEntry::Unknown)?;
    }
    Ok(AbstractState {
        kinds,
        facts,
        entries,
    })
}

/// The state at the start of a run, in the memory of `room`. If slot 0 has a statement, the edge to
/// it is checked.
///
/// # Errors
/// As [`enter`], at slot 0.
pub fn enter_start<'a, D: Domain>(
    segment_starts: &[Option<SegmentStart<'a, D>>],
    entry: &SegmentStart<'a, D>,
    room: AbstractState<D>,
) -> Result<Known<D>, Refusal>
    ensures live { IfOk result (λ known. known.is_live ≡ true) }
    ensures own { IfOk result (λ known. (machine : Machine)
        → SegmentStartHolds D.contains entry.now machine
        → StateHolds D.contains known.state machine machine) }
    ensures edge { IfOk result
        (λ _. (target : AnySegmentStart D) → segment_start_at segment_starts.now 0 ≡ Some target
        → (machine : Machine) → SegmentStartHolds D.contains entry.now machine
        → Enters D.contains false entry.now target machine machine) }
    ensures named { IfErr result (λ refusal. (refusal.slot ≡ 0) × IsOfEdge refusal.rule) }
    ensures plain { IsPlainEdgeIfStated D.contains segment_starts.now entry.now false 0 (λ r. ⊥)
        → IsOk result }
    ensures long { IfOk result (λ known. length known.state.kinds.items ≡ length room.kinds.items) }
{
    let state = reset(room, entry);
    let Some(target) = stated_at(segment_starts, 0) else {
        return Ok(Known {
            state,
            is_live: true,
        });
    };
    match enter(target, false, entry, &state) {
        Ok(()) => Ok(Known {
            state,
            is_live: true,
        }),
        Err(rule) => Err(Refusal { slot: 0, rule }),
    }
}
