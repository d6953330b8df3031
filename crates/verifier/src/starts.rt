//! The statements by their slots.
ghost use Rattle.std.specs.Prelude.{◌≡◌, ◌↔◌, ℕ, IfOk, IsSome, IsTrue, MatchOption, None, Some};
ghost use Rattle.std.specs.Prelude.{length};
ghost use Rattle.object.specs.Objects.{AreStatements};
ghost use Rattle.verifier.specs.Places.{segment_start_at};
ghost use Rattle.verifier.specs.SegmentsStated.{AreSegmentStarts, MeetStatements};

use absdom::Domain;
use kinds::{SegmentStart, segment_start_of};
use object::Statement;
use std::alloc::{AllocError, Global};

/// What is stated at a slot.
pub fn stated_at<'s, 'a, D: Domain>(
    segment_starts: &'s [Option<SegmentStart<'a, D>>],
    slot: usize,
) -> Option<&'s SegmentStart<'a, D>>
    ensures { MatchOption result (segment_start_at segment_starts.now slot ≡ None)
        (λ segment. segment_start_at segment_starts.now slot ≡ Some segment.now) }
{
    match segment_starts.get(slot) {
        Some(Some(segment)) => Some(segment),
        _ => None,
    }
}

/// Whether the slot has a statement.
pub fn is_stated<'a, D: Domain>(segment_starts: &[Option<SegmentStart<'a, D>>], slot: usize) -> bool
    ensures { IsTrue result ↔ IsSome (segment_start_at segment_starts.now slot) }
{
    stated_at(segment_starts, slot).is_some()
}

/// `size` slots without a statement.
fn unstated<'a, D: Domain>(
    alloc: Global,
    size: usize,
) -> Result<Vec<Option<SegmentStart<'a, D>>>, AllocError>
    ensures long { IfOk result (λ segment_starts. length segment_starts.items ≡ size) }
    ensures none { IfOk result
        (λ segment_starts. (slot : ℕ) → segment_start_at segment_starts.items slot ≡ None) }
{
    let mut segment_starts = Vec::new(alloc);
    for index in 0..size {
        segment_starts.push(None)?;
    }
    Ok(segment_starts)
}

/// The statements by their slots.
///
/// # Errors
/// `AllocError` if an allocation is refused.
pub fn segment_starts_of<'a, D: Domain>(
    alloc: Global,
    size: usize,
    statements: &'a [Statement],
) -> Result<Vec<Option<SegmentStart<'a, D>>>, AllocError>
    requires { AreStatements 0 size statements.now }
    ensures are { IfOk result
        (λ segment_starts. AreSegmentStarts D.contains statements.now segment_starts.items) }
    ensures meet { IfOk result (λ segment_starts.
        MeetStatements D.contains D.stated_gives segment_starts.items) }
{
    let mut segment_starts = unstated(alloc, size)?;
    for statement in statements {
        let segment = segment_start_of(alloc, statement)?;
        segment_starts[statement.slot() as usize] = Some(segment);
    }
    Ok(segment_starts)
}
