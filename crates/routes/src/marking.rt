//! Marks the routers on loops.
ghost use Rattle.std.specs.Prelude.{◌≡◌, ℕ, ◌<◌, IfOk, OnOk, length};
ghost use Rattle.std.specs.List.{All};
ghost use Rattle.routes.specs.Loops.{AreLoops, GoesRoundOnly, HoldsWholeLoops, IsAmong};
ghost use Rattle.routes.specs.Loops.{IsBoth, MarksBetween, MarksLoopsAt};
ghost use Rattle.routes.specs.Loops.{MarksLoopsBefore};

use crate::hop::Hop;
use crate::reaching::{reached, turn_all};
use std::alloc::{AllocError, Global};

// Marks each router that is marked in both lists.
fn mark_both(one: &[bool], other: &[bool], marks: &mut [bool])
    requires one { length one.now ≡ length marks.old }
    requires other { length other.now ≡ length marks.old }
    ensures { (k : ℕ) → IsBoth one.now other.now marks.old marks.new k }
{
    for at in 0..marks.len() {
        if one[at] && other[at] {
            marks[at] = true;
        }
    }
}

// Marks each router of `ahead` from which a packet may reach the place.
fn mark_between(
    alloc: Global,
    hops: &[Hop],
    place: usize,
    ahead: &[bool],
    marks: &mut [bool],
) -> Result<(), AllocError>
    requires within { All (IsAmong (length marks.old)) hops.now }
    requires ahead { length ahead.now ≡ length marks.old }
    ensures { OnOk result (MarksBetween hops.now place ahead.now marks.old marks.new) }
{
    let back = turn_all(alloc, hops)?;
    let behind = reached(alloc, &back, place, marks.len())?;
    mark_both(ahead, &behind, marks);
    Ok(())
}

// Marks the routers of all loops through the place.
fn mark_loops_at(
    alloc: Global,
    hops: &[Hop],
    place: usize,
    marks: &mut [bool],
) -> Result<(), AllocError>
    requires within { All (IsAmong (length marks.old)) hops.now }
    requires place { place < length marks.old }
    requires sound { GoesRoundOnly hops.now marks.old }
    requires whole { HoldsWholeLoops hops.now marks.old }
    ensures { OnOk result (MarksLoopsAt hops.now place marks.old marks.new) }
{
    let ahead = reached(alloc, hops, place, marks.len())?;
    if !ahead[place] {
        return Ok(());
    }
    mark_between(alloc, hops, place, &ahead, marks)
}

// Marks the routers of all loops through the router before the hop, unless the cost decreases along
// it or the router is marked already.
fn mark_loops_before(
    alloc: Global,
    hops: &[Hop],
    costs: &[u32],
    hop: Hop,
    marks: &mut [bool],
) -> Result<(), AllocError>
    requires within { All (IsAmong (length marks.old)) hops.now }
    requires count { length marks.old ≡ length costs.now }
    requires hop { IsAmong (length costs.now) hop }
    requires sound { GoesRoundOnly hops.now marks.old }
    requires whole { HoldsWholeLoops hops.now marks.old }
    ensures { OnOk result (MarksLoopsBefore hops.now costs.now hop marks.old marks.new) }
{
    if costs[hop.to] < costs[hop.from] {
        return Ok(());
    }
    if marks[hop.from] {
        return Ok(());
    }
    mark_loops_at(alloc, hops, hop.from, marks)
}

// Marks the routers of all loops; none is marked before.
fn mark_all(
    alloc: Global,
    hops: &[Hop],
    costs: &[u32],
    marks: &mut [bool],
) -> Result<(), AllocError>
    requires within { All (IsAmong (length costs.now)) hops.now }
    requires count { length marks.old ≡ length costs.now }
    requires sound { GoesRoundOnly hops.now marks.old }
    requires whole { HoldsWholeLoops hops.now marks.old }
    ensures { OnOk result (AreLoops hops.now (length costs.now) marks.new) }
{
    for hop in hops {
        mark_loops_before(alloc, hops, costs, *hop, marks)?;
    }
    Ok(())
}

/// Marks the routers that are on a loop; there are as many routers as costs.
///
/// Each router's cost is that of its route. If the costs decrease along each hop, there is no loop,
/// and nothing else is visited: a loop has a hop along which they don't. Any costs give the same
/// marks.
///
/// # Errors
/// `AllocError` if an allocation is refused.
pub fn loops(alloc: Global, hops: &[Hop], costs: &[u32]) -> Result<Vec<bool>, AllocError>
    requires { All (IsAmong (length costs.now)) hops.now }
    ensures { IfOk result (λ marks. AreLoops hops.now (length costs.now) marks.items) }
{
    let mut marks = vec![in alloc; false; costs.len()]?;
    mark_all(alloc, hops, costs, &mut marks)?;
    Ok(marks)
}
