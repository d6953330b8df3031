//! The routers that a packet may reach from a router, and those from which it may reach one.
ghost use Rattle.std.specs.Prelude.{◌≡◌, ℕ, IfOk, length, map, true, false};
ghost use Rattle.std.specs.List.{All};
ghost use Rattle.routes.specs.Loops.{AreReached, IsAmong, IsMarked, IsPassedOn, IsSpread};
ghost use Rattle.routes.specs.Loops.{PassesOn, Walk, reversed_hop};

use crate::hop::Hop;
use std::alloc::{AllocError, Global};

// Marks the end of the hop, if the hop is from the start or from a marked router. Returns whether
// that mark is new.
fn pass_on(hop: Hop, start: usize, marks: &mut [bool]) -> bool
    requires { IsAmong (length marks.old) hop }
    ensures passes { result ≡ true → PassesOn start hop marks.old marks.new }
    ensures stays { result ≡ false → IsPassedOn start marks.old hop }
    ensures same { result ≡ false → marks.new ≡ marks.old }
{
    if hop.from != start && !marks[hop.from] {
        return false;
    }
    if marks[hop.to] {
        return false;
    }
    marks[hop.to] = true;
    true
}

// Marks the ends of hops from the start or from a marked router. Returns whether any mark is new.
fn spread(hops: &[Hop], start: usize, marks: &mut [bool]) -> bool
    requires within { All (IsAmong (length marks.old)) hops.now }
    requires sound { AreReached hops.now start marks.old }
    ensures { IsSpread hops.now start marks.old marks.new result (length hops.now) }
{
    let mut some = false;
    for hop in hops {
        if pass_on(*hop, start, marks) {
            some = true;
        }
    }
    some
}

// Marks all that a packet may reach from the start.
fn spread_all(hops: &[Hop], start: usize, marks: &mut [bool])
    requires within { All (IsAmong (length marks.old)) hops.now }
    requires sound { AreReached hops.now start marks.old }
    ensures sound { AreReached hops.now start marks.new }
    ensures complete { (k : ℕ) → Walk hops.now start k → IsMarked marks.new k }
{
    while spread(hops, start, marks) {}
}

/// Of `count` routers, marks those that a packet may reach from the start.
///
/// # Errors
/// `AllocError` if an allocation is refused.
pub fn reached(
    alloc: Global,
    hops: &[Hop],
    start: usize,
    routers: usize,
) -> Result<Vec<bool>, AllocError>
    requires { All (IsAmong routers) hops.now }
    ensures count { IfOk result (λ marks. length marks.items ≡ routers) }
    ensures sound { IfOk result (λ marks. AreReached hops.now start marks.items) }
    ensures complete { IfOk result (λ marks. (k : ℕ) → Walk hops.now start k
        → IsMarked marks.items k) }
{
    let mut marks = vec![in alloc; false; routers]?;
    spread_all(hops, start, &mut marks);
    Ok(marks)
}

/// The hops in the reverse direction.
///
/// # Errors
/// `AllocError` if an allocation is refused.
pub fn turn_all(alloc: Global, hops: &[Hop]) -> Result<Vec<Hop>, AllocError>
    ensures { IfOk result (λ made. made.items ≡ map reversed_hop hops.now) }
{
    hops.iter()
        .map(|hop| Hop {
            from: hop.to,
            to: hop.from,
        })
        .collect(alloc)
}
