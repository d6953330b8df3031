//! The number of routers on loops.
ghost use Rattle.std.specs.Prelude.{IfOk, length};
ghost use Rattle.std.specs.List.{All};
ghost use Rattle.routes.specs.Loops.{IsAmong, IsCountOfLoops};

use crate::hop::Hop;
use crate::marking::loops;
use std::alloc::{AllocError, Global};

/// Counts the routers that are on a loop; there are as many routers as costs. See [`loops`].
///
/// # Errors
/// `AllocError` if an allocation is refused.
pub fn count_loops(alloc: Global, hops: &[Hop], costs: &[u32]) -> Result<usize, AllocError>
    requires { All (IsAmong (length costs.now)) hops.now }
    ensures { IfOk result (IsCountOfLoops hops.now (length costs.now)) }
{
    let marks = loops(alloc, hops, costs)?;
    Ok(marks.iter().filter(|mark| **mark).count())
}
