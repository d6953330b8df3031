//! A trial: a program's runs on one question, and what they left.
ghost use Rattle.std.specs.Prelude.{IfOk, IfErr};
ghost use Rattle.hooktool_trials.specs.Runs.{IsRefusal, IsTrial};

use crate::asking::ask;
use crate::error::TrialError;
use crate::left::cells_of;
use crate::requests::Question;
use crate::runs::RunEnding;
use maps::Shared;
use std::alloc::Global;

/// A program's runs in a row, and what they left in the counters and the cells, which were 0.
#[derive(Drop)]
pub struct ObjectTrial {
    pub endings: Vec<RunEnding>,
    pub counters: [u64; 256],
    pub cells: [u64; 64],
}

/// Runs the program of the object file that these bytes are, at its hook and on this question and
/// packet, as many times as it says, on a new table whose counters and cells are set as it says,
/// each time for as many instructions as its object allows.
///
/// # Errors
/// `Program` if the bytes are no object file or its code doesn't decode; want of memory is told by
/// it or by `Memory`.
pub fn try_object(
    alloc: Global,
    bytes: &[u8],
    packet: &[u8],
    question: &Question<'_>,
) -> Result<ObjectTrial, TrialError>
    ensures trial { IfOk result (IsTrial bytes.now packet.now question.now) }
    ensures refuses { IfErr result (IsRefusal bytes.now) }
{
    let (shared, mut seats) = Shared::new(alloc, 1)?;
    let mut seat = seats.remove(0);
    let endings = ask(alloc, bytes, packet, question, &shared, &mut seat)?;
    let cells = cells_of(&shared, &mut seat);
    let mut last = Vec::new(alloc);
    last.push(seat)?;
    let totals = shared.close(last);
    let counters = totals.sums;
    Ok(ObjectTrial {
        endings,
        counters,
        cells,
    })
}
