//! Runs in a row.
ghost use Rattle.std.specs.Prelude.{◌≡◌, IfOk, IfErr, length};
ghost use Rattle.machine.specs.Given.{given_by};
ghost use Rattle.maps.specs.Words.{IsSeatOf};
ghost use Rattle.hooktool_trials.specs.Runs.{IsRefusal, RunsInARow, RunsOnce};

use crate::error::TrialError;
use interp::{Limit, Run, Trap, run_object_to_halt};
use machine::{Content, Input};
use maps::{Seat, Shared};
use std::alloc::Global;

/// How a run ended, and where the machine then stood: at EXIT, at the instruction by which it is
/// stuck, or where it was when its instructions were used up.
#[derive(Clone, Copy)]
pub struct RunEnding {
    pub outcome: Result<Run, Trap>,
    /// The slot of that instruction, or of the one that would have come next.
    pub slot: u64,
    /// r0 to r10 before it.
    pub registers: [Content; 11],
}

/// Runs the program of the object file once, for as many instructions as its object allows.
fn run_once(
    alloc: Global,
    bytes: &[u8],
    input: &Input,
    shared: &Shared,
    seat: &mut Seat,
) -> Result<RunEnding, TrialError>
    requires { IsSeatOf shared.now seat.old }
    ensures ran { IfOk result (λ ending. RunsOnce bytes.now (given_by input.now) seat.old ending
        seat.new) }
    ensures table { IsSeatOf shared.now seat.new }
    ensures refuses { IfErr result (IsRefusal bytes.now) }
{
    let halt = run_object_to_halt(alloc, bytes, Limit::Own, input, shared, seat)?;
    let registers = halt.state.registers;
    Ok(RunEnding {
        outcome: halt.outcome,
        slot: halt.state.slot,
        registers,
    })
}

/// Runs the program of the object file this number of times, each time on what the run before left.
pub(crate) fn run_in_a_row(
    alloc: Global,
    bytes: &[u8],
    times: u32,
    input: &Input,
    shared: &Shared,
    seat: &mut Seat,
) -> Result<Vec<RunEnding>, TrialError>
    requires { IsSeatOf shared.now seat.old }
    ensures ran { IfOk result (λ endings. RunsInARow bytes.now (given_by input.now) seat.old
        endings.items seat.new) }
    ensures times { IfOk result (λ endings. length endings.items ≡ times) }
    ensures table { IsSeatOf shared.now seat.new }
    ensures refuses { IfErr result (IsRefusal bytes.now) }
{
    let mut endings = Vec::new(alloc);
    for turn in 0..times {
        let ending = run_once(alloc, bytes, input, shared, seat)?;
        endings.push(ending)?;
    }
    Ok(endings)
}
