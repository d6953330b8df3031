//! A question to a program.
ghost use Rattle.std.specs.Prelude.{IfOk, IfErr};
ghost use Rattle.maps.specs.Words.{IsSeatOf};
ghost use Rattle.hooktool_trials.specs.Runs.{IsAsked, IsRefusal};

use crate::asked::context_of;
use crate::error::TrialError;
use crate::requests::Question;
use crate::runs::{RunEnding, run_in_a_row};
use crate::setup::set_up;
use isa::Hook;
use machine::Input;
use maps::{Seat, Shared};
use std::alloc::Global;

/// The hook of the object file that these bytes are.
pub(crate) fn hook_of(alloc: Global, bytes: &[u8]) -> Result<Hook, TrialError>
    ensures { IfErr result (IsRefusal bytes.now) }
{
    let object = object::read(alloc, bytes)?;
    Ok(object.hook())
}

/// Runs the program of the object file that these bytes are on the question, with this packet, as
/// many times as it says, and after the counters and cells that it names are set.
pub(crate) fn ask(
    alloc: Global,
    bytes: &[u8],
    packet: &[u8],
    question: &Question<'_>,
    shared: &Shared,
    seat: &mut Seat,
) -> Result<Vec<RunEnding>, TrialError>
    requires { IsSeatOf shared.now seat.old }
    ensures asked { IfOk result (λ endings. IsAsked bytes.now packet.now question.now seat.old
        endings.items seat.new) }
    ensures table { IsSeatOf shared.now seat.new }
    ensures refuses { IfErr result (IsRefusal bytes.now) }
{
    let object = object::read(alloc, bytes)?;
    let context = context_of(object.hook(), &question.asked, packet);
    let input = Input {
        context,
        packet,
        rows: &question.rows,
    };
    set_up(shared, seat, &question.counters, &question.cells);
    run_in_a_row(alloc, bytes, question.times, &input, shared, seat)
}
