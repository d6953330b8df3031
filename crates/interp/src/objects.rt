//! Runs of object files: from the bytes of a file and an input to what the machine answers.
ghost use Rattle.std.specs.Prelude.{◌≡◌, IfOk, IfErr, OnErr};
ghost use Rattle.machine.specs.Given.{given_by};
ghost use Rattle.maps.specs.Words.{IsSeatOf};
ghost use Rattle.interp.specs.ObjectRuns.{HaltsObject, RunsObject, Refuses};

use crate::checked::{Halt, run_to_halt};
use crate::error::RunError;
use crate::limit::Limit;
use crate::trap::Trap;
use isa::decode;
use machine::Input;
use maps::{Seat, Shared};
use std::alloc::Global;
use word_machine::Run;

/// Runs the program of the object file in `bytes` once, at its hook and on this input, for at most
/// `limit` instructions. The answer is the outcome of the machine's run of its code, and the seat
/// has made exactly the steps of that run.
///
/// # Errors
/// If the bytes are not an object file, if its code doesn't decode, or, in either variant, if an
/// allocation is refused. The seat is then unchanged.
pub fn run_object(
    alloc: Global,
    bytes: &[u8],
    limit: Limit,
    input: &Input,
    shared: &Shared,
    seat: &mut Seat,
) -> Result<Result<Run, Trap>, RunError>
    requires { IsSeatOf shared.now seat.old }
    ensures runs { IfOk result (λ outcome. RunsObject bytes.now limit (given_by input.now) seat.old
        outcome seat.new) }
    ensures table { IsSeatOf shared.now seat.new }
    ensures refuses { IfErr result (Refuses bytes.now) }
    ensures same { OnErr result (seat.new ≡ seat.old) }
{
    match run_object_to_halt(alloc, bytes, limit, input, shared, seat) {
        Ok(halt) => Ok(halt.outcome),
        Err(error) => Err(error),
    }
}

/// Runs the program of an object file as `run_object` does, and returns the state at the end as
/// well: at EXIT, at the instruction by which it is stuck, or after the last instruction that the
/// limit allows.
///
/// # Errors
/// Those of `run_object`. The seat is then unchanged.
pub fn run_object_to_halt(
    alloc: Global,
    bytes: &[u8],
    limit: Limit,
    input: &Input,
    shared: &Shared,
    seat: &mut Seat,
) -> Result<Halt, RunError>
    requires { IsSeatOf shared.now seat.old }
    ensures runs { IfOk result (λ halt. RunsObject bytes.now limit (given_by input.now) seat.old
        halt.outcome seat.new) }
    ensures halts { IfOk result (λ halt. HaltsObject bytes.now limit (given_by input.now) seat.old
        halt.outcome halt.state seat.new) }
    ensures table { IsSeatOf shared.now seat.new }
    ensures refuses { IfErr result (Refuses bytes.now) }
    ensures same { OnErr result (seat.new ≡ seat.old) }
{
    match object::read(alloc, bytes) {
        Ok(object) => match decode(alloc, object.code()) {
            Ok(code) => {
                let within = limit.of(&object);
                Ok(run_to_halt(&code, object.hook(), within, input, shared, seat))
            }
            Err(error) => Err(RunError::Code(error)),
        },
        Err(error) => Err(RunError::Object(error)),
    }
}
