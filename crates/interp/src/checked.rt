//! Checked runs.
ghost use Rattle.machine.specs.Given.{given_by};
ghost use Rattle.machine.specs.State.{setting_of};
ghost use Rattle.maps.specs.Words.{IsSeatOf};
ghost use Rattle.interp.specs.Halts.{HaltsAt};
ghost use Rattle.interp.specs.Outcome.{Outcome};

use crate::steps;
use crate::trap::Trap;
use isa::Code;
use machine::{Hook, Input, State};
use maps::{Seat, Shared};
use word_machine::Run;

/// Runs a program at a hook on an input, for at most `limit` instructions, with every check that
/// the machine requires.
///
/// The answer is the number in r0 at EXIT. The seat is one of `shared`, and its list of accesses,
/// which contracts alone have, grows by exactly the run's, even if the run ends in a trap. The call
/// never blocks or allocates.
///
/// # Errors
/// `Trap::Stuck` if the machine is stuck after fewer than `limit` steps; `Trap::Limit` if `limit`
/// instructions passed without EXIT.
pub fn run_checked(
    code: &Code,
    hook: Hook,
    limit: u64,
    input: &Input,
    shared: &Shared,
    seat: &mut Seat,
) -> Result<Run, Trap>
    requires { IsSeatOf shared.now seat.old }
    ensures outcome { Outcome (setting_of code.now hook (given_by input.now)) limit seat.old result
        seat.new }
    ensures table { IsSeatOf shared.now seat.new }
{
    let mut state = steps::start();
    steps::run_steps(code.slots(), hook, limit, input, shared, seat, &mut state)
}

/// A checked run, and the state at its end.
#[derive(Clone, Copy)]
pub struct Halt {
    /// The answer, or why there is none.
    pub outcome: Result<Run, Trap>,
    /// The state at EXIT, the stuck state, or the one that the last instruction led to.
    pub state: State,
}

/// Runs a program as `run_checked` does, and returns the state at the end as well: at EXIT, at the
/// instruction by which it is stuck, or after `limit` instructions.
pub fn run_to_halt(
    code: &Code,
    hook: Hook,
    limit: u64,
    input: &Input,
    shared: &Shared,
    seat: &mut Seat,
) -> Halt
    requires { IsSeatOf shared.now seat.old }
    ensures outcome { Outcome (setting_of code.now hook (given_by input.now)) limit seat.old
        result.outcome seat.new }
    ensures halts { HaltsAt (setting_of code.now hook (given_by input.now)) limit seat.old
        result.outcome result.state seat.new }
    ensures table { IsSeatOf shared.now seat.new }
{
    let mut state = steps::start();
    let outcome = steps::run_steps(code.slots(), hook, limit, input, shared, seat, &mut state);
    Halt { outcome, state }
}
