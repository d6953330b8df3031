//! One run of an object's program.

ghost use Rattle.std.specs.Prelude.{◌≡◌, ◌⊎◌, List, ℕ, IfOk, IfErr, string_bytes};
ghost use Rattle.machine.specs.Given.{given_by};
ghost use Rattle.commands.specs.Assembly.{IsObjectFault};
ghost use Rattle.commands.specs.Runs.{IsRun, Ran, outcome_line};

use crate::fault::CommandError;
use crate::files;
use crate::report::CommandOutput;
use interp::{Limit, Run, Trap, run_object};
use machine::Input;
use maps::Shared;
use std::alloc::{AllocError, Global};
use std::rt::Files;

fn text_of(alloc: Global, outcome: Result<Run, Trap>) -> Result<String, AllocError>
    ensures { IfOk result (λ text. string_bytes text ≡ outcome_line outcome) }
{
    match outcome {
        Ok(run) => {
            let answer = run.answer;
            let used = run.used;
            format!(in alloc; "answer {answer} used {used}\n")
        }
        Err(trap) => {
            let trap = trap.number();
            format!(in alloc; "trap {trap}\n")
        }
    }
}

/// Runs the program of the object file that these bytes are once, with counters and cells of its
/// own.
fn outcome_of<'a>(
    alloc: Global,
    bytes: &[u8],
    input: &Input,
) -> Result<Result<Run, Trap>, CommandError<'a>>
    ensures run { IfOk result (Ran bytes.now (given_by input.now)) }
    ensures fault { IfErr result (IsObjectFault bytes.now) }
{
    let (shared, mut seats) = Shared::new(alloc, 1)?;
    let mut seat = seats.remove(0);
    match run_object(alloc, bytes, Limit::Own, input, &shared, &mut seat) {
        Ok(outcome) => Ok(outcome),
        Err(error) => Err(CommandError::from(error)),
    }
}

/// Runs the program of the object file that these bytes are once at its hook, on this context and
/// packet and no table rows, and reports on it.
fn run_of<'a>(
    alloc: Global,
    bytes: &[u8],
    context: [u8; 64],
    packet: Vec<u8>,
) -> Result<CommandOutput, CommandError<'a>>
    ensures run { IfOk result (IsRun bytes.now context packet.items) }
    ensures fault { IfErr result (IsObjectFault bytes.now) }
{
    let input = Input {
        context,
        packet: packet.as_slice(),
        rows: &[],
    };
    let outcome = outcome_of(alloc, bytes, &input)?;
    Ok(CommandOutput {
        text: text_of(alloc, outcome)?,
        is_refused: outcome.is_err(),
    })
}

/// Runs the program of the object file at `path` once at its hook, on this context and packet and
/// no table rows, with counters and cells of its own.
///
/// # Errors
/// `Read` if the file can't be read, `Object` if it is no object file, `Code` if it holds no code,
/// `Memory` if an allocation is refused.
pub fn run<'a, R: Files + AllocGlobal>(
    rt: &R,
    path: &'a str,
    context: [u8; 64],
    packet: Vec<u8>,
) -> Result<CommandOutput, CommandError<'a>>
    ensures run { IfOk result (λ report. (bytes : List ℕ) × IsRun bytes context packet.items
        report) }
    ensures fault { IfErr result (λ fault. (fault ≡ CommandError.Read path.entry)
        ⊎ ((bytes : List ℕ) × IsObjectFault bytes fault)) }
{
    let bytes = files::read(rt, path)?;
    run_of(rt.alloc(), bytes.as_slice(), context, packet)
}
