//! The whole program, over writers that are handed in.
ghost use Rattle.std.specs.Prelude.{◌≡◌, ◌⊎◌, ◌≤◌, IfOk};
ghost use Rattle.std.specs.IoError.{error_kind};
ghost use Rattle.simulation.specs.Endings.{Ends, IsVerdict, Tells};

use crate::arguments;
use crate::fault::SimulationError;
use crate::work::carry_out;
use std::alloc::Global;
use std::io::{self, ErrorKind, Write};
use std::sync::Wait;

// Prints the error: clap's texts to `errors`, all others to `output`.
fn tell<O: Write, E: Write>(fault: &SimulationError, output: &mut O, errors: &mut E) -> u8
    ensures told { Tells fault.now (O.contents output.old) (O.contents output.new)
        (E.contents errors.old) (E.contents errors.new) result }
    ensures within { result ≤ 4 }
{
    let written = match fault {
        SimulationError::Usage(error) => write!(errors, "{error}"),
        other => output.write_all(other.text().as_bytes()),
    };
    match written {
        Ok(()) => fault.status(),
        Err(_) => SimulationError::Output.status(),
    }
}

// Returns the status of what was played, or prints its error.
fn end<O: Write, E: Write>(
    outcome: Result<u8, SimulationError>,
    output: &mut O,
    errors: &mut E,
) -> u8
    requires { IfOk outcome IsVerdict }
    ensures ended { Ends outcome (O.contents output.old) (O.contents output.new)
        (E.contents errors.old) (E.contents errors.new) result }
    ensures within { result ≤ 4 }
{
    match outcome {
        Ok(status) => status,
        Err(fault) => tell(&fault, output, errors),
    }
}

/// Prints that the words can't be read. Returns the status: 4 if memory was refused, 2 if a word
/// isn't UTF-8, 3 if nothing can be printed.
pub fn end_without_words<O: Write, E: Write>(
    alloc: Global,
    error: &io::Error,
    output: &mut O,
    errors: &mut E,
) -> u8
    ensures memory { error_kind error.now ≡ ErrorKind.OutOfMemory → (result ≡ 3) ⊎ (result ≡ 4) }
    ensures told { (result ≡ 2) ⊎ (result ≡ 3) ⊎ (result ≡ 4) }
{
    let fault = SimulationError::from(arguments::unreadable_words(alloc, error));
    tell(&fault, output, errors)
}

/// Carries out what the words ask for (the first is the program's name). Returns the status: 0 all
/// is at rest or nothing was found, 1 not so, 2 usage, 3 the output failed, 4 memory was refused.
///
/// What is played is printed to `output`; the texts about usage go to `errors`.
pub fn program<R: Wait + Drop + Copy, O: Write, E: Write>(
    alloc: Global,
    rt: R,
    words: &[String],
    output: &mut O,
    errors: &mut E,
) -> u8
    ensures { result ≤ 4 }
{
    end(carry_out(alloc, rt, words, output), output, errors)
}
