//! The whole program, over readers and writers that are handed in.

ghost use Rattle.std.specs.Prelude.{◌≡◌, ◌⊎◌, map};
ghost use Rattle.std.specs.IoError.{error_kind};
ghost use Rattle.clap.specs.Simple.{App};
ghost use Rattle.commands.specs.CommandLine.{IsCommandLine};
ghost use Rattle.commands.specs.Endings.{Ends, EndsRequest, EndsWords, Prints, Tells};

use crate::fault::{CommandError, DONE, REFUSED};
use crate::report::CommandOutput;
use crate::requests::CommandRequest;
use crate::routing::Routing;
use crate::{assembly, files, raw, run, verify};
use std::alloc::Global;
use std::io::{self, BufRead, ErrorKind, Write};
use std::rt::Files;
use std::thread::Threads;

// Prints what a command made. Returns the status.
fn print<O: Write>(report: &CommandOutput, output: &mut O) -> u8
    ensures { Prints report.now (O.contents output.old) (O.contents output.new) result }
{
    match output.write_all(report.text.as_bytes()) {
        Ok(()) if report.is_refused => REFUSED,
        Ok(()) => DONE,
        Err(_) => CommandError::Output.status(),
    }
}

// Prints the error: clap's texts to `errors`, all others to `output`.
fn tell<O: Write, E: Write>(fault: &CommandError<'_>, output: &mut O, errors: &mut E) -> u8
    ensures { Tells fault.now (O.contents output.old) (O.contents output.new)
        (E.contents errors.old) (E.contents errors.new) result }
{
    let written = match fault {
        CommandError::Usage(error) => write!(errors, "{error}"),
        _ => writeln!(output, "{fault}"),
    };
    match written {
        Ok(()) => fault.status(),
        Err(_) => CommandError::Output.status(),
    }
}

// Prints what a command made, or its error. Returns the status.
fn end<O: Write, E: Write>(
    outcome: Result<CommandOutput, CommandError<'_>>,
    output: &mut O,
    errors: &mut E,
) -> u8
    ensures { Ends outcome.entry (O.contents output.old) (O.contents output.new)
        (E.contents errors.old) (E.contents errors.new) result }
{
    match outcome {
        Ok(report) => print(&report, output),
        Err(fault) => tell(&fault, output, errors),
    }
}

/// Prints that the words can't be read. Returns the status: 4 if memory was refused, 2 if a word
/// isn't UTF-8, 3 if nothing can be printed.
pub fn end_without_words<O: Write, E: Write>(
    alloc: Global,
    error: &io::Error,
    output: &mut O,
    errors: &mut E,
) -> u8
    ensures memory { error_kind error.now ≡ ErrorKind.OutOfMemory → (result ≡ 3) ⊎ (result ≡ 4) }
    ensures told { (result ≡ 2) ⊎ (result ≡ 3) ⊎ (result ≡ 4) }
{
    let fault = CommandError::from(crate::reading::unreadable_words(alloc, error));
    tell(&fault, output, errors)
}

// Runs the router of the configuration file at `path`, or prints why the file can't be read.
// Returns the status.
fn route<R: Files + AllocGlobal, G: Routing, I: BufRead, O: Write, E: Write>(
    rt: &R,
    routing: &G,
    path: &str,
    input: &mut I,
    output: &mut O,
    errors: &mut E,
) -> u8
    ensures { EndsRequest (CommandRequest.Route path.entry) (O.contents output.old)
        (O.contents output.new) (E.contents errors.old) (E.contents errors.new) result }
{
    match files::read_text(rt, path) {
        Ok(text) => routing.route(text.as_str(), input, output),
        Err(fault) => end(Err(fault), output, errors),
    }
}

// Carries out a request. Returns the status.
fn carry_out<R: Files + AllocGlobal + Threads + Sync, G: Routing, I: BufRead, O: Write, E: Write>(
    rt: &R,
    routing: &G,
    request: CommandRequest<'_>,
    input: &mut I,
    output: &mut O,
    errors: &mut E,
) -> u8
    ensures { EndsRequest request.entry (O.contents output.old) (O.contents output.new)
        (E.contents errors.old) (E.contents errors.new) result }
{
    match request {
        CommandRequest::Raw { hook, file, seats } => {
            end(raw::raw(rt, hook, file, seats), output, errors)
        }
        CommandRequest::Run {
            object,
            context,
            packet,
        } => end(run::run(rt, object, context, packet), output, errors),
        CommandRequest::Asm { source, object } => {
            end(assembly::assemble_file(rt, source, object), output, errors)
        }
        CommandRequest::List { object } => end(assembly::list(rt, object), output, errors),
        CommandRequest::Verify { object } => end(verify::verify(rt, object), output, errors),
        CommandRequest::Route { config } => route(rt, routing, config, input, output, errors),
    }
}

/// Carries out what the words ask for (the first is the program's name). Returns the status: 0
/// done, 1 refused or stuck, 2 usage, 3 a file, a socket or a stream failed, 4 memory was refused.
///
/// Lines are read from `input` and written to `output`; the texts about usage go to `errors`.
/// Routers are run by `routing`.
pub fn program<R: Files + AllocGlobal + Threads + Sync, G: Routing, I: BufRead, O: Write, E: Write>(
    rt: &R,
    routing: &G,
    words: &[&str],
    input: &mut I,
    output: &mut O,
    errors: &mut E,
) -> u8
    ensures ended { (line : App) × IsCommandLine line
        × EndsWords line (map (λ word. word.now) words.now)
        (O.contents output.old) (O.contents output.new)
        (E.contents errors.old) (E.contents errors.new) result }
{
    match crate::reading::parse(rt.alloc(), words) {
        Ok(request) => carry_out(rt, routing, request, input, output, errors),
        Err(error) => end(Err(CommandError::from(error)), output, errors),
    }
}
