//! The whole program, over streams that are handed in.

ghost use Rattle.std.specs.Prelude.{◌≡◌, ◌⊎◌, map, IfErr, IfOk};
ghost use Rattle.std.specs.IoError.{error_kind};
ghost use Rattle.hooktool.specs.Endings.{Ends, EndsPlayed, EndsRequest, EndsWords, Fails};
ghost use Rattle.hooktool.specs.Endings.{IsFaultOf, IsMadeOf, IsTold, Prints, TellsWords};

use crate::annotating::annotate;
use crate::building::{Order, Purpose, build_bytes};
use crate::explaining::explain;
use crate::fault::{DONE, HooktoolFault, OUTSIDE, REFUSED, USAGE};
use crate::files;
use crate::report::CommandReport;
use crate::streams::Stream;
use crate::testing::{Tested, test};
use crate::trying::try_question;
use clap::Error;
use clap::error::ErrorKind;
use hooktool_trials::{FuelAsked, HooktoolRequest, PlainRequest, WholeFiles};
use isa::Hook;
use std::alloc::Global;
use std::fmt::Display;
use std::io::{self, ErrorKind as IoKind};

// Prints what a command made, and answers the status.
fn print<O: Stream>(report: &CommandReport, output: &mut O) -> u8
    ensures { Prints report.now (O.state output.old) (O.state output.new) result }
{
    match output.print(report.text.as_str()) {
        Ok(()) if report.is_refused => REFUSED,
        Ok(()) => DONE,
        Err(_) => OUTSIDE,
    }
}

// Prints why nothing was made, and answers the status.
fn tell<O: Stream>(fault: HooktoolFault<'_>, output: &mut O) -> u8
    ensures { IsTold fault.entry (O.state output.new) result }
{
    match output.print(format_args!("{fault}\n")) {
        Ok(()) => fault.status(),
        Err(_) => OUTSIDE,
    }
}

// Prints what a command made or what its fault is, and answers the status.
fn end<O: Stream>(outcome: Result<CommandReport, HooktoolFault<'_>>, output: &mut O) -> u8
    ensures { Ends outcome.entry (O.state output.old) (O.state output.new) result }
{
    match outcome {
        Ok(report) => print(&report, output),
        Err(fault) => tell(fault, output),
    }
}

// Writes help, or a text about the words of the command line or of a test, and answers the status,
// which is this one if that is done.
fn tell_usage<D: Display + Drop, O: Stream>(text: D, stream: &mut O, status: u8) -> u8
    ensures { Fails (O.state stream.new) result ⊎ (result ≡ status) }
{
    match stream.print(text) {
        Ok(()) => status,
        Err(_) => OUTSIDE,
    }
}

// Prints what a test came to, and answers the status.
fn end_test<O: Stream>(outcome: Result<Tested, HooktoolFault<'_>>, output: &mut O) -> u8
    ensures { EndsPlayed outcome.entry (O.state output.old) (O.state output.new) result }
{
    match outcome {
        Ok(Tested::Played(report)) => print(&report, output),
        Ok(Tested::Unread(text)) => tell_usage(text.as_str(), output, USAGE),
        Err(fault) => tell(fault, output),
    }
}

// Tells what is wrong with the words, and answers the status. Help and want of memory go to the
// first stream, a text about a mistake to the second.
fn tell_words<O: Stream, E: Stream>(error: &Error, output: &mut O, errors: &mut E) -> u8
    ensures { TellsWords error.now (O.state output.old) (O.state output.new)
        (E.state errors.old) (E.state errors.new) result }
{
    match error.kind() {
        ErrorKind::OutOfMemory => tell(HooktoolFault::Memory, output),
        ErrorKind::DisplayHelp | ErrorKind::DisplayVersion => tell_usage(error, output, DONE),
        _ => tell_usage(error, errors, USAGE),
    }
}

/// Prints that the words can't be read, and returns the status: 4 if memory was refused, 2 if a
/// word isn't UTF-8, and 3 if nothing can be printed.
pub fn end_without_words<O: Stream, E: Stream>(
    alloc: Global,
    error: &io::Error,
    output: &mut O,
    errors: &mut E,
) -> u8
    ensures memory { error_kind error.now ≡ IoKind.OutOfMemory
        → Fails (O.state output.new) result ⊎ Fails (E.state errors.new) result ⊎ (result ≡ 4) }
    ensures told { Fails (O.state output.new) result ⊎ Fails (E.state errors.new) result
        ⊎ (result ≡ 2) ⊎ (result ≡ 4) }
{
    let error = hooktool_trials::unreadable_words(alloc, error);
    tell_words(&error, output, errors)
}

// An object of each function of the ELF file that is in the section of a hook, in the folder, if
// the verifier accepts it. The report on each is in the order of the file.
fn build<'a, R: WholeFiles + AllocGlobal>(
    rt: &R,
    file: &'a str,
    folder: &'a str,
    hook: Option<Hook>,
    fuel: FuelAsked,
) -> Result<CommandReport, HooktoolFault<'a>>
    ensures made { IfOk result (IsMadeOf R.known
        (HooktoolRequest.Plain (PlainRequest.Build file.entry folder.entry hook fuel))) }
    ensures fault { IfErr result (IsFaultOf R.known
        (HooktoolRequest.Plain (PlainRequest.Build file.entry folder.entry hook fuel))) }
{
    let order = Order {
        purpose: Purpose::Object { folder },
        hook,
        fuel,
    };
    match files::read(rt, file) {
        Ok(bytes) => build_bytes(rt, &order, file, bytes.as_slice()),
        Err(fault) => Err(fault),
    }
}

// Carries out a request without a question, and answers the status.
fn carry_out_plain<R: WholeFiles + AllocGlobal, O: Stream>(
    rt: &R,
    request: PlainRequest<'_>,
    output: &mut O,
) -> u8
    ensures { EndsRequest R.known (HooktoolRequest.Plain request.entry) (O.state output.old)
        (O.state output.new) result }
{
    match request {
        PlainRequest::Annotate {
            hook,
            code,
            object,
            fuel,
        } => end(annotate(rt, hook, code, object, fuel), output),
        PlainRequest::Build {
            file,
            folder,
            hook,
            fuel,
        } => end(build(rt, file, folder, hook, fuel), output),
        PlainRequest::Explain { object } => end(explain(rt, object), output),
        PlainRequest::Test { file } => end_test(test(rt, file), output),
    }
}

// Carries out a request, and answers the status.
fn carry_out<R: WholeFiles + AllocGlobal, O: Stream>(
    rt: &R,
    request: HooktoolRequest<'_>,
    output: &mut O,
) -> u8
    ensures { EndsRequest R.known request.entry (O.state output.old) (O.state output.new) result }
{
    match request {
        HooktoolRequest::Plain(plain) => carry_out_plain(rt, plain, output),
        HooktoolRequest::Try { object, question } => {
            end(try_question(rt, object, &question), output)
        }
    }
}

/// Carries out what the words ask for (the first is the program's name), and answers the status: 0
/// done, 1 refused or stuck, 2 usage, 3 a file or a stream failed, 4 memory was refused.
///
/// Lines and help are written to `output`; the texts about wrong words go to `errors`.
pub fn program<R: WholeFiles + AllocGlobal, O: Stream, E: Stream>(
    rt: &R,
    words: &[&str],
    output: &mut O,
    errors: &mut E,
) -> u8
    ensures ended { EndsWords R.known (map (λ word. word.now) words.now)
        (O.state output.old) (O.state output.new)
        (E.state errors.old) (E.state errors.new) result }
{
    match hooktool_trials::parse(rt.alloc(), words) {
        Ok(request) => carry_out(rt, request, output),
        Err(error) => tell_words(&error, output, errors),
    }
}
