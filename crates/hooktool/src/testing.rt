//! `test`: the questions of a file, and the answers that are expected.

ghost use Rattle.std.specs.Prelude.{◌≡◌, ◌≢◌, IfErr, IfOk, not};
ghost use Rattle.std.specs.List.{list_any};
ghost use Rattle.hooktool_trials.specs.Steps.{words_of};
ghost use Rattle.hooktool.specs.Faults.{IsTestFault};
ghost use Rattle.hooktool.specs.Tests.{HasWrongLine, IsTested, IsTestedOr, IsUnplayed};
ghost use Rattle.hooktool.specs.Tests.{IsWrongTest};

use crate::fault::HooktoolFault;
use crate::files;
use crate::report::{CommandReport, told};
use crate::tap::protocol;
use hooktool_trials::{
    LineError, PlayError, Point, Stopped, TestLine, WholeFiles, WrongLine, play, read_lines,
    words_of_lines,
};
use std::alloc::{AllocError, Global};

const UNPLAYED: &str = "the tests aren't played to their end\n";

/// What a test came to: its points were played, or a line can't be, and this is told.
#[derive(Drop)]
pub(crate) enum Tested {
    Played(CommandReport),
    Unread(String),
}

/// Why a line says nothing that is done in a test, behind its place.
fn wrong_text(alloc: Global, path: &str, wrong: &WrongLine) -> Result<String, AllocError>
    ensures { IfOk result (λ text. wrong.now.error ≢ LineError.Memory) }
{
    let number = wrong.number;
    match &wrong.error {
        LineError::Options(error) => format!(in alloc; "{path}, line {number}: {error}{UNPLAYED}"),
        LineError::Words(why) => format!(in alloc; "{path}, line {number}: {why}\n{UNPLAYED}"),
        LineError::Memory => Err(AllocError),
    }
}

/// Why a line can't be played, behind its place.
fn stopped_text(alloc: Global, path: &str, stopped: Stopped) -> Result<String, AllocError>
    ensures { IfOk result (λ text. stopped.error ≢ PlayError.Memory) }
{
    let number = stopped.number;
    let error = stopped.error;
    match error {
        PlayError::Memory => Err(AllocError),
        _ => format!(in alloc; "{path}, line {number}: {error}\n{UNPLAYED}"),
    }
}

/// Whether one of the points isn't ok.
fn is_any_wrong(points: &[Point<'_>]) -> bool
    ensures { result ≡ list_any (λ point. not point.verdict.is_ok) points.now }
{
    points.iter().any(|point| !point.verdict.is_ok)
}

/// The report on the points.
fn report_of<'a>(alloc: Global, points: &[Point<'_>]) -> Result<CommandReport, HooktoolFault<'a>>
    ensures refused { IfOk result (λ report. report.is_refused
        ≡ list_any (λ point. not point.verdict.is_ok) points.now) }
    ensures fault { IfErr result (λ fault. fault ≡ HooktoolFault.Memory) }
{
    told(protocol(alloc, points), is_any_wrong(points))
}

/// Plays these lines, and reports on them.
fn played<'a, R: WholeFiles + AllocGlobal>(
    rt: &R,
    path: &'a str,
    lines: &[TestLine<'_>],
) -> Result<Tested, HooktoolFault<'a>>
    ensures played { IfOk result (IsTestedOr (IsUnplayed R.known lines.now)) }
    ensures fault { IfErr result (λ fault. fault ≡ HooktoolFault.Memory) }
{
    match play(rt, lines) {
        Ok(points) => match report_of(rt.alloc(), &points) {
            Ok(report) => Ok(Tested::Played(report)),
            Err(fault) => Err(fault),
        },
        Err(stopped) => match stopped_text(rt.alloc(), path, stopped) {
            Ok(text) => Ok(Tested::Unread(text)),
            Err(error) => Err(HooktoolFault::from(error)),
        },
    }
}

/// Plays the lines of these words.
fn test_words<'a, R: WholeFiles + AllocGlobal>(
    rt: &R,
    path: &'a str,
    words: &[Vec<&str>],
) -> Result<Tested, HooktoolFault<'a>>
    ensures played { IfOk result (IsTestedOr (IsWrongTest R.known (words_of words.now))) }
    ensures fault { IfErr result (λ fault. fault ≡ HooktoolFault.Memory) }
{
    match read_lines(rt.alloc(), words) {
        Ok(lines) => played(rt, path, &lines),
        Err(line) => match wrong_text(rt.alloc(), path, &line) {
            Ok(text) => Ok(Tested::Unread(text)),
            Err(error) => Err(HooktoolFault::from(error)),
        },
    }
}

/// Plays the lines of a text.
fn test_text<'a, R: WholeFiles + AllocGlobal>(
    rt: &R,
    path: &'a str,
    text: &str,
) -> Result<Tested, HooktoolFault<'a>>
    ensures played { IfOk result (IsTestedOr (HasWrongLine R.known)) }
    ensures fault { IfErr result (λ fault. fault ≡ HooktoolFault.Memory) }
{
    match words_of_lines(rt.alloc(), text) {
        Ok(words) => test_words(rt, path, &words),
        Err(error) => Err(HooktoolFault::from(error)),
    }
}

/// Plays the test in the file at `path`: the text of its points, or of the first line that can't be
/// read or played.
///
/// # Errors
/// A fault if the file can't be read or isn't UTF-8, or if memory is refused.
pub(crate) fn test<'a, R: WholeFiles + AllocGlobal>(
    rt: &R,
    path: &'a str,
) -> Result<Tested, HooktoolFault<'a>>
    ensures played { IfOk result (IsTested R.known path.now) }
    ensures fault { IfErr result (IsTestFault R.known path.entry) }
{
    match files::read(rt, path) {
        Ok(bytes) => match str::from_utf8(&bytes) {
            Ok(text) => test_text(rt, path, text),
            Err(_) => Err(HooktoolFault::Read { path }),
        },
        Err(fault) => Err(fault),
    }
}
