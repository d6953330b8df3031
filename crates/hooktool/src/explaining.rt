//! `explain`: what the verifier knows of a program, and its verdict.

ghost use Rattle.std.specs.Prelude.{◌≡◌, ◌⊎◌, ◌++◌, List, ℕ, IfErr, IfOk, is_err, string_bytes};
ghost use Rattle.hooktool.specs.Explanations.{IsExplained};
ghost use Rattle.hooktool.specs.Builds.{IsExplainedFile};
ghost use Rattle.hooktool.specs.Faults.{IsObjectFault, IsUnread};

use crate::annotating::is_elf;
use crate::building::{Order, Purpose, build_bytes};
use crate::fault::HooktoolFault;
use crate::files;
use crate::report::CommandReport;
use explanations::{Explanation, explain as explained};
use hooktool_trials::{FuelAsked, WholeFiles};
use isa::decode;
use std::alloc::Global;
use verifier::{Accepted, Rule, VerifyError};

/// Why these bytes hold no program. If they hold one, memory was refused.
pub(crate) fn fault_in<'a>(alloc: Global, bytes: &[u8]) -> HooktoolFault<'a>
    ensures { IsObjectFault bytes.now result }
{
    match object::read(alloc, bytes) {
        Ok(object) => match decode(alloc, object.code()) {
            Ok(_) => HooktoolFault::Memory,
            Err(error) => HooktoolFault::from(error),
        },
        Err(error) => HooktoolFault::from(error),
    }
}

/// Whether no verdict was reached for want of memory. The bytes were read before as an object with
/// code: if they are none now, that is want of memory too.
pub(crate) fn lacks_memory(verdict: &Result<Accepted, VerifyError>) -> bool {
    match verdict {
        Ok(_) => false,
        Err(VerifyError::Refused(refusal)) => refusal.rule == Rule::Memory,
        Err(_) => true,
    }
}

/// The report on an explanation: its three texts, one behind the other. A fault if no verdict was
/// reached for want of memory.
fn told_of<'a>(alloc: Global, explanation: &Explanation) -> Result<CommandReport, HooktoolFault<'a>>
    ensures text { IfOk result (λ report. string_bytes report.text
        ≡ string_bytes explanation.now.before ++ (string_bytes explanation.now.last
        ++ string_bytes explanation.now.told)) }
    ensures refused { IfOk result (λ report. report.is_refused
        ≡ is_err explanation.now.verdict) }
    ensures fault { IfErr result (λ fault. fault ≡ HooktoolFault.Memory) }
{
    if lacks_memory(&explanation.verdict) {
        return Err(HooktoolFault::Memory);
    }
    let before = explanation.before.as_str();
    let last = explanation.last.as_str();
    let told = explanation.told.as_str();
    match format!(in alloc; "{before}{last}{told}") {
        Ok(text) => Ok(CommandReport {
            text,
            is_refused: explanation.verdict.is_err(),
        }),
        Err(error) => Err(HooktoolFault::from(error)),
    }
}

/// The report on the object file that these bytes are.
pub(crate) fn explanation_of<'a>(
    alloc: Global,
    bytes: &[u8],
) -> Result<CommandReport, HooktoolFault<'a>>
    ensures explained { IfOk result (IsExplained bytes.now) }
    ensures fault { IfErr result (IsObjectFault bytes.now) }
{
    match explained(alloc, bytes) {
        Ok(explanation) => told_of(alloc, &explanation),
        Err(_) => Err(fault_in(alloc, bytes)),
    }
}

/// What is asked for of an ELF file.
const EXPLAINING: Order<'_> = Order {
    purpose: Purpose::Explanation,
    hook: None,
    fuel: FuelAsked {
        turns: None,
        answer: None,
    },
};

/// The report on these bytes of the file at `path`: of an object file, or of each function of an
/// ELF file.
fn explain_bytes<'a, R: WholeFiles + AllocGlobal>(
    rt: &R,
    path: &str,
    bytes: &[u8],
) -> Result<CommandReport, HooktoolFault<'a>>
    ensures explained { IfOk result (IsExplainedFile R.known bytes.now) }
    ensures fault { IfErr result (IsObjectFault bytes.now) }
{
    if is_elf(bytes) {
        build_bytes(rt, &EXPLAINING, path, bytes)
    } else {
        explanation_of(rt.alloc(), bytes)
    }
}

/// Reports what the verifier knows at each slot of the program of the object file at `path`, up to
/// the one that it refuses, and its verdict. Of an ELF file it reports so on each function that is
/// in the section of a hook, with the statements that are found for it.
///
/// # Errors
/// A fault if the file can't be read, is neither, or holds no code, or if memory is refused.
pub(crate) fn explain<'a, R: WholeFiles + AllocGlobal>(
    rt: &R,
    path: &'a str,
) -> Result<CommandReport, HooktoolFault<'a>>
    ensures explained { IfOk result (λ report. (bytes : List ℕ) × R.known.holds path.now bytes
        × IsExplainedFile R.known bytes report) }
    ensures fault { IfErr result (λ fault. IsUnread R.known path.entry fault
        ⊎ ((bytes : List ℕ) × R.known.holds path.now bytes × IsObjectFault bytes fault)) }
{
    match files::read(rt, path) {
        Ok(bytes) => explain_bytes(rt, path, bytes.as_slice()),
        Err(fault) => Err(fault),
    }
}
