//! What the verifier says of an object file.

ghost use Rattle.std.specs.Prelude.{◌≡◌, ◌⊎◌, List, ℕ, true, false, IfOk, IfErr, string_bytes};
ghost use Rattle.commands.specs.Assembly.{IsObjectFault};
ghost use Rattle.commands.specs.Verdicts.{IsVerdict, refused_line};
ghost use Rattle.verifier.specs.Verdicts.{accepted_line};

use crate::fault::CommandError;
use crate::files;
use crate::report::CommandOutput;
use std::alloc::{AllocError, Global};
use std::rt::Files;
use verifier::{Refusal, Rule, VerifyError, verify_object};

/// What is told of a program that is accepted with this bound.
fn report_accepted(alloc: Global, bound: u64) -> Result<CommandOutput, AllocError>
    ensures told { IfOk result (λ report. string_bytes report.text ≡ accepted_line bound) }
    ensures done { IfOk result (λ report. report.is_refused ≡ false) }
{
    Ok(CommandOutput {
        text: format!(in alloc; "accepted bound {bound}\n")?,
        is_refused: false,
    })
}

/// What is told of a program that is refused: the first slot that breaks a rule, and which rule.
fn report_refused(alloc: Global, refusal: Refusal) -> Result<CommandOutput, AllocError>
    ensures told { IfOk result (λ report. string_bytes report.text ≡ refused_line refusal) }
    ensures refused { IfOk result (λ report. report.is_refused ≡ true) }
{
    let slot = refusal.slot;
    let rule = refusal.rule.number();
    Ok(CommandOutput {
        text: format!(in alloc; "refused slot {slot} rule {rule}\n")?,
        is_refused: true,
    })
}

/// What the verifier says of the program of the object file that these bytes are.
fn verdict_of<'a>(alloc: Global, bytes: &[u8]) -> Result<CommandOutput, CommandError<'a>>
    ensures verdict { IfOk result (IsVerdict bytes.now) }
    ensures fault { IfErr result (IsObjectFault bytes.now) }
{
    match verify_object(alloc, bytes) {
        Ok(program) => Ok(report_accepted(alloc, program.bound())?),
        Err(VerifyError::Object(error)) => Err(CommandError::from(error)),
        Err(VerifyError::Code(error)) => Err(CommandError::from(error)),
        Err(VerifyError::Refused(refusal)) if refusal.rule == Rule::Memory => Err(
            CommandError::Memory,
        ),
        Err(VerifyError::Refused(refusal)) => Ok(report_refused(alloc, refusal)?),
    }
}

/// Verifies the program of the object file at `path`, and reports its bound, or the slot and the
/// rule by which it is refused.
///
/// # Errors
/// `Read` if the file can't be read, `Object` if it is no object file, `Code` if it holds no code,
/// `Memory` if an allocation is refused.
pub fn verify<'a, R: Files + AllocGlobal>(
    rt: &R,
    path: &'a str,
) -> Result<CommandOutput, CommandError<'a>>
    ensures verdict { IfOk result (λ report. (bytes : List ℕ) × IsVerdict bytes report) }
    ensures fault { IfErr result (λ fault. (fault ≡ CommandError.Read path.entry)
        ⊎ ((bytes : List ℕ) × IsObjectFault bytes fault)) }
{
    let bytes = files::read(rt, path)?;
    verdict_of(rt.alloc(), bytes.as_slice())
}
