//! What a command prints.

ghost use Rattle.std.specs.Prelude.{◌≡◌, IfErr, IfOk, true};

use crate::fault::HooktoolFault;
use explanations::Text;
use std::alloc::AllocError;

/// The text that a command prints, and whether that is a refusal: of a program that isn't accepted,
/// or of a run that gave no answer.
#[derive(Drop)]
pub struct CommandReport {
    pub text: String,
    pub is_refused: bool,
}

/// A report of this text, if there was memory for it.
pub(crate) fn told<'a>(
    text: Result<String, AllocError>,
    is_refused: bool,
) -> Result<CommandReport, HooktoolFault<'a>>
    ensures refused { IfOk result (λ report. report.is_refused ≡ is_refused) }
    ensures fault { IfErr result (λ fault. fault ≡ HooktoolFault.Memory) }
{
    match text {
        Ok(text) => Ok(CommandReport { text, is_refused }),
        Err(error) => Err(HooktoolFault::from(error)),
    }
}

/// A report of a refusal, if there was memory for its text.
pub(crate) fn refusal<'a>(text: Text) -> Result<CommandReport, HooktoolFault<'a>>
    ensures refused { IfOk result (λ report. report.is_refused ≡ true) }
    ensures fault { IfErr result (λ fault. fault ≡ HooktoolFault.Memory) }
{
    told(text.finish(), true)
}
