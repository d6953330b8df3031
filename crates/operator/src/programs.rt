//! Programs from object files.
ghost use Rattle.std.specs.Prelude.{◌≡◌, List, ℕ, Err, IfErr, IfOk, string_bytes};
ghost use Rattle.verifier.specs.Verdicts.{Accepts};
ghost use Rattle.operator.specs.Reasons.{Holds, IsReason, Unreadable, reason_text};

use isa::DecodeFault;
use std::alloc::{AllocError, Global};
use std::rt::Files;
use verifier::{Accepted, Rule, VerifyError, verify_object};
use whole_files::{ReadFault, read};

/// Reads whole files.
///
/// `holds` (a path and the bytes of its file) and `unreadable` (a path) are relations that each
/// implementation defines: code that is generic over it can establish them only by the call, with
/// that path.
pub trait ReadsFiles {
    ghost holds: { Holds };

    ghost unreadable: { Unreadable };

    /// All bytes of the file at the path.
    ///
    /// # Errors
    /// `Unreadable` if it can't be opened or read, isn't a regular file, or has more than
    /// 16,777,216 bytes; `Memory` if an allocation is refused.
    fn bytes(&self, path: &str) -> Result<Vec<u8>, ReadFault>
        ensures bytes { IfOk result (λ bytes. holds path.now bytes.items) }
        ensures unreadable { result ≡ Err ReadFault.Unreadable → unreadable path.now };
}

/// The files of the system. No contract says what they hold.
#[derive(Drop)]
pub struct SystemFiles<'a, R> {
    pub rt: &'a R,
}

impl<'a, R: Files + AllocGlobal> ReadsFiles for SystemFiles<'a, R> {
    ghost holds = { λ path bytes. Unit {0} };

    ghost unreadable = { λ path. Unit {0} };

    fn bytes(&self, path: &str) -> Result<Vec<u8>, ReadFault> {
        read(self.rt, path)
    }
}

/// Why no program is attached.
#[derive(Clone, Copy)]
pub enum AttachError {
    /// The file can't be opened or read, isn't a regular file, or is longer than 16 MiB.
    Read,
    /// It is no object file: the number of the refusal.
    Object(u8),
    /// Its code doesn't decode: the slot, and the number of the refusal.
    Code(u64, u8),
    /// The verifier refuses it: the slot, and the number of the rule.
    Refused(u64, u8),
    /// Memory was refused.
    Memory,
}

impl From<VerifyError> for AttachError {
    ghost use Rattle.operator.specs.Reasons.{error_of};

    ghost from_gives = { λ verdict error. error ≡ error_of verdict };

    fn from(error: VerifyError) -> AttachError {
        match error {
            VerifyError::Object(object::ObjectError::Memory) => AttachError::Memory,
            VerifyError::Object(error) => AttachError::Object(error.number()),
            VerifyError::Code(error) => match error.kind {
                DecodeFault::Memory => AttachError::Memory,
                kind => AttachError::Code(error.slot as u64, kind.number()),
            },
            VerifyError::Refused(refusal) => match refusal.rule {
                Rule::Memory => AttachError::Memory,
                rule => AttachError::Refused(refusal.slot as u64, rule.number()),
            },
        }
    }
}

/// The line that says why no program of the file at the path is attached.
///
/// # Errors
/// `AllocError` if an allocation is refused.
pub fn reason(alloc: Global, path: &str, error: AttachError) -> Result<String, AllocError>
    ensures { IfOk result (λ text. string_bytes text ≡ reason_text path.now error) }
{
    match error {
        AttachError::Read => format!(in alloc; "cannot read {path}\n"),
        AttachError::Object(number) => format!(in alloc; "object refusal {number}\n"),
        AttachError::Code(slot, number) => {
            format!(in alloc; "code refusal {number} slot {slot}\n")
        }
        AttachError::Refused(slot, rule) => format!(in alloc; "refused slot {slot} rule {rule}\n"),
        AttachError::Memory => format!(in alloc; "out of memory\n"),
    }
}

/// Reads the object file at this path, and verifies it: the program that the verifier accepts.
///
/// # Errors
/// `Read` if the file can't be read, `Object` if it is no object file, `Code` if its code doesn't
/// decode, `Refused` if the verifier refuses it, `Memory` if an allocation is refused.
pub fn read_program<F: ReadsFiles>(
    alloc: Global,
    files: &F,
    path: &str,
) -> Result<Accepted, AttachError>
    ensures ok { IfOk result (λ program.
        (bytes : List ℕ) × F.holds path.now bytes × Accepts bytes program) }
    ensures err { IfErr result (IsReason F.holds F.unreadable path.now) }
{
    match files.bytes(path) {
        Ok(bytes) => match verify_object(alloc, &bytes) {
            Ok(program) => Ok(program),
            Err(error) => Err(error.into()),
        },
        Err(ReadFault::Unreadable) => Err(AttachError::Read),
        Err(ReadFault::Memory) => Err(AttachError::Memory),
    }
}
