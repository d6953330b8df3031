//! Writes whole files.
ghost use Rattle.std.specs.Prelude.{◌≡◌, ◌↔◌};
ghost use Rattle.whole_files.specs.declared.writing.WriteFault.TheVariants.{Memory};

use std::alloc::{AllocError, Global};
use std::fs;
use std::io::ErrorKind;
use std::rt::Files;

/// Why a file wasn't written.
#[derive(Clone, Copy)]
pub enum WriteFault {
    /// It can't be created, written or renamed.
    Unwritable,
    /// An allocation was refused.
    Memory,
}

impl From<AllocError> for WriteFault {
    ghost from_gives = { λ _ fault. fault ≡ Memory };

    fn from(_error: AllocError) -> WriteFault {
        WriteFault::Memory
    }
}

fn fault_of(error: ErrorKind) -> WriteFault
    ensures { (result ≡ Memory) ↔ (error ≡ ErrorKind.OutOfMemory) }
{
    match error {
        ErrorKind::OutOfMemory => WriteFault::Memory,
        _ => WriteFault::Unwritable,
    }
}

// Removes a file that was begun. If that fails too, there is nothing left to do.
fn give_up<R: Files>(rt: &R, begun: &str, error: ErrorKind) -> WriteFault
    ensures { (result ≡ Memory) ↔ (error ≡ ErrorKind.OutOfMemory) }
{
    let _left = fs::remove_file(rt, begun);
    fault_of(error)
}

// Whether there is something other than a regular file, such as a device or a pipe.
fn is_special<R: Files>(rt: &R, path: &str) -> bool {
    match fs::metadata(rt, path) {
        Ok(found) => !found.is_file(),
        Err(_) => false,
    }
}

/// Makes these bytes the contents of the file at `path`. They are first written to `path` with
/// `.part` appended, and then renamed to `path`, so that after an error the file is unchanged. A
/// device or a pipe is written to directly.
///
/// # Errors
/// `Unwritable` if that fails, `Memory` if an allocation is refused.
pub fn write<R: Files + AllocGlobal>(rt: &R, path: &str, bytes: &[u8]) -> Result<(), WriteFault> {
    if is_special(rt, path) {
        return match fs::write(rt, path, bytes) {
            Ok(()) => Ok(()),
            Err(error) => Err(fault_of(error.kind())),
        };
    }
    let begun = format!(in rt.alloc(); "{path}.part")?;
    if let Err(error) = fs::write(rt, begun.as_str(), bytes) {
        return Err(give_up(rt, begun.as_str(), error.kind()));
    }
    match fs::rename(rt, begun.as_str(), path) {
        Ok(()) => Ok(()),
        Err(error) => Err(give_up(rt, begun.as_str(), error.kind())),
    }
}
