//! Files, read and written whole.

ghost use Rattle.std.specs.Prelude.{◌≡◌, ◌≤◌, ◌⊎◌, IfOk, IfErr, vec_len};

use crate::fault::CommandError;
use std::alloc::Global;
use std::rt::Files;
use whole_files::{ReadFault, WriteFault};

/// The bytes of the file at `path`.
///
/// # Errors
/// `Read` if it can't be opened or read, is no regular file, or is longer than 16 MiB; `Memory` if
/// an allocation is refused.
pub fn read<'a, R: Files + AllocGlobal>(rt: &R, path: &'a str) -> Result<Vec<u8>, CommandError<'a>>
    ensures within { IfOk result (λ bytes. vec_len bytes ≤ 16777216) }
    ensures fault { IfErr result (λ fault. (fault ≡ CommandError.Read path.entry)
        ⊎ (fault ≡ CommandError.Memory)) }
{
    match whole_files::read(rt, path) {
        Ok(bytes) => Ok(bytes),
        Err(ReadFault::Unreadable) => Err(CommandError::Read { path }),
        Err(ReadFault::Memory) => Err(CommandError::Memory),
    }
}

/// The text of the file at `path`.
///
/// # Errors
/// As [`read`], and `Read` if it isn't UTF-8.
pub fn read_text<'a, R: Files + AllocGlobal>(
    rt: &R,
    path: &'a str,
) -> Result<String, CommandError<'a>>
    ensures fault { IfErr result (λ fault. (fault ≡ CommandError.Read path.entry)
        ⊎ (fault ≡ CommandError.Memory)) }
{
    match String::from_utf8(read(rt, path)?) {
        Ok(text) => Ok(text),
        Err(_) => Err(CommandError::Read { path }),
    }
}

/// Makes the file at `path` one of these bytes, as [`whole_files::write`] does.
///
/// # Errors
/// `Write` if that fails, `Memory` if an allocation is refused.
pub fn write<'a, R: Files + AllocGlobal>(
    rt: &R,
    path: &'a str,
    bytes: &[u8],
) -> Result<(), CommandError<'a>>
    ensures { IfErr result (λ fault. (fault ≡ CommandError.Write path.entry)
        ⊎ (fault ≡ CommandError.Memory)) }
{
    match whole_files::write(rt, path, bytes) {
        Ok(()) => Ok(()),
        Err(WriteFault::Unwritable) => Err(CommandError::Write { path }),
        Err(WriteFault::Memory) => Err(CommandError::Memory),
    }
}
