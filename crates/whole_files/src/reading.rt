//! Reads whole files.
ghost use Rattle.std.specs.Prelude.{◌≤◌, IfOk, vec_len};

use std::fs;
use std::io::{ErrorKind, Read};
use std::rt::Files;

/// The size limit, in bytes, above which a file isn't read: no code, object or text is larger.
const MAX_BYTES: u64 = 16_777_216;

/// Why a file wasn't read.
#[derive(Clone, Copy)]
pub enum ReadFault {
    /// It can't be opened or read, isn't a regular file, or is longer than 16 MiB.
    Unreadable,
    /// An allocation was refused.
    Memory,
}

// Whether there is a regular file. It is checked before the file is opened, since opening a pipe
// may block until its other end is opened.
fn is_regular<R: Files>(rt: &R, path: &str) -> bool {
    match fs::metadata(rt, path) {
        Ok(found) => found.is_file(),
        Err(_) => false,
    }
}

/// The bytes of the regular file at `path`.
///
/// # Errors
/// `Unreadable` if it can't be opened or read, isn't a regular file (but a directory, a pipe or a
/// device), or has more than 16,777,216 bytes; `Memory` if an allocation is refused.
pub fn read<R: Files + AllocGlobal>(rt: &R, path: &str) -> Result<Vec<u8>, ReadFault>
    ensures within { IfOk result (λ bytes. vec_len bytes ≤ 16777216) }
{
    if !is_regular(rt, path) {
        return Err(ReadFault::Unreadable);
    }
    let Ok(file) = fs::open(rt, path) else {
        return Err(ReadFault::Unreadable);
    };
    let mut bytes = Vec::new(rt.alloc());
    match file.take(MAX_BYTES + 1).read_to_end(&mut bytes) {
        Ok(_) if bytes.len() as u64 <= MAX_BYTES => Ok(bytes),
        Ok(_) => Err(ReadFault::Unreadable),
        Err(error) if matches!(error.kind(), ErrorKind::OutOfMemory) => Err(ReadFault::Memory),
        Err(_) => Err(ReadFault::Unreadable),
    }
}
