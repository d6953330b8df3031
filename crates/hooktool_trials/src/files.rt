//! Files, read and written whole, by whatever reads and writes them.

ghost use Rattle.std.specs.Prelude.{◌≡◌, Err, IfOk, OnOk};
ghost use Rattle.hooktool_trials.specs.Stops.{KnownFiles};

use std::alloc::Global;
use std::rt::Files;
use whole_files::{ReadFault, WriteFault, read, write};

/// Reads and writes whole files.
///
/// `known` has relations that each implementation defines: what a file holds, what was written, and
/// which path can't be read or written. Code that is generic over it can establish them only by a
/// call, with that path.
pub trait WholeFiles {
    ghost known: { KnownFiles };

    /// All bytes of the file at the path.
    ///
    /// # Errors
    /// `Unreadable` if it can't be opened or read, isn't a regular file, or has more than
    /// 16,777,216 bytes; `Memory` if an allocation is refused.
    fn read_whole(&self, path: &str) -> Result<Vec<u8>, ReadFault>
        ensures bytes { IfOk result (λ bytes. known.holds path.now bytes.items) }
        ensures fault { result ≡ Err ReadFault.Unreadable → known.unreadable path.now };

    /// Makes these bytes the contents of the file at the path, as [`whole_files::write`] does.
    ///
    /// # Errors
    /// `Unwritable` if that fails, `Memory` if an allocation is refused.
    fn write_whole(&self, path: &str, bytes: &[u8]) -> Result<(), WriteFault>
        ensures done { OnOk result (known.written path.now bytes.now) }
        ensures fault { result ≡ Err WriteFault.Unwritable → known.unwritable path.now };
}

/// The files of the system. No contract says what they hold.
impl<R: Files + AllocGlobal> WholeFiles for R {
    ghost known = { record {
      holds = λ path bytes. Unit {0};
      written = λ path bytes. Unit {0};
      unreadable = λ path. Unit {0};
      unwritable = λ path. Unit {0};
    } };

    fn read_whole(&self, path: &str) -> Result<Vec<u8>, ReadFault> {
        read(self, path)
    }

    fn write_whole(&self, path: &str, bytes: &[u8]) -> Result<(), WriteFault> {
        write(self, path, bytes)
    }
}
