//! Files, read and written whole.

ghost use Rattle.std.specs.Prelude.{IfErr, IfOk, OnOk};
ghost use Rattle.verifier.specs.Verdicts.{Accepts};
ghost use Rattle.verifier.specs.Programs.{Program};
ghost use Rattle.hooktool.specs.Faults.{IsUnread, IsUnwritten};

use crate::fault::HooktoolFault;
use hooktool_trials::WholeFiles;
use std::alloc::Global;
use whole_files::{ReadFault, WriteFault};

/// The bytes of the file at `path`.
///
/// # Errors
/// `Read` if it can't be opened or read, is no regular file, or is longer than 16 MiB; `Memory` if
/// an allocation is refused.
pub(crate) fn read<'a, R: WholeFiles>(rt: &R, path: &'a str) -> Result<Vec<u8>, HooktoolFault<'a>>
    ensures bytes { IfOk result (λ bytes. R.known.holds path.now bytes.items) }
    ensures fault { IfErr result (IsUnread R.known path.entry) }
{
    match rt.read_whole(path) {
        Ok(bytes) => Ok(bytes),
        Err(ReadFault::Unreadable) => Err(HooktoolFault::Read { path }),
        Err(ReadFault::Memory) => Err(HooktoolFault::Memory),
    }
}

/// Makes the file at `path` one of these bytes, written beside it first, so that after a fault it
/// is as before. Only an object that the verifier accepts is ever written.
///
/// # Errors
/// `Write` if that fails, `Memory` if an allocation is refused.
pub(crate) fn write_accepted<'a, R: WholeFiles>(
    rt: &R,
    path: &'a str,
    bytes: &[u8],
) -> Result<(), HooktoolFault<'a>>
    requires { (program : Program) × Accepts bytes.now program }
    ensures stored { OnOk result (R.known.written path.now bytes.now) }
    ensures fault { IfErr result (IsUnwritten R.known path.entry) }
{
    match rt.write_whole(path, bytes) {
        Ok(()) => Ok(()),
        Err(WriteFault::Unwritable) => Err(HooktoolFault::Write { path }),
        Err(WriteFault::Memory) => Err(HooktoolFault::Memory),
    }
}
