//! Why a command failed, and the exit statuses.

ghost use Rattle.std.specs.Prelude.{◌≡◌, ◌≤◌};
ghost use Rattle.hooktool.specs.Statuses.{fault_of_object, fault_of_refusal, status_of};
ghost use Rattle.hooktool.specs.declared.fault.HooktoolFault.TheVariants.{Memory};

use isa::DecodeError;
use object::ObjectError;
use std::alloc::AllocError;
use std::fmt;
use thiserror::Error;

/// The statuses that the program ends with.
pub const DONE: u8 = 0;
/// A program was refused, or a run gave no answer.
pub const REFUSED: u8 = 1;
/// The words of the command line, or of a test, are wrong.
pub const USAGE: u8 = 2;
/// A file or a stream can't be used.
pub const OUTSIDE: u8 = 3;
/// Memory was refused.
pub const MEMORY: u8 = 4;

/// Why a command failed. Its `Display` is the line that is printed.
#[derive(Clone, Copy, Error)]
pub enum HooktoolFault<'a> {
    /// A file can't be opened or read.
    #[error("cannot read {path}")]
    Read { path: &'a str },
    /// A file can't be written.
    #[error("cannot write {path}")]
    Write { path: &'a str },
    /// Bytes that are no code: the number of the refusal, and the slot of the first bad
    /// instruction.
    #[error("code refusal {number} slot {slot}")]
    Code { number: u8, slot: u64 },
    /// Bytes that are no object file: the number of the refusal.
    #[error("object refusal {number}")]
    Object { number: u8 },
    /// An object that is for another hook than the one that was named.
    #[error("the object is for {hook}")]
    OtherHook { hook: &'static str },
    /// Code in which turns can't be counted, and why.
    #[error("{reason}")]
    Uncounted { reason: &'static str },
    /// An allocation was refused.
    #[error("out of memory")]
    Memory,
}

impl fmt::Debug for HooktoolFault<'_> {
    fn fmt<W: fmt::Write>(&self, f: &mut fmt::Formatter<W>) -> fmt::Result {
        fmt::Display::fmt(self, f)
    }
}

impl<'a> From<AllocError> for HooktoolFault<'a> {
    ghost from_gives = { λ _ fault. fault ≡ Memory };

    fn from(_error: AllocError) -> HooktoolFault<'a> {
        HooktoolFault::Memory
    }
}

impl<'a> From<DecodeError> for HooktoolFault<'a> {
    ghost from_gives = { λ error fault. fault ≡ fault_of_refusal error };

    fn from(error: DecodeError) -> HooktoolFault<'a> {
        match error.kind {
            isa::DecodeFault::Memory => HooktoolFault::Memory,
            kind => HooktoolFault::Code {
                number: kind.number(),
                slot: error.slot as u64,
            },
        }
    }
}

impl<'a> From<ObjectError> for HooktoolFault<'a> {
    ghost from_gives = { λ error fault. fault ≡ fault_of_object error };

    fn from(error: ObjectError) -> HooktoolFault<'a> {
        match error {
            ObjectError::Memory => HooktoolFault::Memory,
            error => HooktoolFault::Object {
                number: error.number(),
            },
        }
    }
}

impl<'a> HooktoolFault<'a> {
    /// The status that the program ends with.
    pub fn status(&self) -> u8
        ensures value { result ≡ status_of self.now }
        ensures within { result ≤ 4 }
    {
        match self {
            HooktoolFault::Read { .. } | HooktoolFault::Write { .. } => OUTSIDE,
            HooktoolFault::Code { .. }
            | HooktoolFault::Object { .. }
            | HooktoolFault::OtherHook { .. }
            | HooktoolFault::Uncounted { .. } => REFUSED,
            HooktoolFault::Memory => MEMORY,
        }
    }
}
