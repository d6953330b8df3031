ghost use Rattle.std.specs.Prelude.{◌≡◌, ◌≤◌};
ghost use Rattle.commands.specs.Statuses.{fault_of_object, fault_of_refusal, fault_of_run};
ghost use Rattle.commands.specs.Statuses.{fault_of_text, fault_of_words, status_of};
ghost use Rattle.commands.specs.declared.fault.CommandError.TheVariants.{Memory};

use asm::{AsmError, AsmFault};
use clap::error::ErrorKind;
use interp::RunError;
use isa::DecodeError;
use maps::MapsError;
use object::ObjectError;
use std::alloc::{AllocError, AllocFailed};
use thiserror::Error;

/// The statuses that the program ends with.
pub const DONE: u8 = 0;
/// A program, an object or a text was refused, or a run was stuck.
pub const REFUSED: u8 = 1;
/// The words of the command line are wrong.
pub const USAGE: u8 = 2;
/// A file or a stream can't be used.
pub const OUTSIDE: u8 = 3;
/// Memory was refused.
pub const MEMORY: u8 = 4;

/// Why a command failed. Its `Display` is the line that is printed.
#[derive(Debug, Drop, Error)]
pub enum CommandError<'a> {
    /// A file can't be opened or read.
    #[error("cannot read {path}")]
    Read { path: &'a str },
    /// A file can't be written.
    #[error("cannot write {path}")]
    Write { path: &'a str },
    /// A text that spells no object: the number of the refusal, and the first bad line.
    #[error("source refusal {number} line {line}")]
    Source { number: u8, line: u64 },
    /// Bytes that are no code: the number of the refusal, and the slot of the first bad
    /// instruction.
    #[error("code refusal {number} slot {slot}")]
    Code { number: u8, slot: u64 },
    /// Bytes that are no object file: the number of the refusal.
    #[error("object refusal {number}")]
    Object { number: u8 },
    /// The words of the command line are wrong: the text says how.
    #[error("{0}")]
    Usage(clap::Error),
    /// The output can't be written.
    #[error("cannot write the output")]
    Output,
    /// An allocation was refused.
    #[error("out of memory")]
    Memory,
}

impl<'a> From<AllocError> for CommandError<'a> {
    ghost from_gives = { λ _ fault. fault ≡ Memory };

    fn from(_error: AllocError) -> CommandError<'a> {
        CommandError::Memory
    }
}

impl<'a, T: Drop> From<AllocFailed<T>> for CommandError<'a> {
    ghost from_gives = { λ _ fault. fault ≡ Memory };

    fn from(_error: AllocFailed<T>) -> CommandError<'a> {
        CommandError::Memory
    }
}

impl<'a> From<DecodeError> for CommandError<'a> {
    ghost from_gives = { λ error fault. fault ≡ fault_of_refusal error };

    fn from(error: DecodeError) -> CommandError<'a> {
        match error.kind {
            isa::DecodeFault::Memory => CommandError::Memory,
            kind => CommandError::Code {
                number: kind.number(),
                slot: error.slot as u64,
            },
        }
    }
}

impl<'a> From<ObjectError> for CommandError<'a> {
    ghost from_gives = { λ error fault. fault ≡ fault_of_object error };

    fn from(error: ObjectError) -> CommandError<'a> {
        match error {
            ObjectError::Memory => CommandError::Memory,
            error => CommandError::Object {
                number: error.number(),
            },
        }
    }
}

impl<'a> From<RunError> for CommandError<'a> {
    ghost from_gives = { λ error fault. fault ≡ fault_of_run error };

    fn from(error: RunError) -> CommandError<'a> {
        match error {
            RunError::Object(error) => CommandError::from(error),
            RunError::Code(error) => CommandError::from(error),
        }
    }
}

impl<'a> From<AsmError> for CommandError<'a> {
    ghost from_gives = { λ error fault. fault ≡ fault_of_text error };

    fn from(error: AsmError) -> CommandError<'a> {
        match error.kind {
            AsmFault::Memory => CommandError::Memory,
            kind => CommandError::Source {
                number: kind.number(),
                line: error.line as u64,
            },
        }
    }
}

impl<'a> From<MapsError> for CommandError<'a> {
    ghost from_gives = { λ _ fault. fault ≡ Memory };

    // The number of seats was judged with the words.
    fn from(_error: MapsError) -> CommandError<'a> {
        CommandError::Memory
    }
}

impl<'a> From<clap::Error> for CommandError<'a> {
    ghost from_gives = { λ error fault. fault ≡ fault_of_words error };

    fn from(error: clap::Error) -> CommandError<'a> {
        match error.kind() {
            ErrorKind::OutOfMemory => CommandError::Memory,
            _ => CommandError::Usage(error),
        }
    }
}

impl<'a> CommandError<'a> {
    /// The status that the program ends with.
    pub fn status(&self) -> u8
        ensures value { result ≡ status_of self.now }
        ensures within { result ≤ 4 }
    {
        match self {
            CommandError::Read { .. } | CommandError::Write { .. } | CommandError::Output =>
                OUTSIDE,
            CommandError::Source { .. } | CommandError::Code { .. } | CommandError::Object { .. } =>
                REFUSED,
            CommandError::Usage(error) if error.use_stderr() => USAGE,
            CommandError::Usage(_) => DONE,
            CommandError::Memory => MEMORY,
        }
    }
}
