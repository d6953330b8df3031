//! Why a script isn't played to its end.
use std::alloc::{AllocError, AllocFailed};
use std::io::{self, ErrorKind};
use thiserror::Error;

/// Why a script isn't played to its end.
#[derive(Clone, Copy, Debug, Error)]
pub enum ScriptError {
    /// The line of this number, from 1 on, names nothing that can happen or be shown.
    #[error("script refusal line {0}")]
    Line(usize),
    /// The lines can't be read.
    #[error("cannot read the lines")]
    Input,
    /// What is to be printed can't be written.
    #[error("cannot write the output")]
    Output,
    /// An allocation was refused.
    #[error("out of memory")]
    Memory,
}

impl From<io::Error> for ScriptError {
    fn from(error: io::Error) -> ScriptError {
        match error.kind() {
            ErrorKind::OutOfMemory => ScriptError::Memory,
            _ => ScriptError::Input,
        }
    }
}

impl From<AllocError> for ScriptError {
    fn from(_error: AllocError) -> ScriptError {
        ScriptError::Memory
    }
}

impl<T: Drop> From<AllocFailed<T>> for ScriptError {
    fn from(_error: AllocFailed<T>) -> ScriptError {
        ScriptError::Memory
    }
}
