//! Why bytes hold no program to run.
use isa::DecodeError;
use object::ObjectError;
use thiserror::Error;

/// Why bytes hold no program to run. Either variant may be a refused allocation.
#[derive(Clone, Copy, Debug, Error)]
pub enum RunError {
    /// They are not an object file.
    #[error("no object file: {0}")]
    Object(ObjectError),
    /// They are an object file whose code doesn't decode.
    #[error("no code: {0}")]
    Code(DecodeError),
}
