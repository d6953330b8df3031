//! Why there are no sockets.
ghost use Rattle.std.specs.Prelude.{◌≡◌};
ghost use Rattle.worker.specs.declared.sockets.error.SocketError.TheVariants.{Memory};

use std::alloc::{AllocError, AllocFailed};
use thiserror::Error;

/// Why there are no sockets. Its `Display` is the line that is printed.
#[derive(Debug, Drop, Error)]
pub enum SocketError {
    /// The UDP port of 127.0.0.1 can't be bound.
    #[error("cannot bind {0}")]
    Bind(u16),
    /// A socket can't be waited at.
    #[error("cannot wait at the sockets")]
    Wait,
    /// Memory was refused.
    #[error("out of memory")]
    Memory,
}

impl From<AllocError> for SocketError {
    ghost from_gives = { λ _ error. error ≡ Memory };

    fn from(_error: AllocError) -> SocketError {
        SocketError::Memory
    }
}

impl<T: Drop> From<AllocFailed<T>> for SocketError {
    ghost from_gives = { λ _ error. error ≡ Memory };

    fn from(_error: AllocFailed<T>) -> SocketError {
        SocketError::Memory
    }
}
