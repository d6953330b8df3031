//! Why no table was made.
use std::alloc::{AllocError, AllocFailed};
use thiserror::Error;

/// Why [`Shared::new`](crate::Shared::new) made no table.
#[derive(Debug, Clone, Copy, Error)]
pub enum MapsError {
    /// The number of seats is 0, or more than [`MAX_SEATS`](crate::MAX_SEATS).
    #[error("a table has 1 to 64 seats")]
    Seats,
    /// An allocation was refused.
    #[error("out of memory")]
    Memory,
}

impl MapsError {
    ghost use Rattle.std.specs.Prelude.{◌≡◌};
    ghost use Rattle.maps.specs.Refusals.{number_of};

    /// The error's number, in the order in which the conditions are checked: 1 for `Seats`, 2 for
    /// `Memory`.
    pub fn number(self) -> u8
        ensures { result ≡ number_of self }
    {
        match self {
            MapsError::Seats => 1,
            MapsError::Memory => 2,
        }
    }
}

impl From<AllocError> for MapsError {
    ghost use Rattle.std.specs.Prelude.{◌≡◌};
    ghost use Rattle.maps.specs.declared.error.MapsError.TheVariants.{Memory};

    ghost from_gives = { λ _ e. e ≡ Memory };

    fn from(_: AllocError) -> MapsError {
        MapsError::Memory
    }
}

impl<T: Drop> From<AllocFailed<T>> for MapsError {
    ghost use Rattle.std.specs.Prelude.{◌≡◌};
    ghost use Rattle.maps.specs.declared.error.MapsError.TheVariants.{Memory};

    ghost from_gives = { λ _ e. e ≡ Memory };

    fn from(_: AllocFailed<T>) -> MapsError {
        MapsError::Memory
    }
}
