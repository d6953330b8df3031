//! What can stop a simulation.
ghost use Rattle.std.specs.Prelude.{◌≡◌};

use flood::ConfigError;
use std::alloc::{AllocError, AllocFailed};
use thiserror::Error;

/// Why a simulation can't go on.
#[derive(Clone, Copy, Debug, Error)]
pub enum NetworkError {
    /// An allocation was refused.
    #[error("out of memory")]
    Memory,
    /// A router's configuration isn't allowed: its times are outside of their ranges.
    #[error("the times of the interfaces are outside of their ranges")]
    Configuration,
    /// The destinations can't be announced.
    #[error("a destination can't be announced")]
    Destination,
}

impl From<AllocError> for NetworkError {
    ghost use Rattle.simulated_networks.specs.declared.fault.NetworkError.TheVariants.{Memory};

    ghost from_gives = { λ _ fault. fault ≡ Memory };

    fn from(_error: AllocError) -> NetworkError {
        NetworkError::Memory
    }
}

impl<T: Drop> From<AllocFailed<T>> for NetworkError {
    ghost use Rattle.simulated_networks.specs.declared.fault.NetworkError.TheVariants.{Memory};

    ghost from_gives = { λ _ fault. fault ≡ Memory };

    fn from(_error: AllocFailed<T>) -> NetworkError {
        NetworkError::Memory
    }
}

impl From<ConfigError> for NetworkError {
    fn from(error: ConfigError) -> NetworkError {
        match error {
            ConfigError::Interface => NetworkError::Configuration,
            ConfigError::Memory => NetworkError::Memory,
        }
    }
}
