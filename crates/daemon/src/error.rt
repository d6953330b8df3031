//! Why a router doesn't run.
ghost use Rattle.std.specs.Prelude.{◌≡◌};
ghost use Rattle.daemon.specs.Refusals.{of_hooks, of_sockets, of_text};
ghost use Rattle.daemon.specs.Statuses.{status_of};
ghost use Rattle.daemon.specs.declared.error.StartError.TheVariants.{Memory};

use console::ConfigurationError;
use hooks::HookError;
use std::alloc::{AllocError, AllocFailed};
use thiserror::Error;
use worker::SocketError;

/// Why a router doesn't run. Its `Display` is the line that is printed.
#[derive(Debug, Drop, Error)]
pub enum StartError {
    /// The first line of the configuration that is wrong or missing.
    #[error("config refusal line {0}")]
    Configuration(u64),
    /// The UDP port of 127.0.0.1 can't be bound.
    #[error("cannot bind {0}")]
    Bind(u16),
    /// A socket can't be waited at.
    #[error("cannot wait at the sockets")]
    Socket,
    /// There were no places for those who ask the programs: the number of `hooks::HookError`.
    #[error("hook refusal {0}")]
    Hooks(u8),
    /// The output can't be written.
    #[error("cannot write the output")]
    Output,
    /// Memory was refused.
    #[error("out of memory")]
    Memory,
}

impl StartError {
    /// The status that the program ends with: 1 refused, 3 a socket or the output, 4 memory.
    pub fn status(&self) -> u8
        ensures { result ≡ status_of self.now }
    {
        match self {
            StartError::Configuration(_) | StartError::Hooks(_) => 1,
            StartError::Bind(_) | StartError::Socket | StartError::Output => 3,
            StartError::Memory => 4,
        }
    }
}

impl From<AllocError> for StartError {
    ghost from_gives = { λ _ error. error ≡ Memory };

    fn from(_error: AllocError) -> StartError {
        StartError::Memory
    }
}

impl<T: Drop> From<AllocFailed<T>> for StartError {
    ghost from_gives = { λ _ error. error ≡ Memory };

    fn from(_error: AllocFailed<T>) -> StartError {
        StartError::Memory
    }
}

impl From<ConfigurationError> for StartError {
    ghost from_gives = { λ why error. error ≡ of_text why };

    fn from(error: ConfigurationError) -> StartError {
        match error {
            ConfigurationError::Line(line) => StartError::Configuration(line),
            ConfigurationError::Memory => StartError::Memory,
        }
    }
}

impl From<SocketError> for StartError {
    ghost from_gives = { λ why error. error ≡ of_sockets why };

    fn from(error: SocketError) -> StartError {
        match error {
            SocketError::Bind(udp_port) => StartError::Bind(udp_port),
            SocketError::Wait => StartError::Socket,
            SocketError::Memory => StartError::Memory,
        }
    }
}

impl From<HookError> for StartError {
    ghost from_gives = { λ why error. error ≡ of_hooks why };

    fn from(error: HookError) -> StartError {
        match error {
            HookError::Memory => StartError::Memory,
            other => StartError::Hooks(other.number()),
        }
    }
}
