//! Why the program failed, and the exit statuses.
ghost use Rattle.std.specs.Prelude.{◌≡◌, ◌≤◌};
ghost use Rattle.simulation.specs.Statuses.{fault_of_network, fault_of_words, status_of};
ghost use Rattle.simulation.specs.declared.fault.SimulationError.TheVariants.{Output};

use clap::error::ErrorKind;
use simulated_networks::NetworkError;
use std::io;

/// All is at rest at the end, or nothing was found.
pub const DONE: u8 = 0;
/// Not all is at rest at the end, or a history was found.
pub const FOUND: u8 = 1;
/// The words of the command line are wrong.
pub const USAGE: u8 = 2;
/// The output can't be written.
pub const OUTSIDE: u8 = 3;
/// Memory was refused.
pub const MEMORY: u8 = 4;

/// Why the program failed.
#[derive(Drop)]
pub enum SimulationError {
    /// The words of the command line are wrong, or ask for help: the text says which.
    Usage(clap::Error),
    /// The times of the interfaces aren't allowed.
    Times,
    /// The output can't be written.
    Output,
    /// An allocation was refused.
    Memory,
}

impl From<io::Error> for SimulationError {
    ghost from_gives = { λ _ fault. fault ≡ Output };

    fn from(_error: io::Error) -> SimulationError {
        SimulationError::Output
    }
}

impl From<NetworkError> for SimulationError {
    ghost from_gives = { λ error fault. fault ≡ fault_of_network error };

    fn from(fault: NetworkError) -> SimulationError {
        match fault {
            NetworkError::Configuration => SimulationError::Times,
            _ => SimulationError::Memory,
        }
    }
}

impl From<clap::Error> for SimulationError {
    ghost from_gives = { λ error fault. fault ≡ fault_of_words error };

    fn from(error: clap::Error) -> SimulationError {
        match error.kind() {
            ErrorKind::OutOfMemory => SimulationError::Memory,
            _ => SimulationError::Usage(error),
        }
    }
}

impl SimulationError {
    /// The line that is printed, if it isn't about the words.
    pub fn text(&self) -> &'static str {
        match self {
            SimulationError::Usage(_) => "",
            SimulationError::Times => "the times of the interfaces are outside of their ranges\n",
            SimulationError::Output => "cannot write the output\n",
            SimulationError::Memory => "out of memory\n",
        }
    }

    /// The status that the program ends with.
    pub fn status(&self) -> u8
        ensures value { result ≡ status_of self.now }
        ensures within { result ≤ 4 }
    {
        match self {
            SimulationError::Usage(error) if error.use_stderr() => USAGE,
            SimulationError::Usage(_) => DONE,
            SimulationError::Times => USAGE,
            SimulationError::Output => OUTSIDE,
            SimulationError::Memory => MEMORY,
        }
    }
}
