//! Why there is no run.
ghost use Rattle.std.specs.Prelude.{◌≡◌};

use interp::RunError;
use maps::MapsError;
use object::ObjectError;
use std::alloc::AllocFailed;

/// Why there is no run.
#[derive(Clone, Copy)]
pub enum TrialError {
    /// The bytes have no program: they are no object file, or its code doesn't decode.
    Program(RunError),
    /// An allocation was refused.
    Memory,
}

impl From<RunError> for TrialError {
    ghost use Rattle.hooktool_trials.specs.declared.error.TrialError.TheVariants.{Program};

    ghost from_gives = { λ error trial. trial ≡ Program error };

    fn from(error: RunError) -> TrialError {
        TrialError::Program(error)
    }
}

impl From<ObjectError> for TrialError {
    ghost use Rattle.interp.specs.declared.error.RunError.TheVariants.{Object};
    ghost use Rattle.hooktool_trials.specs.declared.error.TrialError.TheVariants.{Program};

    ghost from_gives = { λ error trial. trial ≡ Program (Object error) };

    fn from(error: ObjectError) -> TrialError {
        TrialError::Program(RunError::Object(error))
    }
}

// The only other error of a new table is the number of its seats, which is 1.
impl From<MapsError> for TrialError {
    ghost use Rattle.hooktool_trials.specs.declared.error.TrialError.TheVariants.{Memory};

    ghost from_gives = { λ _ trial. trial ≡ Memory };

    fn from(_error: MapsError) -> TrialError {
        TrialError::Memory
    }
}

impl<T: Drop> From<AllocFailed<T>> for TrialError {
    ghost use Rattle.hooktool_trials.specs.declared.error.TrialError.TheVariants.{Memory};

    ghost from_gives = { λ _ trial. trial ≡ Memory };

    fn from(_error: AllocFailed<T>) -> TrialError {
        TrialError::Memory
    }
}
