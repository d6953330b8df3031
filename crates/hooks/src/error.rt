//! Why no programs were made.
use std::alloc::AllocError;
use thiserror::Error;

/// Why [`programs`](crate::programs) made no loader and no askers.
#[derive(Debug, Clone, Copy, Error)]
pub enum HookError {
    /// The number of askers is 0, or more than [`MAX_ASKERS`](crate::MAX_ASKERS).
    #[error("a loader has 1 to 64 askers")]
    Count,
    /// An allocation was refused.
    #[error("out of memory")]
    Memory,
    /// There was no place for an asker. The cause is unspecified.
    #[error("no place for an asker")]
    Places,
}

impl HookError {
    ghost use Rattle.std.specs.Prelude.{◌≡◌};
    ghost use Rattle.hooks.specs.Refusals.{refusal_number};

    /// The error's number: 1 for `Count`, 2 for `Memory`, 3 for `Places`.
    pub fn number(self) -> u8
        ensures { result ≡ refusal_number self }
    {
        match self {
            HookError::Count => 1,
            HookError::Memory => 2,
            HookError::Places => 3,
        }
    }
}

impl From<AllocError> for HookError {
    ghost use Rattle.std.specs.Prelude.{◌≡◌};
    ghost use Rattle.hooks.specs.declared.error.HookError.TheVariants.{Memory};

    ghost from_gives = { λ _ e. e ≡ Memory };

    fn from(_: AllocError) -> HookError {
        HookError::Memory
    }
}
