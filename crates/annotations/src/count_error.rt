//! Why turns can't be counted.
ghost use Rattle.std.specs.Prelude.{◌≡◌, ◌⊎◌};

use isa::BuildError;

/// Why turns can't be counted.
#[derive(Clone, Copy)]
pub enum CountError {
    /// The program uses each of r6 to r9, the registers that a call leaves as they are.
    NoRegister,
    /// More turns than any program may take: 1,000,000 or more.
    TooMany,
    /// The answer is 2^31 or more.
    TooGreat,
    /// The code would have more than 4096 slots, or a jump would go too far.
    TooLong,
    /// Memory ran out.
    Memory,
}

impl From<BuildError> for CountError {
    ghost use Rattle.annotations.specs.declared.count_error.CountError.TheVariants.{Memory};
    ghost use Rattle.annotations.specs.declared.count_error.CountError.TheVariants.{TooLong};

    ghost from_gives = { λ _ error. (error ≡ TooLong) ⊎ (error ≡ Memory) };

    fn from(error: BuildError) -> CountError {
        match error {
            BuildError::TooLong => CountError::TooLong,
            BuildError::Memory => CountError::Memory,
        }
    }
}
