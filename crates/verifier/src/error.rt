//! Why the program of an object file isn't accepted.
ghost use Rattle.std.specs.Prelude.{◌≡◌};

use crate::refusal::Refusal;
use isa::DecodeError;
use object::ObjectError;
use thiserror::Error;

/// Why bytes hold no accepted program. Each variant may be a refused allocation.
#[derive(Clone, Copy, Debug, Error)]
pub enum VerifyError {
    /// They are not an object file.
    #[error("no object file: {0}")]
    Object(ObjectError),
    /// They are an object file whose code doesn't decode.
    #[error("no code: {0}")]
    Code(DecodeError),
    /// They are an object file whose code the verifier refuses.
    #[error("refused: {0:?}")]
    Refused(Refusal),
}

impl From<ObjectError> for VerifyError {
    ghost use Rattle.verifier.specs.declared.error.VerifyError.TheVariants.{Object};

    ghost from_gives = { λ error verdict. verdict ≡ Object error };

    fn from(error: ObjectError) -> VerifyError {
        VerifyError::Object(error)
    }
}

impl From<DecodeError> for VerifyError {
    ghost use Rattle.verifier.specs.declared.error.VerifyError.TheVariants.{Code};

    ghost from_gives = { λ error verdict. verdict ≡ Code error };

    fn from(error: DecodeError) -> VerifyError {
        VerifyError::Code(error)
    }
}

impl From<Refusal> for VerifyError {
    ghost use Rattle.verifier.specs.declared.error.VerifyError.TheVariants.{Refused};

    ghost from_gives = { λ refusal verdict. verdict ≡ Refused refusal };

    fn from(refusal: Refusal) -> VerifyError {
        VerifyError::Refused(refusal)
    }
}
