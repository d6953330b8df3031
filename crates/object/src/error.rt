//! Why bytes are not an object file.
ghost use Rattle.std.specs.Prelude.{◌≡◌};
ghost use Rattle.object.specs.declared.error.ObjectError.TheVariants.{Memory};
ghost use Rattle.object.specs.Refusals.{error_number};

use std::alloc::{AllocError, AllocFailed};
use thiserror::Error;

/// Why bytes are not an object file: the first test that fails. In order: `Short` for the header,
/// `Magic`, `Version`, `Hook`, `Field` for the number of slots, `Short` for the rest, `Trailing`,
/// and then `Order` and `Field` for each statement in turn.
#[derive(Clone, Copy, Debug, Error)]
pub enum ObjectError {
    /// Fewer than 16 bytes, or fewer than the header announces.
    #[error("the file is too short")]
    Short,
    /// The first four bytes aren't BPFH.
    #[error("the file does not begin with BPFH")]
    Magic,
    /// The version isn't 1.
    #[error("the version is not 1")]
    Version,
    /// No hook has this number.
    #[error("the hook is unknown")]
    Hook,
    /// A statement's slot isn't above that of the one before, or isn't in the code.
    #[error("a statement's slot is out of order")]
    Order,
    /// The number of slots is 0 or above 4096, or a statement has an invalid field.
    #[error("a field is not lawful")]
    Field,
    /// More bytes than the header announces.
    #[error("the file is too long")]
    Trailing,
    /// Memory ran out.
    #[error("out of memory")]
    Memory,
}

impl ObjectError {
    /// The number that users see: 1 to 8, in the order of the variants.
    pub fn number(self) -> u8
        ensures { result ≡ error_number self }
    {
        match self {
            ObjectError::Short => 1,
            ObjectError::Magic => 2,
            ObjectError::Version => 3,
            ObjectError::Hook => 4,
            ObjectError::Order => 5,
            ObjectError::Field => 6,
            ObjectError::Trailing => 7,
            ObjectError::Memory => 8,
        }
    }
}

impl From<AllocError> for ObjectError {
    ghost from_gives = { λ _ e. e ≡ Memory };

    fn from(_e: AllocError) -> ObjectError {
        ObjectError::Memory
    }
}

impl<T: Drop> From<AllocFailed<T>> for ObjectError {
    ghost from_gives = { λ _ e. e ≡ Memory };

    fn from(_e: AllocFailed<T>) -> ObjectError {
        ObjectError::Memory
    }
}
