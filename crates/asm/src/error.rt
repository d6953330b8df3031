//! Why a text spells no object, and why an object has no listing.
ghost use Rattle.std.specs.Prelude.{◌≡◌};
ghost use Rattle.asm.specs.Faults.{fault_number, list_number};

use std::alloc::AllocError;
use thiserror::Error;

/// What is wrong with a line.
#[derive(Clone, Copy, Debug, Error)]
pub enum AsmFault {
    /// The line has none of the forms, or may not stand where it does.
    #[error("the line is none of the forms, or stands where it may not")]
    Syntax,
    /// No line defines the label that this one uses.
    #[error("no line gives this label")]
    Label,
    /// A number doesn't fit its field, or an object file can't hold what is stated. Also for the
    /// line that passes 4096 slots.
    #[error("a number is out of its range, or the code is too long")]
    Range,
    /// A label or a statement's slot is given again, or a register is stated twice in one
    /// statement.
    #[error("a label, a slot or a register is given twice")]
    Twice,
    /// Memory ran out.
    #[error("out of memory")]
    Memory,
}

impl AsmFault {
    /// The number that users see: 1 to 5, in the order of the variants.
    pub fn number(self) -> u8
        ensures { result ≡ fault_number self }
    {
        match self {
            AsmFault::Syntax => 1,
            AsmFault::Label => 2,
            AsmFault::Range => 3,
            AsmFault::Twice => 4,
            AsmFault::Memory => 5,
        }
    }
}

/// The first bad line, counted from 1, and what is wrong with it. The line is 0 if memory ran out.
#[derive(Clone, Copy, Debug, Error)]
#[error("line {line}: {kind}")]
pub struct AsmError {
    pub line: usize,
    pub kind: AsmFault,
}

impl From<AllocError> for AsmError {
    ghost use Rattle.asm.specs.declared.error.AsmFault.TheVariants.{Memory};

    ghost from_gives = { λ _ error. (error.kind ≡ Memory) × (error.line ≡ 0) };

    fn from(_error: AllocError) -> AsmError {
        AsmError {
            line: 0,
            kind: AsmFault::Memory,
        }
    }
}

/// Why an object has no listing.
#[derive(Clone, Copy, Debug, Error)]
pub enum ListError {
    /// Its code doesn't decode.
    #[error("the code does not decode")]
    Code,
    /// Memory ran out.
    #[error("out of memory")]
    Memory,
}

impl ListError {
    /// The number that users see: 1 and 2, in the order of the variants.
    pub fn number(self) -> u8
        ensures { result ≡ list_number self }
    {
        match self {
            ListError::Code => 1,
            ListError::Memory => 2,
        }
    }
}

impl From<AllocError> for ListError {
    ghost use Rattle.asm.specs.declared.error.ListError.TheVariants.{Memory};

    ghost from_gives = { λ _ error. error ≡ Memory };

    fn from(_error: AllocError) -> ListError {
        ListError::Memory
    }
}
