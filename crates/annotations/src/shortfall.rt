//! Why there is no object that the verifier accepts.

use crate::count_error::CountError;
use crate::verdict::{EndlessLoop, Rejected};
use isa::{DecodeError, Hook};
use object::ObjectError;

/// Why there is no object that the verifier accepts.
#[derive(Drop)]
pub enum Shortfall {
    /// The bytes are no code.
    Code(DecodeError),
    /// The file begins as an object's does, and is none.
    Object(ObjectError),
    /// The object is for this other hook.
    OtherHook(Hook),
    /// The turns of its loops can't be counted.
    Uncounted(CountError),
    /// The verifier refuses the program with the best statements that were found; if that is for a
    /// loop without a rank, which loop it is.
    Refused(Rejected, Option<EndlessLoop>),
    /// The statements that were found can't stand in an object.
    Statements,
    /// Memory ran out.
    Memory,
}
