//! Why a run gave no answer.
ghost use Rattle.std.specs.Prelude.{◌≡◌};
ghost use Rattle.interp.specs.Outcome.{trap_number};

use machine::Fault;
use thiserror::Error;

/// Why a run gave no answer.
#[derive(Clone, Copy, PartialEq, Eq, Debug, Error)]
pub enum Trap {
    /// The machine is stuck, for this reason.
    #[error("the machine is stuck")]
    Stuck(Fault),
    /// `limit` instructions passed without EXIT.
    #[error("the instructions were used up without EXIT")]
    Limit,
}

impl Trap {
    /// Its number: that of the fault, from 1 to 10, or 11 for `Limit`.
    pub fn number(self) -> u8
        ensures { result ≡ trap_number self }
    {
        match self {
            Trap::Stuck(fault) => fault.number(),
            Trap::Limit => 11,
        }
    }
}
