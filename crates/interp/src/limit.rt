//! How many instructions a program may run.
ghost use Rattle.std.specs.Prelude.{◌≡◌};
ghost use Rattle.interp.specs.Limits.{own_limit, limit_of};

use object::Object;
use verifier::BUDGET;

/// How many instructions a program may run.
#[derive(Clone, Copy)]
pub enum Limit {
    /// `(entry rank + 1) * slots`, but at most 1,000,000.
    Own,
    /// At most this many.
    Instructions(u64),
}

/// The number of instructions that the object allows.
fn own_limit(object: &Object) -> u64
    ensures { result ≡ own_limit object.now }
{
    let passes = u64::from(object.entry_rank()) + 1;
    (passes * object.slots() as u64).min(BUDGET)
}

impl Limit {
    /// The number of instructions for this object.
    pub(crate) fn of(self, object: &Object) -> u64
        ensures { result ≡ limit_of self object.now }
    {
        match self {
            Limit::Own => own_limit(object),
            Limit::Instructions(most) => most,
        }
    }
}
