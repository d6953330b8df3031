//! Why a program is refused.
use std::alloc::AllocError;
use transfer::rule::Rule;

/// Why a program isn't accepted: the rule that it breaks, and the slot at which it breaks it.
/// `Budget` is of the whole program, and stands at slot 0. `Memory` does too, and says nothing of
/// the program.
#[derive(Clone, Copy, Debug)]
pub struct Refusal {
    pub slot: usize,
    pub rule: Rule,
}

impl From<AllocError> for Refusal {
    ghost use Rattle.std.specs.Prelude.{◌≡◌};
    ghost use Rattle.transfer.specs.declared.rule.Rule.TheVariants.{Memory};

    ghost from_gives = { λ _ refusal. refusal ≡ record { slot = 0; rule = Memory } };

    fn from(_: AllocError) -> Self {
        Refusal {
            slot: 0,
            rule: Rule::Memory,
        }
    }
}
