//! The hook that an input is for, and its default answer.
ghost use Rattle.std.specs.Prelude.{◌≡◌, slice_range};
ghost use Rattle.isa.specs.Hooks.{hook_number};
ghost use Rattle.machine.specs.Given.{given_by};
ghost use Rattle.machine.specs.Memory.{number_of};
ghost use Rattle.hooks.specs.Operations.{HasHookNumber, default_of};

use machine::{Hook, Input};
use word_machine::number_of;

/// The hook whose number is in the first four bytes of the context.
pub fn hook_of(input: &Input) -> Hook
    requires { HasHookNumber (given_by input.now) }
    ensures { number_of (slice_range input.now.context 0 4) ≡ hook_number result }
{
    match Hook::from_number(number_of(&input.context[0..4]) as u8) {
        Some(hook) => hook,
        None => unreachable!(),
    }
}

/// The answer if no program is attached at the hook.
pub fn default_word(hook: Hook, input: &Input) -> u64
    ensures { result ≡ default_of hook (given_by input.now) }
{
    match hook {
        Hook::Count | Hook::Veto => 0,
        Hook::Tag => number_of(&input.context[16..20]),
        Hook::Price => number_of(&input.context[12..16]),
    }
}
