//! Answers, and what is expected of them.
ghost use Rattle.std.specs.Prelude.{◌≡◌};
ghost use Rattle.std.specs.List.{list_any};
ghost use Rattle.std.specs.Prelude.{is_err};
ghost use Rattle.hooktool_trials.specs.Answers.{is_met, last_of, meets};

use crate::runs::RunEnding;
use crate::stage::Last;
use crate::steps::ExpectedAnswer;
use isa::Hook;
use words::LS_INFINITY;

/// Whether the number that a program answered at its hook is what was expected.
fn is_met(expected: ExpectedAnswer, hook: Hook, answer: u64) -> bool
    ensures { result ≡ is_met expected hook answer }
{
    match expected {
        ExpectedAnswer::Number(number) => answer == number,
        ExpectedAnswer::Metric(metric) => match hook {
            Hook::Price => answer == u64::from(metric),
            _ => false,
        },
        ExpectedAnswer::Withheld => match hook {
            Hook::Price => answer >= u64::from(LS_INFINITY),
            _ => false,
        },
        ExpectedAnswer::Tag(tag) => match hook {
            Hook::Tag => answer % 0x1_0000_0000 == u64::from(tag),
            _ => false,
        },
        ExpectedAnswer::Installed => match hook {
            Hook::Veto => answer == 0,
            _ => false,
        },
        ExpectedAnswer::NotInstalled => match hook {
            Hook::Veto => answer != 0,
            _ => false,
        },
    }
}

/// Whether the last run answered what was expected.
pub(crate) fn meets(expected: ExpectedAnswer, last: Last) -> bool
    ensures { result ≡ meets expected last }
{
    match last {
        Last::Answered { hook, answer } => is_met(expected, hook, answer),
        _ => false,
    }
}

/// How a run ended.
fn last_of(hook: Hook, ending: &RunEnding) -> Last
    ensures { result ≡ last_of hook ending.now }
{
    match ending.outcome {
        Ok(run) => Last::Answered {
            hook,
            answer: run.answer,
        },
        Err(trap) => Last::Stuck {
            trap: trap.number(),
            slot: ending.slot,
        },
    }
}

/// Whether one of these runs gave no answer.
pub fn is_any_stuck(endings: &[RunEnding]) -> bool
    ensures { result ≡ list_any (λ ending. is_err ending.outcome) endings.now }
{
    endings.iter().any(|ending| ending.outcome.is_err())
}

/// How the last of these runs ended.
pub(crate) fn last_among(hook: Hook, endings: &[RunEnding]) -> Last {
    match endings.last() {
        Some(ending) => last_of(hook, ending),
        None => Last::Nothing,
    }
}
