//! Answers in the terms of their hooks.

ghost use Rattle.std.specs.Prelude.{◌≡◌};
ghost use Rattle.hooktool.specs.Answers.{answer_words, told_number};

use explanations::Text;
use isa::Hook;
use words::LS_INFINITY;

/// What the answer means at the hook, with `{}` in the place of the number, if that is told: the
/// metric, or from LSInfinity on that the destination is withheld; the tag, which is the low 32
/// bits; whether the route is installed, which it is by 0 alone. At `count` it means nothing.
fn answer_words(hook: Hook, answer: u64) -> (&'static str, u64)
    ensures words { result.0.now ≡ answer_words hook answer }
    ensures number { result.1 ≡ told_number hook answer }
{
    match hook {
        Hook::Count => ("answer {}, which isn't used", answer),
        Hook::Tag => ("tag {}", answer % 0x1_0000_0000),
        Hook::Price if answer >= u64::from(LS_INFINITY) => ("withheld", answer),
        Hook::Price => ("metric {}", answer),
        Hook::Veto if answer == 0 => ("installed", answer),
        Hook::Veto => ("not installed", answer),
    }
}

/// Adds what the answer means at the hook.
pub(crate) fn push_answer(out: &mut Text, hook: Hook, answer: u64) {
    let (sentence, number) = answer_words(hook, answer);
    out.fill(sentence, &[u128::from(number)])
}
