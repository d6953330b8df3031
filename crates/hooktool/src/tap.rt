//! The Test Anything Protocol, version 14, of the points of a test.

use crate::answers::push_answer;
use explanations::Text;
use hooktool_trials::{Found, Last, Point};
use isa::Hook;
use std::alloc::{AllocError, Global};

/// The words, between single spaces.
fn push_words(out: &mut Text, words: &[&str]) {
    for (place, word) in words.iter().enumerate() {
        if place > 0 {
            out.push(" ")
        }
        out.push(word)
    }
}

/// What was found, as it is told if a point isn't ok.
fn push_found(out: &mut Text, found: Found) {
    match found {
        Found::Run(Last::Nothing) => out.push("no answer: nothing was asked"),
        Found::Run(Last::Answered { hook, answer }) => match hook {
            Hook::Count => out.numbered("answer ", answer, ""),
            _ => push_answer(out, hook, answer),
        },
        Found::Run(Last::Stuck { trap, slot }) => out.fill(
            "no answer: trap {} at slot {}",
            &[u128::from(trap), u128::from(slot)],
        ),
        Found::Number(number) => out.number(u128::from(number)),
        Found::Packets(count) => out.numbered("", count, " packets"),
    }
}

/// The lines of a point, which is the one of this number.
fn push_point(out: &mut Text, count: usize, point: &Point<'_>) {
    let is_ok = point.verdict.is_ok;
    let beginning = if is_ok { "ok " } else { "not ok " };
    out.numbered(beginning, count as u64, " - line ");
    out.numbered("", point.number, ": ");
    push_words(out, point.words);
    if !is_ok {
        out.push("\n# expected: ");
        push_words(out, point.words);
        out.push("\n# found: ");
        push_found(out, point.verdict.found);
    }
    out.push("\n")
}

/// The whole text of the points, in their order.
pub(crate) fn protocol(alloc: Global, points: &[Point<'_>]) -> Result<String, AllocError> {
    let mut out = Text::new(alloc);
    out.numbered("TAP version 14\n1..", points.len() as u64, "\n");
    for (index, point) in points.iter().enumerate() {
        push_point(&mut out, index + 1, point)
    }
    out.finish()
}
