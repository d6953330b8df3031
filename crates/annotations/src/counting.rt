//! Finds statements for code with loops that have no rank: code that counts their turns is added.
ghost use Rattle.std.specs.Prelude.{◌≡◌, ◌⊎◌, []};
ghost use Rattle.isa.specs.Spelling.{Spells};
ghost use Rattle.annotations.specs.Annotated.{IsRejected, fuel_of, no_fuel};
ghost use Rattle.annotations.specs.CountedCode.{StaysInside};
ghost use Rattle.annotations.specs.Verdict.{IsCountedOutcome, IsFoundOutcome, IsLoopFor};
ghost use Rattle.annotations.specs.Verdict.{IsTurnsOutcome};

use crate::attempt::{Task, annotate};
use crate::count_error::CountError;
use crate::counted_code::counted;
use crate::inside::stays_inside;
use crate::shortfall::Shortfall;
use crate::verdict::{Annotated, AnnotatedObject, EndlessLoop, Rejected};
use inference::{Unranked, kinds_of, max_turns};
use isa::{Code, encode};
use object::Statement;
use std::alloc::{AllocError, Global};
use verifier::BUDGET;

/// The greatest number of turns that are followed.
const MAX_FOLLOWED: u64 = 20_000;

/// How often more loops are counted at most.
const MAX_ROUNDS: u32 = 8;

/// The heads of the loops whose turns are counted, in the order in which they were found.
#[derive(Drop)]
struct Heads {
    slots: Vec<usize>,
    /// Memory was refused for one of them.
    lacks_memory: bool,
}

/// The statements one slot later, as counted code has them.
fn all_moved(alloc: Global, given: &[Statement]) -> Result<Vec<Statement>, AllocError> {
    let mut later = Vec::new(alloc);
    for statement in given {
        let slot = statement.slot().saturating_add(1);
        let kinds = kinds_of(statement);
        if let Some(moved) = Statement::new(slot, statement.rank(), kinds, *statement.stack()) {
            if later.push(moved).is_err() {
                return Err(AllocError);
            }
        }
    }
    Ok(later)
}

/// Adds the loops that lack a rank and aren't counted yet: all of them, or only the first one if
/// each has one on its own. Whether there are any.
fn adds_unranked(heads: &mut Heads, unranked: &Unranked) -> bool {
    let before = heads.slots.len();
    for slot in &unranked.slots {
        // Counted code has each slot one later.
        let head = slot.saturating_sub(usize::from(before > 0));
        let is_next = !unranked.are_together | (heads.slots.len() == before);
        if is_next & !heads.slots.contains(&head) {
            heads.lacks_memory |= heads.slots.push(head).is_err();
        }
    }
    heads.lacks_memory | (heads.slots.len() > before)
}

/// Adds the loops that lack a rank, if that is what is wrong. Returns whether there are any more.
fn adds_more(
    heads: &mut Heads,
    outcome: &Result<Annotated, Shortfall>,
    unranked: &Unranked,
) -> bool {
    match outcome {
        Err(Shortfall::Refused(_, Some(_))) => adds_unranked(heads, unranked),
        _ => false,
    }
}

/// Tries the code that counts the turns of the loops at these heads, with the statements that were
/// given for the code without.
fn try_counted(
    task: &Task<'_>,
    code: &Code,
    heads: &[usize],
    turns: u32,
    unranked: &mut Unranked,
) -> Result<Annotated, Shortfall>
    requires code { Spells task.now.bytes.now code.now }
    requires inside { StaysInside code.now }
    ensures { IsTurnsOutcome task.now.hook (fuel_of turns task.now.answer) task.now.bytes.now
        result }
{
    let counted = match counted(task.alloc, code, heads, turns, task.answer) {
        Ok(counted) => counted,
        Err(error) => return Err(Shortfall::Uncounted(error)),
    };
    let Ok(written) = encode(task.alloc, &counted) else {
        return Err(Shortfall::Memory);
    };
    let Ok(given) = all_moved(task.alloc, task.given) else {
        return Err(Shortfall::Memory);
    };
    let later = Task {
        alloc: task.alloc,
        hook: task.hook,
        bytes: &written,
        given: &given,
        answer: task.answer,
    };
    annotate(&later, &counted, unranked)
}

/// Tries the code that counts the turns of the loops at these heads, if there are any.
fn try_heads(
    task: &Task<'_>,
    code: &Code,
    heads: &Heads,
    turns: u32,
    unranked: &mut Unranked,
) -> Result<Annotated, Shortfall>
    requires code { Spells task.now.bytes.now code.now }
    requires inside { (heads.now.slots.items ≡ []) ⊎ StaysInside code.now }
    ensures { IsTurnsOutcome task.now.hook (fuel_of turns task.now.answer) task.now.bytes.now
        result }
{
    if heads.lacks_memory {
        Err(Shortfall::Memory)
    } else if heads.slots.is_empty() {
        annotate(task, code, unranked)
    } else {
        try_counted(task, code, &heads.slots, turns, unranked)
    }
}

/// Finds statements and ranks as `annotate` does. If a loop has no rank, its turns are counted: the
/// object has other code, which gives the task's answer instead of more than `turns` turns in all.
/// Loops that have a rank stay as they are. None are counted of code that leads to where it has no
/// instruction: counted code may have one there.
///
/// # Errors
/// As [`annotate`](crate::attempt::annotate), and `Uncounted` if the turns can't be counted.
pub fn annotate_counted(
    task: &Task<'_>,
    code: &Code,
    turns: u32,
    unranked: &mut Unranked,
) -> Result<Annotated, Shortfall>
    requires { Spells task.now.bytes.now code.now }
    ensures { IsTurnsOutcome task.now.hook (fuel_of turns task.now.answer) task.now.bytes.now
        result }
{
    let mut heads = Heads {
        slots: Vec::new(task.alloc),
        lacks_memory: false,
    };
    let is_inside = stays_inside(code);
    for _ in 0..MAX_ROUNDS {
        let outcome = try_heads(task, code, &heads, turns, unranked);
        if !is_inside || !adds_more(&mut heads, &outcome, unranked) {
            return outcome;
        }
    }
    try_heads(task, code, &heads, turns, unranked)
}

/// Has the turns of the loops at these heads counted, up to the greatest number that they take.
/// `None` if that number isn't found, or if the verifier refuses the code all the same.
fn try_bounded(
    task: &Task<'_>,
    code: &Code,
    heads: &Heads,
    unranked: &mut Unranked,
) -> Result<Option<AnnotatedObject>, Shortfall>
    requires code { Spells task.now.bytes.now code.now }
    requires inside { StaysInside code.now }
    ensures { IsCountedOutcome task.now.hook task.now.answer task.now.bytes.now result }
{
    // With more turns the code would exceed its budget, or take more than a second to follow.
    let most = (BUDGET / code.len() as u64).min(MAX_FOLLOWED) as u32;
    let turns = match max_turns(task.alloc, code, task.hook, &heads.slots, most) {
        Ok(Some(turns)) => turns,
        Ok(None) => return Ok(None),
        Err(_) => return Err(Shortfall::Memory),
    };
    match try_heads(task, code, heads, turns, unranked) {
        Ok(annotated) => Ok(Some(AnnotatedObject {
            annotated,
            turns: Some(turns),
        })),
        Err(Shortfall::Memory) => Err(Shortfall::Memory),
        Err(Shortfall::Uncounted(CountError::NoRegister)) => {
            Err(Shortfall::Uncounted(CountError::NoRegister))
        }
        Err(_) => Ok(None),
    }
}

/// Counts the loops that lack a rank, as `try_bounded` does, and again with those that lack one
/// then. None are counted of code that leads to where it has no instruction.
fn count_bounded(
    task: &Task<'_>,
    code: &Code,
    unranked: &mut Unranked,
) -> Result<Option<AnnotatedObject>, Shortfall>
    requires { Spells task.now.bytes.now code.now }
    ensures { IsCountedOutcome task.now.hook task.now.answer task.now.bytes.now result }
{
    if !stays_inside(code) {
        return Ok(None);
    }
    let mut heads = Heads {
        slots: Vec::new(task.alloc),
        lacks_memory: false,
    };
    for _ in 0..MAX_ROUNDS {
        if !adds_unranked(&mut heads, unranked) {
            return Ok(None);
        }
        match try_bounded(task, code, &heads, unranked) {
            Ok(None) => {}
            outcome => return outcome,
        }
    }
    Ok(None)
}

/// Has the loops counted of code that the verifier refuses for this one, if it is found how many
/// turns they take at most. Else the refusal is told.
fn count_endless(
    task: &Task<'_>,
    code: &Code,
    rejected: Rejected,
    endless: EndlessLoop,
    unranked: &mut Unranked,
) -> Result<AnnotatedObject, Shortfall>
    requires code { Spells task.now.bytes.now code.now }
    requires rejected { IsRejected task.now.hook task.now.bytes.now rejected.object
        rejected.bytes.items rejected.refusal }
    requires endless { IsLoopFor rejected.refusal.rule endless }
    ensures { IsFoundOutcome task.now.hook (no_fuel task.now.answer) task.now.bytes.now result }
{
    match count_bounded(task, code, unranked) {
        Ok(Some(found)) => Ok(found),
        Ok(None) => Err(Shortfall::Refused(rejected, Some(endless))),
        Err(Shortfall::Uncounted(CountError::NoRegister)) => {
            let told = EndlessLoop {
                why: endless.why,
                lacks_register: true,
            };
            Err(Shortfall::Refused(rejected, Some(told)))
        }
        Err(_) => Err(Shortfall::Memory),
    }
}

/// Finds statements and ranks as `annotate` does. If a loop has no rank, and it is found how many
/// turns the loops take at most, those are counted. If the verifier refuses that too, the answer is
/// what it says of the given code.
///
/// # Errors
/// As [`annotate`](crate::attempt::annotate). If the loops can't be counted for want of a register,
/// `Refused` says so.
pub fn annotate_bounded(
    task: &Task<'_>,
    code: &Code,
    unranked: &mut Unranked,
) -> Result<AnnotatedObject, Shortfall>
    requires { Spells task.now.bytes.now code.now }
    ensures { IsFoundOutcome task.now.hook (no_fuel task.now.answer) task.now.bytes.now result }
{
    match annotate(task, code, unranked) {
        Ok(annotated) => Ok(AnnotatedObject {
            annotated,
            turns: None,
        }),
        Err(Shortfall::Refused(rejected, endless)) => match endless {
            Some(endless) => count_endless(task, code, rejected, endless, unranked),
            None => Err(Shortfall::Refused(rejected, None)),
        },
        Err(fault) => Err(fault),
    }
}
