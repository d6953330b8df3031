//! One search for statements and ranks, judged by the verifier.
ghost use Rattle.annotations.specs.Annotated.{IsProgram};
ghost use Rattle.annotations.specs.Verdict.{IsOutcome};

use crate::shortfall::Shortfall;
use crate::trimming::trim;
use crate::verdict::{Annotated, judged};
use inference::{Ranking, Unranked, rank_statements};
use isa::{Code, Hook};
use object::Statement;
use std::alloc::Global;
use verifier::BUDGET;

/// Code for a hook, for which statements and ranks are sought, and the statements that it has.
#[derive(Drop)]
pub struct Task<'a> {
    pub alloc: Global,
    pub hook: Hook,
    pub bytes: &'a [u8],
    pub given: &'a [Statement],
    /// What code that counts turns answers once they are used up.
    pub answer: u32,
}

/// Finds statements and ranks for the code at the hook, and has the verifier judge them. The
/// statements that are given stay as they are, or they lend their slots, their numbers and their
/// ranks' registers. Returns which loops lack a rank.
fn try_statements(
    task: &Task<'_>,
    code: &Code,
    are_kept: bool,
    unranked: &mut Unranked,
) -> Result<Annotated, Shortfall>
    requires { IsProgram task.now.bytes.now }
    ensures { IsOutcome task.now.hook task.now.bytes.now result }
{
    // The greatest entry rank that leaves the code within its budget.
    let most = (BUDGET / code.len() as u64).saturating_sub(1);
    match rank_statements(task.alloc, code, task.hook, task.given, are_kept, most) {
        Ok(ranking) => {
            let Ranking {
                entry_rank,
                statements,
                unranked: found,
            } = ranking;
            *unranked = found;
            judged(task, entry_rank, statements, unranked.endless)
        }
        Err(_) => Err(Shortfall::Memory),
    }
}

/// Finds statements as `try_statements` does, but none of those that are given stays, and then
/// drops the known bits that the verifier does without.
fn try_anew(task: &Task<'_>, code: &Code, unranked: &mut Unranked) -> Result<Annotated, Shortfall>
    requires { IsProgram task.now.bytes.now }
    ensures { IsOutcome task.now.hook task.now.bytes.now result }
{
    match try_statements(task, code, false, unranked) {
        Ok(annotated) => trim(task, annotated),
        refused => refused,
    }
}

/// Finds statements and ranks for the code at the hook. The statements that are given stay as they
/// are if the verifier accepts the program so; else all are found anew, and those given only lend
/// their slots, their numbers and their ranks' registers.
///
/// # Errors
/// `Memory` if an allocation is refused; `Statements` if the statements that were found can't stand
/// in an object; `Refused` if the verifier refuses the program with the best of them.
pub fn annotate(
    task: &Task<'_>,
    code: &Code,
    unranked: &mut Unranked,
) -> Result<Annotated, Shortfall>
    requires { IsProgram task.now.bytes.now }
    ensures { IsOutcome task.now.hook task.now.bytes.now result }
{
    if task.given.is_empty() {
        return try_anew(task, code, unranked);
    }
    match try_statements(task, code, true, unranked) {
        Err(Shortfall::Refused(..)) => try_anew(task, code, unranked),
        outcome => outcome,
    }
}
