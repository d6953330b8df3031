//! Statements without the known bits that the verifier does without.
ghost use Rattle.std.specs.Prelude.{IfErr};
ghost use Rattle.annotations.specs.Annotated.{IsAnnotated, IsProgram};
ghost use Rattle.annotations.specs.Verdict.{IsOutcome, IsShortfall};

use crate::attempt::Task;
use crate::shortfall::Shortfall;
use crate::verdict::{Annotated, judged};
use inference::kinds_of;
use object::{StatedKind, StatedNumber, Statement};
use std::alloc::{AllocError, Global};

/// The greatest number of statements that are trimmed one by one.
const MAX_TRIES: usize = 64;

/// The numbers of the range, whatever their bits.
fn any_bits(numbers: StatedNumber) -> StatedNumber {
    match StatedNumber::new(numbers.low(), numbers.high(), 0, 0) {
        Some(plain) => plain,
        None => numbers,
    }
}

/// The kind without known bits.
fn without_bits(kind: StatedKind) -> StatedKind {
    match kind {
        StatedKind::Number(numbers) => StatedKind::Number(any_bits(numbers)),
        StatedKind::MapValue(map, numbers) => StatedKind::MapValue(map, any_bits(numbers)),
        StatedKind::Unstated | StatedKind::Context(_) | StatedKind::Stack(_) => kind,
    }
}

/// The statement without known bits.
fn trimmed(statement: &Statement) -> Statement {
    let mut kinds = kinds_of(statement);
    for kind in &mut kinds {
        *kind = without_bits(*kind);
    }
    let (slot, rank) = (statement.slot(), statement.rank());
    Statement::new(slot, rank, kinds, *statement.stack()).unwrap_or(*statement)
}

/// The statements, those from one on up to another without known bits.
fn trimmed_within(
    alloc: Global,
    statements: &[Statement],
    from: usize,
    to: usize,
) -> Result<Vec<Statement>, AllocError> {
    let mut all = Vec::from_slice(alloc, statements)?;
    for (place, statement) in all.iter_mut().enumerate() {
        if (from <= place) & (place < to) {
            *statement = trimmed(statement);
        }
    }
    Ok(all)
}

/// Leaves out the known bits of these statements, if they have some and the verifier accepts the
/// object so.
fn trim_within(
    task: &Task<'_>,
    annotated: &mut Annotated,
    from: usize,
    to: usize,
) -> Result<(), Shortfall>
    requires program { IsProgram task.now.bytes.now }
    requires annotated { IsAnnotated task.now.hook task.now.bytes.now annotated.old.object
        annotated.old.bytes.items annotated.old.accepted }
    ensures annotated { IsAnnotated task.now.hook task.now.bytes.now annotated.new.object
        annotated.new.bytes.items annotated.new.accepted }
    ensures fault { IfErr result (IsShortfall task.now.hook task.now.bytes.now) }
{
    let Ok(statements) = trimmed_within(task.alloc, annotated.object.statements(), from, to) else {
        return Err(Shortfall::Memory);
    };
    if statements.as_slice() == annotated.object.statements() {
        return Ok(());
    }
    let entry_rank = annotated.object.entry_rank();
    match judged(task, entry_rank, statements, None) {
        Ok(trimmed) => {
            *annotated = trimmed;
            Ok(())
        }
        Err(Shortfall::Refused(..)) => Ok(()),
        Err(fault) => Err(fault),
    }
}

/// Drops the known bits that the verifier does without from the object's statements: from all at
/// once, and if they are few, also from one after the other.
///
/// # Errors
/// `Memory` if an allocation is refused, `Statements` if fewer known bits can't stand in an object.
/// A refusal of the verifier is no error: what it refuses is kept as it was.
pub fn trim(task: &Task<'_>, mut annotated: Annotated) -> Result<Annotated, Shortfall>
    requires program { IsProgram task.now.bytes.now }
    requires annotated { IsAnnotated task.now.hook task.now.bytes.now annotated.object
        annotated.bytes.items annotated.accepted }
    ensures { IsOutcome task.now.hook task.now.bytes.now result }
{
    let count = annotated.object.statements().len();
    let tries = if count <= MAX_TRIES { count + 1 } else { 1 };
    for place in 0..tries {
        let (from, to) = if place == 0 {
            (0, count)
        } else {
            (place - 1, place)
        };
        if let Err(fault) = trim_within(task, &mut annotated, from, to) {
            return Err(fault);
        }
    }
    Ok(annotated)
}
