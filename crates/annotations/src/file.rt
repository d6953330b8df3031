//! From a file with code, bare or in an object, to an object that the verifier accepts.
ghost use Rattle.std.specs.Prelude.{◌≡◌, ◌↔◌, IfOk, IfErr, IsSome, IsTrue, None, take};
ghost use Rattle.object.specs.Spelling.{magic};
ghost use Rattle.annotations.specs.Annotated.{IsAnnotation, with_found};
ghost use Rattle.annotations.specs.Verdict.{IsFileOutcome, IsFileShortfall, IsFoundOutcome};

use crate::attempt::Task;
use crate::counting::{annotate_bounded, annotate_counted};
use crate::fuel::Fuel;
use crate::shortfall::Shortfall;
use crate::verdict::AnnotatedObject;
use inference::Unranked;
use isa::{Hook, decode};
use object::read;
use std::alloc::Global;

/// Whether the bytes begin as an object's file does.
fn is_object(bytes: &[u8]) -> bool
    ensures { IsTrue result ↔ (take 4 bytes.now ≡ magic) }
{
    bytes.len() >= 4
        && (bytes[0] == 0x42) & (bytes[1] == 0x50) & (bytes[2] == 0x46) & (bytes[3] == 0x48)
}

/// Finds statements and ranks for the code.
fn annotate_code(task: &Task<'_>, turns: Option<u32>) -> Result<AnnotatedObject, Shortfall>
    ensures outcome { IsFoundOutcome task.now.hook
        (record { turns = turns; answer = task.now.answer }) task.now.bytes.now result }
    ensures found { IfOk result (λ found. IsSome turns → found.turns ≡ None) }
{
    let code = match decode(task.alloc, task.bytes) {
        Ok(code) => code,
        Err(error) => return Err(Shortfall::Code(error)),
    };
    let mut unranked = Unranked {
        slots: Vec::new(task.alloc),
        are_together: false,
        endless: None,
    };
    match turns {
        Some(turns) => match annotate_counted(task, &code, turns, &mut unranked) {
            Ok(annotated) => Ok(AnnotatedObject {
                annotated,
                turns: None,
            }),
            Err(fault) => Err(fault),
        },
        None => annotate_bounded(task, &code, &mut unranked),
    }
}

/// Finds statements for the code of a file that has to be an object for the hook.
fn annotate_object(
    alloc: Global,
    hook: Hook,
    file: &[u8],
    fuel: Fuel,
) -> Result<AnnotatedObject, Shortfall>
    ensures outcome { IsFileOutcome hook fuel file.now result }
    ensures found { IfOk result (λ found. IsSome fuel.turns → found.turns ≡ None) }
{
    match read(alloc, file) {
        Ok(object) => {
            let object_hook = object.hook();
            if object_hook != hook {
                Err(Shortfall::OtherHook(object_hook))
            } else {
                let task = Task {
                    alloc,
                    hook,
                    bytes: object.code(),
                    given: object.statements(),
                    answer: fuel.answer,
                };
                annotate_code(&task, fuel.turns)
            }
        }
        Err(error) => Err(Shortfall::Object(error)),
    }
}

/// Finds statements and ranks for the code in the file: bare code, or an object with statements of
/// its own, which may be partial. Of loops that have no rank the turns are counted: up to the
/// number that the fuel has, or without one up to the greatest number that they take, if that is
/// found.
///
/// # Errors
/// If the file is no code, or begins as an object's and is none, or is an object for another hook;
/// if the verifier refuses the code with the best statements that were found; if turns can't be
/// counted; and if memory is refused.
pub fn annotate_file(
    alloc: Global,
    hook: Hook,
    file: &[u8],
    fuel: Fuel,
) -> Result<AnnotatedObject, Shortfall>
    ensures accepted { IfOk result (λ found. IsAnnotation hook (with_found fuel found.turns)
        file.now found.annotated.object found.annotated.bytes.items found.annotated.accepted) }
    ensures found { IfOk result (λ found. IsSome fuel.turns → found.turns ≡ None) }
    ensures refused { IfErr result (IsFileShortfall hook fuel file.now) }
{
    if is_object(file) {
        annotate_object(alloc, hook, file, fuel)
    } else {
        let task = Task {
            alloc,
            hook,
            bytes: file,
            given: &[],
            answer: fuel.answer,
        };
        annotate_code(&task, fuel.turns)
    }
}
