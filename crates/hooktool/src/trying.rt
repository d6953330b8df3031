//! `try`: runs of a program on a question.

ghost use Rattle.std.specs.Prelude.{◌≡◌, ◌⊎◌, List, ℕ, IfErr, IfOk, is_err};
ghost use Rattle.std.specs.List.{list_any};
ghost use Rattle.hooktool.specs.Faults.{IsObjectFault, IsPacketFault, IsUnread};
ghost use Rattle.hooktool.specs.Trials.{IsPacketOf, IsTried};

use crate::answers::push_answer;
use crate::explaining::fault_in;
use crate::fault::HooktoolFault;
use crate::files;
use crate::report::{CommandReport, told};
use crate::traps::push_trap;
use explanations::{Text, instruction_lines};
use hooktool_trials::{
    ObjectTrial, PacketSource, Question, RunEnding, WholeFiles, is_any_stuck, try_object,
};
use isa::{Code, Hook, decode};
use object::Object;
use std::alloc::{AllocError, Global};
use verifier::BUDGET;

/// The program that was run, and how many instructions it may take.
#[derive(Drop)]
struct Program {
    hook: Hook,
    bound: u64,
    code: Code,
    lines: String,
}

/// The program of the object.
fn program_in(alloc: Global, object: &Object) -> Option<Program> {
    match decode(alloc, object.code()) {
        Ok(code) => match instruction_lines(alloc, object) {
            Ok(lines) => Some(Program {
                hook: object.hook(),
                bound: bound_of(object),
                code,
                lines,
            }),
            Err(_) => None,
        },
        Err(_) => None,
    }
}

/// The program of the object file that these bytes are. None if they hold none, or if memory is
/// refused.
fn program_of(alloc: Global, bytes: &[u8]) -> Option<Program> {
    match object::read(alloc, bytes) {
        Ok(object) => program_in(alloc, &object),
        Err(_) => None,
    }
}

/// How many instructions the object allows.
fn bound_of(object: &Object) -> u64 {
    let passes = u64::from(object.entry_rank()) + 1;
    passes.saturating_mul(object.slots() as u64).min(BUDGET)
}

/// How each run ended: its answer and how many instructions it took, or its trap; with its number
/// if there are several.
fn push_endings(out: &mut Text, program: &Program, endings: &[RunEnding]) {
    for (index, ending) in endings.iter().enumerate() {
        if endings.len() > 1 {
            out.numbered("run ", index as u64 + 1, ": ");
        }
        match ending.outcome {
            Ok(run) => {
                push_answer(out, program.hook, run.answer);
                out.fill(
                    ", used {} of {}\n",
                    &[u128::from(run.used), u128::from(program.bound)],
                )
            }
            Err(trap) => push_trap(out, trap, ending, &program.code, program.lines.as_str()),
        }
    }
}

/// A line for each number that isn't 0: this sentence with its index and the number.
fn push_numbers(out: &mut Text, sentence: &str, numbers: &[u64]) {
    for (index, number) in numbers.iter().enumerate() {
        if *number > 0 {
            out.fill(sentence, &[index as u128, u128::from(*number)])
        }
    }
}

/// Each run's end, and what was left in counters and cells.
fn text_of(alloc: Global, program: &Program, trial: &ObjectTrial) -> Result<String, AllocError> {
    let mut text = Text::new(alloc);
    push_endings(&mut text, program, &trial.endings);
    push_numbers(&mut text, "counter {} {}\n", &trial.counters);
    push_numbers(&mut text, "cell {} {}\n", &trial.cells);
    text.finish()
}

/// The report on the program's runs.
fn report_of<'a>(
    alloc: Global,
    program: &Program,
    trial: &ObjectTrial,
) -> Result<CommandReport, HooktoolFault<'a>>
    ensures stuck { IfOk result (λ report. report.is_refused
        ≡ list_any (λ ending. is_err ending.outcome) trial.now.endings.items) }
    ensures fault { IfErr result (λ fault. fault ≡ HooktoolFault.Memory) }
{
    told(text_of(alloc, program, trial), is_any_stuck(&trial.endings))
}

/// Runs the program of the object file that these bytes are on the question, with this packet, and
/// reports on it.
fn told_of<'a>(
    alloc: Global,
    bytes: &[u8],
    packet: &[u8],
    question: &Question<'_>,
    program: &Program,
) -> Result<CommandReport, HooktoolFault<'a>>
    ensures tried { IfOk result (IsTried bytes.now packet.now question.now) }
    ensures fault { IfErr result (IsObjectFault bytes.now) }
{
    match try_object(alloc, bytes, packet, question) {
        Ok(trial) => report_of(alloc, program, &trial),
        Err(_) => Err(fault_in(alloc, bytes)),
    }
}

/// Runs the program as `told_of` does; a fault if the bytes hold none.
fn trial_of<'a>(
    alloc: Global,
    bytes: &[u8],
    packet: &[u8],
    question: &Question<'_>,
) -> Result<CommandReport, HooktoolFault<'a>>
    ensures tried { IfOk result (IsTried bytes.now packet.now question.now) }
    ensures fault { IfErr result (IsObjectFault bytes.now) }
{
    match program_of(alloc, bytes) {
        Some(program) => told_of(alloc, bytes, packet, question, &program),
        None => Err(fault_in(alloc, bytes)),
    }
}

/// Runs the program with the question's packet, which may have to be read from a file.
fn try_bytes<'a, R: WholeFiles + AllocGlobal>(
    rt: &R,
    bytes: &[u8],
    question: &Question<'a>,
) -> Result<CommandReport, HooktoolFault<'a>>
    ensures tried { IfOk result (λ report. (packet : List ℕ)
        × IsPacketOf R.known question.now.packet packet
        × IsTried bytes.now packet question.now report) }
    ensures fault { IfErr result (λ fault. IsPacketFault R.known question.now.packet fault
        ⊎ IsObjectFault bytes.now fault) }
{
    match &question.packet {
        PacketSource::Bytes(packet) => trial_of(rt.alloc(), bytes, packet.as_slice(), question),
        PacketSource::File(path) => match files::read(rt, path) {
            Ok(packet) => trial_of(rt.alloc(), bytes, packet.as_slice(), question),
            Err(fault) => Err(fault),
        },
    }
}

/// Runs the program of the object file at `path` on the question, and reports each run's end and
/// what was left in counters and cells.
///
/// # Errors
/// A fault if a file can't be read, is no object file, or holds no code, or if memory is refused.
pub(crate) fn try_question<'a, R: WholeFiles + AllocGlobal>(
    rt: &R,
    path: &'a str,
    question: &Question<'a>,
) -> Result<CommandReport, HooktoolFault<'a>>
    ensures tried { IfOk result (λ report. (bytes : List ℕ) × R.known.holds path.now bytes
        × (packet : List ℕ) × IsPacketOf R.known question.now.packet packet
        × IsTried bytes packet question.now report) }
    ensures fault { IfErr result (λ fault. IsUnread R.known path.entry fault
        ⊎ IsPacketFault R.known question.now.packet fault
        ⊎ ((bytes : List ℕ) × R.known.holds path.now bytes × IsObjectFault bytes fault)) }
{
    match files::read(rt, path) {
        Ok(bytes) => try_bytes(rt, bytes.as_slice(), question),
        Err(fault) => Err(fault),
    }
}
