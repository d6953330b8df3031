//! A program and the verifier's answer about it, explained.
ghost use Rattle.std.specs.Prelude.{◌≡◌, ◌++◌, IfErr, IfOk, string_bytes};
ghost use Rattle.explanations.specs.Told.{TellsVerdict, refused_words};
ghost use Rattle.verifier.specs.Verdicts.{Accepts, Refuses, accepted_line};

use crate::edges::Ways;
use crate::lines::instruction_lines;
use crate::page::Page;
use crate::phrases::Value;
use crate::rules::{hint_of, name_of};
use crate::text::Text;
use crate::walk::{Here, Program, push_pass};
use inference::entry_state;
use inference::liveness::live_registers;
use inference::memory::Memory;
use isa::{Code, DecodeError, decode};
use kinds::SegmentStart;
use object::{Object, ObjectError, Rank, StackBytes, StatedKind as Stated, Statement};
use std::alloc::{AllocError, Global};
use verifier::starts::segment_starts_of;
use verifier::{Accepted, Refusal, Rule, VerifyError, verify_object};

/// The explanation of an object, and the verifier's answer about it.
#[derive(Drop)]
pub struct Explanation {
    /// The slots that are explained, except the last one.
    pub before: String,
    /// The last one; if the program is refused, the slot of the refusal.
    pub last: String,
    /// The verdict in words: the bound; or the rule, what breaks it, what is allowed, and a hint.
    pub told: String,
    /// The verifier's own answer.
    pub verdict: Result<Accepted, VerifyError>,
}

/// Why there is no explanation.
#[derive(Clone, Copy)]
pub enum ExplainError {
    /// The bytes are no object file.
    Object(ObjectError),
    /// The object's code doesn't decode.
    Code(DecodeError),
    /// An allocation was refused.
    Memory,
}

/// The line for a program that is accepted with this bound.
fn accepted(alloc: Global, bound: u64) -> Result<String, AllocError>
    ensures { IfOk result (λ text. string_bytes text ≡ accepted_line bound) }
{
    format!(in alloc; "accepted bound {bound}\n")
}

/// The rest of a refusal's text: the rule by its name, the reasons, and a hint. If the bound is too
/// great, the reasons are how it is computed.
fn push_refusal(out: &mut Text, object: &Object, rule: Rule, reasons: &str) {
    out.line(" ", name_of(rule));
    if matches!(rule, Rule::Budget) {
        let rank = object.entry_rank();
        let slots = object.slots() as u64;
        let bound = (rank as u64).saturating_add(1).saturating_mul(slots);
        out.fill(
            "  ({} + 1) * {} is {}\n  allowed: up to 1000000\n",
            &[rank as u128, slots as u128, bound as u128],
        )
    } else {
        out.push(reasons)
    }
    out.line("  hint: ", hint_of(rule))
}

/// The refusal in words: the slot and the rule, and then `more`.
#[tactic(auto, using(crate::proofs::Refusals::refused_text))]
fn refusal_told(alloc: Global, refusal: Refusal, more: &str) -> Result<String, AllocError>
    ensures { IfOk result (λ text. string_bytes text ≡ refused_words refusal ++ more.now) }
{
    let slot = refusal.slot;
    let rule = refusal.rule.number();
    format!(in alloc; "refused slot {slot} rule {rule}{more}")
}

/// The verdict in words. Errors with `AllocError` if an allocation was refused for the page.
#[tactic(auto, using(crate::proofs::Refusals::tells_refusal))]
fn verdict_told(
    alloc: Global,
    verdict: &Result<Accepted, VerifyError>,
    page: &Page<'_>,
) -> Result<String, AllocError>
    ensures { IfOk result (λ text. TellsVerdict verdict.now (string_bytes text)) }
{
    match verdict {
        _ if page.is_cut() => Err(AllocError),
        Ok(program) => accepted(alloc, program.bound()),
        Err(VerifyError::Refused(refusal)) => {
            refusal_told(alloc, *refusal, page.told.words.as_str())
        }
        Err(VerifyError::Object(_)) | Err(VerifyError::Code(_)) => Ok(String::new(alloc)),
    }
}

/// The refusal at which the pass ends. No slot explains the budget or a refused allocation.
fn refusal_in(verdict: &Result<Accepted, VerifyError>) -> Option<Refusal> {
    match verdict {
        Err(VerifyError::Refused(refusal)) => match refusal.rule {
            Rule::Budget | Rule::Memory => None,
            _ => Some(*refusal),
        },
        _ => None,
    }
}

/// What the verifier knows at each slot of a program, up to the one that it refuses.
fn push_program(page: &mut Page<'_>, program: &Program<'_>) {
    let first = entry_state(program.memory, 512);
    let ways = Ways {
        memory: program.memory,
        segment_starts: &program.segment_starts,
        segment: &program.entry,
        slot: None,
    };
    if ways.push_to(&mut page.reasons, 0, &first) {
        page.turn(0)
    } else {
        push_pass(page, program, &mut Here::new(first))
    }
}

/// What the verifier knows at each slot of an object's program, with this statement at the entry.
fn push_entered(
    page: &mut Page<'_>,
    memory: &Memory,
    object: &Object,
    code: &Code,
    entry: &Statement,
    refusal: Option<Refusal>,
) {
    if object.slots() == code.len() {
        let segment_starts = segment_starts_of::<Value>(
            memory.alloc,
            code.len(),
            object.statements(),
        );
        let program = Program {
            memory,
            code,
            hook: object.hook(),
            live: live_registers(memory, code, object.hook()),
            segment_starts: memory.list(segment_starts),
            entry: SegmentStart {
                statement: entry,
                kinds: entry_state(memory, 0).kinds,
            },
            refusal,
        };
        push_program(page, &program)
    }
}

/// The whole explanation of the object and its verdict, except how the verdict begins.
fn push_all(
    alloc: Global,
    page: &mut Page<'_>,
    object: &Object,
    code: &Code,
    verdict: &Result<Accepted, VerifyError>,
) {
    let memory = Memory::new(alloc);
    let rank = object.entry_rank();
    page.here.push("hook ");
    page.here.push(object.hook().name());
    page.here
        .numbered(", rank ", rank as u64, " at the entry\n");
    let constant = Rank {
        constant: rank,
        first: None,
        second: None,
    };
    if let Some(entry) = Statement::new(0, constant, [Stated::Unstated; 10], StackBytes::new()) {
        push_entered(page, &memory, object, code, &entry, refusal_in(verdict))
    }
    page.reasons.is_cut |= memory.is_refused.get();
    if let Err(VerifyError::Refused(refusal)) = verdict {
        let reasons = page.reasons.words.as_str();
        push_refusal(&mut page.told, object, refusal.rule, reasons)
    }
}

/// The verdict on an object, with its explanation. `lines` are the assembly of its instructions.
fn explained(
    alloc: Global,
    object: &Object,
    code: &Code,
    lines: &str,
    verdict: Result<Accepted, VerifyError>,
) -> Result<Explanation, ExplainError>
    ensures same { IfOk result (λ explanation. explanation.verdict ≡ verdict) }
    ensures told { IfOk result (λ explanation. TellsVerdict explanation.verdict
        (string_bytes explanation.told)) }
{
    let mut page = Page::new(alloc, lines);
    push_all(alloc, &mut page, object, code, &verdict);
    match verdict_told(alloc, &verdict, &page) {
        Ok(told) => {
            let Page { before, here, .. } = page;
            Ok(Explanation {
                before: before.words,
                last: here.words,
                told,
                verdict,
            })
        }
        Err(_) => Err(ExplainError::Memory),
    }
}

/// The verdict on these bytes, explained by the object that was read from them.
fn explain_object(alloc: Global, bytes: &[u8], object: &Object) -> Result<Explanation, ExplainError>
    ensures accepts { IfOk result (λ explanation. IfOk explanation.verdict (Accepts bytes.now)) }
    ensures refuses { IfOk result (λ explanation. IfErr explanation.verdict (Refuses bytes.now)) }
    ensures told { IfOk result (λ explanation. TellsVerdict explanation.verdict
        (string_bytes explanation.told)) }
{
    match decode(alloc, object.code()) {
        Ok(code) => match instruction_lines(alloc, object) {
            Ok(lines) => {
                let verdict = verify_object(alloc, bytes);
                explained(alloc, object, &code, lines.as_str(), verdict)
            }
            Err(error) => Err(error),
        },
        Err(error) => Err(ExplainError::Code(error)),
    }
}

/// What the verifier knows at each slot of the object's program, up to the one that it refuses, and
/// its verdict.
///
/// # Errors
/// `Object` if the bytes are no object file, `Code` if its code doesn't decode, `Memory` if an
/// allocation is refused. That the verifier refuses the program is no error.
pub fn explain(alloc: Global, bytes: &[u8]) -> Result<Explanation, ExplainError>
    ensures accepts { IfOk result (λ explanation. IfOk explanation.verdict (Accepts bytes.now)) }
    ensures refuses { IfOk result (λ explanation. IfErr explanation.verdict (Refuses bytes.now)) }
    ensures told { IfOk result (λ explanation. TellsVerdict explanation.verdict
        (string_bytes explanation.told)) }
{
    match object::read(alloc, bytes) {
        Ok(object) => explain_object(alloc, bytes, &object),
        Err(error) => Err(ExplainError::Object(error)),
    }
}
