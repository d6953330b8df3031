//! `annotate`: an object that the verifier accepts, of code that has no statements.

ghost use Rattle.std.specs.Prelude.{◌≡◌, ◌⊎◌, ◌↔◌, List, ℕ, false, true, IfErr, IfOk, IsTrue};
ghost use Rattle.std.specs.Prelude.{string_bytes, take};
ghost use Rattle.verifier.specs.Verdicts.{Accepts};
ghost use Rattle.hooktool.specs.Annotations.{IsAnnotated, accepted_text, counted_words};
ghost use Rattle.hooktool.specs.Annotations.{elf_magic, fuel_for};
ghost use Rattle.hooktool.specs.Faults.{IsAnnotationFault, IsByVerifier};
ghost use Rattle.hooktool.specs.Faults.{IsFaultOfCount, IsFaultOfShortfall, IsUnread};
ghost use Rattle.hooktool.specs.Faults.{IsUnwritten};

use crate::cells::cells_note;
use crate::explaining::lacks_memory;
use crate::fault::HooktoolFault;
use crate::files;
use crate::report::{CommandReport, told};
use annotations::{
    AnnotatedObject, CountError, EndlessLoop, Fuel, Rejected, Shortfall, Trouble, annotate_file,
    answer_without_turns,
};
use explanations::{Explanation, Text, explain};
use hooktool_trials::{FuelAsked, WholeFiles};
use isa::Hook;
use std::alloc::{AllocError, Global};
use verifier::BUDGET;

/// How a refusal is told.
#[derive(Clone, Copy)]
pub(crate) struct Telling {
    /// What is known at each slot, and not at the last one alone.
    pub is_whole: bool,
    /// What `--fuel` says.
    pub turns: Option<u32>,
    /// How many slots the given code has, if that is known.
    pub slots: Option<usize>,
}

/// The slots that count the turns of a loop: one at the entry, and four behind the code.
const COUNTING: usize = 5;

/// How great a rank may be at the entry of a program of this number of slots.
fn max_rank(slots: usize) -> u64 {
    match slots {
        0 => 0,
        slots => (BUDGET / slots as u64).saturating_sub(1),
    }
}

/// The greatest N of `--fuel` that code of this number of slots may have: with one loop that is
/// counted.
fn max_fuel(slots: usize) -> u64 {
    max_rank(slots.saturating_add(COUNTING)).saturating_sub(1)
}

/// Which `--fuel` is too much for code of this number of slots.
fn push_fuel(out: &mut Text, slots: usize) {
    let counted = slots.saturating_add(COUNTING);
    let most = max_fuel(slots);
    out.fill(
        "  --fuel N makes B N + 1, and L {} with one loop that is counted, so N is at most {}\n",
        &[counted as u128, u128::from(most)],
    )
}

/// What an author can do about a loop without a rank, in a program of this number of slots.
fn push_remedies(out: &mut Text, endless: &EndlessLoop, slots: usize) {
    out.push(
        "  either let a register fall with each turn (DOWN and EACH of examples/c/leafrunt.h \
            do)\n",
    );
    let most = max_fuel(slots);
    out.numbered(
        "  or count the turns: --fuel N, with N at most ",
        most,
        "\n",
    );
    if endless.lacks_register {
        out.push("  its turns end, but nothing can count them: the program uses each of r6 to r9\n")
    }
}

/// Whether it is the count of turns that falls from too great a number.
fn is_fuel(endless: &EndlessLoop, turns: Option<u32>) -> bool {
    match (endless.why.trouble, turns) {
        (Trouble::TooHigh { from, .. }, Some(turns)) => from == u64::from(turns) + 1,
        _ => false,
    }
}

/// Which loop has no rank and why, and what an author can do. The program has this number of slots.
fn push_endless(out: &mut Text, endless: &EndlessLoop, slots: usize, telling: Telling) {
    let (sentence, register, from) = match endless.why.trouble {
        Trouble::Rises { register } => (
            "the loop at slot {} has no rank: r{} rises with each turn, and none falls\n",
            register,
            0,
        ),
        Trouble::TooHigh { register, from } => (
            "the loop at slot {} has no rank: r{} falls from up to {}, which takes too long\n  a \
                run may take (B + 1) * L instructions, {} at most, for a rank B at the entry and \
                L slots:\n  L is {} here, so B is at most {}\n",
            register,
            from,
        ),
        Trouble::NoneFalls => (
            "the loop at slot {} has no rank: no register falls by a single number on each way \
                round\n",
            0,
            0,
        ),
    };
    out.fill(
        sentence,
        &[
            endless.why.slot as u128,
            u128::from(register),
            u128::from(from),
            u128::from(BUDGET),
            slots as u128,
            u128::from(max_rank(slots)),
        ],
    );
    match telling.slots {
        Some(given) if is_fuel(endless, telling.turns) => push_fuel(out, given),
        Some(given) => push_remedies(out, endless, given),
        None => push_remedies(out, endless, slots),
    }
}

/// The report of an explanation, and which loop has no rank. The program has this number of slots.
/// An error if the verifier was refused memory.
fn told_of(
    alloc: Global,
    explanation: &Explanation,
    endless: &Option<EndlessLoop>,
    slots: usize,
    telling: Telling,
) -> Result<String, AllocError> {
    if lacks_memory(&explanation.verdict) {
        return Err(AllocError);
    }
    let mut text = Text::new(alloc);
    if matches!(telling.slots, Some(given) if slots > given) {
        text.push("its turns are counted, so each slot is one later\n")
    }
    if telling.is_whole {
        text.push(explanation.before.as_str())
    }
    text.push(explanation.last.as_str());
    text.push(explanation.told.as_str());
    if let Some(endless) = endless {
        push_endless(&mut text, endless, slots, telling);
    }
    text.finish()
}

/// Where the verifier refuses the object, and why, and which loop has no rank.
fn rejection_text(
    alloc: Global,
    rejected: &Rejected,
    endless: &Option<EndlessLoop>,
    telling: Telling,
) -> Result<String, AllocError> {
    match explain(alloc, &rejected.bytes) {
        Ok(explanation) => {
            let slots = rejected.object.code().len() / 8;
            told_of(alloc, &explanation, endless, slots, telling)
        }
        Err(_) => Err(AllocError),
    }
}

/// Why turns can't be counted.
fn uncounted<'a>(error: CountError) -> HooktoolFault<'a>
    ensures { IsFaultOfCount error result }
{
    let reason = match error {
        CountError::NoRegister => "no turns can be counted: the program uses each of r6 to r9",
        CountError::TooMany => "no turns can be counted: --fuel is 1000000 or more",
        CountError::TooGreat => "no turns can be counted: --fuel-answer is 2147483648 or more",
        CountError::TooLong =>
            "no turns can be counted: the code would have more than 4096 slots, or a jump would go \
                too far",
        CountError::Memory => return HooktoolFault::Memory,
    };
    HooktoolFault::Uncounted { reason }
}

/// The report if nothing was accepted.
pub(crate) fn shortfall<'a>(
    alloc: Global,
    shortfall: Shortfall,
    telling: Telling,
) -> Result<CommandReport, HooktoolFault<'a>>
    ensures refused { IfOk result (λ report. (report.is_refused ≡ true) × IsByVerifier shortfall) }
    ensures fault { IfErr result (IsFaultOfShortfall shortfall) }
{
    match shortfall {
        Shortfall::Refused(rejected, endless) => {
            told(rejection_text(alloc, &rejected, &endless, telling), true)
        }
        Shortfall::Code(error) => Err(HooktoolFault::from(error)),
        Shortfall::Object(error) => Err(HooktoolFault::from(error)),
        Shortfall::OtherHook(hook) => Err(HooktoolFault::OtherHook { hook: hook.name() }),
        Shortfall::Uncounted(error) => Err(uncounted(error)),
        Shortfall::Statements | Shortfall::Memory => Err(HooktoolFault::Memory),
    }
}

/// The report on how many turns are counted though nobody asked for that.
fn counted_words(alloc: Global, turns: Option<u32>) -> Result<String, AllocError>
    ensures { IfOk result (λ words. string_bytes words ≡ counted_words turns) }
{
    match turns {
        Some(turns) => format!(in alloc; ", turns counted, at most {turns}\n"),
        None => format!(in alloc; "\n"),
    }
}

/// The report on an object that is written: its bound, how many turns it counts, and a note on
/// its cells.
pub(crate) fn accepted_text(alloc: Global, found: &AnnotatedObject) -> Result<String, AllocError>
    ensures { IfOk result (λ text. string_bytes text
        ≡ accepted_text found.now.annotated.accepted found.now.turns) }
{
    let bound = found.annotated.accepted.bound();
    let counted = counted_words(alloc, found.turns)?;
    let note = cells_note(&found.annotated.accepted);
    format!(in alloc; "accepted bound {bound}{counted}{note}")
}

/// Writes the object, which the verifier accepted, and tells its bound.
fn written<'a, R: WholeFiles + AllocGlobal>(
    rt: &R,
    path: &'a str,
    found: &AnnotatedObject,
) -> Result<CommandReport, HooktoolFault<'a>>
    requires { Accepts found.now.annotated.bytes.items found.now.annotated.accepted }
    ensures stored { IfOk result (λ report. R.known.written path.now
        found.now.annotated.bytes.items) }
    ensures told { IfOk result (λ report. string_bytes report.text
        ≡ accepted_text found.now.annotated.accepted found.now.turns) }
    ensures done { IfOk result (λ report. report.is_refused ≡ false) }
    ensures fault { IfErr result (IsUnwritten R.known path.entry) }
{
    let text = accepted_text(rt.alloc(), found)?;
    match files::write_accepted(rt, path, &found.annotated.bytes) {
        Ok(()) => Ok(CommandReport {
            text,
            is_refused: false,
        }),
        Err(fault) => Err(fault),
    }
}

/// How many turns may be counted at the hook, and what is answered once they are used up.
pub(crate) fn fuel_for(hook: Hook, asked: FuelAsked) -> Fuel
    ensures { result ≡ fuel_for hook asked }
{
    Fuel {
        turns: asked.turns,
        answer: answer_without_turns(hook, asked.answer),
    }
}

/// Whether the bytes begin as an ELF file, and so are no code.
pub(crate) fn is_elf(file: &[u8]) -> bool
    ensures { IsTrue result ↔ (take 4 file.now ≡ elf_magic) }
{
    file.len() >= 4 && (file[0] == 0x7f) & (file[1] == 0x45) & (file[2] == 0x4c) & (file[3] == 0x46)
}

/// How many slots bare code in a file has. Of an object nothing.
fn given_slots(file: &[u8]) -> Option<usize> {
    match file {
        [b'B', b'P', b'F', b'H', ..] => None,
        code => Some(code.len() / 8),
    }
}

/// The report on an ELF file in the place of code.
fn elf_refusal<'a>(alloc: Global) -> Result<CommandReport, HooktoolFault<'a>>
    ensures refused { IfOk result (λ report. report.is_refused ≡ true) }
    ensures fault { IfErr result (λ fault. fault ≡ HooktoolFault.Memory) }
{
    let text = format!(in alloc;
        "CODE is an ELF file: hooktool build FILE FOLDER makes an object of each of its functions, and hooktool explain FILE explains each\n"
    );
    told(text, true)
}

/// Finds statements for the code in these bytes of a file, and writes the object file `object`, if
/// the verifier accepts it.
fn annotate_code<'a, R: WholeFiles + AllocGlobal>(
    rt: &R,
    hook: Hook,
    file: &[u8],
    object: &'a str,
    fuel: FuelAsked,
) -> Result<CommandReport, HooktoolFault<'a>>
    ensures made { IfOk result (IsAnnotated (R.known.written object.now) hook fuel file.now) }
    ensures fault { IfErr result (λ fault. IsUnwritten R.known object.entry fault
        ⊎ IsAnnotationFault hook fuel file.now fault) }
{
    match annotate_file(rt.alloc(), hook, file, fuel_for(hook, fuel)) {
        Ok(found) => written(rt, object, &found),
        Err(error) => {
            let telling = Telling {
                is_whole: false,
                turns: fuel.turns,
                slots: given_slots(file),
            };
            shortfall(rt.alloc(), error, telling)
        }
    }
}

/// Finds statements as `annotate_code` does; an ELF file is refused, since its functions are
/// `build`'s to take.
fn annotate_bytes<'a, R: WholeFiles + AllocGlobal>(
    rt: &R,
    hook: Hook,
    file: &[u8],
    object: &'a str,
    fuel: FuelAsked,
) -> Result<CommandReport, HooktoolFault<'a>>
    ensures made { IfOk result (IsAnnotated (R.known.written object.now) hook fuel file.now) }
    ensures fault { IfErr result (λ fault. IsUnwritten R.known object.entry fault
        ⊎ IsAnnotationFault hook fuel file.now fault) }
{
    if is_elf(file) {
        elf_refusal(rt.alloc())
    } else {
        annotate_code(rt, hook, file, object, fuel)
    }
}

/// Finds statements for the code of the file at `code`, at the hook, and writes the object file
/// `object`, if the verifier accepts it. If it doesn't, `object` is as it was.
///
/// # Errors
/// A fault if a file can't be read or written, if the first one is no code and no object for the
/// hook, or if memory is refused.
pub(crate) fn annotate<'a, R: WholeFiles + AllocGlobal>(
    rt: &R,
    hook: Hook,
    code: &'a str,
    object: &'a str,
    fuel: FuelAsked,
) -> Result<CommandReport, HooktoolFault<'a>>
    ensures made { IfOk result (λ report. (file : List ℕ) × R.known.holds code.now file
        × IsAnnotated (R.known.written object.now) hook fuel file report) }
    ensures fault { IfErr result (λ fault. IsUnread R.known code.entry fault
        ⊎ IsUnwritten R.known object.entry fault
        ⊎ ((file : List ℕ) × R.known.holds code.now file
        × IsAnnotationFault hook fuel file fault)) }
{
    match files::read(rt, code) {
        Ok(file) => annotate_bytes(rt, hook, file.as_slice(), object, fuel),
        Err(fault) => Err(fault),
    }
}
