//! From a text to the object that it spells.
ghost use Rattle.std.specs.Prelude.{◌≡◌, ◌⊎◌, ℕ, Option, Some, None, Ok, Err, List, [], IfSome};
ghost use Rattle.std.specs.Prelude.{IfErr, MatchResult, length, map, option_map};
ghost use Rattle.asm.specs.Words.{Word};
ghost use Rattle.asm.specs.Assembling.{hook_step, rank_step, instruction_step, state_step};
ghost use Rattle.asm.specs.Assembling.{with_line_step, bytes_line_step, body_step, line_step};
ghost use Rattle.asm.specs.Assembling.{has_slot, order_fault, slot_at};
ghost use Rattle.asm.specs.Assembling.{with_last_statement, nothing, Takes};
ghost use Rattle.asm.specs.Assembling.{IsMade, Declines, TextSpells, Refuses};
ghost use Rattle.asm.specs.Faults.{error_at, IsWantOfMemory};
ghost use Rattle.asm.specs.Lawful.{AreAscending, IsLawful};
ghost use Rattle.asm.specs.Views.{parts_of, sketch};
ghost use Rattle.asm.specs.declared.error.AsmFault.{AsmFault};

use crate::error::{AsmError, AsmFault};
use crate::instructions::push_instruction;
use crate::labels::{Place, place_of, places_of};
use crate::line::{AssemblyLine, LabelOrNumber, RegisterContent, Terms};
use crate::numbers::natural_32;
use crate::numeral::Numeral;
use crate::reading::read_lines;
use crate::statements::{OpenStatement, push_open, rank_of, slot_of, statements_of};
use isa::laws::code_has_one_spelling;
use isa::{CodeBuilder, Hook, Register, encode};
use object::Object;
use std::alloc::Global;

/// What the lines so far say.
#[derive(Drop)]
struct Draft {
    hook: Option<Hook>,
    rank: Option<u32>,
    code: CodeBuilder,
    /// The closed statements, all but the last one.
    before: Vec<OpenStatement>,
    /// The last statement, to which lines may still add.
    open: Option<OpenStatement>,
}

/// Whether one of the statements is for this slot.
fn has_slot(statements: &[OpenStatement], slot: u32) -> bool
    ensures { result ≡ has_slot (map parts_of statements.now) slot }
{
    for statement in statements {
        if statement.slot == slot {
            return true;
        }
    }
    false
}

/// The fault of a further statement for this slot; `None` if it may follow.
fn order_fault(before: &[OpenStatement], last: Option<OpenStatement>, slot: u32) -> Option<AsmFault>
    requires { AreAscending (map parts_of before.now) (option_map parts_of last) }
    ensures { result ≡ order_fault (map parts_of before.now) (option_map parts_of last) slot }
{
    let last = last?;
    if slot > last.slot {
        return None;
    }
    if slot == last.slot || has_slot(before, slot) {
        return Some(AsmFault::Twice);
    }
    Some(AsmFault::Range)
}

/// The slot that a label names.
fn slot_at(place: Option<Place>) -> Option<usize>
    ensures { result ≡ slot_at place }
{
    match place {
        Some(place) => Some(place.slot),
        None => None,
    }
}

impl Draft {
    fn new(alloc: Global) -> Draft
        ensures { sketch result ≡ nothing }
    {
        Draft {
            hook: None,
            rank: None,
            code: CodeBuilder::new(alloc),
            before: Vec::new(alloc),
            open: None,
        }
    }

    /// Takes the `hook` line, which has to come first.
    fn hook(&mut self, hook: Hook) -> Result<(), AsmFault>
        ensures { Takes result (sketch self.new) (hook_step (sketch self.old) hook) }
    {
        if self.hook.is_some() {
            return Err(AsmFault::Syntax);
        }
        self.hook = Some(hook);
        Ok(())
    }

    /// Takes the `rank` line, which has to come second.
    fn rank(&mut self, rank: Numeral) -> Result<(), AsmFault>
        ensures { Takes result (sketch self.new) (rank_step (sketch self.old) rank) }
    {
        if self.hook.is_none() || self.rank.is_some() {
            return Err(AsmFault::Syntax);
        }
        match natural_32(rank) {
            Some(rank) => {
                self.rank = Some(rank);
                Ok(())
            }
            None => Err(AsmFault::Range),
        }
    }

    /// Takes the line of an instruction, which has to come before all statements.
    fn instruction(&mut self, line: AssemblyLine, place: Option<usize>) -> Result<(), AsmFault>
        ensures { Takes result (sketch self.new) (instruction_step (sketch self.old) line place) }
    {
        if self.open.is_some() {
            return Err(AsmFault::Syntax);
        }
        push_instruction(&mut self.code, line, place)
    }

    /// Appends the last statement, if there is one, to those before it.
    fn shift(&mut self) -> Result<(), AsmFault>
        ensures kept { MatchResult result (λ _. sketch self.new
            ≡ with_last_statement (sketch self.old)
            (sketch self.new).last)
            (λ fault. fault ≡ AsmFault.Memory) }
    {
        push_open(&mut self.before, self.open)
    }

    /// Takes a `state` line that is followed by the lines `rest`.
    fn state(
        &mut self,
        slot: LabelOrNumber,
        constant: Numeral,
        terms: Terms,
        place: Option<usize>,
        rest: &[Option<AssemblyLine>],
    ) -> Result<(), AsmFault>
        requires { AreAscending (sketch self.old).before (sketch self.old).last }
        ensures { Takes result (sketch self.new) (state_step (sketch self.old) slot constant terms
            place rest.now) }
    {
        let slot = slot_of(slot, place)?;
        if slot >= self.code.len() as u64 {
            return Err(AsmFault::Range);
        }
        let slot = slot as u32;
        let Some(rank) = rank_of(constant, terms, rest) else {
            return Err(AsmFault::Range);
        };
        if let Some(fault) = order_fault(&self.before, self.open, slot) {
            return Err(fault);
        }
        self.shift()?;
        self.open = Some(OpenStatement::new(slot, rank));
        Ok(())
    }

    /// Takes a `with` line.
    fn with(&mut self, register: Register, content: RegisterContent) -> Result<(), AsmFault>
        ensures { Takes result (sketch self.new) (with_line_step (sketch self.old) register
            content) }
    {
        let Some(open) = self.open else {
            return Err(AsmFault::Syntax);
        };
        let open = open.with(register, content)?;
        self.open = Some(open);
        Ok(())
    }

    /// Takes a `bytes` line.
    fn bytes(&mut self, start: Numeral, end: Numeral) -> Result<(), AsmFault>
        ensures { Takes result (sketch self.new) (bytes_line_step (sketch self.old) start end) }
    {
        let Some(open) = self.open else {
            return Err(AsmFault::Syntax);
        };
        let open = open.bytes(start, end)?;
        self.open = Some(open);
        Ok(())
    }

    /// Takes the line with index `at`, which is followed by the lines `rest`. `place` is that of
    /// the label that the line defines or uses.
    fn line(
        &mut self,
        line: AssemblyLine,
        at: usize,
        place: Option<Place>,
        rest: &[Option<AssemblyLine>],
    ) -> Result<(), AsmFault>
        requires { AreAscending (sketch self.old).before (sketch self.old).last }
        ensures { Takes result (sketch self.new) (line_step (sketch self.old) line at place
            rest.now) }
    {
        match line {
            AssemblyLine::Empty => Ok(()),
            AssemblyLine::Hook(hook) => self.hook(hook),
            AssemblyLine::Rank(rank) => self.rank(rank),
            other => {
                if self.rank.is_none() {
                    return Err(AsmFault::Syntax);
                }
                self.body(other, at, place, rest)
            }
        }
    }

    /// Takes a line after the first two.
    fn body(
        &mut self,
        line: AssemblyLine,
        at: usize,
        place: Option<Place>,
        rest: &[Option<AssemblyLine>],
    ) -> Result<(), AsmFault>
        requires { AreAscending (sketch self.old).before (sketch self.old).last }
        ensures { Takes result (sketch self.new) (body_step (sketch self.old) line at place
            rest.now) }
    {
        match line {
            AssemblyLine::Label => match place {
                Some(place) => {
                    if place.line < at {
                        return Err(AsmFault::Twice);
                    }
                    Ok(())
                }
                None => Ok(()),
            },
            AssemblyLine::State {
                slot,
                constant,
                terms,
            } => self.state(slot, constant, terms, slot_at(place), rest),
            AssemblyLine::With { register, content } => self.with(register, content),
            AssemblyLine::Bytes { start, end } => self.bytes(start, end),
            other => self.instruction(other, slot_at(place)),
        }
    }

    /// The object that the lines spell; `Syntax` if there is no instruction among them.
    fn finish(self, alloc: Global) -> Result<Object, AsmFault>
        requires { IsLawful [] (sketch self) }
        ensures { MatchResult result (IsMade (sketch self)) (Declines (sketch self)) }
    {
        let Draft {
            hook,
            rank,
            code,
            before,
            open,
        } = self;
        let Some(hook) = hook else {
            return Err(AsmFault::Syntax);
        };
        let Some(rank) = rank else {
            return Err(AsmFault::Syntax);
        };
        let Some(code) = code.finish() else {
            return Err(AsmFault::Syntax);
        };
        let Ok(bytes) = encode(alloc, &code) else {
            return Err(AsmFault::Memory);
        };
        let Ok(statements) = statements_of(alloc, &before, open) else {
            return Err(AsmFault::Memory);
        };
        let Some(statements) = statements else {
            return Err(AsmFault::Syntax);
        };
        // For the prover alone, by what the call ensures.
        code_has_one_spelling();
        match Object::new(hook, rank, bytes, statements) {
            Some(object) => Ok(object),
            None => Err(AsmFault::Syntax),
        }
    }
}

/// A fault in this line, counted from 1; a refused allocation is at line 0.
fn at_line(line: usize, kind: AsmFault) -> AsmError
    ensures { result ≡ error_at line kind }
{
    match kind {
        AsmFault::Memory => AsmError { line: 0, kind },
        _ => AsmError { line, kind },
    }
}

/// The object that a text of assembly spells.
///
/// # Errors
/// The first bad line, counted from 1. A text with no bad line and no instruction is `Syntax` at
/// line 1. If an allocation is refused, the error is `Memory` at line 0.
pub fn assemble(alloc: Global, text: &str) -> Result<Object, AsmError>
    ensures spells { MatchResult result (TextSpells text.now)
        (λ error. IsWantOfMemory error ⊎ Refuses text.now error.line error.kind) }
    ensures memory { IfErr result (λ error. error.kind ≡ AsmFault.Memory → error.line ≡ 0) }
{
    let mut lines = Vec::new(alloc);
    let mut names = Vec::new(alloc);
    read_lines(alloc, text, &mut lines, &mut names)?;
    let places = places_of(alloc, &lines, &names)?;
    let mut draft = Draft::new(alloc);
    for at in 0..lines.len() {
        let Some(line) = lines[at] else {
            return Err(at_line(at + 1, AsmFault::Syntax));
        };
        let place = place_of(&places, names[at]);
        let rest = &lines[at + 1..];
        if let Err(kind) = draft.line(line, at, place, rest) {
            return Err(at_line(at + 1, kind));
        }
    }
    match draft.finish(alloc) {
        Ok(object) => Ok(object),
        Err(kind) => Err(at_line(1, kind)),
    }
}
