//! From an object to a text that spells it.
ghost use Rattle.std.specs.Prelude.{◌≡◌, ◌≤◌, ◌<◌, ◌-◌, ◌++◌, List, [], ◌∷◌, length, map, take};
ghost use Rattle.std.specs.Prelude.{replicate, true, false, Option, Some, IfOk, IfErr, OnOk};
ghost use Rattle.std.specs.Prelude.{MatchOption, string_bytes};
ghost use Rattle.std.specs.List.{flat_map};
ghost use Rattle.isa.specs.declared.code.Slot.{Slot};
ghost use Rattle.isa.specs.Spelling.{Spells};
ghost use Rattle.object.specs.declared.kind.StatedKind.{StatedKind};
ghost use Rattle.object.specs.Sets.{has_byte};
ghost use Rattle.asm.specs.declared.line.AssemblyLine.{AssemblyLine};
ghost use Rattle.asm.specs.declared.numeral.Numeral.{Numeral};
ghost use Rattle.asm.specs.Forms.{names_label};
ghost use Rattle.asm.specs.Written.{line_text};
ghost use Rattle.asm.specs.Rules.{term_of, rank_of, numbers_of, kind_of};
ghost use Rattle.asm.specs.Assembling.{TextSpells};
ghost use Rattle.asm.specs.Faults.{as_list_error};
ghost use Rattle.asm.specs.Listed.{AddsLine, AddsCode, AddsKinds, AddsStack, AddsStatement};
ghost use Rattle.asm.specs.Listed.{AddsStatements, Listed, Any, code_sketch, is_stated, is_number};
ghost use Rattle.asm.specs.Listed.{gives_number};
ghost use Rattle.asm.specs.Listing.{AddsText, IsListing, slot_lines, the_term, the_terms};
ghost use Rattle.asm.specs.Listing.{the_range, the_content, with_lines, longest_ranges, bytes_line};
ghost use Rattle.asm.specs.Listing.{statement_lines, listing_lines, text_of};
ghost use Rattle.asm.specs.declared.error.ListError.{ListError};

use crate::error::ListError;
use crate::instructions::line_of;
use crate::line::{AssemblyLine, LabelOrNumber, Range, RegisterContent, Term, Terms};
use crate::line_text::write_line;
use crate::numeral::Numeral;
use isa::{Code, DecodeFault, Hook, Register, Slot, decode};
use object::{Object, Rank, RankTerm, StackBytes, StatedKind, StatedNumber, Statement};
use std::alloc::{AllocError, Global};

/// Writes a line that neither defines nor uses a label.
fn put(text: &mut String, line: AssemblyLine) -> Result<(), AllocError>
    requires { names_label line ≡ false }
    ensures says { OnOk result (AddsLine (string_bytes text.old) (string_bytes text.new) line) }
    ensures text { OnOk result (string_bytes text.new ≡ string_bytes text.old
        ++ line_text line []) }
{
    write_line(text, line, "")
}

fn number(n: u32) -> Numeral
    ensures { result ≡ Numeral.Natural n }
{
    Numeral::Natural(u64::from(n))
}

/// A term of a rank; `r0 * 0` if there is none.
fn term_of(term: Option<RankTerm>) -> Term
    ensures line { result ≡ the_term term }
    ensures again { (rest : List (Option AssemblyLine)) → is_stated rest term ≡ true
        → term_of rest result ≡ Some term }
{
    let (register, coefficient) = match term {
        Some(term) => (term.register(), term.coefficient()),
        None => (0, 0),
    };
    match Register::new(register) {
        Some(register) => Term {
            register,
            coefficient: number(coefficient),
        },
        None => unreachable!(),
    }
}

/// The terms of a rank; `r0 * 0` stands for a missing first one if there is a second.
fn terms_of(rank: Rank) -> Terms
    ensures line { result ≡ the_terms rank.first rank.second }
    ensures again { (rest : List (Option AssemblyLine)) → is_stated rest rank.first ≡ true
        → is_stated rest rank.second ≡ true
        → rank_of (Numeral.Natural rank.constant) result rest ≡ Some rank }
{
    match rank.second {
        None => match rank.first {
            None => Terms::None,
            first => Terms::One(term_of(first)),
        },
        second => Terms::Two(term_of(rank.first), term_of(second)),
    }
}

fn range_of(numbers: StatedNumber) -> Range
    ensures line { result ≡ the_range numbers }
    ensures again { numbers_of result ≡ Some numbers }
{
    Range {
        low: Numeral::Natural(numbers.low()),
        high: Numeral::Natural(numbers.high()),
        mask: Numeral::Natural(numbers.mask()),
        value: Numeral::Natural(numbers.value()),
    }
}

/// What a `with` line says of a register of this kind; `None` for an empty one.
fn content_of(kind: StatedKind) -> Option<RegisterContent>
    ensures line { result ≡ the_content kind }
    ensures again { MatchOption result (kind ≡ StatedKind.Unstated) (λ content. kind_of content
        ≡ Some kind) }
    ensures numbers { is_number kind ≡ gives_number result }
{
    match kind {
        StatedKind::Unstated => None,
        StatedKind::Number(numbers) => Some(RegisterContent::Number(range_of(numbers))),
        StatedKind::Context(offset) => Some(RegisterContent::Context(number(offset.bytes()))),
        StatedKind::Stack(offset) => Some(RegisterContent::Stack(number(offset.bytes()))),
        StatedKind::MapValue(map, numbers) => Some(RegisterContent::Map {
            map: number(u32::from(map.number())),
            offset: range_of(numbers),
        }),
    }
}

/// The first two lines.
fn write_head(alloc: Global, hook: Hook, entry_rank: u32) -> Result<String, AllocError>
    ensures says { IfOk result (λ text.
        Listed (string_bytes text) (code_sketch hook entry_rank []) Any) }
    ensures text { IfOk result (λ text. string_bytes text
        ≡ text_of (AssemblyLine.Hook hook ∷ AssemblyLine.Rank (Numeral.Natural entry_rank) ∷ [])) }
{
    let mut text = String::new(alloc);
    put(&mut text, AssemblyLine::Hook(hook))?;
    put(&mut text, AssemblyLine::Rank(number(entry_rank)))?;
    Ok(text)
}

/// The lines of the instructions, in order.
fn write_code(text: &mut String, code: &Code) -> Result<(), AllocError>
    ensures says { OnOk result (AddsCode (string_bytes text.old) (string_bytes text.new) code.now) }
    ensures text { OnOk result (AddsText (string_bytes text.old) (string_bytes text.new)
        (flat_map slot_lines code.now)) }
{
    for slot in code.slots() {
        match *slot {
            Slot::Start(instruction) => put(text, line_of(instruction))?,
            Slot::SecondHalf => {}
        }
    }
    Ok(())
}

/// A `with` line for each register that isn't empty, ascending.
fn write_kinds(text: &mut String, kinds: &[StatedKind]) -> Result<(), AllocError>
    requires { length kinds.now ≡ 10 }
    ensures says { OnOk result (AddsKinds (string_bytes text.old) (string_bytes text.new)
        kinds.now) }
    ensures text { OnOk result (AddsText (string_bytes text.old) (string_bytes text.new)
        (with_lines 0 kinds.now)) }
{
    for index in 0..10u8 {
        let Some(register) = Register::new(index) else {
            unreachable!()
        };
        if let Some(content) = content_of(kinds[usize::from(index)]) {
            put(text, AssemblyLine::With { register, content })?;
        }
    }
    Ok(())
}

/// The end of the longest range of bytes that begins here, itself excluded.
fn end_of_range(stack: &StackBytes, start: usize) -> usize
    requires { start < 512 }
    ensures further { start < result }
    ensures within { result ≤ 512 }
    ensures bytes { has_byte stack.now start ≡ true
        → take result stack.now ≡ take start stack.now ++ replicate (result - start) true }
    ensures longest { result < 512 → has_byte stack.now result ≡ false }
{
    for end in start + 1..512 {
        if !stack.contains(end) {
            return end;
        }
    }
    512
}

/// A `bytes` line for each longest range of bytes, ascending.
fn write_stack(text: &mut String, stack: &StackBytes) -> Result<(), AllocError>
    ensures says { OnOk result (AddsStack (string_bytes text.old) (string_bytes text.new)
        stack.now) }
    ensures text { OnOk result (AddsText (string_bytes text.old) (string_bytes text.new)
        (map bytes_line (longest_ranges 0 stack.now))) }
{
    let mut start = 0;
    while start < 512 {
        if stack.contains(start) {
            let end = end_of_range(stack, start);
            let line = AssemblyLine::Bytes {
                start: Numeral::Natural(start as u64),
                end: Numeral::Natural(end as u64),
            };
            put(text, line)?;
            start = end;
        } else {
            start += 1;
        }
    }
    Ok(())
}

fn write_statement(text: &mut String, statement: &Statement) -> Result<(), AllocError>
    ensures says { OnOk result (AddsStatement (string_bytes text.old) (string_bytes text.new)
        statement.now) }
    ensures text { OnOk result (AddsText (string_bytes text.old) (string_bytes text.new)
        (statement_lines statement.now)) }
{
    let rank = statement.rank();
    let line = AssemblyLine::State {
        slot: LabelOrNumber::Number(number(statement.slot())),
        constant: number(rank.constant),
        terms: terms_of(rank),
    };
    put(text, line)?;
    write_kinds(text, statement.kinds())?;
    write_stack(text, statement.stack())?;
    Ok(())
}

fn write_statements(text: &mut String, statements: &[Statement]) -> Result<(), AllocError>
    ensures says { OnOk result (AddsStatements (string_bytes text.old) (string_bytes text.new)
        statements.now) }
    ensures text { OnOk result (AddsText (string_bytes text.old) (string_bytes text.new)
        (flat_map statement_lines statements.now)) }
{
    for statement in statements {
        write_statement(text, statement)?;
    }
    Ok(())
}

/// The listing of an object with this code.
fn write_object(alloc: Global, object: &Object, code: &Code) -> Result<String, AllocError>
    requires { Spells object.now.code code.now }
    ensures spells { IfOk result (λ text. TextSpells (string_bytes text) object.now) }
    ensures lines { IfOk result (λ text. string_bytes text
        ≡ text_of (listing_lines object.now code.now)) }
{
    let mut text = write_head(alloc, object.hook(), object.entry_rank())?;
    write_code(&mut text, code)?;
    write_statements(&mut text, object.statements())?;
    Ok(text)
}

/// The error for code that doesn't decode.
fn told(fault: DecodeFault) -> ListError
    ensures { result ≡ as_list_error fault }
{
    match fault {
        DecodeFault::Memory => ListError::Memory,
        _ => ListError::Code,
    }
}

/// A text that spells the object: distances in place of labels, registers ascending, each longest
/// range of stack bytes in one line.
///
/// # Errors
/// `Code` if the object's code doesn't decode, `Memory` if it does and an allocation is refused.
pub fn listing(alloc: Global, object: &Object) -> Result<String, ListError>
    ensures spells { IfOk result (λ text. TextSpells (string_bytes text) object.now) }
    ensures lines { IfOk result (λ text. IsListing (string_bytes text) object.now) }
    ensures code { IfErr result (λ error. error ≡ ListError.Code
        → (code : List Slot) → Spells object.now.code code → ⊥) }
    ensures memory { IfErr result (λ error. error ≡ ListError.Memory
        → (code : List Slot) × Spells object.now.code code) }
{
    match decode(alloc, object.code()) {
        Ok(code) => match write_object(alloc, object, &code) {
            Ok(text) => Ok(text),
            Err(_) => Err(ListError::Memory),
        },
        Err(error) => Err(told(error.kind)),
    }
}
