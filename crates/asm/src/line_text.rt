//! The text of a line: its words between single spaces, and a line feed at its end.
ghost use Rattle.std.specs.Prelude.{◌≡◌, ◌≤◌, true, false, List, [], ◌∷◌, ◌++◌, codes, OnOk};
ghost use Rattle.std.specs.Prelude.{string_bytes};
ghost use Rattle.asm.specs.Forms.{Exactly, Number, Distance, Name, Definition, the_register};
ghost use Rattle.asm.specs.Forms.{the_operand, the_target, the_slot, the_term, the_terms};
ghost use Rattle.asm.specs.Forms.{the_range, the_content, form_of, is_label, is_data};
ghost use Rattle.asm.specs.Names.{is_name};
ghost use Rattle.asm.specs.Words.{Word, test_word, is_word};
ghost use Rattle.isa.specs.Shapes.{extension_width};
ghost use Rattle.asm.specs.LineWords.{part, parts, IsWhole, AreWhole};
ghost use Rattle.asm.specs.Written.{Adds, Starts, AreLines, IsNamed, line_text};
ghost use Rattle.asm.specs.declared.line.AssemblyLine.{AssemblyLine};
ghost use Rattle.asm.specs.declared.numeral.Numeral.{Numeral};

use crate::line::{AssemblyLine, LabelOrNumber, Operand, Range, RegisterContent, Term, Terms};
use crate::numeral::Numeral;
use crate::word::{
    extension_word, hook_word, load_word, operation_word, register_word, reorder_word, store_word,
    test_word,
};
use isa::{
    ByteOrder, Extension, Hook, LoadSize, Operation, Register, StoreSize, SwapWidth, Test, Width,
};
use std::alloc::AllocError;
use std::fmt::Write;

/// A word of a line, as the form of the line has it.
#[derive(Clone, Copy)]
enum LineWord<'a> {
    Exactly(&'a str),
    Number(Numeral),
    Distance(Numeral),
    Name(&'a str),
}

/// The first word of the line.
fn first(text: &mut String, word: &str) -> Result<(), AllocError>
    requires { is_word word.now ≡ true }
    ensures { OnOk result (Starts (string_bytes text.old) (string_bytes text.new) (Exactly word.now
        ∷ [])) }
{
    text.push_str(word)
}

/// Another word of the line.
fn next(text: &mut String, word: &str) -> Result<(), AllocError>
    requires { is_word word.now ≡ true }
    ensures { OnOk result (Adds (string_bytes text.old) (string_bytes text.new) (Exactly word.now
        ∷ [])) }
{
    text.push_str(" ")?;
    text.push_str(word)
}

fn next_name(text: &mut String, name: &str) -> Result<(), AllocError>
    requires { is_name name.now ≡ true }
    ensures { OnOk result (Adds (string_bytes text.old) (string_bytes text.new) (Name name.now
        ∷ [])) }
{
    text.push_str(" ")?;
    text.push_str(name)
}

fn next_register(text: &mut String, width: Width, register: Register) -> Result<(), AllocError>
    ensures { OnOk result (Adds (string_bytes text.old) (string_bytes text.new)
        (the_register width register ∷ [])) }
{
    next(text, register_word(width, register))
}

/// A number of at least 0: its digits.
fn next_natural(text: &mut String, n: u64) -> Result<(), AllocError>
    ensures { OnOk result (Adds (string_bytes text.old) (string_bytes text.new)
        (Number (Numeral.Natural n) ∷ [])) }
{
    write!(text, " {n}")
}

/// A distance of at least 0: a `+` and its digits.
fn next_forward(text: &mut String, n: u64) -> Result<(), AllocError>
    ensures { OnOk result (Adds (string_bytes text.old) (string_bytes text.new)
        (Distance (Numeral.Natural n) ∷ [])) }
{
    write!(text, " +{n}")
}

/// A number or a distance below 0, -1 minus this: a `-` and digits.
fn next_negative(text: &mut String, n: u32) -> Result<(), AllocError>
    ensures number { OnOk result (Adds (string_bytes text.old) (string_bytes text.new)
        (Number (Numeral.Negative n) ∷ [])) }
    ensures distance { OnOk result (Adds (string_bytes text.old) (string_bytes text.new)
        (Distance (Numeral.Negative n) ∷ [])) }
{
    let n = u64::from(n) + 1;
    write!(text, " -{n}")
}

/// A number: digits, after a `-` if it is below 0.
fn next_number(text: &mut String, number: Numeral) -> Result<(), AllocError>
    ensures { OnOk result (Adds (string_bytes text.old) (string_bytes text.new) (Number number
        ∷ [])) }
{
    match number {
        Numeral::Natural(n) => next_natural(text, n),
        Numeral::Negative(n) => next_negative(text, n),
        Numeral::Huge => text.push_str(" 18446744073709551616"),
    }
}

/// A distance: its sign and digits.
fn next_distance(text: &mut String, number: Numeral) -> Result<(), AllocError>
    ensures { OnOk result (Adds (string_bytes text.old) (string_bytes text.new) (Distance number
        ∷ [])) }
{
    match number {
        Numeral::Natural(n) => next_forward(text, n),
        Numeral::Negative(n) => next_negative(text, n),
        Numeral::Huge => text.push_str(" +18446744073709551616"),
    }
}

/// Another word of the line.
fn next_word(text: &mut String, word: LineWord<'_>) -> Result<(), AllocError>
    requires { IsWhole word }
    ensures { OnOk result (Adds (string_bytes text.old) (string_bytes text.new)
        (part word.entry ∷ [])) }
{
    match word {
        LineWord::Exactly(word) => next(text, word),
        LineWord::Number(number) => next_number(text, number),
        LineWord::Distance(number) => next_distance(text, number),
        LineWord::Name(name) => next_name(text, name),
    }
}

/// More words of the line.
fn next_words(text: &mut String, words: &[LineWord<'_>]) -> Result<(), AllocError>
    requires { AreWhole words.now }
    ensures { OnOk result (Adds (string_bytes text.old) (string_bytes text.new) (parts words.now)) }
{
    for word in words {
        next_word(text, *word)?;
    }
    Ok(())
}

/// The first words of the line.
fn start(text: &mut String, word: &str, others: &[LineWord<'_>]) -> Result<(), AllocError>
    requires word { is_word word.now ≡ true }
    requires others { AreWhole others.now }
    ensures { OnOk result (Starts (string_bytes text.old) (string_bytes text.new) (Exactly word.now
        ∷ parts others.now)) }
{
    first(text, word)?;
    next_words(text, others)
}

/// A register of this width, or a number.
fn operand_word(width: Width, operand: Operand) -> LineWord<'static>
    ensures value { part result ≡ the_operand width operand }
    ensures whole { IsWhole result }
{
    match operand {
        Operand::Register(register) => LineWord::Exactly(register_word(width, register)),
        Operand::Number(number) => LineWord::Number(number),
    }
}

/// A distance, or the name of a label.
fn target_word(target: LabelOrNumber, name: &str) -> LineWord<'_>
    requires { is_label target ≡ true → is_name name.now ≡ true }
    ensures value { part result ≡ the_target target name.now }
    ensures whole { IsWhole result }
{
    match target {
        LabelOrNumber::Number(number) => LineWord::Distance(number),
        LabelOrNumber::Label => LineWord::Name(name),
    }
}

/// The number of a slot, or the name of a label.
fn slot_word(slot: LabelOrNumber, name: &str) -> LineWord<'_>
    requires { is_label slot ≡ true → is_name name.now ≡ true }
    ensures value { part result ≡ the_slot slot name.now }
    ensures whole { IsWhole result }
{
    match slot {
        LabelOrNumber::Number(number) => LineWord::Number(number),
        LabelOrNumber::Label => LineWord::Name(name),
    }
}

fn next_term(text: &mut String, term: Term) -> Result<(), AllocError>
    ensures { OnOk result (Adds (string_bytes text.old) (string_bytes text.new)
        (the_term term [])) }
{
    next_words(
        text,
        &[
            LineWord::Exactly(register_word(Width::Bits64, term.register)),
            LineWord::Exactly("*"),
            LineWord::Number(term.coefficient),
        ],
    )
}

fn next_terms(text: &mut String, terms: Terms) -> Result<(), AllocError>
    ensures { OnOk result (Adds (string_bytes text.old) (string_bytes text.new) (the_terms terms)) }
{
    match terms {
        Terms::None => Ok(()),
        Terms::One(term) => next_term(text, term),
        Terms::Two(first, second) => {
            next_term(text, first)?;
            next_term(text, second)
        }
    }
}

fn next_range(text: &mut String, range: Range) -> Result<(), AllocError>
    ensures { OnOk result (Adds (string_bytes text.old) (string_bytes text.new) (the_range range)) }
{
    next_words(
        text,
        &[
            LineWord::Number(range.low),
            LineWord::Number(range.high),
            LineWord::Number(range.mask),
            LineWord::Number(range.value),
        ],
    )
}

/// A keyword and a number.
fn next_pair(text: &mut String, keyword: &str, number: Numeral) -> Result<(), AllocError>
    requires { is_word keyword.now ≡ true }
    ensures { OnOk result (Adds (string_bytes text.old) (string_bytes text.new)
        (Exactly keyword.now ∷ Number number ∷ [])) }
{
    next_words(
        text,
        &[LineWord::Exactly(keyword), LineWord::Number(number)],
    )
}

fn next_content(text: &mut String, content: RegisterContent) -> Result<(), AllocError>
    ensures { OnOk result (Adds (string_bytes text.old) (string_bytes text.new)
        (the_content content)) }
{
    match content {
        RegisterContent::Number(range) => {
            next(text, "number")?;
            next_range(text, range)
        }
        RegisterContent::Context(offset) => next_pair(text, "context", offset),
        RegisterContent::Stack(offset) => next_pair(text, "stack", offset),
        RegisterContent::Map { map, offset } => {
            next_pair(text, "map", map)?;
            next_range(text, offset)
        }
    }
}

/// The width of the registers of a sign-extending move.
fn extension_width(extension: Extension) -> Width
    ensures { result ≡ extension_width extension }
{
    match extension {
        Extension::Byte(width) | Extension::Half(width) => width,
        Extension::Word => Width::Bits64,
    }
}

/// A line that consists of a keyword and a number.
fn keyword_number(text: &mut String, keyword: &str, number: Numeral) -> Result<(), AllocError>
    requires { is_word keyword.now ≡ true }
    ensures { OnOk result (Starts (string_bytes text.old) (string_bytes text.new)
        (Exactly keyword.now ∷ Number number ∷ [])) }
{
    start(text, keyword, &[LineWord::Number(number)])
}

fn write_hook(text: &mut String, hook: Hook) -> Result<(), AllocError>
    ensures { OnOk result (Starts (string_bytes text.old) (string_bytes text.new)
        (form_of (AssemblyLine.Hook hook) [])) }
{
    start(text, "hook", &[LineWord::Exactly(hook_word(hook))])
}

/// A label: its name and a colon.
fn write_label(text: &mut String, name: &str) -> Result<(), AllocError>
    requires { is_name name.now ≡ true }
    ensures { OnOk result (Starts (string_bytes text.old) (string_bytes text.new)
        (Definition name.now ∷ [])) }
{
    text.push_str(name)?;
    text.push_str(":")
}

fn write_arithmetic(
    text: &mut String,
    width: Width,
    operation: Operation,
    target: Register,
    source: Operand,
) -> Result<(), AllocError>
    ensures { OnOk result (Starts (string_bytes text.old) (string_bytes text.new)
        (form_of (AssemblyLine.Arithmetic width operation target source) [])) }
{
    start(
        text,
        register_word(width, target),
        &[
            LineWord::Exactly(operation_word(operation)),
            operand_word(width, source),
        ],
    )
}

fn write_negate(text: &mut String, width: Width, target: Register) -> Result<(), AllocError>
    ensures { OnOk result (Starts (string_bytes text.old) (string_bytes text.new)
        (form_of (AssemblyLine.Negate width target) [])) }
{
    start(
        text,
        register_word(width, target),
        &[LineWord::Exactly("="), LineWord::Exactly("neg")],
    )
}

fn write_extend(
    text: &mut String,
    extension: Extension,
    target: Register,
    source: Register,
) -> Result<(), AllocError>
    ensures { OnOk result (Starts (string_bytes text.old) (string_bytes text.new)
        (form_of (AssemblyLine.SignExtend extension target source) [])) }
{
    let width = extension_width(extension);
    start(
        text,
        register_word(width, target),
        &[
            LineWord::Exactly("="),
            LineWord::Exactly(extension_word(extension)),
            LineWord::Exactly(register_word(width, source)),
        ],
    )
}

fn write_reorder(
    text: &mut String,
    order: ByteOrder,
    width: SwapWidth,
    target: Register,
) -> Result<(), AllocError>
    ensures { OnOk result (Starts (string_bytes text.old) (string_bytes text.new)
        (form_of (AssemblyLine.Reorder order width target) [])) }
{
    start(
        text,
        register_word(Width::Bits64, target),
        &[
            LineWord::Exactly("="),
            LineWord::Exactly(reorder_word(order, width)),
        ],
    )
}

/// An unconditional jump, by its keyword.
fn write_jump(
    text: &mut String,
    keyword: &str,
    target: LabelOrNumber,
    name: &str,
) -> Result<(), AllocError>
    requires keyword { is_word keyword.now ≡ true }
    requires named { is_label target ≡ true → is_name name.now ≡ true }
    ensures { OnOk result (Starts (string_bytes text.old) (string_bytes text.new)
        (Exactly keyword.now ∷ the_target target name.now ∷ [])) }
{
    start(text, keyword, &[target_word(target, name)])
}

fn write_branch(
    text: &mut String,
    width: Width,
    test: Test,
    left: Register,
    right: Operand,
    target: LineWord<'_>,
) -> Result<(), AllocError>
    requires { IsWhole target }
    ensures { OnOk result (Starts (string_bytes text.old) (string_bytes text.new)
        (Exactly (codes "if") ∷ the_register width left ∷ Exactly (test_word test)
        ∷ the_operand width right ∷ Exactly (codes "goto") ∷ part target.entry ∷ [])) }
{
    start(
        text,
        "if",
        &[
            LineWord::Exactly(register_word(width, left)),
            LineWord::Exactly(test_word(test)),
            operand_word(width, right),
            LineWord::Exactly("goto"),
            target,
        ],
    )
}

fn write_load(
    text: &mut String,
    size: LoadSize,
    target: Register,
    base: Register,
    offset: Numeral,
) -> Result<(), AllocError>
    ensures { OnOk result (Starts (string_bytes text.old) (string_bytes text.new)
        (form_of (AssemblyLine.Load size target base offset) [])) }
{
    start(
        text,
        register_word(Width::Bits64, target),
        &[
            LineWord::Exactly("="),
            LineWord::Exactly(load_word(size)),
            LineWord::Exactly(register_word(Width::Bits64, base)),
            LineWord::Number(offset),
        ],
    )
}

fn write_store(
    text: &mut String,
    size: StoreSize,
    base: Register,
    offset: Numeral,
    source: Operand,
) -> Result<(), AllocError>
    ensures { OnOk result (Starts (string_bytes text.old) (string_bytes text.new)
        (form_of (AssemblyLine.Store size base offset source) [])) }
{
    start(
        text,
        store_word(size),
        &[
            LineWord::Exactly(register_word(Width::Bits64, base)),
            LineWord::Number(offset),
            LineWord::Exactly("="),
            operand_word(Width::Bits64, source),
        ],
    )
}

fn write_load_number(text: &mut String, target: Register, number: Numeral) -> Result<(), AllocError>
    ensures { OnOk result (Starts (string_bytes text.old) (string_bytes text.new)
        (form_of (AssemblyLine.LoadNumber target number) [])) }
{
    start(
        text,
        register_word(Width::Bits64, target),
        &[
            LineWord::Exactly("="),
            LineWord::Exactly("wide"),
            LineWord::Number(number),
        ],
    )
}

fn write_load_map(
    text: &mut String,
    target: Register,
    map: Numeral,
    offset: Numeral,
) -> Result<(), AllocError>
    ensures { OnOk result (Starts (string_bytes text.old) (string_bytes text.new)
        (form_of (AssemblyLine.LoadMap target map offset) [])) }
{
    start(
        text,
        register_word(Width::Bits64, target),
        &[
            LineWord::Exactly("="),
            LineWord::Exactly("map"),
            LineWord::Number(map),
            LineWord::Number(offset),
        ],
    )
}

fn write_state(
    text: &mut String,
    slot: LabelOrNumber,
    constant: Numeral,
    terms: Terms,
    name: &str,
) -> Result<(), AllocError>
    requires { is_label slot ≡ true → is_name name.now ≡ true }
    ensures { OnOk result (Starts (string_bytes text.old) (string_bytes text.new)
        (form_of (AssemblyLine.State slot constant terms) name.now)) }
{
    start(
        text,
        "state",
        &[
            slot_word(slot, name),
            LineWord::Exactly("rank"),
            LineWord::Number(constant),
        ],
    )?;
    next_terms(text, terms)
}

fn write_with(
    text: &mut String,
    register: Register,
    content: RegisterContent,
) -> Result<(), AllocError>
    ensures { OnOk result (Starts (string_bytes text.old) (string_bytes text.new)
        (form_of (AssemblyLine.With register content) [])) }
{
    start(
        text,
        "with",
        &[LineWord::Exactly(register_word(Width::Bits64, register))],
    )?;
    next_content(text, content)
}

fn write_bytes(text: &mut String, first: Numeral, last: Numeral) -> Result<(), AllocError>
    ensures { OnOk result (Starts (string_bytes text.old) (string_bytes text.new)
        (form_of (AssemblyLine.Bytes first last) [])) }
{
    start(
        text,
        "bytes",
        &[LineWord::Number(first), LineWord::Number(last)],
    )
}

/// The words of an assignment to a register, of a load or of a store.
fn write_data(text: &mut String, line: AssemblyLine) -> Result<(), AllocError>
    ensures { OnOk result (is_data line ≡ true
        → Starts (string_bytes text.old) (string_bytes text.new) (form_of line [])) }
{
    match line {
        AssemblyLine::Arithmetic {
            width,
            operation,
            target,
            source,
        } => write_arithmetic(text, width, operation, target, source),
        AssemblyLine::Negate { width, target } => write_negate(text, width, target),
        AssemblyLine::SignExtend {
            extension,
            target,
            source,
        } => write_extend(text, extension, target, source),
        AssemblyLine::Reorder {
            order,
            width,
            target,
        } => write_reorder(text, order, width, target),
        AssemblyLine::Load {
            size,
            target,
            base,
            offset,
        } => write_load(text, size, target, base, offset),
        AssemblyLine::Store {
            size,
            base,
            offset,
            source,
        } => write_store(text, size, base, offset, source),
        AssemblyLine::LoadNumber { target, number } => write_load_number(text, target, number),
        AssemblyLine::LoadMap {
            target,
            map,
            offset,
        } => write_load_map(text, target, map, offset),
        _ => Ok(()),
    }
}

/// The words of a line, with this name if it defines or uses a label.
fn write_words(text: &mut String, line: AssemblyLine, name: &str) -> Result<(), AllocError>
    requires { IsNamed line name.now }
    ensures { OnOk result (Starts (string_bytes text.old) (string_bytes text.new)
        (form_of line name.now)) }
{
    match line {
        AssemblyLine::Empty => Ok(()),
        AssemblyLine::Hook(hook) => write_hook(text, hook),
        AssemblyLine::Rank(rank) => keyword_number(text, "rank", rank),
        AssemblyLine::Label => write_label(text, name),
        AssemblyLine::Jump(target) => write_jump(text, "goto", target, name),
        AssemblyLine::LongJump(target) => write_jump(text, "gotol", target, name),
        AssemblyLine::Branch {
            width,
            test,
            left,
            right,
            target,
        } => write_branch(text, width, test, left, right, target_word(target, name)),
        AssemblyLine::Call(helper) => keyword_number(text, "call", helper),
        AssemblyLine::Exit => first(text, "exit"),
        AssemblyLine::State {
            slot,
            constant,
            terms,
        } => write_state(text, slot, constant, terms, name),
        AssemblyLine::With { register, content } => write_with(text, register, content),
        AssemblyLine::Bytes { start, end } => write_bytes(text, start, end),
        _ => write_data(text, line),
    }
}

/// Appends a line and a line feed to the text. `name` is that of the label that the line defines or
/// uses; it is empty if there is none.
///
/// `read_lines` finds in the new text what it found in the old one, if that has whole lines, and
/// then this line.
///
/// # Errors
/// `AllocError` if an allocation is refused; the caller then discards the text.
pub fn write_line(text: &mut String, line: AssemblyLine, name: &str) -> Result<(), AllocError>
    requires { IsNamed line name.now }
    ensures written { OnOk result (string_bytes text.new ≡ string_bytes text.old
        ++ line_text line name.now) }
    ensures reads_back { OnOk result ((items : List (AssemblyLine × Word))
        → AreLines (string_bytes text.old) items → AreLines (string_bytes text.new) (items
        ++ (line, name.now) ∷ [])) }
{
    // For the prover alone, by what the call ensures.
    line.prove_ranges();
    write_words(text, line, name)?;
    text.push_str("\n")
}
