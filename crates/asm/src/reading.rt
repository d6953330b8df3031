//! What the words of a line spell.
ghost use Rattle.std.specs.Prelude.{◌≡◌, ◌≤◌, false, List, [], ◌∷◌, codes, ◌++◌, length};
ghost use Rattle.std.specs.Prelude.{option_map, None, IfSome, IfOk, OnOk};
ghost use Rattle.asm.specs.Forms.{Spells, Matches, Fits, Name, the_operand, IsOperand};
ghost use Rattle.asm.specs.Forms.{the_target, the_slot, is_label, the_terms, AreTerms};
ghost use Rattle.asm.specs.Forms.{the_range, the_term};
ghost use Rattle.asm.specs.Words.{Word, register_word};
ghost use Rattle.asm.specs.LineViews.{item_view, items, target_view, views, SpellsItem};
ghost use Rattle.asm.specs.LineViews.{SpellsPlain};
ghost use Rattle.asm.specs.Reading.{register_at, operand_at, name_at, target_at, slot_at};
ghost use Rattle.asm.specs.Reading.{label_at, one, two, unnamed};
ghost use Rattle.asm.specs.Reading.{negation_or_reordering, assigned_line};
ghost use Rattle.asm.specs.Reading.{arithmetic_or_assignment};
ghost use Rattle.asm.specs.Reading.{stack_range, three, widening_line};
ghost use Rattle.asm.specs.Reading.{state_of, offset_of, four};
ghost use Rattle.asm.specs.Reading.{load_line, store_line, five};
ghost use Rattle.asm.specs.Reading.{six, range_of, term_of, numbers_of};
ghost use Rattle.asm.specs.Reading.{seven, map_value_of, eight, terms_of, ten, line_of};
ghost use Rattle.asm.specs.Text.{words_in, lines_in, AddsReading, Reads, Readings};
ghost use Rattle.asm.specs.declared.line.AssemblyLine.{AssemblyLine};

use crate::line::{
    AssemblyLine, Item, LabelOrNumber, Operand, Range, RegisterContent, Term, Terms,
};
use crate::name::is_name;
use crate::numeral::{read_distance, read_number};
use crate::word::{
    extension_of, hook_of, load_of, operation_of, register_of, reorder_of, store_of, test_of,
};
use isa::{Operation, Register, Width};
use std::alloc::{AllocError, Global};

/// The register of this width that the word names.
fn register_at(width: Width, word: &str) -> Option<Register>
    ensures value { result ≡ register_at width word.now }
    ensures found { IfSome result (λ r. (word.now ≡ register_word (width, r)) × (r ≤ 10)) }
{
    let (found, register) = register_of(word)?;
    match (width, found) {
        (Width::Bits64, Width::Bits64) => Some(register),
        (Width::Bits32, Width::Bits32) => Some(register),
        _ => None,
    }
}

/// A register of this width, or a number.
fn operand_at(width: Width, word: &str) -> Option<Operand>
    ensures value { result ≡ operand_at width word.now }
    ensures found { IfSome result (λ o. Matches (the_operand width o) word.now × IsOperand o) }
{
    match register_at(width, word) {
        Some(register) => Some(Operand::Register(register)),
        None => {
            let number = read_number(word)?;
            Some(Operand::Number(number))
        }
    }
}

fn name_at(word: &str) -> Option<(LabelOrNumber, &str)>
    ensures value { option_map target_view result ≡ name_at word.now }
    ensures found { IfSome result (λ t. Matches (Name t.1.now) word.now
        × (t.0 ≡ LabelOrNumber.Label)) }
{
    if is_name(word) {
        Some((LabelOrNumber::Label, word))
    } else {
        None
    }
}

/// A distance, or the name of a label.
fn target_at(word: &str) -> Option<(LabelOrNumber, &str)>
    ensures value { option_map target_view result ≡ target_at word.now }
    ensures found { IfSome result (λ t. Matches (the_target t.0 t.1.now) word.now
        × (is_label t.0 ≡ false → t.1.now ≡ [])) }
{
    match read_distance(word) {
        Some(number) => Some((LabelOrNumber::Number(number), "")),
        None => name_at(word),
    }
}

/// The number of a slot, or the name of a label.
fn slot_at(word: &str) -> Option<(LabelOrNumber, &str)>
    ensures value { option_map target_view result ≡ slot_at word.now }
    ensures found { IfSome result (λ t. Matches (the_slot t.0 t.1.now) word.now
        × (is_label t.0 ≡ false → t.1.now ≡ [])) }
{
    match read_number(word) {
        Some(number) => Some((LabelOrNumber::Number(number), "")),
        None => name_at(word),
    }
}

/// A line that neither defines nor uses a label, if there is one.
fn unnamed(line: Option<AssemblyLine>) -> Option<Item<'static>>
    ensures value { option_map item_view result ≡ unnamed line }
    ensures found { (words : List Word) → IfSome line (SpellsPlain words)
        → IfSome result (SpellsItem words) }
{
    match line {
        Some(line) => Some(Item::plain(line)),
        None => None,
    }
}

/// A label: a name with a colon at its end.
fn label_at(word: &str) -> Option<Item<'_>>
    ensures value { option_map item_view result ≡ label_at word.now }
    ensures found { IfSome result (SpellsItem (word.now ∷ [])) }
{
    let name = word.strip_suffix(':')?;
    if !is_name(name) {
        return None;
    }
    Some(Item {
        line: AssemblyLine::Label,
        name,
    })
}

fn one(a: &str) -> Option<Item<'_>>
    ensures value { option_map item_view result ≡ one a.now }
    ensures found { IfSome result (SpellsItem (a.now ∷ [])) }
{
    if a == "exit" {
        return Some(Item::plain(AssemblyLine::Exit));
    }
    label_at(a)
}

fn two<'a>(a: &str, b: &'a str) -> Option<Item<'a>>
    ensures value { option_map item_view result ≡ two a.now b.now }
    ensures found { IfSome result (SpellsItem (a.now ∷ b.now ∷ [])) }
{
    match a {
        "hook" => {
            let hook = hook_of(b)?;
            Some(Item::plain(AssemblyLine::Hook(hook)))
        }
        "rank" => {
            let rank = read_number(b)?;
            Some(Item::plain(AssemblyLine::Rank(rank)))
        }
        "call" => {
            let helper = read_number(b)?;
            Some(Item::plain(AssemblyLine::Call(helper)))
        }
        "goto" => {
            let (target, name) = target_at(b)?;
            Some(Item {
                line: AssemblyLine::Jump(target),
                name,
            })
        }
        "gotol" => {
            let (target, name) = target_at(b)?;
            Some(Item {
                line: AssemblyLine::LongJump(target),
                name,
            })
        }
        _ => None,
    }
}

/// The other right sides of `=`: a negation, or a reordering of bytes.
fn computed(width: Width, target: Register, c: &str) -> Option<AssemblyLine>
    requires { target ≤ 10 }
    ensures value { result ≡ negation_or_reordering width target c.now }
    ensures found { IfSome result (SpellsPlain (register_word (width, target) ∷ codes "=" ∷ c.now
        ∷ [])) }
{
    if c == "neg" {
        return Some(AssemblyLine::Negate { width, target });
    }
    match width {
        Width::Bits64 => {
            let (order, width) = reorder_of(c)?;
            Some(AssemblyLine::Reorder {
                order,
                width,
                target,
            })
        }
        Width::Bits32 => None,
    }
}

fn assignment(width: Width, target: Register, b: &str, c: &str) -> Option<AssemblyLine>
    requires { target ≤ 10 }
    ensures value { result ≡ arithmetic_or_assignment (width, target) b.now c.now }
    ensures found { IfSome result (SpellsPlain (register_word (width, target) ∷ b.now ∷ c.now
        ∷ [])) }
{
    let operation = operation_of(b)?;
    if let Some(source) = operand_at(width, c) {
        return Some(AssemblyLine::Arithmetic {
            width,
            operation,
            target,
            source,
        });
    }
    match operation {
        Operation::Move => computed(width, target, c),
        _ => None,
    }
}

fn stack_range(a: &str, b: &str, c: &str) -> Option<AssemblyLine>
    ensures value { result ≡ stack_range a.now b.now c.now }
    ensures found { IfSome result (SpellsPlain (a.now ∷ b.now ∷ c.now ∷ [])) }
{
    if a != "bytes" {
        return None;
    }
    let start = read_number(b)?;
    let end = read_number(c)?;
    Some(AssemblyLine::Bytes { start, end })
}

fn three<'a>(a: &str, b: &str, c: &'a str) -> Option<Item<'a>>
    ensures value { option_map item_view result ≡ three a.now b.now c.now }
    ensures found { IfSome result (SpellsItem (a.now ∷ b.now ∷ c.now ∷ [])) }
{
    if let Some((width, target)) = register_of(a) {
        if let Some(line) = assignment(width, target, b, c) {
            return Some(Item::plain(line));
        }
    }
    unnamed(stack_range(a, b, c))
}

/// An assignment whose right side is two words: a wide number, or a register that is sign-extended.
fn widened(width: Width, target: Register, c: &str, d: &str) -> Option<AssemblyLine>
    requires { target ≤ 10 }
    ensures value { result ≡ widening_line (width, target) c.now d.now }
    ensures found { IfSome result (SpellsPlain (register_word (width, target) ∷ codes "=" ∷ c.now
        ∷ d.now ∷ [])) }
{
    if c == "wide" {
        return match width {
            Width::Bits64 => {
                let number = read_number(d)?;
                Some(AssemblyLine::LoadNumber { target, number })
            }
            Width::Bits32 => None,
        };
    }
    let extension = extension_of(width, c)?;
    let source = register_at(width, d)?;
    Some(AssemblyLine::SignExtend {
        extension,
        target,
        source,
    })
}

/// A statement with these terms.
fn state_of<'a>(a: &str, b: &'a str, c: &str, d: &str, terms: Terms) -> Option<Item<'a>>
    ensures value { option_map item_view result ≡ state_of a.now b.now c.now d.now terms }
    ensures found { IfSome result (λ item. (rest : List Word) → Fits rest (the_terms terms)
        → AreTerms terms → SpellsItem (a.now ∷ b.now ∷ c.now ∷ d.now ∷ rest) item) }
{
    if a != "state" {
        return None;
    }
    if c != "rank" {
        return None;
    }
    let (slot, name) = slot_at(b)?;
    let constant = read_number(d)?;
    Some(Item {
        line: AssemblyLine::State {
            slot,
            constant,
            terms,
        },
        name,
    })
}

/// A statement that a register is a pointer with this one offset.
fn offset_of(a: &str, b: &str, c: &str, d: &str) -> Option<AssemblyLine>
    ensures value { result ≡ offset_of a.now b.now c.now d.now }
    ensures found { IfSome result (SpellsPlain (a.now ∷ b.now ∷ c.now ∷ d.now ∷ [])) }
{
    if a != "with" {
        return None;
    }
    let register = register_at(Width::Bits64, b)?;
    let offset = read_number(d)?;
    match c {
        "context" => Some(AssemblyLine::With {
            register,
            content: RegisterContent::Context(offset),
        }),
        "stack" => Some(AssemblyLine::With {
            register,
            content: RegisterContent::Stack(offset),
        }),
        _ => None,
    }
}

fn four<'a>(a: &str, b: &'a str, c: &str, d: &str) -> Option<Item<'a>>
    ensures value { option_map item_view result ≡ four a.now b.now c.now d.now }
    ensures found { IfSome result (SpellsItem (a.now ∷ b.now ∷ c.now ∷ d.now ∷ [])) }
{
    if b == "=" {
        let (width, target) = register_of(a)?;
        return unnamed(widened(width, target, c, d));
    }
    if a == "state" {
        return state_of(a, b, c, d, Terms::None);
    }
    unnamed(offset_of(a, b, c, d))
}

fn loaded(target: Register, c: &str, d: &str, e: &str) -> Option<AssemblyLine>
    requires { target ≤ 10 }
    ensures value { result ≡ load_line target c.now d.now e.now }
    ensures found { IfSome result (SpellsPlain (register_word (Width.Bits64, target) ∷ codes "="
        ∷ c.now ∷ d.now ∷ e.now ∷ [])) }
{
    if c == "map" {
        let map = read_number(d)?;
        let offset = read_number(e)?;
        return Some(AssemblyLine::LoadMap {
            target,
            map,
            offset,
        });
    }
    let size = load_of(c)?;
    let base = register_at(Width::Bits64, d)?;
    let offset = read_number(e)?;
    Some(AssemblyLine::Load {
        size,
        target,
        base,
        offset,
    })
}

fn stored(a: &str, b: &str, c: &str, e: &str) -> Option<AssemblyLine>
    ensures value { result ≡ store_line a.now b.now c.now e.now }
    ensures found { IfSome result (SpellsPlain (a.now ∷ b.now ∷ c.now ∷ codes "=" ∷ e.now ∷ [])) }
{
    let size = store_of(a)?;
    let base = register_at(Width::Bits64, b)?;
    let offset = read_number(c)?;
    let source = operand_at(Width::Bits64, e)?;
    Some(AssemblyLine::Store {
        size,
        base,
        offset,
        source,
    })
}

fn five<'a>(a: &str, b: &str, c: &str, d: &str, e: &'a str) -> Option<Item<'a>>
    ensures value { option_map item_view result ≡ five a.now b.now c.now d.now e.now }
    ensures found { IfSome result (SpellsItem (a.now ∷ b.now ∷ c.now ∷ d.now ∷ e.now ∷ [])) }
{
    if b == "=" {
        let target = register_at(Width::Bits64, a)?;
        return unnamed(loaded(target, c, d, e));
    }
    if d != "=" {
        return None;
    }
    unnamed(stored(a, b, c, e))
}

/// A conditional jump, by the words beside `if` and `goto`.
fn branch_of<'a>(b: &str, c: &str, d: &str, f: &'a str) -> Option<Item<'a>>
    ensures value { option_map item_view result ≡ six (codes "if") b.now c.now d.now (codes "goto")
        f.now }
    ensures found { IfSome result (SpellsItem (codes "if" ∷ b.now ∷ c.now ∷ d.now ∷ codes "goto"
        ∷ f.now ∷ [])) }
{
    let (width, left) = register_of(b)?;
    let test = test_of(c)?;
    let right = operand_at(width, d)?;
    let (target, name) = target_at(f)?;
    Some(Item {
        line: AssemblyLine::Branch {
            width,
            test,
            left,
            right,
            target,
        },
        name,
    })
}

fn six<'a>(a: &str, b: &str, c: &str, d: &str, e: &str, f: &'a str) -> Option<Item<'a>>
    ensures value { option_map item_view result ≡ six a.now b.now c.now d.now e.now f.now }
    ensures found { IfSome result (SpellsItem (a.now ∷ b.now ∷ c.now ∷ d.now ∷ e.now ∷ f.now
        ∷ [])) }
{
    if a != "if" {
        return None;
    }
    if e != "goto" {
        return None;
    }
    branch_of(b, c, d, f)
}

fn range_of(a: &str, b: &str, c: &str, d: &str) -> Option<Range>
    ensures value { result ≡ range_of a.now b.now c.now d.now }
    ensures found { IfSome result (λ range. Fits (a.now ∷ b.now ∷ c.now ∷ d.now ∷ [])
        (the_range range)) }
{
    let low = read_number(a)?;
    let high = read_number(b)?;
    let mask = read_number(c)?;
    let value = read_number(d)?;
    Some(Range {
        low,
        high,
        mask,
        value,
    })
}

fn term_of(a: &str, b: &str, c: &str) -> Option<Term>
    ensures value { result ≡ term_of a.now b.now c.now }
    ensures found { IfSome result (λ term. Fits (a.now ∷ b.now ∷ c.now ∷ []) (the_term term [])
        × (term.register ≤ 10)) }
{
    if b != "*" {
        return None;
    }
    let register = register_at(Width::Bits64, a)?;
    let coefficient = read_number(c)?;
    Some(Term {
        register,
        coefficient,
    })
}

/// A statement that a register holds one of some numbers.
fn numbers_of(b: &str, c: &str, d: &str, e: &str, f: &str, g: &str) -> Option<AssemblyLine>
    ensures value { result ≡ numbers_of b.now c.now d.now e.now f.now g.now }
    ensures found { IfSome result (SpellsPlain (codes "with" ∷ b.now ∷ c.now ∷ d.now ∷ e.now ∷ f.now
        ∷ g.now ∷ [])) }
{
    if c != "number" {
        return None;
    }
    let register = register_at(Width::Bits64, b)?;
    let range = range_of(d, e, f, g)?;
    Some(AssemblyLine::With {
        register,
        content: RegisterContent::Number(range),
    })
}

fn seven<'a>(a: &str, b: &'a str, c: &str, d: &str, e: &str, f: &str, g: &str) -> Option<Item<'a>>
    ensures value { option_map item_view result ≡ seven a.now b.now c.now d.now e.now f.now g.now }
    ensures found { IfSome result (SpellsItem (a.now ∷ b.now ∷ c.now ∷ d.now ∷ e.now ∷ f.now ∷ g.now
        ∷ [])) }
{
    if a == "with" {
        return unnamed(numbers_of(b, c, d, e, f, g));
    }
    let term = term_of(e, f, g)?;
    state_of(a, b, c, d, Terms::One(term))
}

/// A statement that a register is a pointer into a map.
fn map_value_of(
    b: &str,
    c: &str,
    d: &str,
    e: &str,
    f: &str,
    g: &str,
    h: &str,
) -> Option<AssemblyLine>
    ensures value { result ≡ map_value_of b.now c.now d.now e.now f.now g.now h.now }
    ensures found { IfSome result (SpellsPlain (codes "with" ∷ b.now ∷ c.now ∷ d.now ∷ e.now ∷ f.now
        ∷ g.now ∷ h.now ∷ [])) }
{
    if c != "map" {
        return None;
    }
    let register = register_at(Width::Bits64, b)?;
    let map = read_number(d)?;
    let offset = range_of(e, f, g, h)?;
    Some(AssemblyLine::With {
        register,
        content: RegisterContent::Map { map, offset },
    })
}

fn terms_of(e: &str, f: &str, g: &str, h: &str, i: &str, j: &str) -> Option<Terms>
    ensures value { result ≡ terms_of e.now f.now g.now h.now i.now j.now }
    ensures found { IfSome result (λ found. Fits (e.now ∷ f.now ∷ g.now ∷ h.now ∷ i.now ∷ j.now
        ∷ []) (the_terms found) × AreTerms found) }
{
    let first = term_of(e, f, g)?;
    let second = term_of(h, i, j)?;
    Some(Terms::Two(first, second))
}

#[allow(clippy::too_many_arguments)]
fn eight<'a>(
    a: &str,
    b: &'a str,
    c: &str,
    d: &str,
    e: &str,
    f: &str,
    g: &str,
    h: &str,
) -> Option<Item<'a>>
    ensures value { option_map item_view result ≡ eight a.now b.now c.now d.now e.now f.now g.now
        h.now }
    ensures found { IfSome result (SpellsItem (a.now ∷ b.now ∷ c.now ∷ d.now ∷ e.now ∷ f.now ∷ g.now
        ∷ h.now ∷ [])) }
{
    if a != "with" {
        return None;
    }
    unnamed(map_value_of(b, c, d, e, f, g, h))
}

#[allow(clippy::too_many_arguments)]
fn ten<'a>(
    a: &str,
    b: &'a str,
    c: &str,
    d: &str,
    e: &str,
    f: &str,
    g: &str,
    h: &str,
    i: &str,
    j: &str,
) -> Option<Item<'a>>
    ensures value { option_map item_view result ≡ ten a.now b.now c.now d.now e.now f.now g.now
        h.now i.now j.now }
    ensures found { IfSome result (SpellsItem (a.now ∷ b.now ∷ c.now ∷ d.now ∷ e.now ∷ f.now ∷ g.now
        ∷ h.now ∷ i.now ∷ j.now ∷ [])) }
{
    let terms = terms_of(e, f, g, h, i, j)?;
    state_of(a, b, c, d, terms)
}

/// No line has nine words.
fn nine(_a: &str) -> Option<Item<'_>>
    ensures { result ≡ None }
{
    None
}

/// What the words of a line spell, if they spell anything.
fn line_of<'a>(words: &[&'a str]) -> Option<Item<'a>>
    ensures value { option_map item_view result ≡ line_of (views words.now) }
    ensures found { IfSome result (SpellsItem (views words.now)) }
{
    match *words {
        [] => Some(Item::plain(AssemblyLine::Empty)),
        [a] => one(a),
        [a, b] => two(a, b),
        [a, b, c] => three(a, b, c),
        [a, b, c, d] => four(a, b, c, d),
        [a, b, c, d, e] => five(a, b, c, d, e),
        [a, b, c, d, e, f] => six(a, b, c, d, e, f),
        [a, b, c, d, e, f, g] => seven(a, b, c, d, e, f, g),
        [a, b, c, d, e, f, g, h] => eight(a, b, c, d, e, f, g, h),
        [a, _, _, _, _, _, _, _, _] => nine(a),
        [a, b, c, d, e, f, g, h, i, j] => ten(a, b, c, d, e, f, g, h, i, j),
        _ => None,
    }
}

/// The words of a line, which are separated by spaces.
fn words_of<'a>(alloc: Global, line: &'a str) -> Result<Vec<&'a str>, AllocError>
    ensures { IfOk result (λ words. views words.items ≡ words_in line.now) }
{
    let mut words = Vec::new(alloc);
    for word in line.split(' ') {
        if !word.is_empty() {
            words.push(word)?;
        }
    }
    Ok(words)
}

/// What a line spells, if it spells anything.
fn item_of<'a>(alloc: Global, line: &'a str) -> Result<Option<Item<'a>>, AllocError>
    ensures { IfOk result (λ found. Reads (words_in line.now) (option_map item_view found)) }
{
    let words = words_of(alloc, line)?;
    Ok(line_of(&words))
}

/// Appends what a line spells, `None` if nothing, and the name of the label that it defines or
/// uses.
fn read_line<'a>(
    alloc: Global,
    line: &'a str,
    lines: &mut Vec<Option<AssemblyLine>>,
    names: &mut Vec<&'a str>,
) -> Result<(), AllocError>
    requires { length lines.old.items ≡ length names.old.items }
    ensures same { OnOk result (length lines.new.items ≡ length names.new.items) }
    ensures added { OnOk result (AddsReading (words_in line.now) (items lines.old.items
        names.old.items) (items lines.new.items names.new.items)) }
{
    match item_of(alloc, line) {
        Ok(Some(item)) => {
            lines.push(Some(item.line))?;
            names.push(item.name)?;
        }
        Ok(None) => {
            lines.push(None)?;
            names.push("")?;
        }
        Err(error) => return Err(error),
    }
    Ok(())
}

/// Appends what each line of a text spells, in order: `None` if nothing, and in `names` the name of
/// the label that the line defines or uses, empty if there is none.
///
/// Lines are separated by line feeds, so the last one is what follows the last line feed, usually
/// an empty line.
///
/// # Errors
/// `AllocError` if an allocation is refused; the caller then discards both vectors.
pub fn read_lines<'a>(
    alloc: Global,
    text: &'a str,
    lines: &mut Vec<Option<AssemblyLine>>,
    names: &mut Vec<&'a str>,
) -> Result<(), AllocError>
    requires lines { lines.old.items ≡ [] }
    requires names { names.old.items ≡ [] }
    ensures same { OnOk result (length lines.new.items ≡ length names.new.items) }
    ensures read { OnOk result (Readings (lines_in text.now) (items lines.new.items
        names.new.items)) }
{
    for line in text.split('\n') {
        read_line(alloc, line, lines, names)?;
    }
    Ok(())
}

/// The words of a line spell at most one line, with one name.
pub fn one_reading()
    ensures { (words : List Word) (line other : AssemblyLine) (name another : Word)
        → Spells words line name → Spells words other another
        → (line ≡ other) × (name ≡ another) }
{}
