//! The report on code that a linker would change: it uses data, or calls a function.

ghost use Rattle.std.specs.Prelude.{◌≡◌, false, true, IfErr, IfOk};
ghost use Rattle.std.specs.List.{All};
ghost use Rattle.hooktool.specs.Linked.{has_place, is_changed};

use crate::building::push_about;
use crate::fault::HooktoolFault;
use crate::names::shown;
use crate::report::{CommandReport, refusal};
use elf::{LinkedRelocation, LinkedSymbol, ObjectFile, Relocation, SymbolKind};
use explanations::Text;
use std::alloc::{AllocError, Global};

// The relocation of a call: R_BPF_64_32.
const CALL: u32 = 10;

// How many places of a section are told one by one.
const MAX_TOLD: usize = 16;

/// A section's name, and its bytes.
#[derive(Clone, Copy)]
pub(crate) struct Section<'f> {
    pub name: &'f [u8],
    pub contents: &'f [u8],
}

/// Whether the function has the place of its section.
fn has_place(function: &LinkedSymbol, offset: u64) -> bool
    ensures { result ≡ has_place function.now offset }
{
    let symbol = function.symbol;
    symbol.value <= offset && offset - symbol.value < symbol.size
}

/// Whether a linker would change the function.
fn is_changed(function: &LinkedSymbol, relocations: &[LinkedRelocation]) -> bool
    ensures { result ≡ is_changed relocations.now function.now }
{
    relocations
        .iter()
        .any(|it| has_place(function, it.relocation.offset))
}

/// The functions of the section that no linker would change.
pub(crate) fn unchanged(
    alloc: Global,
    functions: &[LinkedSymbol],
    relocations: &[LinkedRelocation],
) -> Result<Vec<LinkedSymbol>, AllocError>
    ensures { IfOk result (λ others. All (λ function. is_changed relocations.now function ≡ false)
        others.items) }
{
    let mut others = Vec::new(alloc);
    for function in functions {
        if !is_changed(function, relocations) {
            others.push(*function)?;
        }
    }
    Ok(others)
}

/// The symbol's name, or none.
fn name_of<'a>(file: &ObjectFile<'a>, table: usize, index: usize) -> &'a [u8] {
    match file.symbol_name(table, index) {
        Some(name) => name,
        None => b"",
    }
}

/// The place in the section that the code names by the number in the last four bytes of an
/// instruction: of data that number, the lower half of a wide load's; of a function what a call's
/// distance comes to from the section's first slot.
fn named_place(relocation: Relocation, contents: &[u8]) -> u64 {
    let start = relocation.offset as usize;
    let number = match contents.get(start..start.saturating_add(8)) {
        Some([_, _, _, _, a, b, c, d]) => u32::from_le_bytes([*a, *b, *c, *d]),
        _ => 0,
    };
    if relocation.kind == CALL {
        8 * u64::from(number.wrapping_add(1))
    } else {
        u64::from(number)
    }
}

/// The name of the function or the data of the table that has this place of the section.
fn name_at<'a>(file: &ObjectFile<'a>, table: usize, section: u16, place: u64) -> Option<&'a [u8]> {
    for index in 0..usize::MAX {
        let symbol = file.symbol(table, index)?;
        let is_named = matches!(symbol.kind, SymbolKind::Function | SymbolKind::Object);
        let is_there = symbol.value <= place && place - symbol.value < symbol.size;
        if is_named && is_there && symbol.section == section {
            return file.symbol_name(table, index);
        }
    }
    None
}

/// The name of what the relocation names: a symbol's. Of a section's symbol what is there in the
/// section, by the number in the code, or the section's.
fn target_name<'a>(
    file: &ObjectFile<'a>,
    contents: &[u8],
    relocation: &LinkedRelocation,
) -> &'a [u8] {
    let it = relocation.relocation;
    let index = it.symbol as usize;
    if let Some(symbol) = file.symbol(relocation.table, index) {
        let section = symbol.section as usize;
        let is_section = matches!(symbol.kind, SymbolKind::Section);
        if is_section && section < file.section_count() {
            let place = named_place(it, contents);
            return match name_at(file, relocation.table, symbol.section, place) {
                Some(name) => name,
                None => file.section_name(section),
            };
        }
    }
    name_of(file, relocation.table, index)
}

/// Adds the beginning of the line about a place: its function and slot, or its offset in the
/// section.
fn push_place(
    out: &mut Text,
    file: &ObjectFile<'_>,
    section: &[u8],
    functions: &[LinkedSymbol],
    offset: u64,
) {
    for function in functions {
        if has_place(function, offset) {
            push_about(out, section, name_of(file, function.table, function.index));
            let slot = offset.saturating_sub(function.symbol.value) / 8;
            return out.numbered(", slot ", slot, ": ");
        }
    }
    out.push("section ");
    out.push(shown(section));
    out.numbered(", offset ", offset, ": ")
}

/// The name of the section that has what the relocation names, or none.
fn target_section<'a>(file: &ObjectFile<'a>, relocation: &LinkedRelocation) -> &'a [u8] {
    let index = relocation.relocation.symbol as usize;
    if let Some(symbol) = file.symbol(relocation.table, index) {
        let section = usize::from(symbol.section);
        if section < file.section_count() {
            return file.section_name(section);
        }
    }
    b""
}

/// What an author can do about data of this section.
fn data_advice(section: &[u8]) -> &'static str {
    if section.starts_with(b".rodata.str") {
        ", a text: a program has no data of its own, and nobody to tell it to\n"
    } else if section.starts_with(b".rodata") {
        ", a table: a program has no data of its own, write it as a switch or as tests \
            (hookcc does so where no other address meets it), or keep it in cells\n"
    } else if section.starts_with(b".data") || section.starts_with(b".bss") {
        ", a variable: a program has no data of its own, keep it in a counter or, at count, in a \
            cell\n"
    } else {
        ": a program has no data of its own, keep it in counters or cells\n"
    }
}

/// Adds the line of a place of the section that a linker would change: what it does, and what an
/// author can do.
fn push_relocation(
    out: &mut Text,
    file: &ObjectFile<'_>,
    section: Section<'_>,
    functions: &[LinkedSymbol],
    relocation: &LinkedRelocation,
) {
    let it = relocation.relocation;
    push_place(out, file, section.name, functions, it.offset);
    let target = shown(target_name(file, section.contents, relocation));
    let is_call = it.kind == CALL;
    out.push(if is_call { "it calls " } else { "it uses " });
    out.push(target);
    out.push(if is_call {
        ": a program has no functions to call, make each one static inline\n"
    } else {
        data_advice(target_section(file, relocation))
    })
}

/// The report on the places of a section that a linker would change: what code uses and calls
/// there. Of more than sixteen the number of the others. Behind it stands what was built.
pub(crate) fn relocation_report<'a>(
    alloc: Global,
    file: &ObjectFile<'_>,
    section: Section<'_>,
    functions: &[LinkedSymbol],
    relocations: &[LinkedRelocation],
    built: &CommandReport,
) -> Result<CommandReport, HooktoolFault<'a>>
    ensures refused { IfOk result (λ report. report.is_refused ≡ true) }
    ensures fault { IfErr result (λ fault. fault ≡ HooktoolFault.Memory) }
{
    let mut text = Text::new(alloc);
    for relocation in relocations.iter().take(MAX_TOLD) {
        push_relocation(&mut text, file, section, functions, relocation)
    }
    if relocations.len() > MAX_TOLD {
        text.push("section ");
        text.push(shown(section.name));
        let others = (relocations.len() - MAX_TOLD) as u64;
        text.numbered(": and ", others, " places more that are like these\n")
    }
    text.push(built.text.as_str());
    refusal(text)
}
