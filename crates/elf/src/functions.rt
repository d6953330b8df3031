//! The functions of a section.
ghost use Rattle.std.specs.Prelude.{◌≡◌, ◌*◌, ◌/◌, ◌<◌, ◌≤◌, ◌++◌, length, OnOk};
ghost use Rattle.elf.specs.Files.{HasSections, section_count, section_at, contents_of};
ghost use Rattle.elf.specs.Lists.{symbol_count, is_function_of, functions_among};

use crate::lists::LinkedSymbol;
use crate::section::SectionKind;
use crate::symbol::{Symbol, SymbolKind, symbol_at};
use crate::tables::{contents_of, section_at};
use std::alloc::AllocError;

/// How many symbols the section has.
pub(crate) fn symbol_count(bytes: &[u8], section: usize) -> usize
    requires sections { HasSections bytes.now }
    requires index { section < section_count bytes.now }
    ensures { result ≡ symbol_count bytes.now section }
{
    match section_at(bytes, section).kind {
        SectionKind::SymbolTable => contents_of(bytes, section).len() / 24,
        _ => 0,
    }
}

fn is_function_of(symbol: Symbol, section: usize) -> bool
    ensures { result ≡ is_function_of symbol section }
{
    match symbol.kind {
        SymbolKind::Function => symbol.section as usize == section,
        _ => false,
    }
}

/// Adds the functions of a section among the first symbols of a table.
pub(crate) fn push_functions(
    out: &mut Vec<LinkedSymbol>,
    table: &[u8],
    index: usize,
    section: usize,
    count: usize,
) -> Result<(), AllocError>
    requires { 24 * count ≤ length table.now }
    ensures { OnOk result (out.new.items
        ≡ out.old.items ++ functions_among table.now index section count) }
{
    for k in 0..count {
        let symbol = symbol_at(table, k);
        if is_function_of(symbol, section) {
            out.push(LinkedSymbol {
                table: index,
                index: k,
                symbol,
            })?;
        }
    }
    Ok(())
}
