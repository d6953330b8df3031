//! Symbols.
ghost use Rattle.std.specs.Prelude.{◌≡◌, ◌+◌, ◌*◌, ◌≤◌, length};
ghost use Rattle.elf.specs.Entries.{symbol_kind, symbol_at};

use crate::number::{half, word, xword};

/// What a symbol stands for (the lower half of st_info).
#[derive(Clone, Copy)]
pub enum SymbolKind {
    NoType,
    /// Data.
    Object,
    Function,
    Section,
    /// The source file's name.
    File,
    Other,
}

impl SymbolKind {
    fn of(number: u8) -> SymbolKind
        ensures { result ≡ symbol_kind number }
    {
        match number {
            0 => SymbolKind::NoType,
            1 => SymbolKind::Object,
            2 => SymbolKind::Function,
            3 => SymbolKind::Section,
            4 => SymbolKind::File,
            _ => SymbolKind::Other,
        }
    }
}

/// A symbol.
#[derive(Clone, Copy)]
pub struct Symbol {
    /// Where the name begins in the table of names.
    pub name: u32,
    pub kind: SymbolKind,
    /// The section that it is in; 0 for one that the file doesn't define, from 0xff00 on for none.
    pub section: u16,
    /// Where it begins in the section.
    pub value: u64,
    pub size: u64,
}

/// The symbol at an index of a symbol table.
#[tactic(auto, unfolding(crate::specs::Entries::symbol_at))]
pub(crate) fn symbol_at(table: &[u8], index: usize) -> Symbol
    requires { 24 * index + 24 ≤ length table.now }
    ensures { result ≡ symbol_at table.now index }
{
    let at = 24 * index;
    Symbol {
        name: word(table, at),
        kind: SymbolKind::of(table[at + 4] % 16),
        section: half(table, at + 6),
        value: xword(table, at + 8),
        size: xword(table, at + 16),
    }
}
