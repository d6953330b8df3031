//! Symbols and relocations with the section that is their symbol table.

use crate::relocation::Relocation;
use crate::symbol::Symbol;

/// A symbol, with its place in a symbol table.
#[derive(Clone, Copy)]
pub struct LinkedSymbol {
    /// The section that is the symbol table.
    pub table: usize,
    pub index: usize,
    pub symbol: Symbol,
}

/// A relocation, with the section that is its symbol table.
#[derive(Clone, Copy)]
pub struct LinkedRelocation {
    pub table: usize,
    pub relocation: Relocation,
}
