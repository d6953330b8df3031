//! Relocatable BPF objects as clang writes them: 64-bit little-endian ELF files (System V ABI,
//! chapter 4), read where they lie.
#![tactic(auto)]

mod checks;
mod fault;
mod file;
mod functions;
mod lists;
mod number;
mod relocation;
mod relocations;
mod section;
mod symbol;
mod tables;

pub use fault::ElfFault;
pub use file::{ObjectFile, read};
pub use lists::{LinkedRelocation, LinkedSymbol};
pub use relocation::Relocation;
pub use section::{Section, SectionKind};
pub use symbol::{Symbol, SymbolKind};
