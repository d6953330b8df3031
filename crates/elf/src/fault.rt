//! Why bytes are no relocatable BPF object.

use std::fmt;
use thiserror::Error;

/// What is wrong with the file. Sections, symbols and relocations are named by their indices. Its
/// `Display` is the message about the file.
#[derive(Clone, Copy, Error)]
pub enum ElfFault {
    /// Fewer than 64 bytes, or other ones than 7f 'E' 'L' 'F' in front.
    #[error("it is no ELF file")]
    NotElf,
    /// Not ELFCLASS64, ELFDATA2LSB and EV_CURRENT.
    #[error("it is no 64-bit little-endian ELF file of version 1")]
    Form,
    /// e_type isn't ET_REL.
    #[error("it is no relocatable file, as clang -c writes it: its type is {found}, not 1")]
    Type { found: u16 },
    /// e_machine isn't EM_BPF.
    #[error("it is for machine {found}, not for BPF (247): clang -target bpf")]
    Machine { found: u16 },
    /// The section headers aren't of 64 bytes, don't lie in the file, or there are none.
    #[error("its section headers do not lie in the file")]
    SectionTable,
    /// The section of the sections' names is no string table.
    #[error("the section of the section names is no string table")]
    SectionNames,
    /// A section's bytes don't lie in the file.
    #[error("the contents of section {section} do not lie in the file")]
    Contents { section: usize },
    /// A section's name isn't in the table of names.
    #[error("the name of section {section} is not in the table of names")]
    SectionName { section: usize },
    /// The last string of a string table has no end.
    #[error("the strings of section {section} have no end")]
    Strings { section: usize },
    /// A symbol table isn't made of whole symbols, or names no string table.
    #[error("section {section} is no symbol table")]
    Symbols { section: usize },
    /// A symbol's name or section isn't there.
    #[error("symbol {symbol} of section {section} has no name or section of the file")]
    Symbol { section: usize, symbol: usize },
    /// A section of relocations isn't made of whole ones, or names no symbol table or no section.
    #[error("section {section} is no section of relocations")]
    Relocations { section: usize },
    /// A relocation's symbol or place isn't there.
    #[error("relocation {relocation} of section {section} has no symbol or place of the file")]
    Relocation { section: usize, relocation: usize },
    /// Relocations of the form SHT_RELA or SHT_RELR, which BPF objects don't have.
    #[error("section {section} has relocations with addends, which are not read")]
    OtherRelocations { section: usize },
}

impl fmt::Debug for ElfFault {
    fn fmt<W: fmt::Write>(&self, f: &mut fmt::Formatter<W>) -> fmt::Result {
        fmt::Display::fmt(self, f)
    }
}
