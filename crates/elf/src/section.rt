//! Section headers.
ghost use Rattle.std.specs.Prelude.{◌≡◌, ◌+◌, ◌≤◌, length, IsTrue};
ghost use Rattle.elf.specs.Entries.{section_kind, section_header, has_bytes};

use crate::number::{word, xword};

/// What a section is for (sh_type).
#[derive(Clone, Copy, PartialEq, Eq)]
pub enum SectionKind {
    /// No section: the first header.
    Null,
    /// Code, data and what the compiler tells debuggers.
    ProgramBits,
    SymbolTable,
    StringTable,
    /// Relocations without addends (SHT_REL).
    Relocations,
    /// Relocations in forms that BPF objects don't have: SHT_RELA and SHT_RELR.
    OtherRelocations,
    /// Data that begin as zeros, without bytes in the file.
    NoBits,
    Other,
}

impl SectionKind {
    fn of(number: u32) -> SectionKind
        ensures { result ≡ section_kind number }
    {
        match number {
            0 => SectionKind::Null,
            1 => SectionKind::ProgramBits,
            2 => SectionKind::SymbolTable,
            3 => SectionKind::StringTable,
            4 | 19 => SectionKind::OtherRelocations,
            8 => SectionKind::NoBits,
            9 => SectionKind::Relocations,
            _ => SectionKind::Other,
        }
    }

    pub(crate) fn has_bytes(self) -> bool
        ensures { result ≡ has_bytes self }
    {
        !matches!(self, SectionKind::Null | SectionKind::NoBits)
    }
}

/// A section header.
#[derive(Clone, Copy)]
pub struct Section {
    /// Where the name begins in the table of names.
    pub name: u32,
    pub kind: SectionKind,
    pub flags: u64,
    /// Where the contents begin in the file.
    pub offset: u64,
    /// The contents' bytes.
    pub size: u64,
    /// Of symbols: the section that has their names. Of relocations: the symbol table.
    pub link: u32,
    /// Of relocations: the section that they change.
    pub info: u32,
    pub entry_size: u64,
}

impl Section {
    ghost use Rattle.elf.specs.Entries.{is_code};

    /// Whether the section has instructions (SHF_EXECINSTR).
    pub fn is_code(&self) -> bool
        ensures { result ≡ is_code self.now }
    {
        self.flags / 4 % 2 == 1
    }
}

/// The header at a place of the file.
#[tactic(auto, unfolding(crate::specs::Entries::section_header))]
pub(crate) fn section_header(bytes: &[u8], at: usize) -> Section
    requires { at + 64 ≤ length bytes.now }
    ensures { result ≡ section_header bytes.now at }
{
    Section {
        name: word(bytes, at),
        kind: SectionKind::of(word(bytes, at + 4)),
        flags: xword(bytes, at + 8),
        offset: xword(bytes, at + 24),
        size: xword(bytes, at + 32),
        link: word(bytes, at + 40),
        info: word(bytes, at + 44),
        entry_size: xword(bytes, at + 56),
    }
}
