//! Whether bytes are a relocatable BPF object, from the file header to the last relocation.
ghost use Rattle.std.specs.Prelude.{◌≡◌, ◌≢◌, ◌/◌, ◌<◌, ◌≤◌, ◌↔◌, length, IsTrue, MatchResult};
ghost use Rattle.elf.specs.Files.{IsElf, IsLittleEndian64, HasSectionTable, IsHeader, HasSections};
ghost use Rattle.elf.specs.Files.{section_count, section_at, contents_of, IsTable, IsStringTable};
ghost use Rattle.elf.specs.Files.{IsSymbol, IsSymbolTable, IsRelocation, IsRelocationTable};
ghost use Rattle.elf.specs.Files.{IsSection, IsObjectFile};
ghost use Rattle.elf.specs.Faults.{Breaks};

use crate::fault::ElfFault;
use crate::number::{half, word, xword};
use crate::relocation::relocation_at;
use crate::section::SectionKind;
use crate::symbol::symbol_at;
use crate::tables::{contents_of, is_in_file, section_at, section_count, section_names};

/// The bytes 7f 'E' 'L' 'F' as a number.
const MAGIC: u32 = 0x464c_457f;

fn check_elf(bytes: &[u8]) -> Result<(), ElfFault>
    ensures { MatchResult result (λ _. IsElf bytes.now) (λ fault. Breaks bytes.now fault) }
{
    if bytes.len() < 64 {
        return Err(ElfFault::NotElf);
    }
    if word(bytes, 0) != MAGIC {
        return Err(ElfFault::NotElf);
    }
    Ok(())
}

/// Whether the file has the class, the order of bytes and the version.
fn is_little_endian_64(bytes: &[u8]) -> bool
    requires { 64 ≤ length bytes.now }
    ensures { IsTrue result ↔ IsLittleEndian64 bytes.now }
{
    bytes[4] == 2 && bytes[5] == 1 && bytes[6] == 1 && word(bytes, 20) == 1
}

fn has_section_table(bytes: &[u8]) -> bool
    requires { 64 ≤ length bytes.now }
    ensures { IsTrue result ↔ HasSectionTable bytes.now }
{
    let table = xword(bytes, 40);
    let count = u64::from(half(bytes, 60));
    let size = bytes.len() as u64;
    half(bytes, 58) == 64
        && table <= size
        && 64 * count <= size - table
        && half(bytes, 62) < half(bytes, 60)
}

fn check_header(bytes: &[u8]) -> Result<(), ElfFault>
    ensures { MatchResult result (λ _. IsHeader bytes.now) (λ fault. Breaks bytes.now fault) }
{
    check_elf(bytes)?;
    if !is_little_endian_64(bytes) {
        return Err(ElfFault::Form);
    }
    let found = half(bytes, 16);
    if found != 1 {
        return Err(ElfFault::Type { found });
    }
    let found = half(bytes, 18);
    if found != 247 {
        return Err(ElfFault::Machine { found });
    }
    if !has_section_table(bytes) {
        return Err(ElfFault::SectionTable);
    }
    Ok(())
}

fn check_contents(bytes: &[u8]) -> Result<(), ElfFault>
    requires { IsHeader bytes.now }
    ensures { MatchResult result (λ _. HasSections bytes.now) (λ fault. Breaks bytes.now fault) }
{
    for section in 0..section_count(bytes) {
        if !is_in_file(bytes, section_at(bytes, section)) {
            return Err(ElfFault::Contents { section });
        }
    }
    Ok(())
}

/// Whether the section has whole entries of this size, and a link to one of this kind.
fn is_table(bytes: &[u8], section: usize, size: usize, linked: SectionKind) -> bool
    requires sections { HasSections bytes.now }
    requires index { section < section_count bytes.now }
    requires size { 0 < size }
    ensures { IsTrue result ↔ IsTable bytes.now (section_at bytes.now section) size linked }
{
    let header = section_at(bytes, section);
    let link = header.link as usize;
    if header.entry_size != size as u64 {
        return false;
    }
    if contents_of(bytes, section).len() % size != 0 {
        return false;
    }
    if link >= section_count(bytes) {
        return false;
    }
    section_at(bytes, link).kind == linked
}

/// Whether each string of the table ends.
fn is_string_table(table: &[u8]) -> bool
    ensures { IsTrue result ↔ IsStringTable table.now }
{
    table.is_empty() || table[table.len() - 1] == 0
}

fn is_symbol(bytes: &[u8], section: usize, symbol: usize) -> bool
    requires sections { HasSections bytes.now }
    requires index { section < section_count bytes.now }
    requires table { IsTable bytes.now (section_at bytes.now section) 24 SectionKind.StringTable }
    requires symbol { symbol < length (contents_of bytes.now section) / 24 }
    ensures { IsTrue result ↔ IsSymbol bytes.now (section_at bytes.now section) symbol }
{
    let link = section_at(bytes, section).link as usize;
    let symbol = symbol_at(contents_of(bytes, section), symbol);
    if symbol.name as usize >= contents_of(bytes, link).len() {
        return false;
    }
    (symbol.section as usize) < section_count(bytes) || symbol.section >= 0xff00
}

fn check_symbols(bytes: &[u8], section: usize) -> Result<(), ElfFault>
    requires sections { HasSections bytes.now }
    requires index { section < section_count bytes.now }
    requires kind { (section_at bytes.now section).kind ≡ SectionKind.SymbolTable }
    ensures { MatchResult result (λ _. IsSymbolTable bytes.now (section_at bytes.now section))
        (λ fault. Breaks bytes.now fault) }
{
    if !is_table(bytes, section, 24, SectionKind::StringTable) {
        return Err(ElfFault::Symbols { section });
    }
    for symbol in 0..contents_of(bytes, section).len() / 24 {
        if !is_symbol(bytes, section, symbol) {
            return Err(ElfFault::Symbol { section, symbol });
        }
    }
    Ok(())
}

fn is_relocation(bytes: &[u8], section: usize, relocation: usize) -> bool
    requires sections { HasSections bytes.now }
    requires index { section < section_count bytes.now }
    requires table { IsTable bytes.now (section_at bytes.now section) 16 SectionKind.SymbolTable }
    requires target { (section_at bytes.now section).info < section_count bytes.now }
    requires relocation { relocation < length (contents_of bytes.now section) / 16 }
    ensures { IsTrue result ↔ IsRelocation bytes.now (section_at bytes.now section) relocation }
{
    let header = section_at(bytes, section);
    let relocation = relocation_at(contents_of(bytes, section), relocation);
    let symbols = contents_of(bytes, header.link as usize).len() / 24;
    let target = section_at(bytes, header.info as usize);
    (relocation.symbol as usize) < symbols && relocation.offset < target.size
}

fn check_relocations(bytes: &[u8], section: usize) -> Result<(), ElfFault>
    requires sections { HasSections bytes.now }
    requires index { section < section_count bytes.now }
    requires kind { (section_at bytes.now section).kind ≡ SectionKind.Relocations }
    ensures { MatchResult result (λ _. IsRelocationTable bytes.now (section_at bytes.now section))
        (λ fault. Breaks bytes.now fault) }
{
    if !is_table(bytes, section, 16, SectionKind::SymbolTable) {
        return Err(ElfFault::Relocations { section });
    }
    if section_at(bytes, section).info as usize >= section_count(bytes) {
        return Err(ElfFault::Relocations { section });
    }
    for relocation in 0..contents_of(bytes, section).len() / 16 {
        if !is_relocation(bytes, section, relocation) {
            return Err(ElfFault::Relocation {
                section,
                relocation,
            });
        }
    }
    Ok(())
}

#[tactic(auto, using(crate::proofs::Checked::of_symbols, crate::proofs::Checked::of_relocations))]
fn check_section(bytes: &[u8], section: usize) -> Result<(), ElfFault>
    requires sections { HasSections bytes.now }
    requires index { section < section_count bytes.now }
    ensures { MatchResult result (λ _. IsSection bytes.now (section_at bytes.now section))
        (λ fault. Breaks bytes.now fault) }
{
    let header = section_at(bytes, section);
    if header.name as usize >= section_names(bytes).len() {
        return Err(ElfFault::SectionName { section });
    }
    match header.kind {
        SectionKind::StringTable => {
            if !is_string_table(contents_of(bytes, section)) {
                return Err(ElfFault::Strings { section });
            }
            Ok(())
        }
        SectionKind::SymbolTable => check_symbols(bytes, section),
        SectionKind::Relocations => check_relocations(bytes, section),
        SectionKind::OtherRelocations => Err(ElfFault::OtherRelocations { section }),
        _ => Ok(()),
    }
}

/// Finds the first fault.
pub(crate) fn check(bytes: &[u8]) -> Result<(), ElfFault>
    ensures { MatchResult result (λ _. IsObjectFile bytes.now) (λ fault. Breaks bytes.now fault) }
{
    check_header(bytes)?;
    check_contents(bytes)?;
    if section_at(bytes, half(bytes, 62) as usize).kind != SectionKind::StringTable {
        return Err(ElfFault::SectionNames);
    }
    for section in 0..section_count(bytes) {
        check_section(bytes, section)?;
    }
    Ok(())
}
