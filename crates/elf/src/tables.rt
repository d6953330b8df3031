//! The section headers and the sections' contents.
ghost use Rattle.std.specs.Prelude.{◌≡◌, ◌+◌, ◌<◌, ◌≤◌, ◌↔◌, length, IsTrue};
ghost use Rattle.elf.specs.Entries.{contents};
ghost use Rattle.elf.specs.Files.{IsHeader, HasSections, InFile, section_count, names_section};
ghost use Rattle.elf.specs.Files.{section_at, contents_of, section_names};

use crate::number::{half, xword};
use crate::section::{Section, section_header};

pub(crate) fn section_count(bytes: &[u8]) -> usize
    requires { IsHeader bytes.now }
    ensures { result ≡ section_count bytes.now }
{
    half(bytes, 60) as usize
}

pub(crate) fn section_at(bytes: &[u8], index: usize) -> Section
    requires header { IsHeader bytes.now }
    requires index { index < section_count bytes.now }
    ensures { result ≡ section_at bytes.now index }
{
    section_header(bytes, xword(bytes, 40) as usize + 64 * index)
}

/// Whether the section's bytes lie in the file.
pub(crate) fn is_in_file(bytes: &[u8], section: Section) -> bool
    ensures { IsTrue result ↔ InFile bytes.now section }
{
    if !section.kind.has_bytes() {
        return true;
    }
    let size = bytes.len() as u64;
    section.offset <= size && section.size <= size - section.offset
}

#[tactic(auto, unfolding(crate::specs::Entries::contents))]
pub(crate) fn contents(bytes: &[u8], section: Section) -> &[u8]
    requires { InFile bytes.now section }
    ensures { result.now ≡ contents bytes.now section }
{
    if !section.kind.has_bytes() {
        return &[];
    }
    let start = section.offset as usize;
    &bytes[start..start + section.size as usize]
}

pub(crate) fn contents_of(bytes: &[u8], index: usize) -> &[u8]
    requires sections { HasSections bytes.now }
    requires index { index < section_count bytes.now }
    ensures { result.now ≡ contents_of bytes.now index }
{
    contents(bytes, section_at(bytes, index))
}

/// The table that has the sections' names.
pub(crate) fn section_names(bytes: &[u8]) -> &[u8]
    requires { HasSections bytes.now }
    ensures { result.now ≡ section_names bytes.now }
{
    contents_of(bytes, half(bytes, 62) as usize)
}
