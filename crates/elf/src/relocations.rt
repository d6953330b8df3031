//! The relocations of a section.
ghost use Rattle.std.specs.Prelude.{◌≡◌, ◌/◌, ◌<◌, ◌++◌, length, OnOk};
ghost use Rattle.elf.specs.Files.{HasSections, section_count, section_at, contents_of};
ghost use Rattle.elf.specs.Lists.{changes, relocations_among, relocations_from};

use crate::lists::LinkedRelocation;
use crate::relocation::relocation_at;
use crate::section::{Section, SectionKind};
use crate::tables::{contents_of, section_at};
use std::alloc::AllocError;

/// Whether these are relocations of the section.
fn changes(header: Section, section: usize) -> bool
    ensures { result ≡ changes header section }
{
    match header.kind {
        SectionKind::Relocations => header.info as usize == section,
        _ => false,
    }
}

/// Adds the relocations of a table, whose symbols are those of section `symbols`.
fn push_relocations(
    out: &mut Vec<LinkedRelocation>,
    table: &[u8],
    symbols: usize,
) -> Result<(), AllocError>
    ensures { OnOk result (out.new.items
        ≡ out.old.items ++ relocations_among table.now symbols (length table.now / 16)) }
{
    for k in 0..table.len() / 16 {
        out.push(LinkedRelocation {
            table: symbols,
            relocation: relocation_at(table, k),
        })?;
    }
    Ok(())
}

/// Adds the relocations that section `from` has for this section.
pub(crate) fn push_relocations_from(
    out: &mut Vec<LinkedRelocation>,
    bytes: &[u8],
    section: usize,
    from: usize,
) -> Result<(), AllocError>
    requires sections { HasSections bytes.now }
    requires index { from < section_count bytes.now }
    ensures { OnOk result (out.new.items
        ≡ out.old.items ++ relocations_from bytes.now section from) }
{
    let header = section_at(bytes, from);
    if changes(header, section) {
        push_relocations(out, contents_of(bytes, from), header.link as usize)?;
    }
    Ok(())
}
