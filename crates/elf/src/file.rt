//! A relocatable BPF object, and what it says.
ghost use Rattle.std.specs.Prelude.{◌≡◌, ◌<◌, ◌*◌, ◌/◌, length, IfErr, IfOk, IsOk, MatchOption};
ghost use Rattle.std.specs.Option.{SomeIff};
ghost use Rattle.elf.specs.Numbers.{string_at};
ghost use Rattle.elf.specs.Files.{IsObjectFile, section_count, section_at, section_name};
ghost use Rattle.elf.specs.Files.{contents_of};
ghost use Rattle.elf.specs.Faults.{Breaks};
ghost use Rattle.elf.specs.Lists.{HasSymbol, symbol_count, symbol_of, symbol_name};
ghost use Rattle.elf.specs.Lists.{functions_of, relocations_of, HasBytes, symbol_bytes};

use crate::checks::check;
use crate::fault::ElfFault;
use crate::functions::{push_functions, symbol_count};
use crate::lists::{LinkedRelocation, LinkedSymbol};
use crate::number::{half, string_at, xword};
use crate::relocations::push_relocations_from;
use crate::section::{Section, section_header};
use crate::symbol::{Symbol, symbol_at};
use crate::tables::{self, contents};
use std::alloc::{AllocError, Global};
use std::marker::Model;

/// The bytes of a relocatable BPF object. Clauses see them as they are, and say by the definitions
/// of specs/ what they mean.
#[derive(Drop)]
pub struct ObjectFile<'a> {
    bytes: &'a [u8],
}

impl<'a> Model for ObjectFile<'a> {
    ghost use Rattle.std.specs.Prelude.{ℕ, List};
    ghost use Rattle.elf.specs.Files.{IsObjectFile};

    ghost Value = { List ℕ };

    ghost view = { λ file. file.bytes.now };

    ghost invariant = { λ file. IsObjectFile file.bytes.now };
}

/// Reads an ELF object file in place: it borrows the bytes, and allocates nothing.
///
/// # Errors
/// The first fault of the bytes: of the header, then of where the contents lie, of the section
/// names, and of each section in turn.
pub fn read(bytes: &[u8]) -> Result<ObjectFile<'_>, ElfFault>
    ensures found { IfOk result (λ file. (file ≡ bytes.now) × IsObjectFile bytes.now) }
    // Every such object is read.
    ensures only { IsObjectFile bytes.now → IsOk result }
    // The bytes have the fault that is returned.
    ensures why { IfErr result (λ fault. Breaks bytes.now fault) }
{
    check(bytes)?;
    Ok(ObjectFile { bytes })
}

impl<'a> ObjectFile<'a> {
    /// How many section headers the file has.
    pub fn section_count(&self) -> usize
        ensures { result ≡ section_count self.now }
    {
        usize::from(half(self.bytes, 60))
    }

    /// The section header at an index.
    pub fn section(&self, index: usize) -> Section
        requires { index < section_count self.now }
        ensures { result ≡ section_at self.now index }
    {
        section_header(self.bytes, xword(self.bytes, 40) as usize + 64 * index)
    }

    /// The section's name.
    pub fn section_name(&self, index: usize) -> &'a [u8]
        requires { index < section_count self.now }
        ensures { result.now ≡ section_name self.now index }
    {
        let name = tables::section_at(self.bytes, index).name as usize;
        string_at(tables::section_names(self.bytes), name)
    }

    /// The section's bytes: none if it has none in the file.
    pub fn contents(&self, index: usize) -> &'a [u8]
        requires { index < section_count self.now }
        ensures { result.now ≡ contents_of self.now index }
    {
        contents(self.bytes, self.section(index))
    }

    /// A symbol of the symbol table that is section `table`, if there is one.
    pub fn symbol(&self, table: usize, index: usize) -> Option<Symbol>
        ensures { SomeIff result (HasSymbol self.now table index) (symbol_of self.now table index) }
    {
        if table >= tables::section_count(self.bytes) {
            return None;
        }
        if index >= symbol_count(self.bytes, table) {
            return None;
        }
        Some(symbol_at(tables::contents_of(self.bytes, table), index))
    }

    /// The symbol's name, if there is such a symbol.
    pub fn symbol_name(&self, table: usize, index: usize) -> Option<&'a [u8]>
        ensures { MatchOption result (HasSymbol self.now table index → ⊥)
            (λ name. HasSymbol self.now table index
            × (name.now ≡ symbol_name self.now table index)) }
    {
        if table >= tables::section_count(self.bytes) {
            return None;
        }
        if index >= symbol_count(self.bytes, table) {
            return None;
        }
        let symbol = symbol_at(tables::contents_of(self.bytes, table), index);
        let link = tables::section_at(self.bytes, table).link as usize;
        Some(string_at(tables::contents_of(self.bytes, link), symbol.name as usize))
    }

    /// The bytes that the symbol names, if they are in a section.
    pub fn symbol_bytes(&self, symbol: Symbol) -> Option<&'a [u8]>
        ensures { MatchOption result (HasBytes self.now symbol → ⊥)
            (λ bytes. HasBytes self.now symbol × (bytes.now ≡ symbol_bytes self.now symbol)) }
    {
        let section = symbol.section as usize;
        if section >= tables::section_count(self.bytes) {
            return None;
        }
        let contents = tables::contents_of(self.bytes, section);
        let size = contents.len() as u64;
        if symbol.value > size || symbol.size > size - symbol.value {
            return None;
        }
        let start = symbol.value as usize;
        Some(&contents[start..start + symbol.size as usize])
    }

    /// The functions that are in the section, in the order of the file.
    ///
    /// # Errors
    /// `AllocError` if an allocation is refused.
    pub fn functions(&self, alloc: Global, section: usize) -> Result<Vec<LinkedSymbol>, AllocError>
        ensures { IfOk result (λ functions. functions.items ≡ functions_of self.now section) }
    {
        let mut out = Vec::new(alloc);
        for i in 0..tables::section_count(self.bytes) {
            let count = symbol_count(self.bytes, i);
            push_functions(
                &mut out,
                tables::contents_of(self.bytes, i),
                i,
                section,
                count,
            )?;
        }
        Ok(out)
    }

    /// The places of the section that a linker would change, in the order of the file: all of them.
    ///
    /// # Errors
    /// `AllocError` if an allocation is refused.
    pub fn relocations(
        &self,
        alloc: Global,
        section: usize,
    ) -> Result<Vec<LinkedRelocation>, AllocError>
        ensures { IfOk result (λ relocations.
            relocations.items ≡ relocations_of self.now section) }
    {
        let mut out = Vec::new(alloc);
        for i in 0..tables::section_count(self.bytes) {
            push_relocations_from(&mut out, self.bytes, section, i)?;
        }
        Ok(out)
    }
}
