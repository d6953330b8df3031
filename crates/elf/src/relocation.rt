//! Relocations.
ghost use Rattle.std.specs.Prelude.{◌≡◌, ◌+◌, ◌*◌, ◌≤◌, length};
ghost use Rattle.elf.specs.Entries.{relocation_at};

use crate::number::{word, xword};

/// A place that a linker would change, and the symbol that it would take for it.
#[derive(Clone, Copy)]
pub struct Relocation {
    /// The place in the section that is changed.
    pub offset: u64,
    /// The relocation's type, as R_BPF_64_64 (1) of a wide load or R_BPF_64_32 (10) of a call.
    pub kind: u32,
    /// The symbol's index in the linked table.
    pub symbol: u32,
}

/// The relocation at an index of a section of relocations.
#[tactic(auto, unfolding(crate::specs::Entries::relocation_at))]
pub(crate) fn relocation_at(table: &[u8], index: usize) -> Relocation
    requires { 16 * index + 16 ≤ length table.now }
    ensures { result ≡ relocation_at table.now index }
{
    let at = 16 * index;
    Relocation {
        offset: xword(table, at),
        kind: word(table, at + 8),
        symbol: word(table, at + 12),
    }
}
