//! The report on a program that uses cells where any worker may ask.

ghost use Rattle.std.specs.Prelude.{◌≡◌};
ghost use Rattle.std.specs.List.{list_any};
ghost use Rattle.hooktool.specs.Cells.{cells_note, has_cells_of_many, loads_cells};
ghost use Rattle.hooktool.specs.Cells.{may_any_ask};

use isa::{Hook, Instruction, Slot};
use verifier::Accepted;

/// The note that an author gets.
const NOTE: &str =
    "  note: it uses cells: at tag, price and veto any worker may ask, each has cells of \
    its own, and they stay over programs\n  keep in counters what all are to see \
    (docs/use/OPERATING.md, What programs keep)\n";

/// Whether the address of the cells is loaded here.
fn loads_cells(slot: &Slot) -> bool
    ensures { result ≡ loads_cells slot.now }
{
    match slot {
        Slot::Start(Instruction::LoadMap { map, .. }) => *map == 1,
        _ => false,
    }
}

/// Whether any worker may ask at this hook. At `count` it is the one of the interface on which the
/// packet came.
fn may_any_ask(hook: Hook) -> bool
    ensures { result ≡ may_any_ask hook }
{
    match hook {
        Hook::Count => false,
        _ => true,
    }
}

fn is_any_loading(slots: &[Slot]) -> bool
    ensures { result ≡ list_any loads_cells slots.now }
{
    slots.iter().any(|slot| loads_cells(slot))
}

/// Whether the program finds in its cells what it kept there on one worker alone, though any may
/// ask.
fn has_cells_of_many(program: &Accepted) -> bool
    ensures { result ≡ has_cells_of_many program.now }
{
    may_any_ask(program.hook()) && is_any_loading(program.slots())
}

/// The report on the program's cells: nothing, unless it uses some where any worker may ask.
pub(crate) fn cells_note(program: &Accepted) -> &'static str
    ensures { result.now ≡ cells_note program.now }
{
    if has_cells_of_many(program) { NOTE } else { "" }
}
