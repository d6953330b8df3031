//! Laws of assembly texts. Each function does nothing: what it ensures holds for all texts and all
//! objects.
ghost use Rattle.std.specs.Prelude.{◌≡◌, ℕ, List};
ghost use Rattle.object.specs.Objects.{ObjectParts};
ghost use Rattle.asm.specs.Assembling.{TextSpells, Refuses};
ghost use Rattle.asm.specs.declared.error.AsmFault.{AsmFault};

use crate::reading::one_reading;
use isa::laws::code_has_one_spelling;

/// A text spells at most one object.
pub fn text_spells_one_object()
    ensures { (text : List ℕ) (a b : ObjectParts) → TextSpells text a → TextSpells text b → a ≡ b }
{
    one_reading();
    code_has_one_spelling();
}

/// A text with a bad line, or without an instruction, spells no object.
pub fn refused_text_spells_none()
    ensures { (text : List ℕ) (line : ℕ) (fault : AsmFault) (object : ObjectParts)
        → Refuses text line fault → TextSpells text object → ⊥ }
{
    one_reading();
}
