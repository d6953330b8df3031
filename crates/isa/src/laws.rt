//! Laws of the encoding and of code. Each function does nothing: what it ensures holds for all
//! bytes and all code.
ghost use Rattle.std.specs.Prelude.{◌≡◌, ◌≢◌, ℕ, List};
ghost use Rattle.isa.specs.declared.code.Slot.{Slot};
ghost use Rattle.isa.specs.declared.decoding.DecodeFault.{DecodeFault};
ghost use Rattle.isa.specs.Spelling.{Spells};
ghost use Rattle.isa.specs.Refusals.{Refuses};
ghost use Rattle.isa.specs.Laws.{WideHasSecondHalf, InstructionIsFollowed, OneEndsAtASlot};

/// Bytes spell at most one code.
pub fn bytes_spell_one_code()
    ensures { (bytes : List ℕ) (a b : List Slot) → Spells bytes a → Spells bytes b → a ≡ b }
{}

/// A code has one spelling.
pub fn code_has_one_spelling()
    ensures { (a b : List ℕ) (code : List Slot) → Spells a code → Spells b code → a ≡ b }
{}

/// Bytes that are refused for a reason other than memory spell no code.
pub fn refused_bytes_spell_no_code()
    ensures { (bytes : List ℕ) (slot : ℕ) (fault : DecodeFault) (code : List Slot)
        → Refuses bytes slot fault → fault ≢ DecodeFault.Memory → Spells bytes code → ⊥ }
{}

/// The slot after the first one of a wide instruction holds its second half (RFC 9669, section
/// 5.4).
pub fn a_wide_instruction_has_its_second_half()
    ensures { WideHasSecondHalf }
{}

/// After an instruction the code ends, or another instruction begins.
pub fn an_instruction_is_followed()
    ensures { InstructionIsFollowed }
{}

/// Two instructions that end at the same slot begin at the same slot.
pub fn one_instruction_ends_at_a_slot()
    ensures { OneEndsAtASlot }
{}
