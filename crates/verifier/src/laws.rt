//! Examples of programs that are plain, and of programs that aren't.
ghost use Rattle.std.specs.Prelude.{[], ◌∷◌, pos};
ghost use Rattle.isa.specs.declared.code.Slot.TheVariants.{Start};
ghost use Rattle.isa.specs.declared.instruction.Instruction.TheVariants.{Call, Exit};
ghost use Rattle.isa.specs.declared.instruction.Source.TheVariants.{Immediate, Register};
ghost use Rattle.object.specs.declared.kind.StatedKind.TheVariants.{Unstated};
ghost use Rattle.kinds.specs.Stated.{any_number};
ghost use Rattle.verifier.specs.Examples.{then_exit, endless_code, move_of};
ghost use Rattle.verifier.specs.Examples.{only_seven, says, says_byte};
ghost use Rattle.verifier.specs.Examples.{says_term, seven, tested_code};
ghost use Rattle.verifier.specs.Plain.{IsPlain};

/// `r0 = 7; if r0 == 0 goto L; L: exit` is a plain program if r0 is stated as any number at L.
pub fn a_test_of_a_number_is_plain()
    ensures { IsPlain tested_code 0 (says 2 any_number 0 ∷ []) }
{}

/// These are not plain: a call, a read of a register that nothing filled, a write of r10, code that
/// falls off its end, a bound that is too large, a jump to a slot without a statement, and an
/// instruction that nothing leads to.
pub fn these_codes_are_not_plain()
    ensures call { IsPlain (then_exit (Call (pos 3))) 0 [] → ⊥ }
    ensures empty { IsPlain (then_exit (move_of 0 (Register 2))) 0 [] → ⊥ }
    ensures frame { IsPlain (Start (move_of 10 (Immediate (pos 7))) ∷ then_exit seven) 0 [] → ⊥ }
    ensures ends { IsPlain (Start seven ∷ []) 0 [] → ⊥ }
    ensures budget { IsPlain (then_exit seven) 500000 [] → ⊥ }
    ensures unstated { IsPlain tested_code 0 [] → ⊥ }
    ensures unreached { IsPlain (Start seven ∷ then_exit Exit) 0 [] → ⊥ }
{}

/// A program is not plain with a statement for a slot where no instruction begins, or one that says
/// which numbers a register may hold, which stack bytes are bytes of numbers, or a rank that isn't
/// a constant.
pub fn these_statements_are_not_plain()
    ensures stray { IsPlain (then_exit seven) 0 (says 5 Unstated 0 ∷ []) → ⊥ }
    ensures numbers { IsPlain (then_exit seven) 0 (says 1 only_seven 0 ∷ []) → ⊥ }
    ensures bytes { IsPlain (then_exit seven) 0 (says_byte ∷ []) → ⊥ }
    ensures term { IsPlain (then_exit seven) 0 (says_term ∷ []) → ⊥ }
{}

/// A program is not plain if a statement requires a register that nothing filled, or has a rank
/// above the one before, or one that isn't less on a backward jump.
pub fn these_edges_are_not_plain()
    ensures unfilled { IsPlain (Start (move_of 1 (Immediate (pos 7))) ∷ then_exit seven) 0
        (says 1 any_number 0 ∷ []) → ⊥ }
    ensures entry_unfilled { IsPlain (then_exit seven) 0 (says 0 any_number 0 ∷ []) → ⊥ }
    ensures rises { IsPlain (then_exit seven) 0 (says 1 any_number 1 ∷ []) → ⊥ }
    ensures entry_rises { IsPlain (then_exit seven) 0 (says 0 Unstated 1 ∷ []) → ⊥ }
    ensures stays { IsPlain endless_code 0 (says 0 Unstated 0 ∷ []) → ⊥ }
{}
