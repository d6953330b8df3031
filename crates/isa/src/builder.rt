//! Code built instruction by instruction, as an assembler does.
ghost use Rattle.std.specs.Prelude.{◌≡◌, ◌+◌, ◌≤◌, ◌<◌, ◌++◌, ◌↔◌, [], length, IsSome, IfSome};
ghost use Rattle.std.specs.Prelude.{IsTrue, OnOk, OnErr, Err};
ghost use Rattle.isa.specs.Code.{slots_of};

use crate::code::{Code, MAX_SLOTS, Slot};
use crate::instruction::Instruction;
use std::alloc::{AllocError, Global};
use std::marker::Model;
use thiserror::Error;

/// Why an instruction was not added.
#[derive(Clone, Copy, PartialEq, Eq, Debug, Error)]
pub enum BuildError {
    /// The code would have more than 4096 slots.
    #[error("the code would be longer than 4096 slots")]
    TooLong,
    /// Memory ran out.
    #[error("out of memory")]
    Memory,
}

/// The instructions of a program so far, as their slots: 0 to 4096 of them.
#[derive(Drop)]
pub struct CodeBuilder {
    slots: Vec<Slot>,
}

impl Model for CodeBuilder {
    ghost use Rattle.std.specs.Prelude.{List};
    ghost use Rattle.isa.specs.declared.code.Slot.{Slot};
    ghost use Rattle.isa.specs.Code.{IsPart};

    ghost Value = { List Slot };

    ghost view = { λ builder. builder.slots.items };

    ghost invariant = { λ builder. IsPart builder.slots.items };
}

impl CodeBuilder {
    /// The builder with no instruction.
    pub fn new(alloc: Global) -> CodeBuilder
        ensures { result ≡ [] }
    {
        CodeBuilder {
            slots: Vec::new(alloc),
        }
    }

    /// The number of slots that the instructions take so far, which is where the next one begins.
    pub fn len(&self) -> usize
        ensures value { result ≡ length self.now }
        ensures within { result ≤ 4096 }
    {
        self.slots.len()
    }

    /// Whether there is no instruction yet.
    pub fn is_empty(&self) -> bool
        ensures { IsTrue result ↔ (length self.now ≡ 0) }
    {
        self.slots.is_empty()
    }

    /// Adds an instruction, in one slot or two.
    ///
    /// # Errors
    /// `TooLong` if and only if there would be more than 4096 slots, `Memory` if an allocation is
    /// refused. The builder is then unchanged.
    pub fn push(&mut self, instruction: Instruction) -> Result<(), BuildError>
        ensures ok { OnOk result (self.new ≡ self.old ++ slots_of instruction) }
        ensures too_long { (result ≡ Err BuildError.TooLong)
            ↔ (4096 < length self.old + length (slots_of instruction)) }
        ensures err { OnErr result (self.new ≡ self.old) }
    {
        // For the prover alone, by what the call ensures.
        instruction.prove_ranges();
        let is_wide = instruction.is_wide();
        let taken = if is_wide { 2 } else { 1 };
        if self.slots.len() + taken > MAX_SLOTS {
            return Err(BuildError::TooLong);
        }
        match push_slots(&mut self.slots, instruction) {
            Ok(()) => Ok(()),
            Err(_) => Err(BuildError::Memory),
        }
    }

    /// The code of these instructions; `None` if there are none.
    pub fn finish(self) -> Option<Code>
        ensures code { IfSome result (λ code. code ≡ self) }
        ensures some { IsSome result ↔ (1 ≤ length self) }
    {
        let CodeBuilder { slots } = self;
        if slots.is_empty() {
            None
        } else {
            Some(Code::new(slots))
        }
    }
}

/// Adds the slots of an instruction, all of them or none.
pub(crate) fn push_slots(slots: &mut Vec<Slot>, instruction: Instruction) -> Result<(), AllocError>
    ensures ok { OnOk result (slots.new.items ≡ slots.old.items ++ slots_of instruction) }
    ensures err { OnErr result (slots.new.items ≡ slots.old.items) }
{
    if instruction.is_wide() {
        slots.extend_from_slice(&[Slot::Start(instruction), Slot::SecondHalf])
    } else {
        slots.extend_from_slice(&[Slot::Start(instruction)])
    }
}
