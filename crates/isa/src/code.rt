//! Code: instructions at their slots.
use crate::instruction::Instruction;
use std::marker::Model;

/// The greatest number of slots that code may have.
pub const MAX_SLOTS: usize = 4096;

/// Eight bytes of the code.
#[derive(Clone, Copy, PartialEq, Eq)]
pub enum Slot {
    /// The first, or only, slot of an instruction.
    Start(Instruction),
    /// The second half of the wide instruction that begins in the slot before.
    SecondHalf,
}

/// A program's code: from 1 to 4096 slots, in which each wide instruction has its second half.
#[derive(Drop)]
pub struct Code {
    slots: Vec<Slot>,
}

impl Model for Code {
    ghost use Rattle.std.specs.Prelude.{List};
    ghost use Rattle.isa.specs.declared.code.Slot.{Slot};
    ghost use Rattle.isa.specs.Code.{IsCode};

    ghost Value = { List Slot };

    ghost view = { λ code. code.slots.items };

    ghost invariant = { λ code. IsCode code.slots.items };
}

impl Code {
    ghost use Rattle.std.specs.Prelude.{◌≡◌, ◌≤◌, ◌<◌, IfSome, length, slice_get};
    ghost use Rattle.isa.specs.declared.code.Slot.{Slot};
    ghost use Rattle.isa.specs.Code.{IsCode};

    pub(crate) fn new(slots: Vec<Slot>) -> Self
        requires { IsCode slots.items }
        ensures { result ≡ slots.items }
    {
        Code { slots }
    }

    /// The number of slots, 1 to 4096.
    pub fn len(&self) -> usize
        ensures value { result ≡ length self.now }
        ensures some { 1 ≤ result }
        ensures most { result ≤ 4096 }
    {
        self.slots.len()
    }

    /// Its slots, in order.
    pub fn slots(&self) -> &[Slot]
        ensures value { result.now ≡ self.now }
        ensures code { IsCode self.now }
    {
        &self.slots
    }

    /// Consumes the code and returns its slots.
    pub fn into_slots(self) -> Vec<Slot>
        ensures value { result.items ≡ self }
        ensures code { IsCode self }
    {
        let Code { slots } = self;
        slots
    }

    /// What is at a slot; `None` past the end.
    pub fn at(&self, slot: u64) -> Option<Slot>
        ensures value { result ≡ slice_get self.now slot }
        ensures within { IfSome result (λ _. slot < 4096) }
    {
        self.slots.get(slot as usize).copied()
    }
}
