//! What is stated of a register.
use crate::number::StatedNumber;
use crate::offset::{ContextOffset, StackOffset};
use isa::Map;

/// What a statement says that a register holds.
#[derive(Clone, Copy, PartialEq, Eq)]
pub enum StatedKind {
    /// Nothing is stated: it may be empty or hold anything, so the program has to write it before
    /// it reads it. Kind 0 of the format, which calls it empty.
    Unstated,
    /// One of these numbers.
    Number(StatedNumber),
    /// A pointer into the context.
    Context(ContextOffset),
    /// A pointer into the stack.
    Stack(StackOffset),
    /// A pointer into a map, whose offset is one of these numbers.
    MapValue(Map, StatedNumber),
}

impl StatedKind {
    ghost use Rattle.object.specs.Statements.{IsKind};

    /// For the prover alone: tells it that each part is in the range that its type guarantees. It
    /// does nothing at run time.
    pub fn prove_ranges(&self)
        ensures { IsKind self.now }
    {
        match self {
            StatedKind::Unstated => {}
            StatedKind::Number(numbers) | StatedKind::MapValue(_, numbers) => {
                let _low = numbers.low();
            }
            StatedKind::Context(offset) => {
                let _bytes = offset.bytes();
            }
            StatedKind::Stack(offset) => {
                let _bytes = offset.bytes();
            }
        }
    }
}
