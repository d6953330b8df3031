//! A line of assembly as a value.
use crate::numeral::Numeral;
use isa::{
    ByteOrder, Extension, Hook, LoadSize, Operation, Register, StoreSize, SwapWidth, Test, Width,
};

/// The second operand of an instruction, as a line writes it.
#[derive(Clone, Copy)]
pub enum Operand {
    Register(Register),
    Number(Numeral),
}

/// Where a jump goes, or which slot a statement is for: a number, or the label that the line names.
#[derive(Clone, Copy)]
pub enum LabelOrNumber {
    Number(Numeral),
    Label,
}

/// A register of a rank, with its coefficient.
#[derive(Clone, Copy)]
pub struct Term {
    pub register: Register,
    pub coefficient: Numeral,
}

/// The registers of a rank.
#[derive(Clone, Copy)]
pub enum Terms {
    None,
    One(Term),
    Two(Term, Term),
}

/// A set of numbers: those from `low` to `high` whose bits under `mask` are `value`.
#[derive(Clone, Copy)]
pub struct Range {
    pub low: Numeral,
    pub high: Numeral,
    pub mask: Numeral,
    pub value: Numeral,
}

/// What a statement says of a register.
#[derive(Clone, Copy)]
pub enum RegisterContent {
    Number(Range),
    Context(Numeral),
    Stack(Numeral),
    Map { map: Numeral, offset: Range },
}

/// What a line says. Its numbers are as written, whether or not a field can hold them; the name of
/// a label is kept beside it.
#[derive(Clone, Copy)]
pub enum AssemblyLine {
    Empty,
    Hook(Hook),
    Rank(Numeral),
    /// The line gives the next slot the name that is kept beside it.
    Label,
    Arithmetic {
        width: Width,
        operation: Operation,
        target: Register,
        source: Operand,
    },
    Negate {
        width: Width,
        target: Register,
    },
    SignExtend {
        extension: Extension,
        target: Register,
        source: Register,
    },
    Reorder {
        order: ByteOrder,
        width: SwapWidth,
        target: Register,
    },
    Jump(LabelOrNumber),
    LongJump(LabelOrNumber),
    Branch {
        width: Width,
        test: Test,
        left: Register,
        right: Operand,
        target: LabelOrNumber,
    },
    Call(Numeral),
    Exit,
    Load {
        size: LoadSize,
        target: Register,
        base: Register,
        offset: Numeral,
    },
    Store {
        size: StoreSize,
        base: Register,
        offset: Numeral,
        source: Operand,
    },
    LoadNumber {
        target: Register,
        number: Numeral,
    },
    LoadMap {
        target: Register,
        map: Numeral,
        offset: Numeral,
    },
    State {
        slot: LabelOrNumber,
        constant: Numeral,
        terms: Terms,
    },
    With {
        register: Register,
        content: RegisterContent,
    },
    Bytes {
        start: Numeral,
        end: Numeral,
    },
}

impl Operand {
    ghost use Rattle.asm.specs.Forms.{IsOperand};

    /// For the prover alone: tells it that a register is one of r0 to r10. It does nothing at run
    /// time.
    fn prove_ranges(&self)
        ensures { IsOperand self.now }
    {
        match *self {
            Operand::Register(register) => {
                let _ = register.number();
            }
            Operand::Number(_number) => {}
        }
    }
}

impl Terms {
    ghost use Rattle.asm.specs.Forms.{AreTerms};

    /// For the prover alone: tells it that the registers are among r0 to r10. It does nothing at
    /// run time.
    fn prove_ranges(&self)
        ensures { AreTerms self.now }
    {
        match *self {
            Terms::None => {}
            Terms::One(term) => {
                let _ = term.register.number();
            }
            Terms::Two(first, second) => {
                let _ = first.register.number();
                let _ = second.register.number();
            }
        }
    }
}

impl AssemblyLine {
    ghost use Rattle.asm.specs.Forms.{IsLine};

    /// For the prover alone: tells it that each register of the line is one of r0 to r10, as its
    /// type guarantees. It does nothing at run time.
    pub fn prove_ranges(&self)
        ensures { IsLine self.now }
    {
        match *self {
            AssemblyLine::Arithmetic { target, source, .. } => {
                let _ = target.number();
                source.prove_ranges();
            }
            AssemblyLine::Branch { left, right, .. } => {
                let _ = left.number();
                right.prove_ranges();
            }
            AssemblyLine::Store { base, source, .. } => {
                let _ = base.number();
                source.prove_ranges();
            }
            AssemblyLine::SignExtend { target, source, .. } => {
                let _ = target.number();
                let _ = source.number();
            }
            AssemblyLine::Load { target, base, .. } => {
                let _ = target.number();
                let _ = base.number();
            }
            AssemblyLine::Negate { target, .. }
            | AssemblyLine::Reorder { target, .. }
            | AssemblyLine::LoadNumber { target, .. }
            | AssemblyLine::LoadMap { target, .. } => {
                let _ = target.number();
            }
            AssemblyLine::With { register, .. } => {
                let _ = register.number();
            }
            AssemblyLine::State { terms, .. } => terms.prove_ranges(),
            _ => {}
        }
    }
}

/// A line of a text: what it says, and the name of the label that it defines or uses, empty if
/// there is none.
#[derive(Clone, Copy)]
pub(crate) struct Item<'a> {
    pub line: AssemblyLine,
    pub name: &'a str,
}

impl Item<'_> {
    ghost use Rattle.std.specs.Prelude.{◌≡◌};
    ghost use Rattle.asm.specs.LineViews.{item_view};
    ghost use Rattle.asm.specs.Reading.{plain};

    /// A line that neither defines nor uses a label.
    pub(crate) fn plain(line: AssemblyLine) -> Item<'static>
        ensures { item_view result ≡ plain line }
    {
        Item { line, name: "" }
    }
}
