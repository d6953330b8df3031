//! Instructions as values (RFC 9669, sections 4 and 5).
use crate::register::Register;

/// How many of a register's bits an instruction works on.
#[derive(Clone, Copy, PartialEq, Eq)]
pub enum Width {
    Bits32,
    Bits64,
}

/// What an arithmetic instruction does with its two operands.
#[derive(Clone, Copy, PartialEq, Eq)]
pub enum Operation {
    Add,
    Subtract,
    Multiply,
    Divide,
    SignedDivide,
    Or,
    And,
    ShiftLeft,
    ShiftRight,
    Modulo,
    SignedModulo,
    Xor,
    Move,
    ArithmeticShiftRight,
}

/// The comparison that a conditional jump makes.
#[derive(Clone, Copy, PartialEq, Eq)]
pub enum Test {
    Equal,
    Greater,
    GreaterOrEqual,
    AnyBitSet,
    NotEqual,
    SignedGreater,
    SignedGreaterOrEqual,
    Less,
    LessOrEqual,
    SignedLess,
    SignedLessOrEqual,
}

/// The second operand: a number in the instruction, or a register.
#[derive(Clone, Copy, PartialEq, Eq)]
pub enum Source {
    Immediate(i32),
    Register(Register),
}

/// A sign-extending move (MOVSX), from its size to that of the destination.
#[derive(Clone, Copy, PartialEq, Eq)]
pub enum Extension {
    Byte(Width),
    Half(Width),
    Word,
}

/// What an END instruction does with the low bytes of a register.
#[derive(Clone, Copy, PartialEq, Eq)]
pub enum ByteOrder {
    Little,
    Big,
    Swap,
}

/// How many bits an END instruction keeps.
#[derive(Clone, Copy, PartialEq, Eq)]
pub enum SwapWidth {
    Bits16,
    Bits32,
    Bits64,
}

/// What a load reads, and how it fills the register.
#[derive(Clone, Copy, PartialEq, Eq)]
pub enum LoadSize {
    Unsigned8,
    Unsigned16,
    Unsigned32,
    Unsigned64,
    Signed8,
    Signed16,
    Signed32,
}

/// How many bits a store writes.
#[derive(Clone, Copy, PartialEq, Eq)]
pub enum StoreSize {
    Bits8,
    Bits16,
    Bits32,
    Bits64,
}

/// One instruction. A jump's distance counts slots from the slot after the jump.
#[derive(Clone, Copy, PartialEq, Eq)]
pub enum Instruction {
    Arithmetic {
        width: Width,
        operation: Operation,
        target: Register,
        source: Source,
    },
    Negate {
        width: Width,
        target: Register,
    },
    SignExtend {
        extension: Extension,
        target: Register,
        source: Register,
    },
    Reorder {
        order: ByteOrder,
        width: SwapWidth,
        target: Register,
    },
    Jump {
        distance: i16,
    },
    LongJump {
        distance: i32,
    },
    Branch {
        width: Width,
        test: Test,
        left: Register,
        right: Source,
        distance: i16,
    },
    Call {
        helper: i32,
    },
    Exit,
    Load {
        size: LoadSize,
        target: Register,
        base: Register,
        offset: i16,
    },
    Store {
        size: StoreSize,
        base: Register,
        offset: i16,
        source: Source,
    },
    LoadNumber {
        target: Register,
        number: u64,
    },
    LoadMap {
        target: Register,
        map: i32,
        offset: i32,
    },
}

impl Instruction {
    ghost use Rattle.std.specs.Prelude.{◌≡◌};
    ghost use Rattle.isa.specs.Code.{is_wide, IsAccess, IsInstruction, IsSource};

    /// Whether it takes two slots.
    pub fn is_wide(&self) -> bool
        ensures { result ≡ is_wide self.now }
    {
        matches!(
            self,
            Instruction::LoadNumber { .. } | Instruction::LoadMap { .. }
        )
    }

    /// For the prover alone: tells it that every part is in the range that its type guarantees. It
    /// does nothing at run time.
    pub fn prove_ranges(&self)
        ensures { IsInstruction self.now }
    {
        match *self {
            Instruction::Arithmetic { target, source, .. } => {
                let _ = target.number();
                source.prove_ranges();
            }
            Instruction::Negate { target, .. } | Instruction::Reorder { target, .. } => {
                let _ = target.number();
            }
            Instruction::SignExtend { target, source, .. } => {
                let _ = target.number();
                let _ = source.number();
            }
            Instruction::Branch {
                left,
                right,
                distance: _distance,
                ..
            } => {
                let _ = left.number();
                right.prove_ranges();
            }
            Instruction::Load { .. }
            | Instruction::Store { .. }
            | Instruction::LoadNumber { .. }
            | Instruction::LoadMap { .. } => self.check_access_ranges(),
            Instruction::Jump {
                distance: _distance,
            } => {}
            Instruction::LongJump {
                distance: _distance,
            } => {}
            Instruction::Call { helper: _helper } => {}
            Instruction::Exit => {}
        }
    }

    /// For the prover alone: tells it so of a load or a store. Of other instructions it says
    /// nothing.
    fn check_access_ranges(&self)
        ensures { IsAccess self.now }
    {
        match *self {
            Instruction::Load {
                target,
                base,
                offset: _offset,
                ..
            } => {
                let _ = target.number();
                let _ = base.number();
            }
            Instruction::Store {
                base,
                source,
                offset: _offset,
                ..
            } => {
                let _ = base.number();
                source.prove_ranges();
            }
            Instruction::LoadNumber {
                target,
                number: _number,
            } => {
                let _ = target.number();
            }
            Instruction::LoadMap {
                target,
                map: _map,
                offset: _offset,
            } => {
                let _ = target.number();
            }
            _ => {}
        }
    }
}

impl Source {
    ghost use Rattle.isa.specs.Code.{IsSource};

    /// For the prover alone: tells it that the number or the register is in the range that its type
    /// guarantees. It does nothing at run time.
    pub fn prove_ranges(&self)
        ensures { IsSource self.now }
    {
        match *self {
            Source::Immediate(_number) => {}
            Source::Register(register) => {
                let _ = register.number();
            }
        }
    }
}
