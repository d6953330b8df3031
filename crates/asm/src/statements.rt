//! Statements: what `state`, `with` and `bytes` lines say.
ghost use Rattle.std.specs.Prelude.{◌≡◌, map, option_map, MatchResult, MatchOption, IfOk};
ghost use Rattle.asm.specs.Assembling.{is_empty, all_of, AreUnlawful};
ghost use Rattle.asm.specs.Views.{parts_of};
ghost use Rattle.asm.specs.declared.error.AsmFault.{AsmFault};
ghost use Rattle.asm.specs.Rules.{is_stated_number, term_of, rank_of, slot_of, numbers_of, map_of};
ghost use Rattle.asm.specs.Rules.{kind_of, bytes_of};

use crate::error::AsmFault;
use crate::line::{AssemblyLine, LabelOrNumber, Range, RegisterContent, Term, Terms};
use crate::numbers::{natural_32, natural_64};
use crate::numeral::Numeral;
use isa::{Map, Register};
use object::{
    ContextOffset, Rank, RankTerm, StackBytes, StackOffset, StatedKind, StatedNumber, Statement,
};
use std::alloc::{AllocError, Global};

/// Whether a line of the statement, among the lines that follow, says that the register is a
/// number. The statement ends at the next `state` line.
fn is_stated_number(rest: &[Option<AssemblyLine>], register: Register) -> bool
    ensures { result ≡ is_stated_number rest.now register }
{
    for line in rest {
        match *line {
            Some(AssemblyLine::State { .. }) => return false,
            Some(
                AssemblyLine::With {
                    register: found,
                    content: RegisterContent::Number(_),
                },
            ) => {
                if found.number() == register.number() {
                    return true;
                }
            }
            _ => {}
        }
    }
    false
}

/// A term of the rank: `Some(None)` for `r0 * 0`, and `None` if no object can hold it.
fn term_of(term: Term, rest: &[Option<AssemblyLine>]) -> Option<Option<RankTerm>>
    ensures { result ≡ term_of rest.now term }
{
    let coefficient = natural_32(term.coefficient)?;
    if coefficient == 0 {
        return if term.register.number() == 0 {
            Some(None)
        } else {
            None
        };
    }
    if !is_stated_number(rest, term.register) {
        return None;
    }
    let term = RankTerm::new(term.register.number(), coefficient)?;
    Some(Some(term))
}

/// The rank of a `state` line that is followed by the lines `rest`; `None` if no object can hold
/// it.
pub(crate) fn rank_of(
    constant: Numeral,
    terms: Terms,
    rest: &[Option<AssemblyLine>],
) -> Option<Rank>
    ensures { result ≡ rank_of constant terms rest.now }
{
    let constant = natural_32(constant)?;
    match terms {
        Terms::None => Some(Rank {
            constant,
            first: None,
            second: None,
        }),
        Terms::One(first) => {
            let first = term_of(first, rest)?;
            Some(Rank {
                constant,
                first,
                second: None,
            })
        }
        Terms::Two(first, second) => {
            let first = term_of(first, rest)?;
            let second = term_of(second, rest)?;
            Some(Rank {
                constant,
                first,
                second,
            })
        }
    }
}

/// The slot of a `state` line; `place` is the slot that its label names.
pub(crate) fn slot_of(slot: LabelOrNumber, place: Option<usize>) -> Result<u64, AsmFault>
    ensures { result ≡ slot_of slot place }
{
    match slot {
        LabelOrNumber::Number(number) => match natural_64(number) {
            Some(slot) => Ok(slot),
            None => Err(AsmFault::Range),
        },
        LabelOrNumber::Label => match place {
            Some(slot) => Ok(slot as u64),
            None => Err(AsmFault::Label),
        },
    }
}

fn numbers_of(range: Range) -> Option<StatedNumber>
    ensures { result ≡ numbers_of range }
{
    let low = natural_64(range.low)?;
    let high = natural_64(range.high)?;
    let mask = natural_64(range.mask)?;
    let value = natural_64(range.value)?;
    StatedNumber::new(low, high, mask, value)
}

fn map_of(map: Numeral) -> Option<Map>
    ensures { result ≡ map_of map }
{
    let map = natural_32(map)?;
    match map {
        0 => Some(Map::Counters),
        1 => Some(Map::Cells),
        _ => None,
    }
}

/// What a `with` line says of its register; `None` if no object can hold it.
pub(crate) fn kind_of(content: RegisterContent) -> Option<StatedKind>
    ensures { result ≡ kind_of content }
{
    match content {
        RegisterContent::Number(range) => {
            let numbers = numbers_of(range)?;
            Some(StatedKind::Number(numbers))
        }
        RegisterContent::Context(offset) => {
            let offset = natural_32(offset)?;
            let offset = ContextOffset::new(offset)?;
            Some(StatedKind::Context(offset))
        }
        RegisterContent::Stack(offset) => {
            let offset = natural_32(offset)?;
            let offset = StackOffset::new(offset)?;
            Some(StatedKind::Stack(offset))
        }
        RegisterContent::Map { map, offset } => {
            let map = map_of(map)?;
            let numbers = numbers_of(offset)?;
            Some(StatedKind::MapValue(map, numbers))
        }
    }
}

/// The bytes of a `bytes` line, from the first up to but excluding the second. `None` if they are
/// out of order or past the stack's end.
pub(crate) fn bytes_of(start: Numeral, end: Numeral) -> Option<(usize, usize)>
    ensures { result ≡ bytes_of start end }
{
    let start = natural_32(start)? as usize;
    let end = natural_32(end)? as usize;
    if start <= end && end <= 512 {
        Some((start, end))
    } else {
        None
    }
}

/// A statement that lines may still add to.
#[derive(Clone, Copy)]
pub(crate) struct OpenStatement {
    pub slot: u32,
    pub rank: Rank,
    pub kinds: [StatedKind; 10],
    pub stack: StackBytes,
}

/// Whether nothing is stated of the register yet.
fn is_empty(kind: StatedKind) -> bool
    ensures { result ≡ is_empty kind }
{
    matches!(kind, StatedKind::Unstated)
}

impl OpenStatement {
    ghost use Rattle.std.specs.Prelude.{◌≡◌, ◌↔◌, IsSome, IfSome};
    ghost use Rattle.object.specs.Statements.{IsRankOver};
    ghost use Rattle.asm.specs.Assembling.{bare, with_step, bytes_step, Answers};
    ghost use Rattle.asm.specs.Views.{parts_of};

    pub(crate) fn new(slot: u32, rank: Rank) -> OpenStatement
        ensures { parts_of result ≡ bare slot rank }
    {
        OpenStatement {
            slot,
            rank,
            kinds: [StatedKind::Unstated; 10],
            stack: StackBytes::new(),
        }
    }

    /// The statement with what a `with` line says added.
    pub(crate) fn with(
        self,
        register: Register,
        content: RegisterContent,
    ) -> Result<OpenStatement, AsmFault>
        ensures { Answers parts_of result (with_step (parts_of self) register content) }
    {
        let Some(kind) = kind_of(content) else {
            return Err(AsmFault::Range);
        };
        let index = register.index();
        if index > 9 {
            return Err(AsmFault::Range);
        }
        let mut open = self;
        if !is_empty(open.kinds[index]) {
            return Err(AsmFault::Twice);
        }
        open.kinds[index] = kind;
        Ok(open)
    }

    /// The statement with what a `bytes` line says added.
    pub(crate) fn bytes(self, start: Numeral, end: Numeral) -> Result<OpenStatement, AsmFault>
        ensures { Answers parts_of result (bytes_step (parts_of self) start end) }
    {
        match bytes_of(start, end) {
            Some((start, end)) => {
                let mut open = self;
                open.stack.insert_range(start, end);
                Ok(open)
            }
            None => Err(AsmFault::Range),
        }
    }

    /// The complete statement; `None` if its rank names a register that it doesn't state as a
    /// number.
    pub(crate) fn close(self) -> Option<Statement>
        ensures some { IsSome result ↔ IsRankOver self.kinds self.rank }
        ensures value { IfSome result (λ statement. statement ≡ parts_of self) }
    {
        let OpenStatement {
            slot,
            rank,
            kinds,
            stack,
        } = self;
        Statement::new(slot, rank, kinds, stack)
    }
}

/// Appends the last statement, if there is one, to those before it.
pub(crate) fn push_open(
    before: &mut Vec<OpenStatement>,
    last: Option<OpenStatement>,
) -> Result<(), AsmFault>
    ensures { MatchResult result (λ _. map parts_of before.new.items
        ≡ all_of (map parts_of before.old.items) (option_map parts_of last)) (λ fault. fault
        ≡ AsmFault.Memory) }
{
    // Names the types of a statement's parts; the generated proof has to know their modules.
    let _rank: Option<(Rank, RankTerm, StackBytes)> = None;
    let _kind: Option<(StatedKind, StatedNumber, ContextOffset, StackOffset, Map)> = None;
    match last {
        Some(open) => match before.push(open) {
            Ok(()) => Ok(()),
            Err(_) => Err(AsmFault::Memory),
        },
        None => Ok(()),
    }
}

/// All statements, the last one included; `None` if the rank of one names a register that it
/// doesn't state as a number.
pub(crate) fn statements_of(
    alloc: Global,
    before: &[OpenStatement],
    last: Option<OpenStatement>,
) -> Result<Option<Vec<Statement>>, AllocError>
    ensures { IfOk result (λ found. MatchOption found (AreUnlawful (all_of (map parts_of before.now)
        (option_map parts_of last))) (λ statements. statements.items
        ≡ all_of (map parts_of before.now) (option_map parts_of last))) }
{
    let mut statements = Vec::new(alloc);
    for open in before {
        let open = *open;
        let Some(statement) = open.close() else {
            return Ok(None);
        };
        statements.push(statement)?;
    }
    if let Some(open) = last {
        let Some(statement) = open.close() else {
            return Ok(None);
        };
        statements.push(statement)?;
    }
    Ok(Some(statements))
}
