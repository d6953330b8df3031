//! From the numbers in a register's or a rank's bytes to what they state, if they are valid.
ghost use Rattle.std.specs.Prelude.{◌≡◌, ◌↔◌, IfSome, IsTrue, Option, Some};
ghost use Rattle.object.specs.declared.kind.StatedKind.{StatedKind};
ghost use Rattle.object.specs.declared.rank.Rank.{Rank};
ghost use Rattle.object.specs.Numbers.{Term};
ghost use Rattle.object.specs.Statements.{IsKind, IsRank, IsTermOrNone};
ghost use Rattle.object.specs.Spelling.{fields_of_kind, fields_of_rank, term_coefficient};
ghost use Rattle.object.specs.Spelling.{term_register};

use crate::fields::{RankFields, RegisterFields};
use crate::kind::StatedKind;
use crate::number::StatedNumber;
use crate::offset::{ContextOffset, StackOffset};
use crate::rank::{Rank, RankTerm};
use isa::Map;

/// Whether the numbers that only a number or a map value has are zero.
fn has_no_numbers(fields: RegisterFields) -> bool
    ensures { IsTrue result ↔ ((fields.low ≡ 0) × (fields.high ≡ 0) × (fields.mask ≡ 0)
        × (fields.value ≡ 0)) }
{
    fields.low == 0 && fields.high == 0 && fields.mask == 0 && fields.value == 0
}

/// A register of which nothing is stated.
fn empty(fields: RegisterFields) -> Option<StatedKind>
    requires kind { fields.kind ≡ 0 }
    requires unused { fields.unused ≡ 0 }
    ensures found { IfSome result (λ kind. (fields_of_kind kind ≡ fields) × IsKind kind) }
    ensures only { (kind : StatedKind) → IsKind kind → fields_of_kind kind ≡ fields
        → result ≡ Some kind }
{
    if fields.map == 0 && fields.offset == 0 && has_no_numbers(fields) {
        Some(StatedKind::Unstated)
    } else {
        None
    }
}

/// A register that holds a number.
fn number(fields: RegisterFields) -> Option<StatedKind>
    requires kind { fields.kind ≡ 1 }
    requires unused { fields.unused ≡ 0 }
    ensures found { IfSome result (λ kind. (fields_of_kind kind ≡ fields) × IsKind kind) }
    ensures only { (kind : StatedKind) → IsKind kind → fields_of_kind kind ≡ fields
        → result ≡ Some kind }
{
    if fields.map != 0 || fields.offset != 0 {
        return None;
    }
    let Some(numbers) = StatedNumber::new(fields.low, fields.high, fields.mask, fields.value) else {
        return None;
    };
    Some(StatedKind::Number(numbers))
}

/// A register that points into the context.
fn context(fields: RegisterFields) -> Option<StatedKind>
    requires kind { fields.kind ≡ 2 }
    requires unused { fields.unused ≡ 0 }
    ensures found { IfSome result (λ kind. (fields_of_kind kind ≡ fields) × IsKind kind) }
    ensures only { (kind : StatedKind) → IsKind kind → fields_of_kind kind ≡ fields
        → result ≡ Some kind }
{
    if fields.map != 0 || !has_no_numbers(fields) {
        return None;
    }
    let Some(offset) = ContextOffset::new(fields.offset) else {
        return None;
    };
    Some(StatedKind::Context(offset))
}

/// A register that points into the stack.
fn stack(fields: RegisterFields) -> Option<StatedKind>
    requires kind { fields.kind ≡ 3 }
    requires unused { fields.unused ≡ 0 }
    ensures found { IfSome result (λ kind. (fields_of_kind kind ≡ fields) × IsKind kind) }
    ensures only { (kind : StatedKind) → IsKind kind → fields_of_kind kind ≡ fields
        → result ≡ Some kind }
{
    if fields.map != 0 || !has_no_numbers(fields) {
        return None;
    }
    let Some(offset) = StackOffset::new(fields.offset) else {
        return None;
    };
    Some(StatedKind::Stack(offset))
}

/// A register that points into a map.
fn map_value(fields: RegisterFields) -> Option<StatedKind>
    requires kind { fields.kind ≡ 4 }
    requires unused { fields.unused ≡ 0 }
    ensures found { IfSome result (λ kind. (fields_of_kind kind ≡ fields) × IsKind kind) }
    ensures only { (kind : StatedKind) → IsKind kind → fields_of_kind kind ≡ fields
        → result ≡ Some kind }
{
    if fields.offset != 0 {
        return None;
    }
    let Some(map) = Map::from_number(fields.map) else {
        return None;
    };
    let Some(numbers) = StatedNumber::new(fields.low, fields.high, fields.mask, fields.value) else {
        return None;
    };
    Some(StatedKind::MapValue(map, numbers))
}

/// What these numbers state of a register; `None` if they are invalid.
pub fn kind_of(fields: RegisterFields) -> Option<StatedKind>
    ensures found { IfSome result (λ kind. (fields_of_kind kind ≡ fields) × IsKind kind) }
    ensures only { (kind : StatedKind) → IsKind kind → fields_of_kind kind ≡ fields
        → result ≡ Some kind }
{
    if fields.unused != 0 {
        return None;
    }
    match fields.kind {
        0 => empty(fields),
        1 => number(fields),
        2 => context(fields),
        3 => stack(fields),
        4 => map_value(fields),
        _ => None,
    }
}

/// The term of a register and a coefficient: `Some(None)` if both are zero; `None` if the
/// coefficient alone is zero or if the register is above 9.
fn term_of(register: u8, coefficient: u32) -> Option<Option<RankTerm>>
    ensures found { IfSome result (λ term. (term_register term ≡ register)
        × (term_coefficient term ≡ coefficient)) }
    ensures only { (term : Option Term) → IsTermOrNone term → term_register term ≡ register
        → term_coefficient term ≡ coefficient → result ≡ Some term }
{
    if coefficient == 0 {
        return if register == 0 { Some(None) } else { None };
    }
    let Some(term) = RankTerm::new(register, coefficient) else {
        return None;
    };
    Some(Some(term))
}

/// The rank that these numbers state; `None` if they are invalid. Whether its registers are stated
/// as numbers isn't checked here.
pub fn rank_of(fields: RankFields) -> Option<Rank>
    ensures found { IfSome result (λ rank. fields_of_rank fields.slot rank ≡ fields) }
    ensures only { (rank : Rank) → IsRank rank → fields_of_rank fields.slot rank ≡ fields
        → result ≡ Some rank }
{
    if fields.unused != 0 {
        return None;
    }
    let Some(first) = term_of(fields.first_register, fields.first_coefficient) else {
        return None;
    };
    let Some(second) = term_of(fields.second_register, fields.second_coefficient) else {
        return None;
    };
    Some(Rank {
        constant: fields.constant,
        first,
        second,
    })
}
