//! From objects to bytes.
ghost use Rattle.std.specs.Prelude.{◌≡◌, ◌++◌, IfOk, OnOk};
ghost use Rattle.std.specs.List.{flat_map};
ghost use Rattle.object.specs.Spelling.{Spells, fields_of_kind, fields_of_rank, fields_of_header};
ghost use Rattle.object.specs.Spelling.{header_bytes, kind_text, magic, no_numbers};
ghost use Rattle.object.specs.Spelling.{register_fields, statement_text, term_coefficient};
ghost use Rattle.object.specs.Spelling.{term_register};

use crate::fields::{HeaderFields, RankFields, RegisterFields};
use crate::kind::StatedKind;
use crate::number::StatedNumber;
use crate::object::Object;
use crate::rank::{Rank, RankTerm};
use crate::statement::Statement;
use std::alloc::{AllocError, Global};

/// The fields of a register of this kind, one with numbers.
fn with_numbers(kind: u8, map: u8, numbers: &StatedNumber) -> RegisterFields
    ensures { result ≡ register_fields kind map 0 numbers.now }
{
    RegisterFields {
        kind,
        map,
        unused: 0,
        offset: 0,
        low: numbers.low(),
        high: numbers.high(),
        mask: numbers.mask(),
        value: numbers.value(),
    }
}

/// The fields of a register of this kind, one without numbers.
fn without_numbers(kind: u8, offset: u32) -> RegisterFields
    ensures { result ≡ register_fields kind 0 offset no_numbers }
{
    RegisterFields {
        kind,
        map: 0,
        unused: 0,
        offset,
        low: 0,
        high: 0,
        mask: 0,
        value: 0,
    }
}

fn fields_of_kind(kind: &StatedKind) -> RegisterFields
    ensures { result ≡ fields_of_kind kind.now }
{
    match kind {
        StatedKind::Unstated => without_numbers(0, 0),
        StatedKind::Number(numbers) => with_numbers(1, 0, numbers),
        StatedKind::Context(offset) => without_numbers(2, offset.bytes()),
        StatedKind::Stack(offset) => without_numbers(3, offset.bytes()),
        StatedKind::MapValue(map, numbers) => with_numbers(4, map.number(), numbers),
    }
}

fn term_register(term: Option<RankTerm>) -> u8
    ensures { result ≡ term_register term }
{
    match term {
        Some(term) => term.register(),
        None => 0,
    }
}

fn term_coefficient(term: Option<RankTerm>) -> u32
    ensures { result ≡ term_coefficient term }
{
    match term {
        Some(term) => term.coefficient(),
        None => 0,
    }
}

fn fields_of_rank(slot: u32, rank: Rank) -> RankFields
    ensures { result ≡ fields_of_rank slot rank }
{
    RankFields {
        slot,
        constant: rank.constant,
        first_register: term_register(rank.first),
        second_register: term_register(rank.second),
        unused: 0,
        first_coefficient: term_coefficient(rank.first),
        second_coefficient: term_coefficient(rank.second),
    }
}

/// Adds the 40 bytes of a register.
fn put_kind(out: &mut Vec<u8>, kind: &StatedKind) -> Result<(), AllocError>
    ensures { OnOk result (out.new.items ≡ out.old.items ++ kind_text kind.now) }
{
    fields_of_kind(kind).write(out)
}

/// Adds the texts of registers.
fn put_kinds(out: &mut Vec<u8>, kinds: &[StatedKind]) -> Result<(), AllocError>
    ensures { OnOk result (out.new.items ≡ out.old.items ++ flat_map kind_text kinds.now) }
{
    for kind in kinds {
        put_kind(out, kind)?;
    }
    Ok(())
}

/// Adds the 484 bytes of a statement.
#[tactic(auto, using(crate::proofs::Texts::three_parts))]
fn put_statement(out: &mut Vec<u8>, statement: &Statement) -> Result<(), AllocError>
    ensures { OnOk result (out.new.items ≡ out.old.items ++ statement_text statement.now) }
{
    fields_of_rank(statement.slot(), statement.rank()).write(out)?;
    statement.stack().pack(out)?;
    put_kinds(out, statement.kinds())
}

/// Adds the texts of statements.
fn put_statements(out: &mut Vec<u8>, statements: &[Statement]) -> Result<(), AllocError>
    ensures { OnOk result (out.new.items ≡ out.old.items
        ++ flat_map statement_text statements.now) }
{
    for statement in statements {
        put_statement(out, statement)?;
    }
    Ok(())
}

/// Adds the header and the code.
#[tactic(auto, using(crate::proofs::Texts::three_parts))]
fn put_front(out: &mut Vec<u8>, object: &Object) -> Result<(), AllocError>
    ensures { OnOk result (out.new.items ≡ out.old.items
        ++ (magic ++ header_bytes (fields_of_header object.now) ++ object.now.code)) }
{
    out.extend_from_slice(&[0x42, 0x50, 0x46, 0x48])?;
    let header = HeaderFields {
        version: 1,
        hook: object.hook().number(),
        statements: object.statements().len() as u16,
        entry_rank: object.entry_rank(),
        slots: object.slots() as u32,
    };
    header.write(out)?;
    out.extend_from_slice(object.code())
}

/// The bytes of an object file.
///
/// # Errors
/// `AllocError` if an allocation is refused.
pub fn write(alloc: Global, object: &Object) -> Result<Vec<u8>, AllocError>
    ensures { IfOk result (λ bytes. Spells bytes.items object.now) }
{
    let size = 16 + 8 * object.slots() + 484 * object.statements().len();
    let mut out = Vec::with_capacity(alloc, size)?;
    put_front(&mut out, object)?;
    put_statements(&mut out, object.statements())?;
    Ok(out)
}
