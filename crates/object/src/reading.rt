//! From bytes to objects.
ghost use Rattle.std.specs.Prelude.{◌≡◌, ◌+◌, ◌*◌, ◌≤◌, ◌<◌, ◌^◌, ◌↔◌, List, length, take, drop};
ghost use Rattle.std.specs.Prelude.{MatchResult, IfErr, IfOk, IfSome, IsTrue, Some};
ghost use Rattle.std.specs.Int.{w32, from_le_bytes};
ghost use Rattle.std.specs.List.{All, flat_map};
ghost use Rattle.isa.specs.Hooks.{hook_number};
ghost use Rattle.object.specs.declared.error.ObjectError.TheVariants.{Memory};
ghost use Rattle.object.specs.declared.kind.StatedKind.{StatedKind};
ghost use Rattle.object.specs.Statements.{IsKind, IsStatement, StatementParts};
ghost use Rattle.object.specs.Objects.{ObjectParts};
ghost use Rattle.object.specs.Spelling.{Spells, kind_text, magic, statement_text};
ghost use Rattle.object.specs.Refusals.{AreFieldsOf, AreSpelled, Fails, Refuses, StatementsFail};

use crate::error::ObjectError;
use crate::fields::{HeaderFields, RankFields, RegisterFields, u32_le_at};
use crate::kind::StatedKind;
use crate::lawful::{kind_of, rank_of};
use crate::object::Object;
use crate::stack::StackBytes;
use crate::statement::Statement;
use isa::{Hook, MAX_SLOTS};
use std::alloc::Global;

/// What the 40 bytes of a register state of it; `None` if they are invalid.
fn kind(bytes: &[u8]) -> Option<StatedKind>
    requires { length bytes.now ≡ 40 }
    ensures found { IfSome result (λ kind. kind_text kind ≡ bytes.now) }
    ensures only { (kind : StatedKind) → IsKind kind → kind_text kind ≡ bytes.now
        → result ≡ Some kind }
{
    kind_of(RegisterFields::read(bytes))
}

/// What the 400 bytes of r0 to r9 state of them; `None` if they are invalid.
fn kinds(bytes: &[u8]) -> Option<[StatedKind; 10]>
    requires { length bytes.now ≡ 400 }
    ensures found { IfSome result (λ kinds. flat_map kind_text kinds ≡ bytes.now) }
    ensures only { (kinds : List StatedKind) → All IsKind kinds → length kinds ≡ 10
        → flat_map kind_text kinds ≡ bytes.now → result ≡ Some kinds }
{
    let mut kinds = [StatedKind::Unstated; 10];
    for register in 0..10 {
        let Some(one) = kind(&bytes[40 * register..40 * register + 40]) else {
            return None;
        };
        kinds[register] = one;
    }
    Some(kinds)
}

/// The statement that these 484 bytes spell, if there is one.
fn statement(bytes: &[u8]) -> Option<Statement>
    requires { length bytes.now ≡ 484 }
    ensures found { IfSome result (λ s. (statement_text s ≡ bytes.now) × IsStatement s) }
    ensures only { (s : StatementParts) → IsStatement s → statement_text s ≡ bytes.now
        → result ≡ Some s }
{
    let fields = RankFields::read(&bytes[..20]);
    let Some(rank) = rank_of(fields) else {
        return None;
    };
    let Some(kinds) = kinds(&bytes[84..]) else {
        return None;
    };
    let stack = StackBytes::unpack(&bytes[20..84]);
    match Statement::new(fields.slot, rank, kinds, stack) {
        Some(statement) => {
            let _slot = statement.slot();
            Some(statement)
        }
        None => None,
    }
}

/// The slot at the front of a statement's bytes.
fn slot_of(bytes: &[u8]) -> u32
    requires { 4 ≤ length bytes.now }
    ensures { result ≡ from_le_bytes w32 (take 4 bytes.now) }
{
    u32_le_at(bytes, 0)
}

/// The statement with this index, if it is valid and its slot is neither below `least` nor outside
/// of code of `slots` slots.
fn statement_at(
    bytes: &[u8],
    index: usize,
    least: usize,
    slots: usize,
) -> Result<Statement, ObjectError>
    requires { 484 * index + 484 ≤ length bytes.now }
    ensures spelled { IfOk result (λ s. (statement_text s ≡ take 484 (drop (484 * index) bytes.now))
        × IsStatement s) }
    ensures ordered { IfOk result (λ s. (least ≤ s.slot) × (s.slot < slots)) }
    ensures why { IfErr result (λ e. Fails least slots (drop (484 * index) bytes.now) e) }
{
    let part = &bytes[484 * index..484 * index + 484];
    let slot = slot_of(part) as usize;
    if slot < least || slots <= slot {
        return Err(ObjectError::Order);
    }
    match statement(part) {
        Some(statement) => Ok(statement),
        None => Err(ObjectError::Field),
    }
}

/// The error after a refused allocation: that of the first of the `count` statements that fails, or
/// `Memory` if none does.
fn want_of_memory(bytes: &[u8], count: usize, slots: usize) -> ObjectError
    requires size { length bytes.now ≡ 484 * count }
    requires most { slots < 2 ^ 32 }
    ensures { StatementsFail bytes.now slots count result }
{
    let mut least = 0;
    for index in 0..count {
        match statement_at(bytes, index, least, slots) {
            Ok(one) => least = one.slot() as usize + 1,
            Err(e) => return e,
        }
    }
    ObjectError::Memory
}

/// The `count` statements, of 484 bytes each, for code of `slots` slots.
fn statements(
    alloc: Global,
    bytes: &[u8],
    count: usize,
    slots: usize,
) -> Result<Vec<Statement>, ObjectError>
    requires size { length bytes.now ≡ 484 * count }
    requires most { slots < 2 ^ 32 }
    ensures found { IfOk result (λ statements. AreSpelled bytes.now slots count statements.items) }
    ensures why { IfErr result (λ e. StatementsFail bytes.now slots count e) }
{
    let Ok(mut statements) = Vec::with_capacity(alloc, count) else {
        return Err(want_of_memory(bytes, count, slots));
    };
    let mut least = 0;
    for index in 0..count {
        let one = match statement_at(bytes, index, least, slots) {
            Ok(one) => one,
            Err(e) => return Err(e),
        };
        least = one.slot() as usize + 1;
        let Ok(()) = statements.push(one) else {
            return Err(want_of_memory(bytes, count, slots));
        };
    }
    Ok(statements)
}

/// Whether the bytes begin with BPFH.
#[tactic(auto, using(crate::proofs::Headers::first_four))]
fn has_magic(bytes: &[u8]) -> bool
    requires { 16 ≤ length bytes.now }
    ensures { IsTrue result ↔ (take 4 bytes.now ≡ magic) }
{
    bytes[0] == 0x42 && bytes[1] == 0x50 && bytes[2] == 0x46 && bytes[3] == 0x48
}

/// The hook and the fields of a header that is valid up to the number of slots.
fn header(bytes: &[u8]) -> Result<(Hook, HeaderFields), ObjectError>
    ensures found { IfOk result (λ header. AreFieldsOf bytes.now header.1
        × (hook_number header.0 ≡ header.1.hook)) }
    ensures why { IfErr result (λ e. Refuses bytes.now e) }
{
    if bytes.len() < 16 {
        return Err(ObjectError::Short);
    }
    if !has_magic(bytes) {
        return Err(ObjectError::Magic);
    }
    let fields = HeaderFields::read(&bytes[4..16]);
    if fields.version != 1 {
        return Err(ObjectError::Version);
    }
    let Some(hook) = Hook::from_number(fields.hook) else {
        return Err(ObjectError::Hook);
    };
    if fields.slots == 0 || fields.slots as usize > MAX_SLOTS {
        return Err(ObjectError::Field);
    }
    Ok((hook, fields))
}

/// The object in the bytes, or the first error.
fn outcome(alloc: Global, bytes: &[u8]) -> Result<Object, ObjectError>
    ensures found { IfOk result (λ object. Spells bytes.now object) }
    ensures why { IfErr result (λ e. Refuses bytes.now e) }
{
    let (hook, fields) = match header(bytes) {
        Ok(found) => found,
        Err(e) => return Err(e),
    };
    let count = usize::from(fields.statements);
    let slots = fields.slots as usize;
    let start = 16 + 8 * slots;
    if bytes.len() < start + 484 * count {
        return Err(ObjectError::Short);
    }
    if bytes.len() > start + 484 * count {
        return Err(ObjectError::Trailing);
    }
    let Ok(code) = Vec::from_slice(alloc, &bytes[16..start]) else {
        return Err(want_of_memory(&bytes[start..], count, slots));
    };
    match statements(alloc, &bytes[start..], count, slots) {
        Ok(statements) => Ok(Object::from_parts(hook, fields.entry_rank, code, statements)),
        Err(e) => Err(e),
    }
}

/// The object that the bytes spell: all of them, from BPFH to the last statement.
///
/// # Errors
/// The first test that fails, in the order that [`ObjectError`] gives; `Memory` if none does, and
/// an allocation is refused.
pub fn read(alloc: Global, bytes: &[u8]) -> Result<Object, ObjectError>
    // Whatever is read, the bytes spell it.
    ensures found { IfOk result (λ object. Spells bytes.now object) }
    // Whatever the bytes spell is read, unless an allocation is refused.
    ensures only { (object : ObjectParts) → Spells bytes.now object
        → MatchResult result (λ found. found ≡ object) (λ e. e ≡ Memory) }
    // Which error it is; `Memory` only if the bytes spell an object.
    ensures why { IfErr result (λ e. Refuses bytes.now e) }
{
    outcome(alloc, bytes)
}
