//! The instructions of a program in assembly.

use crate::explaining::ExplainError;
use asm::listing;
use isa::Code;
use object::Object;
use std::alloc::Global;
use verifier::places::begins;

/// The object without its statements; `None` if an allocation is refused.
fn bare_object(alloc: Global, object: &Object) -> Option<Object> {
    match Vec::from_slice(alloc, object.code()) {
        Ok(code) => Object::new(object.hook(), object.entry_rank(), code, Vec::new(alloc)),
        Err(_) => None,
    }
}

/// The lines of the object's listing after the first two, which are the hook and the rank. `None`
/// if an allocation is refused.
fn lines_of(alloc: Global, object: &Object) -> Option<String> {
    match listing(alloc, object) {
        Ok(text) => {
            let lines = text.splitn(3, '\n').nth(2).unwrap_or("");
            String::from_str(alloc, lines).ok()
        }
        Err(_) => None,
    }
}

/// The object's instructions in assembly, one per line.
///
/// # Errors
/// `Memory` if an allocation is refused.
pub fn instruction_lines(alloc: Global, object: &Object) -> Result<String, ExplainError> {
    match bare_object(alloc, object) {
        Some(bare) => lines_of(alloc, &bare).ok_or(ExplainError::Memory),
        None => Err(ExplainError::Memory),
    }
}

/// The line of the instruction that begins at the slot.
pub fn line_at<'a>(lines: &'a str, code: &Code, slot: u64) -> Option<&'a str> {
    let slot = slot as usize;
    if !begins(code, slot) {
        return None;
    }
    let mut before = 0usize;
    for other in 0..slot {
        before = before.wrapping_add(usize::from(begins(code, other)));
    }
    lines.lines().nth(before)
}
