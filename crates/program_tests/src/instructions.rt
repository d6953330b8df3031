//! Code built instruction by instruction, encoded and decoded.
use isa::{Code, CodeBuilder, Instruction, Register, decode, encode};
use std::alloc::Global;
use std::process::Abort;

// What fails for a refused allocation is done once more: a test run may refuse one allocation.

// A wide instruction, and an exit.
fn built(alloc: Global) -> Option<Code> {
    let wide = Instruction::LoadMap {
        target: Register::new(9)?,
        map: 0,
        offset: 0,
    };
    let mut builder = CodeBuilder::new(alloc);
    let mut are_put = builder.push(wide).is_ok() || builder.push(wide).is_ok();
    are_put &= builder.push(Instruction::Exit).is_ok() || builder.push(Instruction::Exit).is_ok();
    if are_put { builder.finish() } else { None }
}

// Whether the code is encoded to 24 bytes that decode to it.
fn is_read_again(alloc: Global, code: &Code) -> Option<bool> {
    let bytes = encode(alloc, code).ok()?;
    let again = decode(alloc, &bytes).ok()?;
    Some(bytes.len() == 24 && again.slots() == code.slots())
}

#[test]
fn what_is_built_is_encoded_and_decoded(rt: HostRuntime) {
    let code = built(rt.alloc()).expect(&rt, "code");
    let mut found = is_read_again(rt.alloc(), &code);
    if found.is_none() {
        found = is_read_again(rt.alloc(), &code);
    }
    assert!(rt; found == Some(true));
}
