//! Objects that are built, written and read again.
use isa::{Hook, Map};
use object::{
    ContextOffset, Object, Rank, StackBytes, StackOffset, StatedKind, StatedNumber, Statement,
    read, write,
};
use std::alloc::Global;
use std::process::Abort;

// What gives no answer is done once more: a test run may refuse one allocation.

fn object_of(alloc: Global, bytes: &[u8]) -> Option<Object> {
    match read(alloc, bytes) {
        Err(_) => read(alloc, bytes).ok(),
        Ok(object) => Some(object),
    }
}

fn bytes_of(alloc: Global, object: &Object) -> Option<Vec<u8>> {
    match write(alloc, object) {
        Err(_) => write(alloc, object).ok(),
        Ok(bytes) => Some(bytes),
    }
}

// Stack bytes 3 to 9 and 511, two pointers and a place in the cells, with rank 7.
fn packed_statement() -> Option<Statement> {
    let mut stack = StackBytes::new();
    stack.insert_range(3, 10);
    stack.insert_range(511, 512);
    let rank = Rank {
        constant: 7,
        first: None,
        second: None,
    };
    let mut kinds = [StatedKind::Unstated; 10];
    kinds[1] = StatedKind::Context(ContextOffset::new(0)?);
    kinds[2] = StatedKind::Stack(StackOffset::new(512)?);
    kinds[9] = StatedKind::MapValue(Map::Cells, StatedNumber::new(0, 504, 0, 0)?);
    Statement::new(0, rank, kinds, stack)
}

// `exit` at `veto`, entry rank 9, with that statement.
fn packed_once(alloc: Global) -> Option<Object> {
    let statements = Vec::from_slice(alloc, &[packed_statement()?]).ok()?;
    let code = Vec::from_slice(alloc, &[0x95, 0, 0, 0, 0, 0, 0, 0]).ok()?;
    Object::new(Hook::Veto, 9, code, statements)
}

fn packed(alloc: Global) -> Option<Object> {
    match packed_once(alloc) {
        None => packed_once(alloc),
        made => made,
    }
}

// Whether the object's statements survive writing and reading.
fn is_read_again(alloc: Global, object: &Object) -> Option<bool> {
    let bytes = bytes_of(alloc, object)?;
    let again = object_of(alloc, &bytes)?;
    Some(again.statements() == object.statements())
}

#[test]
fn what_is_packed_is_read_again(rt: HostRuntime) {
    let object = packed(rt.alloc()).expect(&rt, "an object");
    assert!(rt; is_read_again(rt.alloc(), &object) == Some(true));
}
