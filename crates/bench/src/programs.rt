//! Programs to measure with.
use crate::figures::{NoFigure, PrintResult};
use hooks::Loader;
use isa::Hook;
use object::Object;
use std::alloc::Global;
use std::sync::Wait;
use verifier::{Accepted, verify_object};

/// The program of bare code without a loop.
pub fn accepted(alloc: Global, hook: Hook, code: Vec<u8>) -> Option<Accepted> {
    let Some(object) = Object::new(hook, 0, code, Vec::new(alloc)) else {
        return None;
    };
    match object::write(alloc, &object) {
        Ok(bytes) => verify_object(alloc, &bytes).ok(),
        Err(_) => None,
    }
}

fn program(alloc: Global, hook: Hook, code: &[u8]) -> Option<Accepted> {
    match Vec::from_slice(alloc, code) {
        Ok(code) => accepted(alloc, hook, code),
        Err(_) => None,
    }
}

fn attached<R: Wait + Drop>(loader: &mut Loader<R>, program: Option<Accepted>) -> PrintResult {
    let Some(program) = program else {
        return Err(NoFigure::Memory);
    };
    match loader.attach(program) {
        Ok(()) => Ok(()),
        Err(_) => Err(NoFigure::Memory),
    }
}

/// Attaches the program of bare code without a loop.
pub fn attach<R: Wait + Drop>(
    alloc: Global,
    printed: &mut PrintResult,
    loader: &mut Loader<R>,
    hook: Hook,
    code: &[u8],
) {
    if printed.is_ok() {
        *printed = attached(loader, program(alloc, hook, code));
    }
}
