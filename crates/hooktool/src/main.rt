//! `hooktool`: makes loadable objects of programs, tells what the verifier knows of them, and tries
//! them on questions.
#![tactic(auto)]

mod annotating;
mod answers;
mod building;
mod cells;
mod explaining;
mod fault;
mod files;
mod names;
mod program;
mod relocated;
mod report;
mod streams;
mod tap;
mod testing;
mod traps;
mod trying;

use crate::streams::{Stream, Written};
use std::alloc::{AllocError, Global};
use std::process::ExitCode;
use std::{env, io};

/// Hands the arguments and the standard streams to the program, and ends with its status.
fn main(rt: HostRuntime) -> ExitCode {
    let mut output = Written::new(io::writer(&rt));
    let mut errors = Written::new(rt.stderr());
    ExitCode::from(status(&rt, &mut output, &mut errors))
}

// Runs the program, if its arguments can be read, and answers the status.
fn status<O: Stream, E: Stream>(rt: &HostRuntime, output: &mut O, errors: &mut E) -> u8 {
    match arguments(rt) {
        Ok(words) => run(rt, &words, output, errors),
        Err(error) => program::end_without_words(rt.alloc(), &error, output, errors),
    }
}

// Runs the program with these arguments, and answers the status.
fn run<O: Stream, E: Stream>(
    rt: &HostRuntime,
    words: &[String],
    output: &mut O,
    errors: &mut E,
) -> u8 {
    match texts_of(rt.alloc(), words) {
        Ok(texts) => program::program(rt, &texts, output, errors),
        Err(error) => {
            program::end_without_words(rt.alloc(), &io::Error::from(error), output, errors)
        }
    }
}

fn arguments(rt: &HostRuntime) -> io::Result<Vec<String>> {
    Ok(env::args(rt)?.collect(rt.alloc())?)
}

fn texts_of<'a>(alloc: Global, words: &'a [String]) -> Result<Vec<&'a str>, AllocError> {
    let mut texts = Vec::new(alloc);
    for word in words {
        if texts.push(word.as_str()).is_err() {
            return Err(AllocError);
        }
    }
    Ok(texts)
}
