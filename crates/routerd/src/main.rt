//! `routerd`: runs a router, and assembles, lists, verifies and runs its programs. What it does is
//! in `commands` and `daemon`. Running routers are tested by trials/sessions.rows.
#![tactic(auto)]

ghost use Rattle.std.specs.Prelude.{◌≤◌};

use commands::{Routing, program};
use daemon::StartError;
use log::Log;
use std::alloc::{AllocError, Global};
use std::cell::OnceCell;
use std::fs::File;
use std::io::{BufRead, BufReader, Write};
use std::net::Net;
use std::os::fd::AsRawFd;
use std::process::ExitCode;
use std::rt::Files;
use std::sync::Wait;
use std::thread::Threads;
use std::time::Clock;
use std::{env, fs, io};

/// The configuration of the router to run. `main` runs it, since it alone has this machine's
/// threads.
#[derive(Drop)]
struct DeferredRouter {
    alloc: Global,
    configuration: OnceCell<String>,
}

impl Routing for DeferredRouter {
    fn route<I: BufRead, O: Write>(&self, text: &str, _input: &mut I, output: &mut O) -> u8 {
        let mut kept = String::new(self.alloc);
        if kept.push_str(text).is_ok() && self.configuration.set(kept).is_ok() {
            return 0;
        }
        tell(&StartError::Memory, output)
    }
}

// Prints why there is no router, and returns the exit status.
fn tell<O: Write>(error: &StartError, output: &mut O) -> u8
    ensures { result ≤ 4 }
{
    match writeln!(output, "{error}") {
        Ok(()) => error.status(),
        Err(_) => StartError::Output.status(),
    }
}

// A file in place of a closed standard stream: the null device, opened for reading, so that it is
// empty and can't be written; or if it can't be opened the root directory, which can be neither
// read nor written. `None` if descriptors 0 to 2 are in use; or if neither can be opened, which
// leaves the descriptor free.
fn stand_in(rt: &HostRuntime) -> Option<File> {
    let file = match fs::open(rt, "/dev/null") {
        Ok(file) => file,
        Err(_) => fs::open(rt, "/").ok()?,
    };
    if file.as_raw_fd() <= 2 {
        Some(file)
    } else {
        None
    }
}

// Runs the router of a configuration. The console's input is read through a buffer.
fn run<R: Input + Net + Threads + Wait + Clock + Log + Files + AllocGlobal + Sync + Drop, O: Write>(
    rt: &R,
    configuration: &str,
    output: &mut O,
) -> u8 {
    match BufReader::new(rt.alloc(), rt.reader()) {
        Ok(mut input) => daemon::run_and_report(rt, configuration, &mut input, output),
        Err(_) => tell(&StartError::Memory, output),
    }
}

/// Hands the arguments and the standard streams to the program, runs the router if one is
/// requested, and exits with the status.
///
/// A standard stream that was closed at the start is replaced by the null device for the whole run:
/// otherwise a socket or a file that is opened would get its descriptor, and a datagram would be
/// read as a line of the console.
fn main(rt: HostRuntime) -> ExitCode {
    let _stand_ins = (stand_in(&rt), stand_in(&rt), stand_in(&rt));
    let mut input = rt.reader();
    let mut output = io::writer(&rt);
    let mut errors = rt.stderr();
    let asked = DeferredRouter {
        alloc: rt.alloc(),
        configuration: OnceCell::new(),
    };
    let status = match arguments(&rt) {
        Ok(words) => match texts_of(rt.alloc(), &words) {
            Ok(texts) => {
                program::program(&rt, &asked, &texts, &mut input, &mut output, &mut errors)
            }
            Err(error) => program::end_without_words(
                rt.alloc(),
                &io::Error::from(error),
                &mut output,
                &mut errors,
            ),
        },
        Err(error) => { program::end_without_words(rt.alloc(), &error, &mut output, &mut errors) }
    };
    let status = match asked.configuration.get() {
        Some(text) => run(&rt, text.as_str(), &mut output),
        None => status,
    };
    ExitCode::from(status)
}

fn arguments(rt: &HostRuntime) -> io::Result<Vec<String>> {
    Ok(env::args(rt)?.collect(rt.alloc())?)
}

fn texts_of<'a>(alloc: Global, words: &'a [String]) -> Result<Vec<&'a str>, AllocError> {
    words.iter().map(|word| word.as_str()).collect(alloc)
}
