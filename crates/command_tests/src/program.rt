//! The program with a router in the place of another, and with writers that are full.

use commands::Routing;
use commands::program::{end_without_words, program};
use std::alloc::Global;
use std::fs;
use std::io::{self, BufRead, Cursor, ErrorKind, Write};
use std::process::Abort;
use std::rt::Files;
use std::thread::Threads;

const CONFIGURATION: &str = "router 1.1.1.1\n";

// In the place of a router. If it has the configuration, and its console prints what it reads, it
// ends with this status; else with 2, which is never asked of it.
#[derive(Clone, Copy)]
struct Copies {
    status: u8,
}

impl Routing for Copies {
    fn route<I: BufRead, O: Write>(&self, text: &str, input: &mut I, output: &mut O) -> u8 {
        let mut line = [0; 5];
        let is_copied = text == CONFIGURATION
            && input.read_exact(&mut line).is_ok()
            && output.write_all(&line).is_ok();
        if is_copied && self.status <= 4 {
            self.status
        } else {
            2
        }
    }
}

// Whether such a router ends with this status, and its console alone prints.
fn ends<R: Files + AllocGlobal + Threads + Sync>(rt: &R, status: u8) -> bool {
    if fs::write(rt, "one.conf", CONFIGURATION).is_err() {
        return false;
    }
    let words = ["routerd", "route", "one.conf"];
    let mut input: &[u8] = b"quit\n".as_slice();
    let mut output = Cursor::new([0; 5]);
    let mut errors = Cursor::new([0; 1]);
    let router = Copies { status };
    let ended = program(rt, &router, &words, &mut input, &mut output, &mut errors);
    ended == status && output.get_ref() == b"quit\n" && errors.position() == 0
}

const STATUSES: &[u8] = &[0, 1, 3, 4];

// An allocation may be refused once, as a run of the tests with a refusal makes it.
#[test]
fn a_router_has_its_configuration_and_the_console(rt: HostRuntime) {
    for status in STATUSES {
        assert!(rt; ends(&rt, *status) || ends(&rt, *status), "{status}");
    }
}

// The status if memory was refused for the words, and this is the room to print that.
fn status_of_want(alloc: Global, room: &mut [u8]) -> u8 {
    let error = io::Error::from(ErrorKind::OutOfMemory);
    let mut lines = Cursor::new(room);
    let mut errors = Cursor::new([0; 0]);
    end_without_words(alloc, &error, &mut lines, &mut errors)
}

// The statuses without room, with a byte too few and with enough, and what is printed at last.
fn wants(alloc: Global) -> ([u8; 3], [u8; 14]) {
    let mut room = [0; 14];
    let without = status_of_want(alloc, &mut room[..0]);
    let with_less = status_of_want(alloc, &mut room[..13]);
    let with_enough = status_of_want(alloc, &mut room);
    ([without, with_less, with_enough], room)
}

#[test]
fn want_of_memory_that_cant_be_told_ends_with_3(rt: HostRuntime) {
    assert!(rt; wants(rt.alloc()) == ([3, 3, 4], *b"out of memory\n"));
}
