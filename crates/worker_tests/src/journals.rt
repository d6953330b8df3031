//! Journals that are full, or hold many bytes; and the text of a refused configuration.
ghost use Rattle.std.specs.Prelude.{◌≡◌, ◌<◌};

use crate::samples::first;
use std::alloc::{AllocError, Global};
use std::marker::Brand;
use std::sync::ledger::{Blank, Share};
use std::test::Fail;
use words::{Route, Second};
use worker::{Book, BookError, ConfigError, Core, Event, Origin, Out, Taker};

// What a book is called for.
#[derive(Clone, Copy)]
enum Call {
    Apply,
    ApplyAnew,
    Mark,
    // the answer is how many candidates there are
    Candidates,
}

// A number of calls, what the last one is answered (0, or the number of the refusal), and what the
// journal holds and the book has taken after it.
type Row = (u32, Call, u8, usize, u64);

// The number of a refusal for want of memory.
const MEMORY: u8 = 6;

fn number_of(answer: Result<Vec<Out>, BookError>) -> u8 {
    match answer {
        Ok(_) => 0,
        Err(error) => error.number(),
    }
}

fn flat_candidates<L: Origin>(book: &Book<L>) -> Result<Vec<Route>, AllocError> {
    book.candidates()?.to_vec()
}

// How many candidates there are, alone as beside the rows.
fn candidates_of<L: Origin>(book: &Book<L>) -> u8 {
    match (flat_candidates(book), book.offered()) {
        (Ok(routes), Ok(offered)) => {
            let is_same = routes.as_slice() == offered.candidates.as_slice();
            let count = u8::try_from(routes.len()).unwrap_or(MEMORY);
            if is_same { count } else { MEMORY }
        }
        _ => MEMORY,
    }
}

fn call_book<L: Origin>(book: &mut Book<L>, share: &mut Share<L>, call: Call) -> u8
    requires { 0 < share.old.parts }
    ensures { share.new.parts ≡ share.old.parts }
{
    let now = Second::new(0);
    match call {
        Call::Apply => number_of(book.apply(share, now, Event::Tick)),
        Call::ApplyAnew => number_of(book.apply_with_marks(share, now, Event::Tick)),
        Call::Mark if book.mark().is_ok() => 0,
        Call::Mark => MEMORY,
        Call::Candidates => candidates_of(book),
    }
}

// The last answer of the calls of a row. An allocation may be refused once, as a run of the tests
// with a refusal makes it: then the book is as it was, and answers in full the next time.
fn call_often<L: Origin>(book: &mut Book<L>, share: &mut Share<L>, row: &Row) -> u8
    requires { 0 < share.old.parts }
    ensures { share.new.parts ≡ share.old.parts }
{
    let (times, call, ..) = *row;
    let mut answer = 0;
    for _time in 0..times {
        answer = call_book(book, share, call);
        if answer == MEMORY {
            answer = call_book(book, share, call);
        }
    }
    answer
}

// How many rows are as told, up to the first that isn't.
fn play_rows<L: Origin>(book: &mut Book<L>, share: &mut Share<L>, rows: &[Row]) -> usize
    requires { 0 < share.old.parts }
{
    for (number, row) in rows.iter().enumerate() {
        let (_, _, answer, journal, taken) = *row;
        let found = call_often(book, share, row);
        if (found, book.journal().len(), book.taken()) != (answer, journal, taken) {
            return number;
        }
    }
    rows.len()
}

fn play<L: Origin>(alloc: Global, blank: Blank, core: Core, rows: &[Row]) -> usize
    requires name { blank.name ≡ L.name }
    requires parts { (blank.parts ≡ L.parts) × (blank.parts ≡ 1) }
    requires origin { core ≡ L.origin }
{
    match Book::<L>::new(alloc, blank, core) {
        Ok((mut book, mut share)) => {
            let count = play_rows(&mut book, &mut share, rows);
            let _taken = book.close();
            count
        }
        Err(_) => 0,
    }
}

fn play_once(alloc: Global, rows: &[Row]) -> usize {
    match first(alloc) {
        Some(core) => play::<Brand>(alloc, Blank::new(1), core, rows),
        None => 0,
    }
}

// How many rows are as told. If there was no memory for a book, or it was marked before its journal
// was too much, as it is if memory is refused, all is played once more.
fn play_all(alloc: Global, rows: &[Row]) -> usize {
    let count = play_once(alloc, rows);
    if count < rows.len() {
        return play_once(alloc, rows);
    }
    count
}

// A full journal takes nothing until it is marked.
const FULL: &[Row] = &[
    (65_536, Call::Apply, 0, 65_536, 65_536),
    (1, Call::Apply, 7, 65_536, 65_536),
    (1, Call::Mark, 0, 0, 65_536),
    (1, Call::Apply, 0, 1, 65_537),
    // the networks of its interfaces
    (1, Call::Candidates, 2, 1, 65_537),
];

// A heavy journal starts anew: each Tick counts as 256 bytes, and so does the one LSA, beside
// 256 KiB.
const HEAVY: &[Row] = &[
    (1_026, Call::ApplyAnew, 0, 1_026, 1_026),
    (1, Call::ApplyAnew, 0, 1, 1_027),
];

#[test]
fn journals_are_full_or_start_anew(rt: HostRuntime) {
    for rows in &[FULL, HEAVY] {
        let count = play_all(rt.alloc(), rows);
        assert!(rt; count == rows.len(), "{count} of {}", rows.len());
    }
}

#[test]
fn refusals_have_texts(rt: HostRuntime) -> Result<(), Fail> {
    let text = format!(in rt.alloc(); "{}", ConfigError::Interface)?;
    assert!(rt;
        text.as_str() == "the configuration is outside what this router supports",
        "{text}"
    );
    Ok(())
}
