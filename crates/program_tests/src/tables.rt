//! The shared maps.
ghost use Rattle.std.specs.Prelude.{◌≡◌, length};
ghost use Rattle.maps.specs.Words.{IsSeatOf};

use crate::seats::{table, two_seats};
use maps::{MapsError, Seat, Shared};
use std::alloc::{AllocError, Global};
use std::process::Abort;
use std::thread::{Threads, join};

// Adds 3 to counter 5 a thousand times, and reads it.
fn thousand(words: &Shared, mut seat: Seat) -> (Seat, u64)
    requires { IsSeatOf words.now seat }
    ensures { IsSeatOf words.now result.0 }
{
    for _turn in 0..1000u64 {
        words.add(&mut seat, 5, 3);
    }
    let seen = words.read(&mut seat, 5);
    (seat, seen)
}

fn are_6000_at_5(rt: &impl Abort, sums: &[u64]) {
    for (index, sum) in sums.iter().enumerate() {
        let want = if index == 5 { 6000 } else { 0 };
        assert!(rt; *sum == want, "{sum} at {index}");
    }
}

// Each seat on a thread of its own, and what it reads at the end.
fn add_side_by_side<R: Threads>(
    rt: &R,
    words: &Shared,
    first: Seat,
    second: Seat,
) -> ((Seat, u64), (Seat, u64))
    requires first { IsSeatOf words.now first }
    requires second { IsSeatOf words.now second }
    ensures first { IsSeatOf words.now result.0.0 }
    ensures second { IsSeatOf words.now result.1.0 }
{
    join(
        rt,
        || -> (Seat, u64)
            requires { IsSeatOf words.now first }
            ensures { result.0.table ≡ words.entry.now.table }
        { thousand(words, first) },
        || -> (Seat, u64)
            requires { IsSeatOf words.now second }
            ensures { result.0.table ≡ words.entry.now.table }
        { thousand(words, second) },
    )
}

// The sums of the counters after both seats are back.
fn closed(
    words: Shared,
    seats: Vec<Seat>,
    first: Seat,
    second: Seat,
) -> Result<[u64; 256], AllocError>
    requires seats { words.seats ≡ 2 }
    requires away { length seats.items ≡ 0 }
    requires first { IsSeatOf words first }
    requires second { IsSeatOf words second }
{
    let mut seats = seats;
    seats.push(first)?;
    seats.push(second)?;
    Ok(words.close(seats).sums)
}

// What the seats read at the end, and the sums.
fn seen_and_summed<R: Threads>(
    rt: &R,
    words: Shared,
    seats: Vec<Seat>,
    first: Seat,
    second: Seat,
) -> Result<([u64; 2], [u64; 256]), AllocError>
    requires seats { words.seats ≡ 2 }
    requires away { length seats.items ≡ 0 }
    requires first { IsSeatOf words first }
    requires second { IsSeatOf words second }
{
    let ((first, one), (second, two)) = add_side_by_side(rt, &words, first, second);
    let sums = closed(words, seats, first, second)?;
    Ok(([one, two], sums))
}

// What two threads read and sum on a new table of two seats.
fn two_threads<R: Threads>(rt: &R, alloc: Global) -> Option<([u64; 2], [u64; 256])> {
    let Ok((words, mut seats)) = table(alloc, 2) else {
        return None;
    };
    match (seats.pop(), seats.pop()) {
        (Some(second), Some(first)) => seen_and_summed(rt, words, seats, first, second).ok(),
        _ => None,
    }
}

#[test]
fn two_threads_add_a_thousand_times(rt: HostRuntime) {
    let (seen, sums) = two_threads(&rt, rt.alloc()).expect(&rt, "two seats");
    assert!(rt; seen[0] >= 3000 && seen[1] >= 3000);
    are_6000_at_5(&rt, &sums);
}

// The answers to the seats' adds, and what the other seat then reads.
fn seen_by_each_other(words: &Shared, first: &mut Seat, second: &mut Seat) -> [u64; 5]
    requires first { IsSeatOf words.now first.old }
    requires second { IsSeatOf words.now second.old }
{
    [
        words.add(first, 5, 3),
        words.read(second, 5),
        words.add(second, 255, 16_777_215),
        words.read(first, 255),
        words.read(first, 0),
    ]
}

#[test]
fn a_read_shows_another_seats_add(rt: HostRuntime) {
    let (words, mut first, mut second) = two_seats(rt.alloc()).expect(&rt, "seats");
    let found = seen_by_each_other(&words, &mut first, &mut second);
    assert!(rt; found == [0, 3, 0, 16_777_215, 0], "{found:?}");
}

const REFUSALS: &[(MapsError, u8, &str)] = &[
    (MapsError::Seats, 1, "a table has 1 to 64 seats"),
    (MapsError::Memory, 2, "out of memory"),
];

#[test]
fn refusals_have_their_numbers_and_texts(rt: HostRuntime) {
    for row in REFUSALS {
        let (refusal, number, text) = *row;
        assert!(rt; refusal.number() == number);
        if let Ok(shown) = format!(in rt.alloc(); "{refusal}") {
            assert!(rt; shown.as_str() == text, "{shown}");
        }
    }
}
