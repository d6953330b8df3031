//! How many additions to the shared counters one, two and four seats make.
ghost use Rattle.std.specs.Prelude.{◌≡◌, ◌<◌};
ghost use Rattle.std.specs.List.{All};
ghost use Rattle.maps.specs.Words.{IsSeatOf};

use crate::figures::{MEASUREMENTS, MeasuredTimes, NoFigure, PrintResult, nanoseconds, start};
use maps::{Seat, Shared};
use std::alloc::Global;
use std::rt::Clock;
use std::thread;
use std::thread::Threads;

/// How many additions each seat makes in a round.
const ADDS: u64 = 4_000_000;

// What is printed of this number of seats, and whether each has a counter of its own.
type SeatsRow = (&'static str, usize, bool);

const ROWS: [SeatsRow; 6] = [
    ("1 seats on counters of their own", 1, true),
    ("1 seats on one counter", 1, false),
    ("2 seats on counters of their own", 2, true),
    ("2 seats on one counter", 2, false),
    ("4 seats on counters of their own", 4, true),
    ("4 seats on one counter", 4, false),
];

/// A seat that adds 1 to a counter, and how many of its additions of a round were made.
#[derive(Drop)]
struct Adder<'a> {
    shared: &'a Shared,
    seat: Seat,
    index: usize,
    made: u64,
    // what is changed in two adders never lies in one line of a cache
    _apart: [u64; 16],
    ghost table: { IsSeatOf shared.now seat },
    ghost counter: { index < 256 },
}

impl Adder<'_> {
    fn add_many(&mut self) {
        let mut made = 0u64;
        for _turn in 0..ADDS {
            if self.shared.add(&mut self.seat, self.index, 1) == 0 {
                made = made.wrapping_add(1);
            }
        }
        self.made = made;
    }
}

// An adder for each seat: all on counter 0, or each on a separate one.
fn adders_of<'a>(
    alloc: Global,
    shared: &'a Shared,
    seats: Vec<Seat>,
    is_apart: bool,
) -> Option<Vec<Adder<'a>>>
    requires { All (λ s. IsSeatOf shared.now s) seats.items }
{
    let mut adders = Vec::new(alloc);
    let mut seats = seats;
    while let Some(seat) = seats.pop() {
        let adder = Adder {
            shared,
            seat,
            index: if is_apart { seats.len() % 32 * 8 } else { 0 },
            made: 0,
            _apart: [0; 16],
        };
        if adders.push(adder).is_err() {
            return None;
        }
    }
    Some(adders)
}

// Has them add at once, each on a thread of its own. Returns whether all additions were made.
fn add_at_once<R: Threads + Sync>(rt: &R, adders: &mut [Adder<'_>]) -> bool {
    thread::for_each_mut(rt, adders, 64, &|_, adder| adder.add_many());
    let mut all = true;
    for adder in adders.iter() {
        all = adder.made == ADDS && all;
    }
    all
}

// One measurement: how long it takes them.
fn measure_once<R: Clock + Threads + Sync>(
    rt: &R,
    adders: &mut [Adder<'_>],
) -> Result<u64, NoFigure> {
    match start(rt) {
        Ok(start) => nanoseconds(rt, start, add_at_once(rt, adders)),
        Err(why) => Err(why),
    }
}

fn measure<R: Clock + Threads + Sync>(
    rt: &R,
    adders: &mut [Adder<'_>],
) -> Result<MeasuredTimes, NoFigure> {
    let _warm_up = measure_once(rt, adders)?;
    let mut nanos = [0; MEASUREMENTS];
    for turn in 0..MEASUREMENTS {
        nanos[turn] = measure_once(rt, adders)?;
    }
    Ok(MeasuredTimes::of(nanos))
}

fn print_times<R: Print>(rt: &R, row: &SeatsRow, times: MeasuredTimes) -> PrintResult {
    let (what, count, _is_apart) = *row;
    let thousands = (count as u64).saturating_mul(ADDS).saturating_mul(1_000);
    let most = thousands / times.least.max(1);
    let median = thousands / times.median.max(1);
    match println!(rt; "{what}: {most} million adds a second at most, median {median}") {
        Ok(()) => Ok(()),
        Err(_) => Err(NoFigure::System),
    }
}

// Measures what these adders do, and prints the most additions per second, and the median.
fn print_adds<R: Clock + Print + Threads + Sync>(
    rt: &R,
    row: &SeatsRow,
    adders: Option<Vec<Adder<'_>>>,
) -> PrintResult {
    let Some(mut adders) = adders else {
        return Err(NoFigure::Memory);
    };
    match measure(rt, &mut adders) {
        Ok(times) => print_times(rt, row, times),
        Err(why) => Err(why),
    }
}

fn print_row<R: Clock + Print + AllocGlobal + Threads + Sync>(
    rt: &R,
    row: &SeatsRow,
) -> PrintResult {
    let (_what, count, is_apart) = *row;
    match Shared::new(rt.alloc(), count) {
        Ok((shared, seats)) => {
            print_adds(rt, row, adders_of(rt.alloc(), &shared, seats, is_apart))
        }
        Err(_) => Err(NoFigure::Memory),
    }
}

/// Prints how many additions per second one, two and four seats make, in parallel if there are
/// enough cores.
pub fn print<R: Clock + Print + AllocGlobal + Threads + Sync>(rt: &R) -> PrintResult {
    for row in &ROWS {
        print_row(rt, row)?;
    }
    Ok(())
}
