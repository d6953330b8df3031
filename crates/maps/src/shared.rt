//! The table of counters and cells.
ghost use Rattle.std.specs.Prelude.{◌≡◌, ℕ, ◌^◌, ◌<◌, ◌≤◌, ◌↔◌, ◌⊎◌, [], map, length, slice_index};
ghost use Rattle.std.specs.Prelude.{IfOk, vec_len};
ghost use Rattle.std.specs.List.{sum_by, All, range_with_len};
ghost use Rattle.std.specs.Mem.Slots.{slots_items, slots_len, IsFull};
ghost use mathlib.Core.Option.{some};
ghost use lib.ListN.{get_elem?};
ghost use Rattle.maps.specs.declared.access.Access.TheVariants.{Add, Read, Cell, SetCell};
ghost use Rattle.maps.specs.Access.{adds_to, adds_made, floor, last_stored};
ghost use Rattle.maps.specs.Words.{IsSeatOf, seat_after, fresh};
ghost use Rattle.maps.specs.Words.{history_of, blank_lists, IsSized, IsLawful};

use crate::access::View;
use crate::error::MapsError;
use crate::rule::{Adds, Beside, Front, Loads, Place, Reads, Stores, Top, WordsRule};
use crate::seat::Seat;
use crate::totals::Totals;
use crate::{CELLS, COUNTERS, MAX_ADDS, MAX_SEATS};
use atomic_table::{Closed, Table};
use std::alloc::{AllocError, Global};
use std::marker::Model;

/// A table of words: 256 counters that all its seats share, and 64 cells for each seat.
///
/// It is shared by `&` with any number of threads, each with a seat of its own. A call with a seat
/// makes one atomic step on one word: it never blocks or allocates. Contracts see which table it is
/// and how many seats it has.
#[derive(Drop)]
pub struct Shared {
    table: Table<(), View, usize, WordsRule, Global>,
}

impl Model for Shared {
    ghost use Rattle.maps.specs.Words.{SharedWords, IsSized};

    ghost Value = { SharedWords };

    ghost view = { λ s. record { table = s.table.shared.table_id; seats = s.table.shared.key } };

    ghost invariant = { λ s. IsSized s.table.shared.table_id s.table.shared.key };
}

impl Shared {
    /// A table whose counters and cells are 0, and its seats in the order of their numbers, 0 to
    /// `count - 1`.
    ///
    /// # Errors
    /// `Seats` if `count` is 0 or above 64, which is checked first; `Memory` if an allocation is
    /// refused.
    pub fn new(alloc: Global, count: usize) -> Result<(Shared, Vec<Seat>), MapsError>
        ensures seats { (result ≡ Err MapsError.Seats) ↔ ((count ≡ 0) ⊎ (64 < count)) }
        ensures table { IfOk result (λ r. r.0.seats ≡ count) }
        ensures own { IfOk result (λ r. All (IsSeatOf r.0) r.1.items) }
        ensures fresh { IfOk result (λ r. r.1.items ≡ map (fresh r.0.table)
            (range_with_len 0 count)) }
    {
        if count == 0 || count > MAX_SEATS {
            return Err(MapsError::Seats);
        }
        let words = vec![in alloc; 0u64; COUNTERS + CELLS * count]?;
        let (table, all) = Table::of_words(alloc, words.as_slice(), &count)?;
        let seats = deal(alloc, &table.shared, all, count)?;
        Ok((Shared { table }, seats))
    }

    /// Closes the table, given all its seats in any order, and returns for each counter the sum of
    /// their adds, which is below 2^61.
    pub fn close(self, seats: Vec<Seat>) -> Totals
        requires all { length seats.items ≡ self.seats }
        requires table { All (IsSeatOf self) seats.items }
        ensures sums { (k : ℕ) → k < 256 → slice_index result.sums k
            ≡ sum_by (λ s. adds_to k s.accesses) seats.items }
        ensures small { (k : ℕ) → k < 256 → slice_index result.sums k < 2 ^ 61 }
        ensures lists { All (λ s. IsLawful result.sums s.accesses) seats.items }
    {
        let Shared { table } = self;
        let all = gather(&table.shared, seats);
        let closed = table.close_with(all);
        let totals = Totals {
            sums: counters(&closed),
        };
        closed.free();
        totals
    }

    /// Adds an amount below 2^24 to one of the 256 counters and returns 0; once the seat has made
    /// its 2^31 adds, does nothing and returns 1.
    pub fn add(&self, seat: &mut Seat, index: usize, amount: u64) -> u64
        requires table { IsSeatOf self.now seat.old }
        requires index { index < 256 }
        requires amount { amount < 2 ^ 24 }
        ensures added { adds_made seat.old.accesses < 2 ^ 31 → (result ≡ 0)
            × (seat.new ≡ seat_after seat.old (Add index amount)) }
        ensures spent { 2 ^ 31 ≤ adds_made seat.old.accesses → (result ≡ 1)
            × (seat.new ≡ seat.old) }
    {
        if seat.adds >= MAX_ADDS {
            return 1;
        }
        let words = &self.table.shared;
        words.fetch_add::<Adds>(&mut seat.place, index, amount);
        seat.adds += 1;
        0
    }

    /// The value of one of the 256 counters. It is at least what the seat's own accesses imply:
    /// what the seat last read there plus what it added since.
    pub fn read(&self, seat: &mut Seat, index: usize) -> u64
        requires table { IsSeatOf self.now seat.old }
        requires index { index < 256 }
        ensures noted { seat.new ≡ seat_after seat.old (Read index result) }
        ensures floor { floor index seat.old.accesses ≤ result }
        ensures small { result < 2 ^ 61 }
    {
        self.table.shared.load::<Reads>(&mut seat.place, index)
    }

    /// The value of one of the seat's own 64 cells: what the seat last stored there, or 0.
    pub fn cell(&self, seat: &mut Seat, index: usize) -> u64
        requires table { IsSeatOf self.now seat.old }
        requires index { index < 64 }
        ensures noted { seat.new ≡ seat_after seat.old (Cell index result) }
        ensures value { result ≡ last_stored index seat.old.accesses }
    {
        let word = COUNTERS + CELLS * seat.number + index;
        self.table.shared.load::<Loads>(&mut seat.place, word)
    }

    /// Stores a number in one of the seat's own 64 cells.
    pub fn set_cell(&self, seat: &mut Seat, index: usize, value: u64)
        requires table { IsSeatOf self.now seat.old }
        requires index { index < 64 }
        ensures { seat.new ≡ seat_after seat.old (SetCell index value) }
    {
        let word = COUNTERS + CELLS * seat.number + index;
        let words = &self.table.shared;
        words.store::<Stores>(&mut seat.place, word, value);
    }
}

// Cuts the view of all lists into seats with one list each.
fn deal(alloc: Global, words: &Top, mut all: Place, count: usize) -> Result<Vec<Seat>, AllocError>
    requires table { (all.table_id ≡ words.now.table_id) × IsSized words.now.table_id count
        × (words.now.key ≡ count) }
    requires view { all.me ≡ (blank_lists 0 count, []) }
    ensures { IfOk result (λ v. v.items ≡ map (fresh words.now.table_id) (range_with_len 0 count)) }
{
    let mut seats = Vec::with_capacity(alloc, count)?;
    for number in 0..count {
        let place = words.split_seat::<Front>(&mut all);
        seats.push(Seat {
            number,
            adds: 0,
            place,
        })?;
    }
    Ok(seats)
}

// Puts the lists of all seats side by side.
fn gather(words: &Top, mut seats: Vec<Seat>) -> Place
    requires some { 0 < vec_len seats }
    requires table { All (λ s. s.table ≡ words.now.table_id) seats.items }
    requires words { 0 < words.now.table_id.words }
    ensures table { result.table_id ≡ words.now.table_id }
    ensures lists { result.me.0 ≡ map history_of seats.items }
{
    let Some(first) = seats.pop() else {
        unreachable!()
    };
    let mut all = first.into_place();
    while let Some(seat) = seats.pop() {
        words.join_seat::<Beside>(&mut all, seat.into_place());
    }
    all
}

// The counters of a table that is closed.
fn counters(closed: &Closed<(), Global>) -> [u64; COUNTERS]
    requires { (256 ≤ slots_len closed.now.words) × IsFull closed.now.words }
    ensures { (k : ℕ) → k < 256 → get_elem? (slots_items closed.now.words) k
        ≡ some (slice_index result k) }
{
    let mut sums = [0; COUNTERS];
    for index in 0..COUNTERS {
        sums[index] = closed.word(index);
    }
    sums
}
