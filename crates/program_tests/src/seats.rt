//! New tables of the shared maps, and their seats.
ghost use Rattle.std.specs.Prelude.{◌≡◌, length, map, IfOk, IfSome};
ghost use Rattle.std.specs.List.{range_with_len};
ghost use Rattle.maps.specs.Words.{IsSeatOf, fresh};

use maps::{MapsError, Seat, Shared};
use std::alloc::Global;

/// A new table. Retries once: a test run may refuse one allocation.
///
/// # Errors
/// As [`Shared::new`](maps::Shared::new).
pub fn table(alloc: Global, count: usize) -> Result<(Shared, Vec<Seat>), MapsError>
    ensures seats { IfOk result (λ r. r.0.seats ≡ count) }
    ensures fresh { IfOk result (λ r. r.1.items ≡ map (fresh r.0.table) (range_with_len 0 count)) }
{
    match Shared::new(alloc, count) {
        Err(MapsError::Memory) => Shared::new(alloc, count),
        other => other,
    }
}

/// A new table with one seat.
pub fn one_seat(alloc: Global) -> Option<(Shared, Seat)>
    ensures { IfSome result (λ r. IsSeatOf r.0 r.1) }
{
    let Ok((shared, mut seats)) = table(alloc, 1) else {
        return None;
    };
    let seat = seats.pop()?;
    Some((shared, seat))
}

/// A new table with two seats: the first of them, and the second.
pub fn two_seats(alloc: Global) -> Option<(Shared, Seat, Seat)>
    ensures first { IfSome result (λ r. IsSeatOf r.0 r.1) }
    ensures second { IfSome result (λ r. IsSeatOf r.0 r.2) }
{
    let Ok((shared, mut seats)) = table(alloc, 2) else {
        return None;
    };
    match (seats.pop(), seats.pop()) {
        (Some(second), Some(first)) => Some((shared, first, second)),
        _ => None,
    }
}
