//! A hub and its ports.
ghost use Rattle.std.specs.Prelude.{◌≡◌, ◌+◌, ◌≤◌, All, IfNone, IfOk, IfSome, map, vec_len};
ghost use Rattle.maps.specs.Words.{IsSeatOf};
ghost use Rattle.hooks.specs.Known.{asker_history};
ghost use Rattle.worker.specs.Descending.{CountDownTo};
ghost use Rattle.worker.specs.Opening.{IsSetUpFor};

use crate::setup::Setup;
use hooks::Asker;
use maps::Seat;
use std::alloc::{AllocError, Global};
use std::sync::ledger::Share;
use turns::{Book, Core, Hub, Port, Site, WorkerSeat};

/// Opens a hub with a book that begins with this router, the one that its type names, and a port
/// for each seat of the setup. The last port has number 0, the one before it number 1, and so on.
/// Beside them comes what is left of the ledger when each port has its part.
///
/// # Errors
/// `AllocError` if an allocation is refused.
pub fn open_hub<L: Site>(
    alloc: Global,
    setup: Setup,
    core: Core,
) -> Result<(Hub<L, Book<L>>, Vec<Port<L>>, Share<L>), AllocError>
    requires setup { IsSetUpFor L.name L.parts L.words L.history setup }
    requires origin { core ≡ L.origin }
    ensures ports { IfOk result (λ r. vec_len r.1 ≡ vec_len setup.seats) }
    ensures numbers { IfOk result (λ r. CountDownTo 0 (map (λ p. p.number) r.1.items)) }
    ensures parts { IfOk result (λ r. r.2.parts + vec_len r.1 ≡ L.parts) }
{
    let Setup {
        blank,
        shared,
        seats,
        askers,
    } = setup;
    let (book, mut rest) = Book::<L>::new(alloc, blank, core)?;
    match ports_of(alloc, &mut rest, seats, askers) {
        Ok(ports) => Ok((Hub::new(book, shared), ports, rest)),
        Err(error) => {
            let _none = book.close();
            Err(error)
        }
    }
}

// A port for each seat with its asker, in the order of the seats; the last one has number 0.
fn ports_of<L: Site>(
    alloc: Global,
    all: &mut Share<L>,
    seats: Vec<Seat>,
    askers: Vec<Asker>,
) -> Result<Vec<Port<L>>, AllocError>
    requires enough { vec_len askers ≡ vec_len seats }
    requires few { vec_len seats ≤ 64 }
    requires seated { All (IsSeatOf L.words) seats.items }
    requires asks { All (λ a. asker_history a ≡ L.history) askers.items }
    requires parts { (all.old.parts ≡ vec_len seats) × (all.old.amount ≡ 0) }
    ensures ports { IfOk result (λ ports.
        (vec_len ports ≡ vec_len seats) × (all.new.parts ≡ 0)) }
    ensures numbers { IfOk result (λ ports. CountDownTo 0 (map (λ p. p.number) ports.items)) }
{
    let places = places(alloc, seats, askers)?;
    ports(alloc, all, places)
}

// A place for each seat, the last one first.
fn places<L: Site>(
    alloc: Global,
    seats: Vec<Seat>,
    askers: Vec<Asker>,
) -> Result<Vec<WorkerSeat<L>>, AllocError>
    requires enough { vec_len askers ≡ vec_len seats }
    requires seated { All (IsSeatOf L.words) seats.items }
    requires asks { All (λ a. asker_history a ≡ L.history) askers.items }
    ensures { IfOk result (λ places. vec_len places ≡ vec_len seats) }
{
    let (mut seats, mut askers) = (seats, askers);
    let mut places = Vec::with_capacity(alloc, seats.len())?;
    while let Some(place) = next_place(&mut seats, &mut askers) {
        places.push(place)?;
    }
    Ok(places)
}

// A place with the last seat and the last asker.
fn next_place<L: Site>(seats: &mut Vec<Seat>, askers: &mut Vec<Asker>) -> Option<WorkerSeat<L>>
    requires enough { vec_len askers.old ≡ vec_len seats.old }
    requires seated { All (IsSeatOf L.words) seats.old.items }
    requires asks { All (λ a. asker_history a ≡ L.history) askers.old.items }
    ensures enough { vec_len askers.new ≡ vec_len seats.new }
    ensures seated { All (IsSeatOf L.words) seats.new.items }
    ensures asks { All (λ a. asker_history a ≡ L.history) askers.new.items }
    ensures some { IfSome result (λ _. vec_len seats.new + 1 ≡ vec_len seats.old) }
    ensures none { IfNone result (vec_len seats.old ≡ 0) }
{
    let seat = seats.pop()?;
    let Some(asker) = askers.pop() else {
        unreachable!()
    };
    Some(WorkerSeat::new(seat, asker))
}

// A port for each place, with one part of the ledger each, the last place first.
fn ports<L: Site>(
    alloc: Global,
    all: &mut Share<L>,
    places: Vec<WorkerSeat<L>>,
) -> Result<Vec<Port<L>>, AllocError>
    requires parts { (all.old.parts ≡ vec_len places) × (all.old.amount ≡ 0) }
    requires few { vec_len places ≤ 64 }
    ensures ports { IfOk result (λ ports.
        (vec_len ports ≡ vec_len places) × (all.new.parts ≡ 0)) }
    ensures numbers { IfOk result (λ ports. CountDownTo 0 (map (λ p. p.number) ports.items)) }
{
    let mut places = places;
    let mut ports = Vec::with_capacity(alloc, places.len())?;
    while let Some(place) = places.pop() {
        let share = all.split_off(1, 0);
        ports.push(Port::new(places.len() as u16, share, place))?;
    }
    Ok(ports)
}
