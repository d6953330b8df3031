//! What the workers bring back: the count of all events, and the seats.
ghost use Rattle.std.specs.Prelude.{◌≡◌, ◌+◌, All, vec_len, IfOk};
ghost use Rattle.maps.specs.Words.{IsSeatOf};

use maps::{Seat, Shared};
use std::alloc::{AllocError, Global};
use std::sync::ledger::Share;
use turns::{Book, Hub, Port, Site};

/// The share that counts every event of the book, and the ports' seats, all of the hub's counters
/// and cells: what [`Shared::close`](maps::Shared::close) asks for.
#[derive(Drop)]
pub struct Settled<L: Site> {
    pub share: Share<L>,
    pub seats: Vec<Seat>,
}

/// Puts the shares of the ports and the rest of the ledger together. The book has taken just as
/// many events as they count.
///
/// # Errors
/// `AllocError` if an allocation is refused; the ports are lost then, and the book is as it was.
pub fn settle<L: Site>(
    alloc: Global,
    book: &mut Book<L>,
    rest: Share<L>,
    ports: Vec<Port<L>>,
) -> Result<Settled<L>, AllocError>
    requires { rest.parts + vec_len ports ≡ L.parts }
    ensures taken { IfOk result (λ r. book.old.taken ≡ r.share.amount) }
    ensures parts { IfOk result (λ r. r.share.parts ≡ L.parts) }
    ensures seats { IfOk result (λ r.
        (vec_len r.seats ≡ vec_len ports) × All (IsSeatOf L.words) r.seats.items) }
    ensures book { book.new ≡ book.old }
{
    let mut all = rest;
    let mut ports = ports;
    let mut seats = Vec::with_capacity(alloc, ports.len())?;
    while let Some(port) = ports.pop() {
        let (share, seat) = port.into_parts();
        all.merge(share);
        seats.push(seat)?;
    }
    book.audit(&mut all);
    Ok(Settled { share: all, seats })
}

/// What is left of a hub: how many events its book took, the share that counts them, and the
/// counters and cells with the ports' seats.
#[derive(Drop)]
pub struct Closed<L: Site> {
    pub taken: u64,
    pub share: Share<L>,
    pub shared: Shared,
    pub seats: Vec<Seat>,
}

/// Settles with the ports, once all came back, and drops the book. The book had taken just as many
/// events as the share counts; the counters and cells come with all their seats, as
/// [`Shared::close`](maps::Shared::close) asks for them.
///
/// # Errors
/// `AllocError` if an allocation is refused; or, handed on from `back`, if the caller has no ports,
/// in which case the book is closed all the same.
#[tactic(auto, using(crate::proofs::SeatsOf::of_the_same))]
pub fn close_hub<L: Site>(
    alloc: Global,
    hub: Hub<L, Book<L>>,
    rest: Share<L>,
    back: Result<Vec<Port<L>>, AllocError>,
) -> Result<Closed<L>, AllocError>
    requires parts { IfOk back (λ ports. rest.parts + vec_len ports ≡ L.parts) }
    requires every { IfOk back (λ ports. vec_len ports ≡ L.words.seats) }
    ensures taken { IfOk result (λ r. r.taken ≡ r.share.amount) }
    ensures parts { IfOk result (λ r. r.share.parts ≡ L.parts) }
    ensures every { IfOk result (λ r. vec_len r.seats ≡ r.shared.seats) }
    ensures seated { IfOk result (λ r. All (IsSeatOf r.shared) r.seats.items) }
{
    let (mut book, shared) = hub.into_parts();
    let settled = settle_back(alloc, &mut book, rest, back);
    let taken = book.close();
    let Settled { share, seats } = settled?;
    Ok(Closed {
        taken,
        share,
        shared,
        seats,
    })
}

// Settles with the ports, if they came back.
fn settle_back<L: Site>(
    alloc: Global,
    book: &mut Book<L>,
    rest: Share<L>,
    back: Result<Vec<Port<L>>, AllocError>,
) -> Result<Settled<L>, AllocError>
    requires parts { IfOk back (λ ports. rest.parts + vec_len ports ≡ L.parts) }
    requires every { IfOk back (λ ports. vec_len ports ≡ L.words.seats) }
    ensures taken { IfOk result (λ r. book.old.taken ≡ r.share.amount) }
    ensures parts { IfOk result (λ r. r.share.parts ≡ L.parts) }
    ensures seats { IfOk result (λ r.
        (vec_len r.seats ≡ L.words.seats) × All (IsSeatOf L.words) r.seats.items) }
    ensures book { book.new ≡ book.old }
{
    let ports = back?;
    settle(alloc, book, rest, ports)
}
