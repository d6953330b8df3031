//! How many bytes an event takes in a journal.
ghost use Rattle.std.specs.Prelude.{◌≡◌, min};
ghost use Rattle.flood.specs.Bytes.{allowed_for, held_by, with_event};

use crate::event::Event;

/// The bytes that an entry takes beside what its event holds elsewhere, or more.
const ENTRY: u64 = 256;

/// The bytes that a journal may take beside those for each LSA of its router, 256 KiB.
const LEAST: u64 = 256 << 10;

/// The bytes that a journal may take for each LSA of its router: about half of what the router
/// takes for it.
const FOR_AN_LSA: u64 = 256;

/// The bytes that the journal of a router with this number of LSAs may take.
pub fn allowance(lsas: usize) -> u64
    ensures { result ≡ allowed_for lsas }
{
    (lsas as u64)
        .saturating_mul(FOR_AN_LSA)
        .saturating_add(LEAST)
}

// What an event holds outside of itself and keeps in the journal: the bytes of a packet. An Install
// loses its answers to the next one.
fn held_by(event: &Event) -> u64
    ensures { result ≡ held_by event.now }
{
    match event {
        Event::Packet(_, bytes) => bytes.as_slice().len() as u64,
        Event::Tick => 0,
        Event::Redistribute(_, _) => 0,
        Event::Withdraw(_) => 0,
        Event::Install(_) => 0,
        Event::LinkDown(_) => 0,
    }
}

/// `bytes`, and those that this event takes in a journal: what it holds, and 256 beside. The
/// greatest value stands for all sums above it, too.
pub fn with_event(bytes: u64, event: &Event) -> u64
    ensures { result ≡ with_event bytes event.now }
{
    bytes.saturating_add(held_by(event)).saturating_add(ENTRY)
}
