//! Turns at one router: each brings a datagram, a Tick or a command, asks the published programs
//! what the event needs, and gives the event to the router's book under one lock.
//!
//! What a turn says is said of the event that it gave: the book is behind the lock, and of it the
//! type [`flood::Book`] and a ledger tell, in which each port's share counts its own events.
#![tactic(auto)]

mod gate;
mod hub;
pub mod laws;
mod port;
mod questions;
mod site;
mod taker;
mod turned;
mod turns;
mod work;

pub use flood::{
    Book, BookError, Config, ConfigError, Core, CoreError, Event, Interface, NeighborState,
    Offered, Origin, Out,
};
pub use gate::{Gate, Open};
pub use hub::Hub;
pub use port::Port;
pub use site::{Site, WorkerSeat};
pub use taker::{TakeOutcome, Taker};
pub use turned::{TurnError, TurnOutcome};
pub use turns::turn;
pub use work::Work;
