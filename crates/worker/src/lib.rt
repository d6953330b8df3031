//! Workers that take turns at one router ([`turn`]): what they start with, the loop of one over its
//! transport and its clock, and what they bring back. Transports and clocks are traits; UDP sockets
//! and the system's seconds implement them, and scripted versions for tests.
#![tactic(auto)]

mod flag;
mod opening;
mod script;
mod serving;
mod settling;
mod setup;
mod sockets;
mod transport;

pub use flag::{Flag, Signal};
pub use opening::open_hub;
pub use script::{Answer, Script, Times};
pub use serving::{Ended, run, send_all, turn_with_retries};
pub use settling::{Closed, Settled, close_hub, settle};
pub use setup::Setup;
pub use sockets::clock::{ReadsSeconds, SystemSeconds};
pub use sockets::error::SocketError;
pub use sockets::refusals::{judge_receive, judge_send};
pub use sockets::socket::DatagramSocket;
pub use sockets::socket_transports::{Sockets, TransportEnd, listening, listening_with};
pub use sockets::waiting::{Ear, ListensAt, SystemPoller, Waits};
pub use sockets::wire::{BindsSockets, SystemSockets, Wire, bind_each, bind_each_with};
pub use transport::{Seconds, SocketFault, Transport, datagram};
// Names from the crates below that crates above use.
pub use turns::{
    Book, BookError, Config, ConfigError, Core, CoreError, Event, Gate, Hub, Interface,
    NeighborState, Offered, Open, Origin, Out, Port, Site, TakeOutcome, Taker, TurnError,
    TurnOutcome, Work, WorkerSeat, turn,
};
