//! A worker's transports and clock at the machine: UDP sockets of 127.0.0.1, and the system's
//! seconds.
//!
//! No contract says what a socket or a clock gives or takes. Which socket is handed an interface's
//! bytes, and what a call that the system refused says, is proved for any socket.

pub mod clock;
pub mod error;
pub mod refusals;
pub mod socket;
pub mod socket_transports;
pub mod waiting;
pub mod wire;
