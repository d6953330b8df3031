//! What `sockets` and `daemon` do with sockets that fail, and the texts of faults.

mod failing_sockets;
mod refusals;
mod refused_sends;
