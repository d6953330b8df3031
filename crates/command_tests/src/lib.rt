//! Tests of `commands`, `sockets` and `daemon` by their public calls, of what no command line
//! shows: a router in the place of another, writers and sockets that fail, texts of faults. Command
//! lines and routers that run are rows of trials/routerd.rows and trials/sessions.rows. They stand
//! above, since a crate is proved once more for its tests.
#![tactic(auto)]

#[cfg(test)]
mod program;
#[cfg(test)]
mod running;
