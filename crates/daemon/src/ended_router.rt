//! How a router ended.
ghost use Rattle.std.specs.Prelude.{◌≡◌};
ghost use Rattle.daemon.specs.Statuses.{any_failed, status_of_ended};

use crate::labor::EndedWorker;
use crate::talk::EndedConsole;
use crate::totals::Printed;
use std::snapshot::Snapshot;
use worker::{Core, TransportEnd};

/// How a router ended: the router that it began with (a snapshot for contracts, of which nothing is
/// kept at run time), how each worker's transport ended and how the console's did, how the
/// conversation ended, and that the counters' sums were printed.
#[derive(Drop)]
pub struct EndedRouter {
    pub(crate) origin: Snapshot<Core>,
    pub(crate) workers: Vec<EndedWorker>,
    pub(crate) console: TransportEnd,
    pub(crate) ended_console: EndedConsole,
    pub(crate) printed: Printed,
}

// Whether the transport of some worker failed.
fn is_any_failed(workers: &[EndedWorker]) -> bool
    ensures { result ≡ any_failed workers.now }
{
    workers.iter().any(|worker| worker.has_failed())
}

impl EndedRouter {
    /// The exit status of the program: 3 if the transport of a worker or of the console failed, or
    /// the input couldn't be read; else 0.
    pub fn status(&self) -> u8
        ensures { result ≡ status_of_ended self.now }
    {
        if is_any_failed(&self.workers)
            || self.console.has_failed()
            || self.ended_console.has_input_failed()
        {
            3
        } else {
            0
        }
    }
}
