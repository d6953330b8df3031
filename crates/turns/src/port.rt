//! A worker's port.
ghost use Rattle.std.specs.Prelude.{◌≡◌};
ghost use mathlib.Core.List.{IsPrefix};
ghost use Rattle.maps.specs.Words.{IsSeatOf};
ghost use Rattle.hooks.specs.Known.{asker_history, known_to, notice_history, told_by};

use crate::site::{Site, WorkerSeat};
use hooks::{Asker, Notice};
use maps::Seat;
use std::sync::ledger::Share;

/// A worker's access to the hub: one part of the ledger, a seat of the hub's counters and cells,
/// and an asker of the published programs. Each worker has its own, and takes one turn at a time.
/// The ledger is there for the contracts: nothing that the router does depends on it.
#[derive(Drop)]
pub struct Port<L: Site> {
    pub(crate) number: u16,
    pub(crate) share: Share<L>,
    pub(crate) seat: Seat,
    pub(crate) asker: Asker,
    pub ghost one_part: { share.parts ≡ 1 },
    pub ghost seated: { IsSeatOf L.words seat },
    pub ghost asks: { asker_history asker ≡ L.history },
}

impl<L: Site> Port<L> {
    /// A port of this number: 0 is the console's, n that of interface n.
    pub fn new(number: u16, share: Share<L>, place: WorkerSeat<L>) -> Port<L>
        requires one_part { share.parts ≡ 1 }
        ensures share { result.share ≡ share }
        ensures number { result.number ≡ number }
    {
        let WorkerSeat { seat, asker, of: _ } = place;
        Port {
            number,
            share,
            seat,
            asker,
        }
    }

    /// The port's number: 0 for the console's, else that of its interface, from 1 to 63.
    pub fn number(&self) -> u16
        ensures { result ≡ self.now.number }
    {
        self.number
    }

    /// From now on its programs are no older than the loader's were at the notice.
    pub fn learn(&mut self, notice: Notice)
        requires { notice_history notice ≡ L.history }
        ensures share { self.new.share ≡ self.old.share }
        ensures number { self.new.number ≡ self.old.number }
        ensures seat { self.new.seat ≡ self.old.seat }
        ensures saw { IsPrefix (known_to self.old.asker) (known_to self.new.asker) }
        ensures learnt { IsPrefix (told_by notice) (known_to self.new.asker) }
    {
        self.asker.learn(notice);
    }

    /// The share and the seat that a worker brings back.
    pub fn into_parts(self) -> (Share<L>, Seat)
        ensures share { (result.0 ≡ self.share) × (result.0.parts ≡ 1) }
        ensures seat { (result.1 ≡ self.seat) × IsSeatOf L.words result.1 }
    {
        let Port {
            number: _,
            share,
            seat,
            asker: _,
        } = self;
        (share, seat)
    }
}
