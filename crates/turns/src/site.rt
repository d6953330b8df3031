//! What all workers of one router have in common, by which their types know one another.
ghost use Rattle.std.specs.Prelude.{◌≡◌, []};
ghost use Rattle.logbook.specs.Pages.{Book as History};
ghost use Rattle.maps.specs.Words.{IsSeatOf, SharedWords};
ghost use Rattle.hooks.specs.Known.{asker_history};

use flood::Origin;
use hooks::Asker;
use maps::Seat;
use std::marker::{Brand, PhantomData};

/// Which ledger counts the events, which router began, which table of counters and cells the
/// seats are of and how many it gave, and whose published programs the askers run.
///
/// A hub's type and its ports' types name it. Who starts workers picks it, by `Brand`. Contracts
/// alone speak of it: nothing that the router does depends on it, nor on the shares of the ledger.
pub trait Site: Origin {
    ghost words: { SharedWords };

    ghost history: { History };
}

impl Site for Brand {
    ghost words = { record {
      table = record {
        words = 0;
        slots = 0;
        views_name = 0;
        atom = 0;
        block = 0;
        offset = 0;
        slot_names = [];
      };
      seats = 0;
    } };

    ghost history = { record { number = 0; log_name = 0; cells_name = 0 } };
}

/// A seat of the counters and cells, and an asker of the published programs.
#[derive(Drop)]
pub struct WorkerSeat<L: Site> {
    pub(crate) seat: Seat,
    pub(crate) asker: Asker,
    pub(crate) of: PhantomData<L>,
    pub ghost seated: { IsSeatOf L.words seat },
    pub ghost asks: { asker_history asker ≡ L.history },
}

impl<L: Site> WorkerSeat<L> {
    /// Pairs a seat with an asker, for one port. Both have to be the site's: the seat of its table,
    /// the asker of its programs.
    pub fn new(seat: Seat, asker: Asker) -> WorkerSeat<L>
        requires seated { IsSeatOf L.words seat }
        requires asks { asker_history asker ≡ L.history }
    {
        WorkerSeat {
            seat,
            asker,
            of: PhantomData,
        }
    }
}
