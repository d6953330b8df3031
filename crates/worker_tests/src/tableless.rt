//! A destination is announced at a router that has no memory for its table or its candidates.
ghost use Rattle.std.specs.Prelude.{◌≡◌, ⊤, None};

use crate::side_by_side::number_of;
use crate::stage::{Deed, Stage, work_of};
use hooks::{Asker, HookAnswer, Notice, PriceAnswer, TagAnswer, VetoAnswer, VetoAnswers};
use keyed_map::Pages;
use maps::{Seat, Shared};
use std::alloc::{AllocError, Global};
use std::sync::Wait;
use std::sync::atomic::AtomicU64;
use std::sync::ledger::Share;
use words::{External, ExternalType, Prefix, Route, RouterId, Second, Sequence, TableRow};
use worker::{
    Book, BookError, Event, Hub, NeighborState, Offered, Open, Port, Site, TakeOutcome, Taker,
    Work, turn,
};

// A book that is refused memory for its table and its candidates. Only what an announcement needs
// is asked of it, and of no program at `count` and `veto` there is a reading.
#[derive(Drop)]
struct Tableless<L: Site> {
    book: Book<L>,
}

impl<L: Site> Taker<L> for Tableless<L> {
    ghost took = { record {
      taken = λ events moment event outs stale. ⊤;
      change_counted = λ operations. ⊤;
      asked = λ input. ⊤;
      changes_read = λ events changes. ⊤;
    } };

    ghost refuses = { record {
      refused = λ events moment event error. ⊤;
      lacks = λ lack. ⊤;
    } };

    ghost offers = { λ candidates rows. ⊤ };

    ghost wanted = { λ events prefix wanted. ⊤ };

    ghost began = { λ it. ⊤ };

    ghost neighbor_at = { λ it interface. None };

    ghost moment_of = { λ it. it.book.current.moment };

    fn take(
        &mut self,
        mine: &mut Share<L>,
        moment: Second,
        event: Event,
    ) -> Result<TakeOutcome, BookError> {
        self.book.take(mine, moment, event)
    }

    fn offered(&self) -> Result<Offered, AllocError> {
        Err(AllocError)
    }

    fn candidates(&self) -> Result<Pages<Route>, AllocError> {
        Err(AllocError)
    }

    fn wants(&mut self, _mine: &mut Share<L>, _prefix: Prefix) -> bool {
        false
    }

    fn neighbor(&self, _interface: u16) -> Option<(RouterId, NeighborState)> {
        None
    }

    fn count(
        _asker: &mut Asker,
        _interface: u16,
        _moment: Second,
        _packet: &[u8],
        _shared: &Shared,
        _seat: &mut Seat,
    ) -> Option<HookAnswer> {
        None
    }

    fn tag(
        asker: &mut Asker,
        external: &External,
        moment: Second,
        rows: &[TableRow],
        shared: &Shared,
        seat: &mut Seat,
    ) -> Option<TagAnswer> {
        asker.tag(external, moment, rows, shared, seat)
    }

    fn price(
        asker: &mut Asker,
        external: &External,
        moment: Second,
        rows: &[TableRow],
        shared: &Shared,
        seat: &mut Seat,
    ) -> Option<PriceAnswer> {
        asker.price(external, moment, rows, shared, seat)
    }

    fn vetoes(
        _asker: &mut Asker,
        _alloc: Global,
        _routes: &[Route],
        _moment: Second,
        _rows: &[TableRow],
        _shared: &Shared,
        _seat: &mut Seat,
    ) -> Result<Option<Vec<VetoAnswer>>, AllocError> {
        Err(AllocError)
    }

    fn all_let_in(
        _asker: &mut Asker,
        _routes: Pages<Route>,
        _moment: Second,
    ) -> Option<VetoAnswers> {
        None
    }

    fn copied(_bytes: &Sequence<u8>) -> Result<Sequence<u8>, AllocError> {
        Err(AllocError)
    }

    fn count_change(_changes: &AtomicU64, _notice: &Notice) {}

    fn changes(_changes: &AtomicU64, _mine: &Share<L>) -> u64 {
        0
    }
}

// The number of the refusal when the last of these ports does this work, or 0.
fn answer<L: Site, B: Taker<L>, R: Wait>(
    rt: &R,
    hub: &Hub<L, B>,
    ports: &mut [Port<L>],
    work: Option<&Work>,
) -> u8 {
    match (ports.last_mut(), work) {
        (Some(port), Some(work)) => {
            number_of(turn(rt, hub, port, &mut Open {}, Second::new(5), work))
        }
        _ => 6,
    }
}

/// The number of the refusal when the destination is announced at the last of these ports, or 0. No
/// table is asked for if no program stands at `tag` and `price`.
pub fn announce<L: Site, R: Wait, Q: Wait + Drop>(
    rt: &R,
    alloc: Global,
    hub: Hub<L, Book<L>>,
    stage: &mut Stage<L, Q>,
) -> u8 {
    let work = work_of(alloc, Deed::Add(ExternalType::Type2));
    let (book, shared) = hub.into_parts();
    let hub = Hub::new(Tableless { book }, shared);
    let answer = answer(rt, &hub, &mut stage.ports, work.as_ref());
    let (tableless, _shared) = hub.into_parts();
    let _taken = tableless.book.close();
    answer
}
