//! A seat of a table.
use crate::rule::Place;
use std::marker::Model;

/// The right to access a table from one thread at a time, with 64 cells of its own.
///
/// It may be sent to another thread. Contracts see its table, its number and its accesses so far,
/// the oldest first. Once a seat of a table is dropped, the table can't be closed any more.
#[derive(Drop)]
pub struct Seat {
    pub(crate) number: usize,
    pub(crate) adds: u64,
    pub(crate) place: Place,
}

impl Model for Seat {
    ghost use Rattle.std.specs.Prelude.{◌≡◌, ◌+◌, ◌*◌, ◌<◌, ◌≤◌, [], ◌∷◌};
    ghost use Rattle.maps.specs.Access.{adds_made};
    ghost use Rattle.maps.specs.Words.{SeatView, own_list, IsSeated};

    ghost Value = { SeatView };

    ghost view = { λ s. record {
      table = s.place.table_id;
      number = s.number;
      accesses = own_list
          s.place.me.0;
    } };

    ghost invariant = { λ s. IsSeated s.number s.adds s.place.table_id.words s.place.me };
}

impl Seat {
    ghost use Rattle.std.specs.Prelude.{◌≡◌, [], ◌∷◌};
    ghost use Rattle.maps.specs.Words.{history};

    pub(crate) fn into_place(self) -> Place
        ensures table { result.table_id ≡ self.table }
        ensures view { result.me ≡ (history self.number self.accesses ∷ [], []) }
    {
        let Seat {
            number: _,
            adds: _,
            place,
        } = self;
        place
    }
}
