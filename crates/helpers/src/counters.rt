//! The steps that a program makes on the shared words, with the label of each.
ghost use Rattle.std.specs.Prelude.{◌≡◌, ◌<◌, ◌^◌, ℕ, [], ◌∷◌};
ghost use Rattle.machine.specs.declared.helper.Helper.TheVariants.{CounterAdd, CounterRead};
ghost use Rattle.machine.specs.Given.{Given};
ghost use Rattle.machine.specs.declared.state.Content.TheVariants.{Number};
ghost use Rattle.machine.specs.Helpers.{HelperAnswers};
ghost use Rattle.machine.specs.Label.{Label, Read, Cell, SetCell};
ghost use Rattle.maps.specs.Words.{IsSeatOf};
ghost use Rattle.helpers.specs.Seats.{SeatMakes};

use maps::{Seat, Shared};

/// Adds an amount below 2^24 to one of the 256 counters and returns 0; once the seat has made its
/// 2^31 additions, adds nothing and returns 1.
pub fn counter_add(shared: &Shared, seat: &mut Seat, counter: u64, amount: u64) -> u64
    requires table { IsSeatOf shared.now seat.old }
    requires counter { counter < 256 }
    requires amount { amount < 2 ^ 24 }
    ensures { (label : Label) × SeatMakes seat.old (label ∷ []) seat.new
        × ((input : Given) → HelperAnswers CounterAdd input
        (Number counter ∷ Number amount ∷ []) label result) }
{
    shared.add(seat, counter as usize, amount)
}

/// The value of one of the 256 counters: at least what the seat's own accesses imply.
pub fn counter_read(shared: &Shared, seat: &mut Seat, counter: u64) -> u64
    requires table { IsSeatOf shared.now seat.old }
    requires counter { counter < 256 }
    ensures made { SeatMakes seat.old (Read counter result ∷ []) seat.new }
    ensures answers { (input : Given) → HelperAnswers CounterRead input (Number counter ∷ [])
        (Read counter result) result }
{
    shared.read(seat, counter as usize)
}

/// The value of one of the seat's own 64 cells: what the seat last stored there, or 0.
pub fn cell_read(shared: &Shared, seat: &mut Seat, cell: u64) -> u64
    requires table { IsSeatOf shared.now seat.old }
    requires cell { cell < 64 }
    ensures { SeatMakes seat.old (Cell cell result ∷ []) seat.new }
{
    shared.cell(seat, cell as usize)
}

/// Stores a number in one of the seat's own 64 cells.
pub fn cell_write(shared: &Shared, seat: &mut Seat, cell: u64, word: u64)
    requires table { IsSeatOf shared.now seat.old }
    requires cell { cell < 64 }
    ensures { SeatMakes seat.old (SetCell cell word ∷ []) seat.new }
{
    shared.set_cell(seat, cell as usize, word);
}
