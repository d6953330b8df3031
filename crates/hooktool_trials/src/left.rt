//! What runs left in the counters and the cells.
ghost use Rattle.std.specs.Prelude.{◌≡◌, ◌<◌, ℕ, slice_index};
ghost use Rattle.maps.specs.Access.{adds_to, last_stored};
ghost use Rattle.maps.specs.Words.{IsSeatOf};
ghost use Rattle.hooktool_trials.specs.Runs.{SameNumbers};

use maps::{Seat, Shared};

/// The number in each of the seat's 64 cells.
pub(crate) fn cells_of(shared: &Shared, seat: &mut Seat) -> [u64; 64]
    requires { IsSeatOf shared.now seat.old }
    ensures table { IsSeatOf shared.now seat.new }
    ensures cells { (j : ℕ) → j < 64 → slice_index result j ≡ last_stored j seat.old.accesses }
    ensures same { SameNumbers seat.old seat.new }
{
    let mut cells = [0; 64];
    for index in 0..64usize {
        cells[index] = shared.cell(seat, index);
    }
    cells
}
