//! The exact counters, once all workers are back.
ghost use Rattle.std.specs.Prelude.{◌≡◌, ℕ, List, All, length, IfErr, OnOk};
ghost use Rattle.console.specs.Answers.{counter_lines};
ghost use Rattle.maps.specs.Words.{IsSeatOf};
ghost use Rattle.daemon.specs.Refusals.{IsLaterWhy};
ghost use Rattle.daemon.specs.Sums.{AreTotals};
ghost use Rattle.daemon.specs.Texts.{HasFailed};

use crate::error::StartError;
use crate::texts::WritesTexts;
use console::totals_text;
use maps::{Seat, Shared, Totals};
use std::alloc::Global;

/// Evidence that the exact counters were printed. Only [`print_totals`] makes one, so whoever has
/// it has printed them.
#[derive(Clone, Copy)]
pub struct Printed {
    told: (),
}

// Closes the programs' counters and cells, of which all seats are back: for each counter the sum of
// all that was added to it.
fn sums_of(shared: Shared, seats: Vec<Seat>) -> Totals
    requires all { length seats.items ≡ shared.seats }
    requires table { All (IsSeatOf shared) seats.items }
    ensures { AreTotals seats.items result.sums }
{
    shared.close(seats)
}

// Prints the sums of the counters.
#[tactic(auto, using(crate::proofs::Ended::failed_once))]
fn print_sums<O: WritesTexts>(
    alloc: Global,
    totals: &Totals,
    output: &mut O,
) -> Result<(), StartError>
    ensures printed { OnOk result
        (O.takes output.old (counter_lines 0 totals.now.sums) output.new) }
    ensures refused { IfErr result (IsLaterWhy (HasFailed O.fails)) }
{
    let text = totals_text(alloc, &totals.sums)?;
    match output.write_text(text.as_str()) {
        Ok(()) => Ok(()),
        Err(_) => Err(StartError::Output),
    }
}

/// Closes the programs' counters and cells, of which all seats are back, and prints for each
/// counter the sum of all that was added to it.
///
/// # Errors
/// `Output` if the output can't be written, `Memory` if an allocation is refused.
pub fn print_totals<O: WritesTexts>(
    alloc: Global,
    shared: Shared,
    seats: Vec<Seat>,
    output: &mut O,
) -> Result<Printed, StartError>
    requires all { length seats.items ≡ shared.seats }
    requires table { All (IsSeatOf shared) seats.items }
    ensures printed { OnOk result ((sums : List ℕ) × AreTotals seats.items sums
        × O.takes output.old (counter_lines 0 sums) output.new) }
    ensures refused { IfErr result (IsLaterWhy (HasFailed O.fails)) }
{
    let totals = sums_of(shared, seats);
    print_sums(alloc, &totals, output)?;
    Ok(Printed { told: () })
}
