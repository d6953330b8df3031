//! What is done to counters and cells before a program runs.
ghost use Rattle.std.specs.Prelude.{◌≡◌};
ghost use Rattle.maps.specs.Words.{IsSeatOf};
ghost use Rattle.hooktool_trials.specs.Settings.{Adds, AddsOne, IsSetUp, Stores, StoresOne};

use crate::settings::Setting;
use maps::{Seat, Shared};

/// Adds a number to a counter, if it is below 2^24 and the seat may still add.
fn add_one(shared: &Shared, seat: &mut Seat, setting: Setting)
    requires { IsSeatOf shared.now seat.old }
    ensures table { IsSeatOf shared.now seat.new }
    ensures added { AddsOne setting seat.old seat.new }
{
    if setting.number < 0x100_0000 {
        let _ = shared.add(seat, usize::from(setting.index), setting.number);
    }
}

/// Adds each of the numbers to its counter.
fn add_all(shared: &Shared, seat: &mut Seat, settings: &[Setting])
    requires { IsSeatOf shared.now seat.old }
    ensures table { IsSeatOf shared.now seat.new }
    ensures added { Adds settings.now seat.old seat.new }
{
    for setting in settings {
        add_one(shared, seat, *setting);
    }
}

/// Stores a number in a cell, if there is such a cell.
fn store_one(shared: &Shared, seat: &mut Seat, setting: Setting)
    requires { IsSeatOf shared.now seat.old }
    ensures table { IsSeatOf shared.now seat.new }
    ensures stored { StoresOne setting seat.old seat.new }
{
    if setting.index < 64 {
        shared.set_cell(seat, usize::from(setting.index), setting.number);
    }
}

/// Stores each of the numbers in its cell.
fn store_all(shared: &Shared, seat: &mut Seat, settings: &[Setting])
    requires { IsSeatOf shared.now seat.old }
    ensures table { IsSeatOf shared.now seat.new }
    ensures stored { Stores settings.now seat.old seat.new }
{
    for setting in settings {
        store_one(shared, seat, *setting);
    }
}

/// Adds to counters, and then stores in cells.
pub(crate) fn set_up(shared: &Shared, seat: &mut Seat, counters: &[Setting], cells: &[Setting])
    requires { IsSeatOf shared.now seat.old }
    ensures table { IsSeatOf shared.now seat.new }
    ensures set_up { IsSetUp counters.now cells.now seat.old seat.new }
{
    add_all(shared, seat, counters);
    store_all(shared, seat, cells);
}
