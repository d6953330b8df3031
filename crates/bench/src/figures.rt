//! How a figure of speed is measured and printed.
use hooks::HookError;
use std::rt::Clock;
use std::time::Instant;

/// The number of measurements of each figure, after one that isn't counted.
pub const MEASUREMENTS: usize = 11;

/// Why there is no figure.
#[derive(Clone, Copy)]
pub enum NoFigure {
    /// Memory was refused.
    Memory,
    /// The clock can't be read, or nothing can be printed.
    System,
    /// What is measured did something else: another word, a refused turn, an add that wasn't made.
    Round,
}

impl From<HookError> for NoFigure {
    fn from(_error: HookError) -> NoFigure {
        NoFigure::Memory
    }
}

impl NoFigure {
    /// The line that is printed.
    pub fn text(self) -> &'static str {
        match self {
            NoFigure::Memory => "bench: out of memory",
            NoFigure::System => "bench: the clock or the output failed",
            NoFigure::Round => "bench: what is measured did something else",
        }
    }
}

/// Work that is measured, round by round.
pub trait Round {
    /// Does it once; returns whether it succeeded.
    fn succeeds(&mut self) -> bool;
}

/// The least and the median time of the measurements of a figure, in nanoseconds.
#[derive(Clone, Copy)]
pub struct MeasuredTimes {
    pub least: u64,
    pub median: u64,
}

impl MeasuredTimes {
    /// The times of all measurements.
    pub fn of(nanos: [u64; MEASUREMENTS]) -> MeasuredTimes {
        let mut nanos = nanos;
        nanos.sort_unstable();
        MeasuredTimes {
            least: nanos[0],
            median: nanos[MEASUREMENTS / 2],
        }
    }
}

/// When a measurement starts.
///
/// # Errors
/// `System` if the clock can't be read.
pub fn start<R: Clock>(rt: &R) -> Result<Instant, NoFigure> {
    match Instant::now(rt) {
        Ok(start) => Ok(start),
        Err(_) => Err(NoFigure::System),
    }
}

/// How long a measurement took, in nanoseconds.
///
/// # Errors
/// `System` if the clock can't be read; `Round` if what is measured failed, since its time would be
/// too short.
pub fn nanoseconds<R: Clock>(rt: &R, start: Instant, succeeded: bool) -> Result<u64, NoFigure> {
    match start.elapsed(rt) {
        Ok(passed) if succeeded => Ok(u64::try_from(passed.as_nanos()).unwrap_or(u64::MAX)),
        Ok(_) => Err(NoFigure::Round),
        Err(_) => Err(NoFigure::System),
    }
}

// Whether that many rounds succeed.
fn all_succeed<W: Round>(rounds: u64, work: &mut W) -> bool {
    let mut all = true;
    for _round in 0..rounds {
        all = work.succeeds() && all;
    }
    all
}

// One measurement: how long that many rounds take.
fn measure_once<R: Clock, W: Round>(rt: &R, rounds: u64, work: &mut W) -> Result<u64, NoFigure> {
    match start(rt) {
        Ok(start) => nanoseconds(rt, start, all_succeed(rounds, work)),
        Err(why) => Err(why),
    }
}

fn measure<R: Clock, W: Round>(
    rt: &R,
    rounds: u64,
    work: &mut W,
) -> Result<MeasuredTimes, NoFigure> {
    let _warm_up = measure_once(rt, rounds, work)?;
    let mut nanos = [0; MEASUREMENTS];
    for turn in 0..MEASUREMENTS {
        nanos[turn] = measure_once(rt, rounds, work)?;
    }
    Ok(MeasuredTimes::of(nanos))
}

/// Whether all figures were printed so far, or why one wasn't: then no other one is.
pub type PrintResult = Result<(), NoFigure>;

/// What a figure is for: a measurement has a number of rounds, and each of them a number of units
/// of this name.
#[derive(Clone, Copy)]
pub struct Unit {
    pub name: &'static str,
    pub rounds: u64,
    pub of_a_round: u64,
}

// The time of each, if this many of them take that many nanoseconds: whole ones, and hundredths.
fn each(nanos: u64, many: u64) -> (u64, u64) {
    let hundredths = nanos.saturating_mul(100) / many.max(1);
    (hundredths / 100, hundredths % 100)
}

fn print_times<R: Print>(rt: &R, what: &str, unit: &Unit, times: MeasuredTimes) -> PrintResult {
    let many = unit.rounds.saturating_mul(unit.of_a_round);
    let (least, after) = each(times.least, many);
    let (median, behind) = each(times.median, many);
    let name = unit.name;
    match println!(rt; "{what}: least {least}.{after:02}, median {median}.{behind:02} ns {name}") {
        Ok(()) => Ok(()),
        Err(_) => Err(NoFigure::System),
    }
}

/// Measures the work, and prints the least and the median time for one unit.
pub fn report<R: Clock + Print, W: Round>(
    rt: &R,
    printed: &mut PrintResult,
    what: &str,
    unit: &Unit,
    work: &mut W,
) {
    if printed.is_err() {
        return;
    }
    *printed = match measure(rt, unit.rounds, work) {
        Ok(times) => print_times(rt, what, unit, times),
        Err(why) => Err(why),
    };
}
