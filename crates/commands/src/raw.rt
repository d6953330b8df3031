//! Bare code on seats, each on a thread of its own.

ghost use Rattle.std.specs.Prelude.{◌≡◌, ◌++◌, ◌⊎◌, ℕ, List, length, map, IfOk, IfErr, OnOk};
ghost use Rattle.std.specs.Prelude.{string_bytes, is_err};
ghost use Rattle.std.specs.List.{All, list_any};
ghost use Rattle.machine.specs.Given.{given_by};
ghost use Rattle.commands.specs.RawRuns.{EachRan, IsBareRefused, IsRawReport, IsToldOfRuns, Ran};
ghost use Rattle.commands.specs.RawRuns.{counter_line, counter_lines, seat_line, seat_lines};

use crate::fault::CommandError;
use crate::files;
use crate::report::CommandOutput;
use interp::{Run, Trap, run_checked};
use isa::{Code, Hook, decode};
use machine::Input;
use maps::{Seat, Shared};
use std::alloc::{AllocError, Global};
use std::rt::Files;
use std::thread::{Threads, map_vec};
use verifier::BUDGET;

/// A seat after its run, and how the run ended.
#[derive(Drop)]
struct Finished {
    seat: Seat,
    outcome: Result<Run, Trap>,
}

// Runs the code once on each seat.
fn run_each<R: Threads + Sync>(
    rt: &R,
    code: &Code,
    hook: Hook,
    input: &Input,
    shared: &Shared,
    seats: Vec<Seat>,
) -> Result<Vec<Finished>, AllocError>
    requires { All (λ s. s.table ≡ shared.now.table) seats.items }
    ensures len { IfOk result (λ v. length v.items ≡ length seats.items) }
    ensures table { IfOk result (λ v. All (λ f. f.seat.table ≡ shared.now.table) v.items) }
    ensures ran { IfOk result (λ v. EachRan (record {
      code = code.now;
      hook = hook;
      input = given_by
          input.now;
    }) seats.items v.items) }
{
    map_vec(
        rt,
        seats,
        &|seat: Seat| -> Finished
            requires { seat.table ≡ shared.now.table }
            ensures table { result.seat.table ≡ shared.entry.now.table }
            ensures ran { Ran (record {
              code = code.entry.now;
              hook = hook;
              input = given_by
                  input.entry.now;
            }) seat result }
        {
            let mut seat = seat;
            let outcome = run_checked(code, hook, BUDGET, input, shared, &mut seat);
            Finished { seat, outcome }
        },
    )
}

// The seats that the threads gave back.
fn seats_of(
    alloc: Global,
    shared: &Shared,
    finished: Vec<Finished>,
) -> Result<Vec<Seat>, AllocError>
    requires { All (λ f. f.seat.table ≡ shared.now.table) finished.items }
    ensures same { IfOk result (λ v. v.items ≡ map (λ one. one.seat) finished.items) }
    ensures len { IfOk result (λ v. length v.items ≡ length finished.items) }
    ensures table { IfOk result (λ v. All (λ s. s.table ≡ shared.now.table) v.items) }
{
    finished
        .into_iter()
        .map(
            |one| -> Seat
                ensures { result ≡ one.seat }
            { one.seat },
        )
        .collect(alloc)
}

// Adds the line of a seat.
fn push_outcome(
    text: &mut String,
    number: usize,
    outcome: Result<Run, Trap>,
) -> Result<(), AllocError>
    ensures { OnOk result (string_bytes text.new ≡ string_bytes text.old
        ++ seat_line number outcome) }
{
    match outcome {
        Ok(run) => {
            let answer = run.answer;
            let used = run.used;
            writeln!(text, "seat {number} answer {answer} used {used}")
        }
        Err(trap) => {
            let trap = trap.number();
            writeln!(text, "seat {number} trap {trap}")
        }
    }
}

// Adds the line of each seat, from 1 on.
fn push_outcomes(text: &mut String, finished: &[Finished]) -> Result<(), AllocError>
    ensures { OnOk result (string_bytes text.new ≡ string_bytes text.old
        ++ seat_lines 1 finished.now) }
{
    for (index, one) in finished.iter().enumerate() {
        push_outcome(text, index + 1, one.outcome)?;
    }
    Ok(())
}

fn is_any_stuck(finished: &[Finished]) -> bool
    ensures { result ≡ list_any (λ one. is_err one.outcome) finished.now }
{
    finished.iter().any(|one| one.outcome.is_err())
}

// Adds the line of a counter, if it is above 0.
fn push_counter(text: &mut String, index: usize, sum: u64) -> Result<(), AllocError>
    ensures { OnOk result (string_bytes text.new ≡ string_bytes text.old
        ++ counter_line index sum) }
{
    if sum > 0 {
        writeln!(text, "counter {index} {sum}")?;
    }
    Ok(())
}

// Adds the line of each counter above 0.
fn push_counters(text: &mut String, sums: &[u64]) -> Result<(), AllocError>
    ensures { OnOk result (string_bytes text.new ≡ string_bytes text.old
        ++ counter_lines 0 sums.now) }
{
    for (index, sum) in sums.iter().enumerate() {
        push_counter(text, index, *sum)?;
    }
    Ok(())
}

// Runs the code once on each of `seats` seats of a new table, and reports how they ended and what
// they counted.
fn report_of<'a, R: AllocGlobal + Threads + Sync>(
    rt: &R,
    code: &Code,
    hook: Hook,
    seats: usize,
) -> Result<CommandOutput, CommandError<'a>>
    ensures runs { IfOk result (IsToldOfRuns code.now hook seats) }
    ensures fault { IfErr result (λ fault. fault ≡ CommandError.Memory) }
{
    let alloc = rt.alloc();
    let (shared, seats) = Shared::new(alloc, seats)?;
    let input = Input {
        context: [0; 64],
        packet: &[],
        rows: &[],
    };
    let finished = run_each(rt, code, hook, &input, &shared, seats)?;
    let mut text = String::new(alloc);
    push_outcomes(&mut text, &finished)?;
    let is_refused = is_any_stuck(&finished);
    let seats = seats_of(alloc, &shared, finished)?;
    let totals = shared.close(seats);
    push_counters(&mut text, &totals.sums)?;
    Ok(CommandOutput { text, is_refused })
}

/// Runs the bare code of the file at `path` once on each of `seats` threads, all on the same
/// counters.
///
/// # Errors
/// `Read` if the file can't be read, `Code` if it holds no code, `Memory` if an allocation is
/// refused.
pub fn raw<'a, R: Files + AllocGlobal + Threads + Sync>(
    rt: &R,
    hook: Hook,
    path: &'a str,
    seats: usize,
) -> Result<CommandOutput, CommandError<'a>>
    ensures runs { IfOk result (λ report. IsRawReport hook seats report) }
    ensures fault { IfErr result (λ fault. (fault ≡ CommandError.Read path.entry)
        ⊎ (fault ≡ CommandError.Memory) ⊎ ((bytes : List ℕ) × IsBareRefused bytes fault)) }
{
    let bytes = files::read(rt, path)?;
    let code = decode(rt.alloc(), bytes.as_slice())?;
    report_of(rt, &code, hook, seats)
}
