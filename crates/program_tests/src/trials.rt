//! How a program is tried: verified, and run on many inputs. If memory is refused, there is no
//! answer, and the tests ask once more, since a run of them may refuse one allocation.
ghost use Rattle.std.specs.Prelude.{◌≡◌, length, IfSome};
ghost use Rattle.std.specs.List.{slice_range};
ghost use Rattle.isa.specs.Hooks.{hook_number};
ghost use Rattle.machine.specs.Memory.{number_of};
ghost use Rattle.maps.specs.Words.{IsSeatOf};

use asm::assemble;
use interp::{Run, run, run_checked};
use isa::{Code, Hook, decode};
use machine::Input;
use maps::{Seat, Shared};
use std::alloc::Global;
use verifier::{Accepted, verify_object};
use words::{Address, Prefix, TableRow};

/// The object file of a text.
pub fn file_of(alloc: Global, text: &str) -> Option<Vec<u8>> {
    match assemble(alloc, text) {
        Ok(object) => object::write(alloc, &object).ok(),
        Err(_) => None,
    }
}

/// The accepted program of an object file.
pub fn accepted_in(alloc: Global, bytes: &[u8]) -> Option<Accepted> {
    match verify_object(alloc, bytes) {
        Ok(accepted) => Some(accepted),
        Err(_) => None,
    }
}

fn code_in(alloc: Global, bytes: &[u8]) -> Option<Code> {
    match object::read(alloc, bytes) {
        Ok(object) => decode(alloc, object.code()).ok(),
        Err(_) => None,
    }
}

/// A table with one seat, and its seat.
pub fn one_seat(alloc: Global) -> Option<(Shared, Seat)>
    ensures { IfSome result (λ r. IsSeatOf r.0 r.1) }
{
    let Ok((words, mut seats)) = Shared::new(alloc, 1) else {
        return None;
    };
    let seat = seats.pop()?;
    Some((words, seat))
}

/// A context of zeros except for its hook.
fn bare_context(hook: Hook) -> [u8; 64]
    ensures { number_of (slice_range result 0 4) ≡ hook_number hook }
{
    let mut context = [0; 64];
    context[0] = hook.number();
    context
}

/// A context in which some bytes are computed from this number, and which has it at byte 24.
pub fn varied_context(hook: Hook, number: u8) -> [u8; 64]
    ensures { number_of (slice_range result 0 4) ≡ hook_number hook }
{
    let mut context = bare_context(hook);
    context[4] = number;
    context[8] = number.wrapping_mul(37);
    context[15] = !number;
    context[16] = number.wrapping_mul(101);
    context[20] = number.wrapping_add(200);
    context[24] = number;
    context[63] = number;
    context
}

/// A packet of 20 bytes.
const PACKET: &[u8] = &[
    2, 1, 0, 44, 1, 1, 1, 1, 0, 0, 0, 0, 0xf8, 0x9a, 0, 0, 0, 0, 0, 0,
];

/// The row of a table for 192.0.2.0/24 with cost 20.
pub fn row() -> Option<TableRow> {
    let prefix = Prefix::new(Address::new(0xc000_0200), 24)?;
    Some(TableRow { prefix, cost: 20 })
}

// The outcome of the run at one seat, if the checked run at the other has the same one within the
// program's bound.
fn agreed_at(
    code: &Code,
    accepted: &Accepted,
    input: &Input,
    words: (&Shared, &Shared),
    one: &mut Seat,
    other: &mut Seat,
) -> Option<Run>
    requires one { IsSeatOf words.0.now one.old }
    requires other { IsSeatOf words.1.now other.old }
    requires hook { number_of (slice_range input.now.context 0 4) ≡ hook_number accepted.now.hook }
{
    let bound = accepted.bound();
    let ended = run(accepted, input, words.0, one);
    let checked = run_checked(code, accepted.hook(), bound, input, words.1, other);
    if checked == Ok(ended) && ended.used <= bound {
        Some(ended)
    } else {
        None
    }
}

// The run on which both agree, as `agreed_at` says, each on a new table.
fn agreed(alloc: Global, code: &Code, accepted: &Accepted, input: &Input) -> Option<Run>
    requires { number_of (slice_range input.now.context 0 4) ≡ hook_number accepted.now.hook }
{
    let (first, mut one) = one_seat(alloc)?;
    let (second, mut other) = one_seat(alloc)?;
    agreed_at(
        code,
        accepted,
        input,
        (&first, &second),
        &mut one,
        &mut other,
    )
}

// The run on which both agree on the input of this number: a packet of up to 20 bytes, one row or
// none.
fn agreed_of(
    alloc: Global,
    code: &Code,
    accepted: &Accepted,
    rows: &[TableRow],
    number: u8,
) -> Option<Run> {
    let input = Input {
        context: varied_context(accepted.hook(), number),
        packet: PACKET.get(..usize::from(number % 21)).unwrap_or(&[]),
        rows: rows.get(usize::from(number % 2)..).unwrap_or(&[]),
    };
    agreed(alloc, code, accepted, &input)
}

/// What the trial of a program came to.
#[derive(Clone, Copy)]
pub enum ProgramOutcome {
    Refused,
    /// `run` and `run_checked` differ on an input, or its bound is too low.
    Wrong,
    /// They agree on all inputs: the program's bound, and the outcome on the last input.
    Right(u64, Run),
}

// How the program was tried on the inputs below this number.
fn tried_on(alloc: Global, code: &Code, accepted: &Accepted, inputs: u8) -> ProgramOutcome {
    let Some(row) = row() else {
        return ProgramOutcome::Wrong;
    };
    let rows = [row];
    let mut last = None;
    for number in 0..inputs {
        last = agreed_of(alloc, code, accepted, &rows, number);
        if last.is_none() {
            return ProgramOutcome::Wrong;
        }
    }
    match last {
        Some(ended) => ProgramOutcome::Right(accepted.bound(), ended),
        None => ProgramOutcome::Wrong,
    }
}

/// How the program of an object file was tried on the inputs below this number.
pub fn tried(alloc: Global, bytes: &[u8], inputs: u8) -> ProgramOutcome {
    let Some(accepted) = accepted_in(alloc, bytes) else {
        return ProgramOutcome::Refused;
    };
    let Some(code) = code_in(alloc, bytes) else {
        return ProgramOutcome::Refused;
    };
    tried_on(alloc, &code, &accepted, inputs)
}

/// How the program of a text of assembly was tried on the inputs below this number.
pub fn tried_text(alloc: Global, text: &str, inputs: u8) -> ProgramOutcome {
    match file_of(alloc, text) {
        Some(bytes) => tried(alloc, &bytes, inputs),
        None => ProgramOutcome::Refused,
    }
}
