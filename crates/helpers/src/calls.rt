//! Calls of helpers by number, with every check that the machine requires.
ghost use Rattle.std.specs.Prelude.{◌≡◌, ◌<◌, ℕ, [], ◌∷◌, IfOk, IfErr, OnErr, Some};
ghost use Rattle.machine.specs.declared.helper.Helper.TheVariants.{CounterAdd, CounterRead};
ghost use Rattle.machine.specs.declared.helper.Helper.TheVariants.{PacketByte, TableCost};
ghost use Rattle.machine.specs.Given.{Given, given_by};
ghost use Rattle.machine.specs.declared.state.Content.TheVariants.{Number};
ghost use Rattle.machine.specs.Helpers.{helper_of, HelperAnswers, Answered};
ghost use Rattle.machine.specs.Label.{Label, Silent};
ghost use Rattle.maps.specs.Words.{IsSeatOf};
ghost use Rattle.helpers.specs.Calls.{fault_of_call, fault_of_arguments};
ghost use Rattle.helpers.specs.Seats.{SeatMakes};

use crate::counters::{counter_add, counter_read};
use crate::lookups::{packet_byte, table_cost};
use machine::{Content, Fault, Helper, Hook, Input};
use maps::{Seat, Shared};

/// The number of counters, which all seats share.
const COUNTERS: u64 = 256;

/// The least amount that is too large for one addition.
const AMOUNT_LIMIT: u64 = 1 << 24;

fn number_in(content: Content) -> Result<u64, Fault>
    ensures ok { IfOk result (λ n. content ≡ Number n) }
    ensures err { IfErr result (λ fault. fault_of_arguments (content ∷ []) ≡ Some fault) }
{
    match content {
        Content::Nothing => Err(Fault::Empty),
        Content::Number(number) => Ok(number),
        Content::Address(_) => Err(Fault::Kind),
    }
}

fn numbers_in(first: Content, second: Content) -> Result<(u64, u64), Fault>
    ensures ok { IfOk result (λ n. (first ≡ Number n.0) × (second ≡ Number n.1)) }
    ensures err { IfErr result (λ fault. fault_of_arguments (first ∷ second ∷ []) ≡ Some fault) }
{
    match (first, second) {
        (Content::Nothing, _) | (_, Content::Nothing) => Err(Fault::Empty),
        (Content::Number(a), Content::Number(b)) => Ok((a, b)),
        _ => Err(Fault::Kind),
    }
}

fn call_counter_add(
    first: Content,
    second: Content,
    shared: &Shared,
    seat: &mut Seat,
) -> Result<u64, Fault>
    requires table { IsSeatOf shared.now seat.old }
    ensures ok { IfOk result (λ answer. (label : Label) × SeatMakes seat.old (label ∷ []) seat.new
        × ((input : Given) → HelperAnswers CounterAdd input (first ∷ second ∷ []) label answer)) }
    ensures err { IfErr result (λ fault. fault_of_call (Some CounterAdd) first second
        ≡ Some fault) }
    ensures unchanged { OnErr result (seat.new ≡ seat.old) }
{
    let (counter, amount) = numbers_in(first, second)?;
    if counter >= COUNTERS || amount >= AMOUNT_LIMIT {
        return Err(Fault::Argument);
    }
    Ok(counter_add(shared, seat, counter, amount))
}

fn call_counter_read(
    first: Content,
    second: Content,
    shared: &Shared,
    seat: &mut Seat,
) -> Result<u64, Fault>
    requires table { IsSeatOf shared.now seat.old }
    ensures ok { IfOk result (λ answer. (label : Label) × SeatMakes seat.old (label ∷ []) seat.new
        × ((input : Given) → HelperAnswers CounterRead input (first ∷ []) label answer)) }
    ensures err { IfErr result (λ fault. fault_of_call (Some CounterRead) first second
        ≡ Some fault) }
    ensures unchanged { OnErr result (seat.new ≡ seat.old) }
{
    let counter = number_in(first)?;
    if counter >= COUNTERS {
        return Err(Fault::Argument);
    }
    Ok(counter_read(shared, seat, counter))
}

fn call_packet_byte(first: Content, second: Content, input: &Input) -> Result<u64, Fault>
    ensures ok { IfOk result (λ answer. HelperAnswers PacketByte (given_by input.now)
        (first ∷ []) Silent answer) }
    ensures err { IfErr result (λ fault. fault_of_call (Some PacketByte) first second
        ≡ Some fault) }
{
    let offset = number_in(first)?;
    Ok(packet_byte(input, offset))
}

fn call_table_cost(first: Content, second: Content, input: &Input) -> Result<u64, Fault>
    ensures ok { IfOk result (λ answer. HelperAnswers TableCost (given_by input.now)
        (first ∷ second ∷ []) Silent answer) }
    ensures err { IfErr result (λ fault. fault_of_call (Some TableCost) first second ≡ Some fault) }
{
    let (prefix, length) = numbers_in(first, second)?;
    Ok(table_cost(input, prefix, length))
}

/// Calls the helper with this number, with what r1 and r2 hold, and returns its answer.
///
/// # Errors
/// In this order: `Helper` if the hook has no helper with the number; `Empty` if an argument is
/// empty; `Kind` if an argument is a pointer; `Argument` if a counter is above 255 or an amount is
/// 2^24 or more. The seat is then unchanged.
pub fn call(
    hook: Hook,
    number: i32,
    first: Content,
    second: Content,
    input: &Input,
    shared: &Shared,
    seat: &mut Seat,
) -> Result<u64, Fault>
    requires table { IsSeatOf shared.now seat.old }
    ensures ok { IfOk result (λ answer. (label : Label) × SeatMakes seat.old (label ∷ []) seat.new
        × Answered hook number first second (given_by input.now) label answer) }
    ensures err { IfErr result (λ fault. fault_of_call (helper_of hook number) first second
        ≡ Some fault) }
    ensures unchanged { OnErr result (seat.new ≡ seat.old) }
{
    let Some(helper) = Helper::at(hook, number) else {
        return Err(Fault::Helper);
    };
    match helper {
        Helper::CounterAdd => call_counter_add(first, second, shared, seat),
        Helper::CounterRead => call_counter_read(first, second, shared, seat),
        Helper::PacketByte => call_packet_byte(first, second, input),
        Helper::TableCost => call_table_cost(first, second, input),
    }
}
