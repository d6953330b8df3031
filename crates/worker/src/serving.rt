//! The loop of a worker.
ghost use Rattle.std.specs.Prelude.{◌≡◌, ◌≢◌, ◌<◌, ◌++◌, ◌↔◌, Err, MatchOption};
ghost use Rattle.std.specs.Prelude.{MatchResult, OnOk, OnErr, Some, false, true};
ghost use Rattle.turns.specs.Askers.{IsLater, asker_state};
ghost use Rattle.turns.specs.Turns.{AsksFor, IsTurned, RefusesFor};
ghost use Rattle.worker.specs.Refusals.{clock_back};
ghost use Rattle.worker.specs.Sending.{IsGivenEach};
ghost use Rattle.worker.specs.Lives.{HasLived, HasLivedOn, IsSent, IsTried, Listens, Round, Ticks};
ghost use Rattle.worker.specs.Lives.{senses_of, standing};
ghost use Rattle.worker.specs.declared.serving.Ended.TheVariants.{Fault, Quit};

use crate::flag::Flag;
use crate::transport::{Seconds, SocketFault, Transport};
use std::alloc::Global;
use std::sync::Wait;
use turns::{
    BookError, CoreError, Gate, Hub, Out, Port, Site, Taker, TurnError, TurnOutcome, Work, turn,
};
use words::Second;

/// How a worker ended.
#[derive(Clone, Copy)]
pub enum Ended {
    /// It was told to end.
    Quit,
    /// Its transport failed.
    Fault,
}

/// Runs a worker. In each round it takes a Tick's turn if the second has changed, and a turn with
/// the datagram that its transport received, if one came, and sends what these turns send. Once
/// before each round it looks at `quit`, and ends with `Quit` if that is set. With `Fault` it ends
/// if its transport failed, and only then.
///
/// A refused turn sends nothing. After a fault in the midst of a turn's outs the event stands, and
/// the later outs aren't sent.
#[tactic(auto, using(crate::proofs::Living::found_set, crate::proofs::Living::has_lived))]
pub fn run<L: Site, B: Taker<L>, G: Gate, K: Transport, S: Seconds, F: Flag, R: Wait>(
    rt: &R,
    alloc: Global,
    hub: &Hub<L, B>,
    port: &mut Port<L>,
    gate: &mut G,
    transport: &mut K,
    clock: &mut S,
    quit: &mut F,
) -> Ended
    ensures told { result ≡ Quit → (flag : F) × F.reads flag true quit.new }
    ensures ended { (result ≡ Fault) ↔ (K.faults transport.old < K.faults transport.new) }
    ensures lived { result ≡ Quit → HasLived
        (senses_of K.gives K.hears S.shows B.offers B.took B.refuses port.old.number)
        F.reads quit.old
        (standing transport.old clock.old (asker_state port.old.asker port.old.seat)
        port.old.share.amount) quit.new
        (standing transport.new clock.new (asker_state port.new.asker port.new.seat)
        port.new.share.amount) }
    ensures lived_on { result ≡ Fault → HasLivedOn
        (senses_of K.gives K.hears S.shows B.offers B.took B.refuses port.old.number)
        F.reads quit.old
        (standing transport.old clock.old (asker_state port.old.asker port.old.seat)
        port.old.share.amount)
        quit.new }
    ensures number { port.new.number ≡ port.old.number }
    ensures later { IsLater (asker_state port.old.asker port.old.seat)
        (asker_state port.new.asker port.new.seat) }
{
    // the moment of the last Tick
    let mut ticked = None;
    let mut buffer = [0u8; 8193];
    for _ in rt.forever() {
        if quit.is_set() {
            break;
        }
        let Ok(()) = round(
            rt,
            alloc,
            hub,
            port,
            gate,
            transport,
            clock,
            &mut ticked,
            &mut buffer,
        ) else {
            return Ended::Fault;
        };
    }
    Ended::Quit
}

// A round: first the time, and then the transport. `ticked` is the moment of the last Tick.
fn round<L: Site, B: Taker<L>, G: Gate, K: Transport, S: Seconds, R: Wait>(
    rt: &R,
    alloc: Global,
    hub: &Hub<L, B>,
    port: &mut Port<L>,
    gate: &mut G,
    transport: &mut K,
    clock: &mut S,
    ticked: &mut Option<Second>,
    buffer: &mut [u8; 8193],
) -> Result<(), SocketFault>
    ensures round { OnOk result (Round
        (senses_of K.gives K.hears S.shows B.offers B.took B.refuses port.old.number)
        ticked.old
        (standing transport.old clock.old (asker_state port.old.asker port.old.seat)
        port.old.share.amount)
        ticked.new
        (standing transport.new clock.new (asker_state port.new.asker port.new.seat)
        port.new.share.amount)) }
    ensures number { port.new.number ≡ port.old.number }
    ensures later { IsLater (asker_state port.old.asker port.old.seat)
        (asker_state port.new.asker port.new.seat) }
    ensures fine { OnOk result (K.faults transport.new ≡ K.faults transport.old) }
    ensures fault { OnErr result (K.faults transport.old < K.faults transport.new) }
{
    tick(rt, hub, port, gate, transport, clock, ticked)?;
    listen(rt, alloc, hub, port, gate, transport, clock, buffer)
}

// Whether this was the moment of the last Tick.
fn has_ticked(ticked: Option<Second>, now: Second) -> bool
    ensures same { result ≡ true → ticked ≡ Some now }
    ensures other { result ≡ false → ticked ≢ Some now }
{
    ticked == Some(now)
}

// A Tick's turn, if the second has changed since this worker's last one, and what it sends. Each
// worker takes such turns: of those in one second the first does what is due.
#[tactic(auto, using(crate::proofs::Living::ticked_then, crate::proofs::Tries::later_self))]
fn tick<L: Site, B: Taker<L>, G: Gate, K: Transport, S: Seconds, R: Wait>(
    rt: &R,
    hub: &Hub<L, B>,
    port: &mut Port<L>,
    gate: &mut G,
    transport: &mut K,
    clock: &mut S,
    ticked: &mut Option<Second>,
) -> Result<(), SocketFault>
    ensures ticks { OnOk result (Ticks
        (senses_of K.gives K.hears S.shows B.offers B.took B.refuses port.old.number)
        ticked.old
        (standing transport.old clock.old (asker_state port.old.asker port.old.seat)
        port.old.share.amount)
        ticked.new
        (standing transport.new clock.new (asker_state port.new.asker port.new.seat)
        port.new.share.amount)) }
    ensures number { port.new.number ≡ port.old.number }
    ensures later { IsLater (asker_state port.old.asker port.old.seat)
        (asker_state port.new.asker port.new.seat) }
    ensures fine { OnOk result (K.faults transport.new ≡ K.faults transport.old) }
    ensures fault { OnErr result (K.faults transport.old < K.faults transport.new) }
{
    let mut now = clock.second();
    if has_ticked(*ticked, now) {
        return Ok(());
    }
    let turned = turn_with_retries(rt, hub, port, gate, clock, &mut now, &Work::Tick);
    send_turned(transport, &turned)?;
    *ticked = Some(now);
    Ok(())
}

// A turn with the datagram that the transport gives, if it gives one, and what that sends.
#[tactic(auto, using(crate::proofs::Living::listened, crate::proofs::Tries::later_self))]
fn listen<L: Site, B: Taker<L>, G: Gate, K: Transport, S: Seconds, R: Wait>(
    rt: &R,
    alloc: Global,
    hub: &Hub<L, B>,
    port: &mut Port<L>,
    gate: &mut G,
    transport: &mut K,
    clock: &mut S,
    buffer: &mut [u8; 8193],
) -> Result<(), SocketFault>
    ensures listens { OnOk result (Listens
        (senses_of K.gives K.hears S.shows B.offers B.took B.refuses port.old.number)
        (standing transport.old clock.old (asker_state port.old.asker port.old.seat)
        port.old.share.amount)
        (standing transport.new clock.new (asker_state port.new.asker port.new.seat)
        port.new.share.amount)) }
    ensures number { port.new.number ≡ port.old.number }
    ensures later { IsLater (asker_state port.old.asker port.old.seat)
        (asker_state port.new.asker port.new.seat) }
    ensures fine { OnOk result (K.faults transport.new ≡ K.faults transport.old) }
    ensures fault { OnErr result (K.faults transport.old < K.faults transport.new) }
{
    let heard = transport.receive(alloc, buffer)?;
    let Some(bytes) = heard else {
        return Ok(());
    };
    let work = Work::Datagram(port.number(), bytes);
    let mut now = clock.second();
    let turned = turn_with_retries(rt, hub, port, gate, clock, &mut now, &work);
    send_turned(transport, &turned)
}

// Whether the turn was refused since the router's clock is ahead.
fn is_clock_back(turned: &Result<TurnOutcome, TurnError>) -> bool
    ensures back { result ≡ true → turned.now ≡ Err clock_back }
    ensures other { result ≡ false → turned.now ≡ Err clock_back → ⊥ }
{
    matches!(
        turned,
        Err(TurnError::Book(BookError::Core(CoreError::ClockBack)))
    )
}

/// A turn at the moment. While the router's clock is ahead of this one it is tried again, at most
/// three times, at once, each time at the moment that the clock shows then, and each try asks the
/// programs anew. Afterwards `moment` is that of the last try.
///
/// # Errors
/// As the last try's [`turn`].
#[tactic(auto, using(crate::proofs::Living::not_again, crate::proofs::Living::once_more, crate::proofs::Living::at_last, crate::proofs::Tries::later_self))]
pub fn turn_with_retries<L: Site, B: Taker<L>, G: Gate, S: Seconds, R: Wait>(
    rt: &R,
    hub: &Hub<L, B>,
    port: &mut Port<L>,
    gate: &mut G,
    clock: &mut S,
    moment: &mut Second,
    work: &Work,
) -> Result<TurnOutcome, TurnError>
    ensures tried { IsTried S.shows
        (λ old new m turned. IsTurned B.offers B.took B.refuses old new m work.now
        port.old.share.amount port.new.share.amount turned)
        (λ old new m error. RefusesFor B.offers B.refuses old new
        port.old.share.amount m work.now error)
        clock.old (asker_state port.old.asker port.old.seat) moment.old
        clock.new (asker_state port.new.asker port.new.seat) moment.new result }
    ensures err { OnErr result (port.new.share.amount ≡ port.old.share.amount) }
    ensures asked { AsksFor B.took moment.new work.now }
    ensures number { port.new.number ≡ port.old.number }
    ensures later { IsLater (asker_state port.old.asker port.old.seat)
        (asker_state port.new.asker port.new.seat) }
{
    for _tries in 0..3u32 {
        let turned = turn(rt, hub, port, gate, *moment, work);
        if !is_clock_back(&turned) {
            return turned;
        }
        *moment = clock.second();
    }
    turn(rt, hub, port, gate, *moment, work)
}

/// Sends what a turn sends, and then what its refresh sends: each out once, in their order, at its
/// interface. An out that isn't sent is lost, whatever the reason.
///
/// # Errors
/// `SocketFault` if a send fails: the later outs aren't sent.
#[tactic(auto, using(crate::proofs::Sending::given_both))]
pub fn send_all<K: Transport>(transport: &mut K, turned: &TurnOutcome) -> Result<(), SocketFault>
    ensures each { OnOk result (MatchOption turned.now.refreshed
        (IsGivenEach K.gives transport.old turned.now.outs.items transport.new)
        (λ outs. IsGivenEach K.gives transport.old (turned.now.outs.items ++ outs.items)
        transport.new)) }
    ensures fine { OnOk result (K.faults transport.new ≡ K.faults transport.old) }
    ensures fault { OnErr result (K.faults transport.old < K.faults transport.new) }
{
    send_each(transport, &turned.outs)?;
    match &turned.refreshed {
        Some(outs) => send_each(transport, outs),
        None => Ok(()),
    }
}

// Sends what a turn sends; a refused one sends nothing, and why it was refused isn't kept.
fn send_turned<K: Transport>(
    transport: &mut K,
    turned: &Result<TurnOutcome, TurnError>,
) -> Result<(), SocketFault>
    ensures sent { OnOk result (MatchResult turned.now
        (λ turned. IsSent K.gives transport.old turned transport.new)
        (λ _. transport.new ≡ transport.old)) }
    ensures fine { OnOk result (K.faults transport.new ≡ K.faults transport.old) }
    ensures fault { OnErr result (K.faults transport.old < K.faults transport.new) }
{
    match turned {
        Ok(turned) => send_all(transport, turned),
        Err(_) => Ok(()),
    }
}

fn send_each<K: Transport>(transport: &mut K, outs: &Vec<Out>) -> Result<(), SocketFault>
    ensures each { OnOk result (IsGivenEach K.gives transport.old outs.now.items transport.new) }
    ensures fine { OnOk result (K.faults transport.new ≡ K.faults transport.old) }
    ensures fault { OnErr result (K.faults transport.old < K.faults transport.new) }
{
    for out in outs {
        let _ = transport.send(out.interface, out.bytes.as_slice())?;
    }
    Ok(())
}
