//! A turn of a worker.
ghost use Rattle.std.specs.Prelude.{◌≡◌, ◌≢◌, ◌+◌, ◌⊎◌, Bool, Err, IfErr, IfNone, IfOk};
ghost use Rattle.std.specs.Prelude.{IfSome, OnErr, OnOk, Option, Some, false, true};
ghost use Rattle.turns.specs.Askers.{IsLater, asker_state};
ghost use Rattle.turns.specs.Turns.{
  AsksFor,
  HasCountedFor,
  IsAtTheEndOfTheClock,
  IsChangedSince,
  RefusesEvent,
  IsTurned,
  RefusesQuestions,
  RefusesFor,
  TakesFor,
  IsNumberOfChanges,
};

use crate::gate::Gate;
use crate::hub::Hub;
use crate::port::Port;
use crate::questions::{make_event, make_install};
use crate::site::Site;
use crate::taker::Taker;
use crate::turned::{TurnError, TurnOutcome};
use crate::work::Work;
use flood::{BookError, CoreError, Out};
use std::sync::Wait;
use words::Second;

/// A turn: it asks the programs what the work's event needs, passes the gate once, and gives the
/// event to the book under the lock. If that left the router stale, a refresh follows, which passes
/// no gate. It may wait for the lock.
///
/// At a [`Book`](flood::Book) the outs are those that the event gives, by the rules of a whole
/// event, at a router that took at least as many events as the port had given; which router it was,
/// only the book knows. An `Install` happens at the moment of the router's last event, if that
/// is later than the turn's: it may have passed while the programs were asked. All else happens at
/// the turn's moment.
///
/// What the programs did to counters and cells stays even if the turn is refused, and so does a
/// mark ([`Book::mark`](flood::Book::mark)).
///
/// The refresh is refused too if the programs were changed since the turn began
/// ([`Hub::count_program_change`]). A refusal of it leaves the turn's outs as they are, and the
/// next turn tries again; so it does if memory was lacking to find out whether the router is stale.
///
/// A turn that is refused before its event is given hasn't passed the gate.
///
/// # Errors
/// `Away` if `tag`, `price` or `veto` got no reading; else as the book refuses the event
/// ([`Book::apply_with_marks`](flood::Book::apply_with_marks)). `Memory` may come earlier, while
/// the programs are asked. A refused turn adds no event to the book.
pub fn turn<L: Site, B: Taker<L>, G: Gate, R: Wait>(
    rt: &R,
    hub: &Hub<L, B>,
    port: &mut Port<L>,
    gate: &mut G,
    moment: Second,
    work: &Work,
) -> Result<TurnOutcome, TurnError>
    ensures turned { IfOk result (λ r. IsTurned B.offers B.took B.refuses
        (asker_state port.old.asker port.old.seat)
        (asker_state port.new.asker port.new.seat)
        moment work.now port.old.share.amount port.new.share.amount r) }
    ensures refused { IfErr result (λ error. RefusesFor B.offers B.refuses
        (asker_state port.old.asker port.old.seat)
        (asker_state port.new.asker port.new.seat)
        port.old.share.amount moment work.now error) }
    ensures counted { HasCountedFor B.refuses (asker_state port.old.asker port.old.seat)
        (asker_state port.new.asker port.new.seat) work.now moment }
    ensures asked { AsksFor B.took moment work.now }
    ensures passed { OnOk result (G.passes gate.old port.old.number gate.new) }
    ensures held { IfErr result (λ error.
        ((gate.new ≡ gate.old) × RefusesQuestions B.refuses work.now moment error)
        ⊎ (G.passes gate.old port.old.number gate.new
        × RefusesEvent B.offers B.refuses (asker_state port.old.asker port.old.seat)
        (asker_state port.new.asker port.new.seat)
        port.old.share.amount moment work.now error)) }
    ensures err { OnErr result (port.new.share.amount ≡ port.old.share.amount) }
    ensures clock { work.now ≡ Work.Refresh
        → result ≡ Err (TurnError.Book (BookError.Core CoreError.ClockBack))
        → IsAtTheEndOfTheClock B.began B.moment_of moment }
    ensures number { port.new.number ≡ port.old.number }
    ensures later { IsLater (asker_state port.old.asker port.old.seat)
        (asker_state port.new.asker port.new.seat) }
{
    let changes = B::changes(&hub.changes, &port.share);
    let event = make_event(rt, hub, &mut port.asker, &mut port.seat, moment, work)?;
    gate.pass(port.number);
    let taken = hub.take(rt, &mut port.share, moment, event)?;
    let refreshed = follow(rt, hub, port, moment, changes, taken.stale);
    Ok(TurnOutcome {
        outs: taken.outs,
        refreshed,
    })
}

// Whether it is known that the router is stale.
fn is_stale(stale: Option<bool>) -> bool
    ensures stale { result ≡ true → stale ≡ Some true }
    ensures other { result ≡ false → stale ≡ Some true → ⊥ }
{
    match stale {
        Some(stale) => stale,
        None => false,
    }
}

// The refresh that follows a turn which left the router stale; None if it didn't, or the refresh
// isn't taken.
fn follow<L: Site, B: Taker<L>, R: Wait>(
    rt: &R,
    hub: &Hub<L, B>,
    port: &mut Port<L>,
    moment: Second,
    changes: u64,
    stale: Option<bool>,
) -> Option<Vec<Out>>
    ensures none { IfNone result ((port.new.share.amount ≡ port.old.share.amount)
        × (stale ≡ Some true → IsChangedSince B.took port.old.share.amount changes
        ⊎ ((error : TurnError) × RefusesFor B.offers B.refuses
        (asker_state port.old.asker port.old.seat)
        (asker_state port.new.asker port.new.seat)
        port.old.share.amount moment Work.Refresh error))) }
    ensures some { IfSome result (λ outs. (stale ≡ Some true) × ((left : Option Bool)
        × TakesFor B.offers B.took B.refuses (asker_state port.old.asker port.old.seat)
        (asker_state port.new.asker port.new.seat)
        port.old.share.amount moment Work.Refresh outs.items left)
        × (port.new.share.amount ≡ port.old.share.amount + 1)) }
    ensures unasked { IfNone result (stale ≢ Some true
        → asker_state port.new.asker port.new.seat ≡ asker_state port.old.asker port.old.seat) }
    ensures unchanged { IfSome result (λ _.
        IsNumberOfChanges B.took port.old.share.amount changes) }
    ensures number { port.new.number ≡ port.old.number }
    ensures later { IsLater (asker_state port.old.asker port.old.seat)
        (asker_state port.new.asker port.new.seat) }
{
    if !is_stale(stale) {
        return None;
    }
    match refresh(rt, hub, port, moment, changes) {
        Ok(outs) => Some(outs),
        Err(_) => None,
    }
}

// A refresh that passes no gate. `Away` if the number of changes of the programs isn't `changes`.
fn refresh<L: Site, B: Taker<L>, R: Wait>(
    rt: &R,
    hub: &Hub<L, B>,
    port: &mut Port<L>,
    moment: Second,
    changes: u64,
) -> Result<Vec<Out>, TurnError>
    ensures outs { IfOk result (λ outs. (left : Option Bool)
        × TakesFor B.offers B.took B.refuses (asker_state port.old.asker port.old.seat)
        (asker_state port.new.asker port.new.seat)
        port.old.share.amount moment Work.Refresh outs.items left) }
    ensures refused { IfErr result (λ error.
        ((error ≡ TurnError.Away) × IsChangedSince B.took port.old.share.amount changes)
        ⊎ RefusesFor B.offers B.refuses (asker_state port.old.asker port.old.seat)
        (asker_state port.new.asker port.new.seat)
        port.old.share.amount moment Work.Refresh error) }
    ensures unchanged { OnOk result (IsNumberOfChanges B.took port.old.share.amount changes) }
    ensures share { OnOk result (port.new.share.amount ≡ port.old.share.amount + 1) }
    ensures err { OnErr result (port.new.share.amount ≡ port.old.share.amount) }
    ensures number { port.new.number ≡ port.old.number }
    ensures later { IsLater (asker_state port.old.asker port.old.seat)
        (asker_state port.new.asker port.new.seat) }
{
    let event = make_install(rt, hub, &mut port.asker, &mut port.seat, moment)?;
    let share = &mut port.share;
    let taken = hub.take_unless_changed(rt, share, moment, event, changes)?;
    Ok(taken.outs)
}
