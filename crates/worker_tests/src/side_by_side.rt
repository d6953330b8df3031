//! Turns of one port, alone, by a clock, or while another port is held at its gate.
use crate::stage::{Deed, work_of};
use std::alloc::Global;
use std::sync::Wait;
use std::sync::atomic::{AtomicBool, Ordering};
use std::thread::{Threads, join, sleep};
use std::time::{Clock, Duration};
use words::Second;
use worker::{
    Gate, Hub, Open, Port, Seconds, Site, Taker, Times, TurnError, TurnOutcome, Work, turn,
    turn_with_retries,
};

/// The number of a turn's refusal, or 0.
pub fn number_of(turned: Result<TurnOutcome, TurnError>) -> u8 {
    match turned {
        Ok(_) => 0,
        Err(error) => error.number(),
    }
}

/// A Tick's turn at each of these moments: the number of a refusal, 0 if there was none.
pub fn tick<L: Site, B: Taker<L>, R: Wait>(
    rt: &R,
    hub: &Hub<L, B>,
    port: &mut Port<L>,
    from: u64,
    until: u64,
) -> u8 {
    let mut refused = 0;
    for moment in from..until {
        let now = Second::new(moment);
        let turned = turn(rt, hub, port, &mut Open {}, now, &Work::Tick);
        refused = number_of(turned).max(refused);
    }
    refused
}

// What a turn is answered, tried by a clock from its first moment on; 9 if the clock then shows
// another moment than the next.
fn tried_by<L: Site, B: Taker<L>, R: Wait>(
    rt: &R,
    hub: &Hub<L, B>,
    port: &mut Port<L>,
    clock: Times,
    work: &Work,
    next: u64,
) -> u8 {
    let mut clock = clock;
    let mut moment = clock.second();
    let turned = turn_with_retries(rt, hub, port, &mut Open {}, &mut clock, &mut moment, work);
    let number = number_of(turned);
    if clock.second().count() == next {
        number
    } else {
        9
    }
}

/// After a Tick at moment 6, what a turn that does this is answered; 9 if the clock then shows
/// another moment than the next. The clock shows the moments, at the first of which it is tried the
/// first time.
pub fn try_again<L: Site, B: Taker<L>, R: Wait>(
    rt: &R,
    alloc: Global,
    hub: &Hub<L, B>,
    port: &mut Port<L>,
    deed: Deed,
    moments: &[u64],
    next: u64,
) -> u8 {
    let ticked = tick(rt, hub, port, 6, 7);
    let moments = Vec::from_slice(alloc, moments).unwrap_or(Vec::new(alloc));
    match work_of(alloc, deed) {
        Some(work) => tried_by(rt, hub, port, Times::new(moments), &work, next).max(ticked),
        None => 6,
    }
}

// Waits for the flag. The answer is whether it was raised within 10,000 tries of a millisecond.
fn wait_for<R: Clock>(rt: &R, flag: &AtomicBool) -> bool {
    for _attempt in 0..10_000u32 {
        if flag.load(Ordering::SeqCst) {
            return true;
        }
        sleep(rt, Duration::from_millis(1));
    }
    false
}

// That a turn came to its gate, that it is released, and that it gave up.
#[derive(Drop)]
struct Flags {
    came: AtomicBool,
    released: AtomicBool,
    gave_up: AtomicBool,
}

// Says that a turn came, and holds it until it is released, or gives up.
#[derive(Drop)]
struct Held<'a, R: Clock> {
    rt: &'a R,
    flags: &'a Flags,
}

impl<'a, R: Clock> Gate for Held<'a, R> {
    fn pass(&mut self, _port: u16) {
        self.flags.came.store(true, Ordering::SeqCst);
        if !wait_for(self.rt, &self.flags.released) {
            self.flags.gave_up.store(true, Ordering::SeqCst);
        }
    }
}

// What both are answered, as `hold` says it.
fn judge(answer: u8, refused: u8, flags: &Flags) -> u8 {
    if flags.gave_up.load(Ordering::SeqCst) {
        return if refused == 9 { 6 } else { 9 };
    }
    let is_refused_memory = answer == 6 && !flags.came.load(Ordering::SeqCst);
    if refused > 0 && !is_refused_memory {
        refused
    } else {
        answer
    }
}

// Holds a turn of the first port that does this work, as `hold` says it.
fn hold_at<L: Site + Send + Sync, B: Taker<L> + Send, R: Threads + Wait + Clock + Sync>(
    rt: &R,
    hub: &Hub<L, B>,
    first: &mut Port<L>,
    second: &mut Port<L>,
    work: &Work,
    until: u64,
) -> u8 {
    let flags = Flags {
        came: AtomicBool::new(false),
        released: AtomicBool::new(false),
        gave_up: AtomicBool::new(false),
    };
    let mut gate = Held { rt, flags: &flags };
    let (answer, refused) = join(
        rt,
        || -> u8 { number_of(turn(rt, hub, first, &mut gate, Second::new(5), work)) },
        || -> u8 {
            if !wait_for(rt, &flags.came) {
                return 9;
            }
            let refused = tick(rt, hub, second, 5, until);
            flags.released.store(true, Ordering::SeqCst);
            refused
        },
    );
    judge(answer, refused, &flags)
}

/// Holds a turn of port 1 at moment 5 until port 2 has ticked at each moment from 5 to below this,
/// which it begins once the other has come to its gate: what that is answered, or a Tick that was
/// refused; 9 if one of both waited in vain. If the turn is refused memory before it comes to its
/// gate, it says that; and if both waited in vain, since no thread was to be had and one ran after
/// the other, 6 too.
pub fn hold<L: Site + Send + Sync, B: Taker<L> + Send, R: Threads + Wait + Clock + Sync>(
    rt: &R,
    alloc: Global,
    hub: &Hub<L, B>,
    first: &mut Port<L>,
    second: &mut Port<L>,
    deed: Deed,
    until: u64,
) -> u8 {
    match work_of(alloc, deed) {
        Some(work) => hold_at(rt, hub, first, second, &work, until),
        None => 6,
    }
}
