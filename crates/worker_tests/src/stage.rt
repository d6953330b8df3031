//! A router with three ports, and a player of steps at it.
ghost use Rattle.std.specs.Prelude.{◌≡◌};
ghost use Rattle.hooks.specs.Known.{loader_history};

use crate::samples::{destination, hello};
use hooks::{Loader, Notice};
use isa::Hook;
use std::alloc::Global;
use std::sync::Wait;
use verifier::verify_object;
use words::{ExternalType, Second};
use worker::{Gate, Hub, Port, Site, Taker, TurnError, Work, turn};

/// What is done: a turn, or a change of the programs, which each port learns then.
#[derive(Clone, Copy)]
pub enum Deed {
    /// The Hello comes in at the interface of the first number, and the second says how many zeros
    /// stand behind it: a turn of the interface's port. All other turns are of port 0.
    Hear(u16, usize),
    Tick,
    /// A Tick's turn during which the programs are changed.
    TickAtChange,
    /// The destination is announced with this type, and withdrawn.
    Add(ExternalType),
    Withdraw,
    Down(u16),
    Refresh,
    /// The program of this object file.
    Attach(&'static [u8]),
    Detach(Hook),
}

/// What is seen after a step.
#[derive(Clone, Copy)]
pub struct Seen {
    /// Whether a refresh followed the turn, or why it was refused.
    pub answer: Result<bool, TurnError>,
    /// Whether there are neighbors at interfaces 1 and 2.
    pub neighbors: (bool, bool),
    /// Whether the destination is announced.
    pub wanted: bool,
    /// How many rows the table has.
    pub rows: usize,
    /// What stands in counter 5.
    pub counted: u64,
}

/// A moment, what is done at it, and what is seen after it.
pub type StageStep = (u64, Deed, Seen);

/// The ports of a router, the last one with number 0, and the loader of their programs.
#[derive(Drop)]
pub struct Stage<L: Site, Q: Wait + Drop> {
    pub ports: Vec<Port<L>>,
    pub loader: Loader<Q>,
    pub ghost loaded: { loader_history loader ≡ L.history },
}

/// What a turn is for that does this; None if it is no turn, or for want of memory.
pub fn work_of(alloc: Global, deed: Deed) -> Option<Work> {
    match deed {
        Deed::Hear(number, zeros) => hello(alloc, number, zeros).ok(),
        Deed::Tick | Deed::TickAtChange => Some(Work::Tick),
        Deed::Add(kind) => Some(Work::Add(destination(kind)?)),
        Deed::Withdraw => Some(Work::Withdraw(destination(ExternalType::Type2)?.prefix)),
        Deed::Down(number) => Some(Work::Down(number)),
        Deed::Refresh => Some(Work::Refresh),
        Deed::Attach(_) | Deed::Detach(_) => None,
    }
}

// The place of the port whose turn does this.
fn place_of(deed: Deed) -> usize {
    match deed {
        Deed::Hear(1, _) => 1,
        Deed::Hear(2, _) => 0,
        _ => 2,
    }
}

// Tells the hub, as a turn passes, that the programs were changed, if there is a notice of it.
struct Changing<'a, L: Site, B: Taker<L>> {
    hub: &'a Hub<L, B>,
    notice: Option<Notice>,
}

impl<'a, L: Site, B: Taker<L>> Gate for Changing<'a, L, B> {
    fn pass(&mut self, _port: u16) {
        if let Some(notice) = &self.notice {
            self.hub.count_program_change(notice);
        }
    }
}

// A turn of this port: whether a refresh followed.
fn take_turn<L: Site, B: Taker<L>, R: Wait>(
    rt: &R,
    hub: &Hub<L, B>,
    port: &mut Port<L>,
    notice: Option<Notice>,
    moment: u64,
    work: &Work,
) -> Result<bool, TurnError> {
    let mut gate = Changing { hub, notice };
    let turned = turn(rt, hub, port, &mut gate, Second::new(moment), work);
    let Changing {
        hub: _,
        notice: _notice,
    } = gate;
    match turned {
        Ok(turned) => Ok(turned.refreshed.is_some()),
        Err(error) => Err(error),
    }
}

// How many rows the table has.
fn rows<L: Site, B: Taker<L>, R: Wait>(rt: &R, hub: &Hub<L, B>) -> usize {
    match hub.offered(rt) {
        Ok(offered) => offered.rows.len(),
        Err(_) => usize::MAX,
    }
}

// What this port sees after such an answer.
fn look<L: Site, B: Taker<L>, R: Wait>(
    rt: &R,
    hub: &Hub<L, B>,
    port: &mut Port<L>,
    answer: Result<bool, TurnError>,
) -> Seen {
    let wanted = match destination(ExternalType::Type2) {
        Some(external) => hub.wants(rt, port, external.prefix),
        None => false,
    };
    Seen {
        answer,
        neighbors: (hub.neighbor(rt, 1).is_some(), hub.neighbor(rt, 2).is_some()),
        wanted,
        rows: rows(rt, hub),
        counted: hub.counter(port, 5),
    }
}

fn is_same(one: &Seen, other: &Seen) -> bool {
    one.answer == other.answer
        && one.neighbors == other.neighbors
        && one.wanted == other.wanted
        && one.rows == other.rows
        && one.counted == other.counted
}

// Attaches the program of this object file, if there is memory for it.
fn attach<Q: Wait + Drop>(alloc: Global, loader: &mut Loader<Q>, object: &[u8]) -> bool
    ensures { loader_history loader.new ≡ loader_history loader.old }
{
    match verify_object(alloc, object) {
        Ok(program) => loader.attach(program).is_ok(),
        Err(_) => false,
    }
}

impl<L: Site, Q: Wait + Drop> Stage<L, Q> {
    /// Changes the programs, if this does, and lets each port learn it. Whether it could be done.
    pub fn change(&mut self, alloc: Global, deed: Deed) -> bool {
        let is_done = match deed {
            Deed::Attach(object) => attach(alloc, &mut self.loader, object),
            Deed::Detach(hook) => self.loader.detach(hook).is_ok(),
            _ => true,
        };
        for port in &mut self.ports {
            port.learn(self.loader.notice());
        }
        is_done
    }

    // A turn that does this: whether a refresh followed.
    fn turn<B: Taker<L>, R: Wait>(
        &mut self,
        rt: &R,
        hub: &Hub<L, B>,
        moment: u64,
        deed: Deed,
        work: &Work,
    ) -> Result<bool, TurnError> {
        let notice = match deed {
            Deed::TickAtChange => Some(self.loader.notice()),
            _ => None,
        };
        match self.ports.get_mut(place_of(deed)) {
            Some(port) => take_turn(rt, hub, port, notice, moment, work),
            None => Ok(false),
        }
    }

    // Does it, if it is a turn: whether a refresh followed.
    fn perform<B: Taker<L>, R: Wait>(
        &mut self,
        rt: &R,
        alloc: Global,
        hub: &Hub<L, B>,
        moment: u64,
        deed: Deed,
    ) -> Result<bool, TurnError> {
        match work_of(alloc, deed) {
            Some(work) => self.turn(rt, hub, moment, deed, &work),
            None => Ok(false),
        }
    }

    // Whether what is told is seen after the step.
    fn is_as_told<B: Taker<L>, R: Wait>(
        &mut self,
        rt: &R,
        alloc: Global,
        hub: &Hub<L, B>,
        step: &StageStep,
    ) -> bool {
        let (moment, deed, told) = *step;
        let is_done = self.change(alloc, deed);
        let answer = self.perform(rt, alloc, hub, moment, deed);
        match self.ports.last_mut() {
            Some(port) => is_same(&look(rt, hub, port, answer), &told) && is_done,
            None => false,
        }
    }

    /// Does the steps, and looks after each: how many are as they are told, up to the first that
    /// isn't.
    pub fn play<B: Taker<L>, R: Wait>(
        &mut self,
        rt: &R,
        alloc: Global,
        hub: &Hub<L, B>,
        steps: &[StageStep],
    ) -> usize {
        for (number, step) in steps.iter().enumerate() {
            if !self.is_as_told(rt, alloc, hub, step) {
                return number;
            }
        }
        steps.len()
    }
}
