//! What is played at a router, and what its book holds in the end.
ghost use Rattle.std.specs.Prelude.{◌≡◌};
ghost use Rattle.hooks.specs.Known.{loader_history};
ghost use Rattle.worker.specs.Opening.{IsSetUpFor};

use crate::operated::operate;
use crate::samples::first;
use crate::serving::{Heard, serve};
use crate::side_by_side::{hold, tick, try_again};
use crate::stage::{Deed, Stage, StageStep};
use crate::tableless::announce;
use crate::watching::watch;
use hooks::Loader;
use std::alloc::Global;
use std::marker::Brand;
use std::sync::Wait;
use std::thread::Threads;
use std::time::Clock;
use worker::{Book, Core, Hub, Port, Setup, Site, Taker, open_hub};

/// What is played at a router with the ports 0, 1 and 2.
#[derive(Clone, Copy)]
pub enum Scene<'a> {
    /// One step after the other.
    Steps(&'a [StageStep]),
    /// The worker at interface 1 runs over a transport of which it hears this, by a clock that
    /// shows these moments, one a round, and then the last one.
    Serves(Heard, &'a [u64]),
    /// Port 1 makes a Tick's turn at each moment below this.
    Ticks(u64),
    /// After a Tick at moment 6 a turn is tried that does this, by a clock that shows these
    /// moments, and then the last one.
    Tries(Deed, &'a [u64], u64),
    /// A turn of port 1 at moment 5 that does this is held at its gate, until port 2 has ticked at
    /// each moment from 5 to below this.
    Held(Deed, u64),
    /// A datagram at interface 1 is counted before its turn passes the gate.
    Watched,
    /// An operator detaches a program while a Tick's turn passes the gate.
    Operated,
    /// The destination is announced at a book that has no memory for its table or its candidates.
    Tableless,
}

/// What is seen in the end: the number of the turn's refusal or of a refusal among the turns, that
/// of a refresh too, or the worker's status; how many datagrams were sent, or steps were as told;
/// how many events stand in the journal, and how many the book took.
pub type End = (u8, usize, usize, u64);

// The end if memory for the router was refused.
const UNOPENED: End = (6, 0, 0, 0);

// Plays at port 1 what needs no other: the status, and how many datagrams were sent.
fn act<L: Site, B: Taker<L>, R: Wait>(
    rt: &R,
    alloc: Global,
    hub: &Hub<L, B>,
    port: &mut Port<L>,
    scene: Scene<'_>,
) -> (u8, usize) {
    match scene {
        Scene::Serves(heard, moments) => serve(rt, alloc, hub, port, heard, moments),
        Scene::Ticks(until) => (tick(rt, hub, port, 0, until), 0),
        Scene::Tries(deed, moments, next) => {
            (try_again(rt, alloc, hub, port, deed, moments, next), 0)
        }
        _ => (9, 0),
    }
}

// Plays what needs no loader: the status, and how many datagrams were sent.
fn act_at<L: Site + Send + Sync, B: Taker<L> + Send, R: Threads + Wait + Clock + Sync>(
    rt: &R,
    alloc: Global,
    hub: &Hub<L, B>,
    ports: &mut [Port<L>],
    scene: Scene<'_>,
) -> (u8, usize) {
    let Some((second, others)) = ports.split_first_mut() else {
        return (9, 0);
    };
    let Some(first) = others.first_mut() else {
        return (9, 0);
    };
    match scene {
        Scene::Held(deed, until) => (hold(rt, alloc, hub, first, second, deed, until), 0),
        _ => act(rt, alloc, hub, first, scene),
    }
}

// Plays the scene: the status, and how many datagrams were sent, or steps were as told.
fn play_on<
    L: Site + Send + Sync,
    B: Taker<L> + Send,
    R: Threads + Wait + Clock + Sync,
    Q: Wait + Drop,
>(rt: &R, alloc: Global, hub: &Hub<L, B>, stage: Stage<L, Q>, scene: Scene<'_>) -> (u8, usize) {
    let mut stage = stage;
    match scene {
        Scene::Steps(steps) => (0, stage.play(rt, alloc, hub, steps)),
        Scene::Watched => (watch(rt, alloc, hub, &mut stage), 0),
        Scene::Operated => (operate(rt, alloc, hub, stage), 0),
        _ => act_at(rt, alloc, hub, &mut stage.ports, scene),
    }
}

// How many events stand in the journal, and how many the book took. The book is dropped.
fn close<L: Site>(hub: Hub<L, Book<L>>) -> (usize, u64) {
    let (book, _shared) = hub.into_parts();
    let journal = book.journal().len();
    (journal, book.close())
}

// Plays the scene at this hub, and looks into the book.
fn play_in_hub<L: Site + Send + Sync, R: Threads + Wait + Clock + Sync, Q: Wait + Drop>(
    rt: &R,
    alloc: Global,
    hub: Hub<L, Book<L>>,
    stage: Stage<L, Q>,
    scene: Scene<'_>,
) -> End {
    let mut stage = stage;
    if let Scene::Tableless = scene {
        return (announce(rt, alloc, hub, &mut stage), 0, 0, 0);
    }
    let (status, count) = play_on(rt, alloc, &hub, stage, scene);
    let (journal, taken) = close(hub);
    (status, count, journal, taken)
}

// Opens the hub, and plays the scene.
fn play_at<L: Site + Send + Sync, R: Threads + Wait + Clock + Sync, Q: Wait + Drop>(
    rt: &R,
    alloc: Global,
    setup: Setup,
    loader: Loader<Q>,
    core: Core,
    scene: Scene<'_>,
) -> End
    requires setup { IsSetUpFor L.name L.parts L.words L.history setup }
    requires origin { core ≡ L.origin }
    requires history { loader_history loader ≡ L.history }
{
    match open_hub::<L>(alloc, setup, core) {
        Ok((hub, ports, _rest)) => play_in_hub(rt, alloc, hub, Stage { ports, loader }, scene),
        Err(_) => UNOPENED,
    }
}

// Plays the scene at this router, which is new.
#[tactic(auto, using(hooks::proofs::Fresh::all_ask))]
fn play_with<R: Threads + Wait + Clock + Sync>(
    rt: &R,
    alloc: Global,
    core: Core,
    scene: Scene<'_>,
) -> End {
    match Setup::new(alloc, rt, 3) {
        Ok((loader, setup)) => play_at::<Brand, R, &R>(rt, alloc, setup, loader, core, scene),
        Err(_) => {
            core.close();
            UNOPENED
        }
    }
}

fn play<R: Threads + Wait + Clock + Sync>(rt: &R, alloc: Global, scene: Scene<'_>) -> End {
    match first(alloc) {
        Some(core) => play_with(rt, alloc, core, scene),
        None => UNOPENED,
    }
}

/// Plays the scene four times, each from its start: the end that is wanted, or the first other one.
/// One at most may differ, in which an allocation may have been refused, as a run of the tests with
/// a refusal makes it. A scene of two threads is spared only if a turn was refused memory; a long
/// one is played twice at most.
pub fn end_of<R: Threads + Wait + Clock + Sync>(
    rt: &R,
    alloc: Global,
    scene: Scene<'_>,
    wanted: End,
) -> End {
    let is_long = matches!(scene, Scene::Ticks(_));
    let is_held = matches!(scene, Scene::Held(_, _));
    let mut is_refused = false;
    for _time in 0..4u32 {
        let end = play(rt, alloc, scene);
        if end != wanted {
            if is_refused || is_held && end.0 != 6 {
                return end;
            }
            is_refused = true;
        } else if is_long {
            return end;
        }
    }
    wanted
}
