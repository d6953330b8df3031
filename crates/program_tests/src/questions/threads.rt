//! An asker, with its loader on another thread.
ghost use Rattle.std.specs.Prelude.{◌≡◌};
ghost use Rattle.maps.specs.Words.{IsSeatOf};
ghost use Rattle.hooks.specs.Known.{asker_history, loader_history};

use crate::questions::trial::{HookTrial, MOMENT, SEVEN, accepted, samples};
use hooks::{Asker, Loader};
use machine::Hook;
use maps::{Seat, Shared};
use std::alloc::Global;
use std::process::Abort;
use std::sync::Wait;
use std::thread::{Threads, join};
use words::{External, Second};

/// An asker with its seat.
#[derive(Drop)]
struct Worker {
    asker: Asker,
    seat: Seat,
}

impl Worker {
    fn price(&mut self, external: &External, shared: &Shared) -> Option<u64>
        requires { IsSeatOf shared.now self.old.seat }
        ensures history { asker_history self.new.asker ≡ asker_history self.old.asker }
        ensures table { IsSeatOf shared.now self.new.seat }
    {
        let answer = self
            .asker
            .price(external, Second::new(MOMENT), &[], shared, &mut self.seat)?;
        Some(answer.word())
    }

    // Asks many times, while the loader attaches and detaches, and counts the words that are
    // neither the program's nor the metric.
    fn ask_for_others(&mut self, external: &External, shared: &Shared) -> u32
        requires { IsSeatOf shared.now self.old.seat }
        ensures history { asker_history self.new.asker ≡ asker_history self.old.asker }
        ensures table { IsSeatOf shared.now self.new.seat }
    {
        let mut others = 0u32;
        for _turn in 0..100_000u32 {
            match self.price(external, shared) {
                Some(7 | 20) => {}
                _ => others = others.wrapping_add(1),
            }
        }
        others
    }
}

// Attaches and detaches many times, and detaches at the end. Whether each succeeded.
fn load<R: Wait + Drop>(alloc: Global, loader: Loader<R>) -> (Loader<R>, bool)
    ensures { loader_history result.0 ≡ loader_history loader }
{
    let mut loader = loader;
    let mut done = true;
    for _turn in 0..500u32 {
        let attached = match accepted(alloc, SEVEN) {
            Some(program) => loader.attach(program).is_ok(),
            None => false,
        };
        let detached = loader.detach(Hook::Price).is_ok();
        done = done && attached && detached;
    }
    (loader, done)
}

// Asks while the loader attaches and detaches. Whether all of that succeeded, how many words were
// other than 7 and 20, and the word after learning of the last detach.
fn race<R: Threads + Wait + Sync>(
    rt: &R,
    alloc: Global,
    trial: HookTrial<&R>,
    external: &External,
) -> (bool, u32, Option<u64>) {
    let HookTrial {
        loader,
        asker,
        shared,
        seat,
    } = trial;
    let words = &shared;
    let worker = Worker { asker, seat };
    let ((loader, done), (worker, others)) = join(
        rt,
        move || load(alloc, loader),
        move || -> (Worker, u32)
            requires { IsSeatOf words.now worker.seat }
            ensures history { asker_history result.0.asker ≡ asker_history worker.asker }
            ensures table { IsSeatOf words.entry.now result.0.seat }
        {
            let mut worker = worker;
            let others = worker.ask_for_others(external, words);
            (worker, others)
        },
    );
    let mut worker = worker;
    worker.asker.learn(loader.notice());
    (done, others, worker.price(external, &shared))
}

// The outcome of `race` in a new trial.
fn raced<R: Threads + Wait + Sync>(rt: &R, alloc: Global) -> Option<(bool, u32, Option<u64>)> {
    let of = samples()?;
    let trial = HookTrial::new(alloc, rt)?;
    Some(race(rt, alloc, trial, &of.external))
}

const WANTED: Option<(bool, u32, Option<u64>)> = Some((true, 0, Some(20)));

// An allocation may be refused once.
#[test]
fn each_word_beside_a_loader_is_the_programs_or_the_metric(rt: HostRuntime) {
    assert!(rt; raced(&rt, rt.alloc()) == WANTED || raced(&rt, rt.alloc()) == WANTED);
}
