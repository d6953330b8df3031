//! What is printed for people.
use crate::names::scenario_word;
use crate::numbers::{numbers_of_counts, numbers_of_faults};
use crate::page::Page;
use simulated_networks::{HistoryStep, Look, Outcome, Phase, Scenario, ScenarioPlan};
use std::io::Write;

const PHASE: &str = "\
: full after {} s, settled after {} s of {}
  loops in {} s, {} pair-seconds, at most {} pairs
  into nothing in {} s, {} pair-seconds, at most {} pairs
";

const COUNTS: &str = "\
events {}, refused {}, walks {}
packets {}, bytes {}, lost {}
LSAs in Updates {}, packets under way at most {}
";

const SEEN: &str = ", loops {}, into nothing {}, missing {}, of another cost {}, of nobody {}";

fn tell_phase<O: Write>(page: &mut Page<O>, name: &str, phase: &Phase) {
    let (looping, nowhere) = (phase.looping, phase.nowhere);
    let numbers = [
        phase.full,
        phase.settled,
        phase.seconds,
        looping.seconds,
        looping.pairs,
        looping.most,
        nowhere.seconds,
        nowhere.pairs,
        nowhere.most,
    ];
    page.text(name);
    page.fill(PHASE, &numbers);
}

// What was seen last, if that isn't rest.
fn tell_unrest<O: Write>(page: &mut Page<O>, look: &Look) {
    page.fill("not at rest: not full {}", &[look.not_full as u64]);
    if let Some(differ) = look.differ {
        page.fill(", databases differ {}", &[differ as u64]);
    }
    if let Some(seen) = look.seen {
        page.fill(SEEN, &numbers_of_faults(&seen));
    }
    page.text("\n");
}

fn tell_rest<O: Write>(page: &mut Page<O>, outcome: &Outcome) {
    if outcome.is_at_rest() {
        return page.text("at rest\n");
    }
    match outcome.rest.last() {
        Some(look) => tell_unrest(page, &look),
        None => page.text("not at rest\n"),
    }
}

/// Prints what came of a plan for one seed.
pub fn tell_run<O: Write>(page: &mut Page<O>, plan: &ScenarioPlan, outcome: &Outcome) {
    let numbers = [
        plan.seed,
        outcome.routers as u64,
        outcome.links as u64,
        outcome.lsas as u64,
    ];
    page.fill("seed {}: {} routers, {} links, {} LSAs\n", &numbers);
    tell_phase(page, "start", &outcome.start);
    if plan.scenario != Scenario::Start {
        tell_phase(page, scenario_word(plan.scenario), &outcome.change);
    }
    page.fill(COUNTS, &numbers_of_counts(&outcome.counts, outcome.walks));
    tell_rest(page, outcome);
}

// The line of an act, and the router, destination, interface or count that it names.
fn line_of(act: HistoryStep) -> (&'static str, [u32; 2]) {
    match act {
        HistoryStep::Comes => ("  Comes\n", [0, 0]),
        HistoryStep::Lost => ("  Lost\n", [0, 0]),
        HistoryStep::Twice => ("  Twice\n", [0, 0]),
        HistoryStep::Exchanged => ("  Exchanged\n", [0, 0]),
        HistoryStep::Again(back) => ("  Again({})\n", [back, 0]),
        HistoryStep::Tick(place) => ("  Tick({})\n", [place, 0]),
        HistoryStep::Passes => ("  Passes\n", [0, 0]),
        HistoryStep::Announce(place, number) => ("  Announce({}, {})\n", [place, number]),
        HistoryStep::Withdraw(place, number) => ("  Withdraw({}, {})\n", [place, number]),
        HistoryStep::LinkDown(place, interface) => ("  LinkDown({}, {})\n", [place, interface]),
        HistoryStep::Restart(place) => ("  Restart({})\n", [place, 0]),
        HistoryStep::Calm(seconds) => ("  Calm({})\n", [seconds, 0]),
    }
}

fn tell_act<O: Write>(page: &mut Page<O>, act: HistoryStep) {
    let (line, numbers) = line_of(act);
    page.fill(line, &numbers);
}

/// Prints a history that was found.
pub fn tell_history<O: Write>(page: &mut Page<O>, seed: u64, acts: &[HistoryStep]) {
    page.fill("seed {}: {} acts\n", &[seed, acts.len() as u64]);
    for act in acts {
        tell_act(page, *act);
    }
}
