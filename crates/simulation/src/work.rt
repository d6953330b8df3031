//! Requests, carried out.
ghost use Rattle.std.specs.Prelude.{IfOk};
ghost use Rattle.simulation.specs.Endings.{IsVerdict};

use crate::fault::{DONE, FOUND, SimulationError};
use crate::json::write_run;
use crate::page::Page;
use crate::requests::{SearchRequest, SimulationRequest, parse};
use crate::telling::{tell_history, tell_run};
use flood::Event;
use simulated_networks::{
    HistorySetting, NetworkError, Outcome, Random, ScenarioPlan, Search, Topology, announcements,
    play_scenario,
};
use std::alloc::{AllocError, Global};
use std::io::Write;
use std::sync::Wait;

// Prints what came of the plan.
fn tell<O: Write>(page: &mut Page<O>, plan: &ScenarioPlan, outcome: &Outcome, json: bool) {
    if json {
        write_run(page, plan, outcome);
    } else {
        tell_run(page, plan, outcome);
    }
}

// Plays the plan once, and prints what came of it. Returns whether all is at rest at the end.
fn play_one<O: Write>(
    alloc: Global,
    plan: &ScenarioPlan,
    events: &[Event],
    json: bool,
    page: &mut Page<O>,
) -> Result<bool, NetworkError> {
    let outcome = play_scenario(alloc, plan, events)?;
    tell(page, plan, &outcome, json);
    Ok(outcome.is_at_rest())
}

// Plays the plan for `seeds` seeds from its own on, as long as its outcomes can be printed.
fn play_all<O: Write>(
    alloc: Global,
    first: ScenarioPlan,
    seeds: u64,
    json: bool,
    events: &[Event],
    page: &mut Page<O>,
) -> Result<u8, NetworkError>
    ensures { IfOk result IsVerdict }
{
    let mut plan = first;
    let mut well = 0_u64;
    for turn in 0..seeds {
        plan.seed = first.seed.saturating_add(turn);
        if play_one(alloc, &plan, events, json, page)? {
            well = well.saturating_add(1);
        }
        if page.written().is_err() {
            break;
        }
    }
    if !json {
        page.fill("{} of {} at rest\n", &[well, seeds]);
    }
    Ok(if well == seeds { DONE } else { FOUND })
}

// Searches for the history of this seed, and prints it. Returns whether it was found.
fn search_one<O: Write>(
    search: &Search,
    stage: HistorySetting<'_>,
    seed: u64,
    page: &mut Page<O>,
) -> Result<bool, NetworkError> {
    let Some(acts) = search.found(stage, seed)? else {
        return Ok(false);
    };
    tell_history(page, seed, &acts);
    Ok(true)
}

// Searches among these seeds (the first, and how many) as long as the histories can be printed.
fn search_all<O: Write>(
    search: &Search,
    stage: HistorySetting<'_>,
    seeds: (u64, u64),
    page: &mut Page<O>,
) -> Result<u8, NetworkError>
    ensures { IfOk result IsVerdict }
{
    let (first, count) = seeds;
    let mut found = 0_u64;
    for turn in 0..count {
        if search_one(search, stage, first.saturating_add(turn), page)? {
            found = found.saturating_add(1);
        }
        if page.written().is_err() {
            break;
        }
    }
    page.fill("{} of {} found\n", &[found, count]);
    Ok(if found == 0 { DONE } else { FOUND })
}

fn topology_of(alloc: Global, asked: &SearchRequest) -> Result<Topology, AllocError> {
    let (mut random, routers) = (Random::new(1), asked.search.routers as usize);
    Topology::new(alloc, &mut random, asked.topology, routers, asked.spread)
}

// Searches in a network of this shape, in which these destinations may be announced.
fn search_in<O: Write>(
    alloc: Global,
    asked: &SearchRequest,
    events: &[Event],
    page: &mut Page<O>,
) -> Result<u8, NetworkError>
    ensures { IfOk result IsVerdict }
{
    let made = topology_of(alloc, asked)?;
    let stage = HistorySetting {
        alloc,
        topology: &made,
        events,
    };
    search_all(&asked.search, stage, (asked.seed, asked.seeds), page)
}

fn play<O: Write>(
    alloc: Global,
    request: &SimulationRequest,
    events: &[Event],
    page: &mut Page<O>,
) -> Result<u8, NetworkError>
    ensures { IfOk result IsVerdict }
{
    match request {
        SimulationRequest::Run { plan, seeds, json } => {
            play_all(alloc, *plan, *seeds, *json, events, page)
        }
        SimulationRequest::Search(asked) => search_in(alloc, asked, events, page),
    }
}

// Carries out a request, with the events that announce its destinations.
fn play_and_tell<O: Write>(
    alloc: Global,
    request: &SimulationRequest,
    events: &[Event],
    output: &mut O,
) -> Result<u8, SimulationError>
    ensures { IfOk result IsVerdict }
{
    let mut page = Page::new(output);
    let verdict = play(alloc, request, events, &mut page)?;
    page.written()?;
    Ok(verdict)
}

/// Carries out what the words ask for (the first is the program's name). Returns the status.
///
/// # Errors
/// `Usage` if the words are wrong, `Times` if the times aren't allowed, `Output` if nothing can be
/// written, `Memory` if an allocation is refused.
pub fn carry_out<R: Wait + Drop + Copy, O: Write>(
    alloc: Global,
    rt: R,
    words: &[String],
    output: &mut O,
) -> Result<u8, SimulationError>
    ensures { IfOk result IsVerdict }
{
    let request = parse(alloc, words)?;
    let events = announcements(alloc, rt, request.externals())?;
    play_and_tell(alloc, &request, &events, output)
}
