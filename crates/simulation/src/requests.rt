//! What the words of a command line ask for.
use crate::arguments::{told, whole};
use crate::reading::{Reader, Wrong};
use clap::{ArgMatches, Error};
use simulated_networks::{ScenarioPlan, Search, Sought, TopologyShape};
use std::alloc::Global;

/// A search for histories of `seeds` seeds from `seed` on, and the network that is searched.
#[derive(Clone, Copy)]
pub struct SearchRequest {
    pub search: Search,
    pub topology: TopologyShape,
    pub spread: u32,
    pub seed: u64,
    pub seeds: u64,
}

/// A request.
#[derive(Clone, Copy)]
pub enum SimulationRequest {
    /// Play a scenario for `seeds` seeds from the plan's own on.
    Run {
        plan: ScenarioPlan,
        seeds: u64,
        json: bool,
    },
    /// Search for histories.
    Search(SearchRequest),
}

impl SimulationRequest {
    /// How many external destinations there are.
    pub fn externals(&self) -> u32 {
        match self {
            SimulationRequest::Run { plan, .. } => plan.externals,
            SimulationRequest::Search(asked) => asked.search.externals,
        }
    }
}

const MAX_NUMBER: u64 = 4_611_686_018_427_387_903;

// The network that words name.
#[derive(Clone, Copy)]
struct NetworkWords {
    topology: TopologyShape,
    routers: u32,
    externals: u32,
    spread: u32,
}

fn shape_in(words: &mut Reader<'_, '_>) -> NetworkWords {
    NetworkWords {
        topology: words.topology(),
        routers: words.small("routers", 9, 2, 10_000),
        externals: words.small("externals", 0, 0, 100_000),
        spread: words.small("spread", 1, 1, 10_000),
    }
}

// The first seed, and how many there are.
fn seeds_in(words: &mut Reader<'_, '_>) -> (u64, u64) {
    let first = words.number("seed", 1, 0, MAX_NUMBER);
    let count = words.number("seeds", 1, 1, MAX_NUMBER);
    (first, count)
}

fn run(words: &mut Reader<'_, '_>) -> SimulationRequest {
    let shape = shape_in(words);
    let usual = shape.externals.saturating_add(999) / 1_000;
    let (seed, seeds) = seeds_in(words);
    let plan = ScenarioPlan {
        topology: shape.topology,
        routers: shape.routers,
        externals: shape.externals,
        spread: shape.spread,
        seed,
        seconds: words.number("seconds", 300, 1, MAX_NUMBER),
        stay: words.number("stay", 12, 0, MAX_NUMBER),
        calm: words.number("calm", 60, 0, MAX_NUMBER),
        announcers: words.small("announcers", usual, 0, 10_000),
        times: words.times(),
        faults: words.faults(),
        scenario: words.scenario(),
        watches: words.matches.get_flag("watch"),
    };
    let json = words.matches.get_flag("json");
    SimulationRequest::Run { plan, seeds, json }
}

fn search(words: &mut Reader<'_, '_>) -> SimulationRequest {
    let shape = shape_in(words);
    let (seed, seeds) = seeds_in(words);
    let sought = match words.matches.get_flag("loops") {
        true => Sought::Loops,
        false => Sought::Databases,
    };
    let search = Search {
        sought,
        routers: shape.routers,
        externals: shape.externals,
        times: words.times(),
        faults: words.faults(),
        restarts: words.matches.get_flag("restarts"),
        steps: words.small("steps", 500, 0, 1_000_000),
        calm: words.small("calm", 60, 0, 1_000_000),
    };
    SimulationRequest::Search(SearchRequest {
        search,
        topology: shape.topology,
        spread: shape.spread,
        seed,
        seeds,
    })
}

// What the command of this name makes of its words.
fn requested(name: &str, matches: &ArgMatches<'_>) -> Result<SimulationRequest, Wrong> {
    let mut words = Reader::new(matches);
    let request = match name {
        "run" => run(&mut words),
        "search" => search(&mut words),
        _ => return Err(Wrong::Command),
    };
    words.ends_with(request)
}

fn asked_for(matches: &ArgMatches<'_>) -> Result<SimulationRequest, Wrong> {
    match matches.subcommand() {
        Some((name, words)) => requested(name, words),
        None => Err(Wrong::Command),
    }
}

fn request_of(alloc: Global, matches: &ArgMatches<'_>) -> Result<SimulationRequest, Error> {
    match asked_for(matches) {
        Ok(request) => Ok(request),
        Err(wrong) => Err(told(alloc, wrong)),
    }
}

/// Reads the words of a command line, of which the first is the program's name.
///
/// # Errors
/// The text for the user if the words are wrong or ask for help. Its kind is `OutOfMemory` if an
/// allocation was refused.
pub fn parse(alloc: Global, words: &[String]) -> Result<SimulationRequest, Error> {
    let matches = whole(alloc)?.try_get_matches_from(words)?;
    request_of(alloc, &matches)
}
