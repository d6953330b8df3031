//! A network from its start over a change to rest.
use crate::counts::Counts;
use crate::director::{Director, ScenarioStep};
use crate::fault::NetworkError;
use crate::network::Network;
use crate::phase::{Look, Phase};
use crate::plan::{Scenario, ScenarioPlan};
use crate::random::{Faults, Random};
use crate::topology::Topology;
use flood::Event;
use std::alloc::Global;

/// What came of a plan.
#[derive(Drop)]
pub struct Outcome {
    pub routers: usize,
    pub links: usize,
    /// LSAs in the database of the first router.
    pub lsas: usize,
    pub walks: u64,
    pub counts: Counts,
    pub start: Phase,
    /// The change, and seconds in which nothing is lost, late or repeated.
    pub change: Phase,
    pub rest: Phase,
}

impl Outcome {
    // Nothing yet.
    fn new(alloc: Global) -> Outcome {
        Outcome {
            routers: 0,
            links: 0,
            lsas: 0,
            walks: 0,
            counts: Counts::ZERO,
            start: Phase::new(alloc),
            change: Phase::new(alloc),
            rest: Phase::new(alloc),
        }
    }

    /// All was calm at the end.
    pub fn is_at_rest(&self) -> bool {
        match self.rest.last() {
            Some(look) => look.is_calm(),
            None => false,
        }
    }
}

// It has no `Drop`, since a network has none.
struct Run<'a> {
    network: Network<'a>,
    director: Director<'a>,
    events: &'a [Event],
    // memory was refused for what was seen
    lacks_memory: bool,
}

impl<'a> Run<'a> {
    // Why something is left out: memory was refused, or the times aren't allowed.
    fn fault(&self) -> Option<NetworkError> {
        if self.lacks_memory || self.director.lacks_memory {
            Some(NetworkError::Memory)
        } else {
            self.network.fault()
        }
    }

    fn announces(&mut self, place: usize, number: usize) {
        let events = self.events;
        if number < events.len() {
            self.network.happens(place, &events[number]);
        }
    }

    fn does(&mut self, deed: ScenarioStep) {
        match deed {
            ScenarioStep::LinkUp(link) => self.network.wires.set_up(link, true),
            ScenarioStep::LinkDown(link, notice) => self.network.link_down(link, notice),
            ScenarioStep::Announce(place, number) => self.announces(place, number),
            ScenarioStep::Withdraw(place, prefix) => {
                self.network.happens(place, &Event::Withdraw(prefix))
            }
            ScenarioStep::Restart(place) => self.network.restarts(place),
        }
    }

    fn does_all(&mut self) {
        let deeds = self.director.take();
        for deed in &deeds {
            self.does(*deed);
        }
    }

    fn second(&mut self, scenario: Scenario, second: u64) {
        self.network.passes();
        if second <= scenario.last_act() {
            self.director.acts(scenario, second);
        }
        self.does_all();
        self.network.delivers();
    }

    fn look(&mut self, second: u64, watches: bool) -> Look {
        let mut look = Look {
            second,
            not_full: self.network.not_full(),
            differ: None,
            seen: None,
        };
        let mut sees = watches;
        if look.not_full == 0 {
            let differ = self.network.differ();
            look.differ = Some(differ);
            sees = watches || differ == 0;
        }
        if sees {
            look.seen = Some(self.network.see(&self.director.owners));
        }
        look
    }

    fn notes(&mut self, second: u64, watches: bool, phase: &mut Phase) {
        let look = self.look(second, watches);
        if !phase.note(look) {
            self.lacks_memory = true;
        }
    }

    // A second of the scenario. Returns whether it is over: all has been calm for a while since the
    // last act, or memory was refused.
    fn goes_on(
        &mut self,
        plan: &ScenarioPlan,
        scenario: Scenario,
        now: u64,
        phase: &mut Phase,
    ) -> bool {
        self.second(scenario, now);
        self.notes(now, plan.watches, phase);
        let is_over = now > scenario.last_act() && phase.has_settled_for(plan.stay);
        is_over || self.fault().is_some()
    }

    // Seconds until all is calm for a while after the last act.
    fn phase(&mut self, plan: &ScenarioPlan, scenario: Scenario, phase: &mut Phase) {
        for before in 0..plan.seconds {
            if self.goes_on(plan, scenario, before.saturating_add(1), phase) {
                return;
            }
        }
    }

    fn begins(&mut self, plan: &ScenarioPlan) {
        self.network.wires.faults = plan.faults;
        if plan.scenario != Scenario::Announce {
            self.director.announces_all();
        }
        self.does_all();
    }

    // Seconds in which nothing is lost, late or repeated, of which the last is looked at.
    fn rests(&mut self, seconds: u64, phase: &mut Phase) {
        self.network.wires.faults = Faults::NONE;
        for _second in 0..seconds {
            self.second(Scenario::Start, 0);
        }
        self.notes(seconds, true, phase);
    }

    fn plays(&mut self, plan: &ScenarioPlan, outcome: &mut Outcome) {
        self.begins(plan);
        self.phase(plan, Scenario::Start, &mut outcome.start);
        if plan.scenario != Scenario::Start {
            self.phase(plan, plan.scenario, &mut outcome.change);
        }
        self.rests(plan.calm, &mut outcome.rest);
        self.tells(outcome);
    }

    fn tells(&self, outcome: &mut Outcome) {
        let routers = &self.network.routers;
        let topology = self.network.wires.topology;
        outcome.routers = topology.ends.len();
        outcome.links = topology.links.len();
        if let Some(core) = routers.get(0) {
            outcome.lsas = core.database().len();
        }
        outcome.walks = routers.walks();
        outcome.counts = self.network.wires.counts;
        outcome.counts.refused = routers.refused;
    }

    fn close(self) {
        let Run {
            network,
            director: _,
            events: _,
            lacks_memory: _,
        } = self;
        network.close();
    }
}

// Plays the plan with routers that begin in this topology. Returns what stopped it.
fn play_in(
    alloc: Global,
    topology: &Topology,
    random: Random,
    plan: &ScenarioPlan,
    events: &[Event],
    outcome: &mut Outcome,
) -> Option<NetworkError> {
    let mut run = Run {
        network: Network::new(alloc, topology, plan.times, plan.seed),
        director: Director::new(alloc, plan, topology, random, events.len()),
        events,
        lacks_memory: false,
    };
    if run.fault().is_none() {
        run.plays(plan, outcome);
    }
    let fault = run.fault();
    run.close();
    fault
}

fn play_into(
    alloc: Global,
    plan: &ScenarioPlan,
    events: &[Event],
    outcome: &mut Outcome,
) -> Result<(), NetworkError> {
    let mut random = Random::new(plan.seed);
    let routers = plan.routers as usize;
    let topology = Topology::new(alloc, &mut random, plan.topology, routers, plan.spread)?;
    match play_in(alloc, &topology, random, plan, events, outcome) {
        None => Ok(()),
        Some(fault) => Err(fault),
    }
}

/// Plays the plan with these announcements of the destinations.
///
/// # Errors
/// `Memory` if an allocation is refused, `Configuration` if the times aren't allowed.
pub fn play_scenario(
    alloc: Global,
    plan: &ScenarioPlan,
    events: &[Event],
) -> Result<Outcome, NetworkError> {
    let mut outcome = Outcome::new(alloc);
    match play_into(alloc, plan, events, &mut outcome) {
        Ok(()) => Ok(outcome),
        Err(fault) => Err(fault),
    }
}
