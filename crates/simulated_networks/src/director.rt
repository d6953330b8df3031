//! What is done with a network, second by second, in each scenario.
use crate::destinations::prefix;
use crate::plan::{Scenario, ScenarioPlan};
use crate::random::Random;
use crate::readings::NOBODY;
use crate::topology::Topology;
use std::alloc::Global;
use std::mem::replace;
use words::Prefix;

/// What is done with a network. Links and destinations go by their numbers, routers by their
/// places.
#[derive(Clone, Copy)]
pub enum ScenarioStep {
    LinkUp(usize),
    /// A link goes down, and both ends are told or not.
    LinkDown(usize, bool),
    /// A router announces a destination, or withdraws one.
    Announce(usize, usize),
    Withdraw(usize, Prefix),
    Restart(usize),
}

/// Who says what is done. What memory is refused for isn't done.
#[derive(Drop)]
pub struct Director<'a> {
    /// Who announces each destination.
    pub owners: Vec<usize>,
    /// Memory was refused: something isn't done that should be.
    pub lacks_memory: bool,
    alloc: Global,
    plan: &'a ScenarioPlan,
    topology: &'a Topology,
    random: Random,
    // how long each link stays down yet
    down: Vec<u64>,
    // what is to be done, in this order
    deeds: Vec<ScenarioStep>,
}

fn small(count: usize) -> u32 {
    u32::try_from(count).unwrap_or(0)
}

impl<'a> Director<'a> {
    /// No router announces any of the destinations, and each link is up.
    pub fn new(
        alloc: Global,
        plan: &'a ScenarioPlan,
        topology: &'a Topology,
        random: Random,
        destinations: usize,
    ) -> Director<'a> {
        let mut owners = Vec::new(alloc);
        let mut down = Vec::new(alloc);
        let owned = owners.resize(destinations, NOBODY).is_ok();
        let counted = down.resize(topology.links.len(), 0).is_ok();
        Director {
            owners,
            lacks_memory: !owned || !counted,
            alloc,
            plan,
            topology,
            random,
            down,
            deeds: Vec::new(alloc),
        }
    }

    /// What is to be done now, and isn't asked for again.
    pub fn take(&mut self) -> Vec<ScenarioStep> {
        replace(&mut self.deeds, Vec::new(self.alloc))
    }

    fn asks(&mut self, deed: ScenarioStep) {
        if self.deeds.push(deed).is_err() {
            self.lacks_memory = true;
        }
    }

    fn owner(&self, number: usize) -> usize {
        if number < self.owners.len() {
            self.owners[number]
        } else {
            NOBODY
        }
    }

    fn announces(&mut self, number: usize, place: usize) {
        if number < self.owners.len() {
            self.owners[number] = place;
            self.asks(ScenarioStep::Announce(place, number));
        }
    }

    fn withdraws(&mut self, number: usize, place: usize) {
        if number < self.owners.len() {
            self.owners[number] = NOBODY;
            if let Some(prefix) = prefix(small(number)) {
                self.asks(ScenarioStep::Withdraw(place, prefix));
            }
        }
    }

    // Who is to announce the destination: announcers are spread over all places.
    fn announcer(&self, number: usize) -> usize {
        let many = (self.plan.announcers as usize).max(1);
        let turn = number % many;
        turn.wrapping_mul(self.topology.ends.len()) / many
    }

    /// All destinations are announced.
    pub fn announces_all(&mut self) {
        for number in 0..self.owners.len() {
            let place = self.announcer(number);
            self.announces(number, place);
        }
    }

    fn withdraws_all(&mut self) {
        for number in 0..self.owners.len() {
            let place = self.owner(number);
            if place != NOBODY {
                self.withdraws(number, place);
            }
        }
    }

    fn restarts(&mut self, place: usize) {
        self.asks(ScenarioStep::Restart(place));
        for number in 0..self.owners.len() {
            if self.owner(number) == place {
                self.announces(number, place);
            }
        }
    }

    fn middle(&self) -> usize {
        self.topology.links.len() / 2
    }

    fn restarts_in_the_middle(&mut self) {
        let middle = self.middle();
        if middle < self.topology.links.len() {
            let link = self.topology.links[middle];
            self.restarts(link.one);
        }
    }

    fn flaps(&mut self, link: usize, second: u64) {
        match second % 10 {
            1 => self.sets_link(link, false),
            6 => self.sets_link(link, true),
            _ => (),
        }
    }

    // The links between the halves of the places go up or down.
    fn divides(&mut self, up: bool) {
        let links = self.topology.links.as_slice();
        let half = self.topology.ends.len() / 2;
        for number in 0..links.len() {
            if (links[number].one < half) != (links[number].other < half) {
                self.sets_link(number, up);
            }
        }
    }

    fn sets_link(&mut self, link: usize, up: bool) {
        let deed = if up {
            ScenarioStep::LinkUp(link)
        } else {
            ScenarioStep::LinkDown(link, true)
        };
        self.asks(deed);
    }

    fn parts(&mut self, second: u64) {
        match second {
            1 => self.divides(false),
            61 => self.divides(true),
            _ => (),
        }
    }

    // How many more seconds the link stays down; 0 if there is none.
    fn left(&self, number: usize) -> u64 {
        if number < self.down.len() {
            self.down[number]
        } else {
            0
        }
    }

    fn set_left(&mut self, number: usize, seconds: u64) {
        if number < self.down.len() {
            self.down[number] = seconds;
        }
    }

    // A link that is down for a while comes up again when that is over.
    fn waits_for(&mut self, number: usize) {
        let left = self.left(number);
        self.set_left(number, left.saturating_sub(1));
        if left == 1 {
            self.asks(ScenarioStep::LinkUp(number));
        }
    }

    fn loses_a_link(&mut self) {
        let number = self.random.place(self.topology.links.len());
        let seconds = u64::from(self.random.below(20)).saturating_add(1);
        let notice = self.random.below(2) == 0;
        if self.left(number) == 0 {
            self.set_left(number, seconds);
            self.asks(ScenarioStep::LinkDown(number, notice));
        }
    }

    fn changes_a_destination(&mut self) {
        let number = self.random.place(self.owners.len());
        let owner = self.owner(number);
        if owner == NOBODY {
            let place = self.announcer(number);
            self.announces(number, place);
        } else {
            self.withdraws(number, owner);
        }
    }

    fn restarts_any(&mut self) {
        let place = self.random.place(self.topology.ends.len());
        self.restarts(place);
    }

    fn strikes(&mut self) {
        if self.random.below(100) < 30 {
            self.loses_a_link();
        }
        if self.random.below(100) < 5 {
            self.restarts_any();
        }
        if self.random.below(100) < 30 {
            self.changes_a_destination();
        }
    }

    fn storms(&mut self, second: u64) {
        for number in 0..self.down.len() {
            self.waits_for(number);
        }
        if second <= 120 {
            self.strikes();
        }
    }

    /// Asks for what is done in this second of the scenario, up to the last one in which something
    /// is.
    pub fn acts(&mut self, scenario: Scenario, second: u64) {
        let link = self.middle();
        match scenario {
            Scenario::Start => (),
            Scenario::Link => self.asks(ScenarioStep::LinkDown(link, true)),
            Scenario::Silent => self.asks(ScenarioStep::LinkDown(link, false)),
            Scenario::Restart => self.restarts_in_the_middle(),
            Scenario::Flap => self.flaps(link, second),
            Scenario::Partition => self.parts(second),
            Scenario::Announce => self.announces_all(),
            Scenario::Withdraw => self.withdraws_all(),
            Scenario::Storm => self.storms(second),
        }
    }
}
