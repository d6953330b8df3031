//! Acts, played one by one.
use crate::acts::HistoryStep;
use crate::destinations::prefix;
use crate::fault::NetworkError;
use crate::mail::Mail;
use crate::one_router::{InterfaceTimes, holds_the_same, sees_full};
use crate::routers::Routers;
use crate::search::HistorySetting;
use flood::{Core, Event};
use routes::LinkEnds;
use std::alloc::AllocError;
use words::Route;

// In a second there are fewer packets.
const MAX_PACKETS: u32 = 20_000;

/// A network whose packets come one by one. It has no `Drop`: its owner closes it. If memory is
/// refused for something, that is left out, and `fault` reports it from then on.
pub struct Play<'a> {
    routers: Routers,
    mail: Mail<'a>,
    moment: u64,
}

fn leads_by(route: &Route, interface: u8) -> bool {
    interface < 64 && route.hops.contains(interface)
}

fn leads_back(routes: &[Route], to: &Route, interface: u8) -> bool {
    for route in routes {
        if route.prefix == to.prefix && leads_by(route, interface) {
            return true;
        }
    }
    false
}

// A router at an end of a link.
#[derive(Clone, Copy)]
struct Side<'a> {
    core: &'a Core,
    interface: u8,
}

// Whether the route leads from the one side to the other and back, though neither announces its
// prefix.
fn goes_round(one: &Side<'_>, other: &Side<'_>, route: &Route, others: &[Route]) -> bool {
    leads_by(route, one.interface)
        && leads_back(others, route, other.interface)
        && !one.core.wants(route.prefix)
        && !other.core.wants(route.prefix)
}

fn some_goes_round(one: &Side<'_>, other: &Side<'_>, routes: &[Route], others: &[Route]) -> bool {
    for route in routes {
        if goes_round(one, other, route, others) {
            return true;
        }
    }
    false
}

fn flat_candidates(core: &Core) -> Result<Vec<Route>, AllocError> {
    core.candidates()?.to_vec()
}

// `None` if memory is refused.
fn some_lead_back(one: &Side<'_>, other: &Side<'_>, routes: &[Route]) -> Option<bool> {
    match flat_candidates(&other.core) {
        Ok(others) => Some(some_goes_round(one, other, routes, &others)),
        Err(_) => None,
    }
}

// `None` if memory is refused.
fn lead_to_each_other(one: &Side<'_>, other: &Side<'_>) -> Option<bool> {
    match flat_candidates(&one.core) {
        Ok(routes) => some_lead_back(one, other, &routes),
        Err(_) => None,
    }
}

impl<'a> Play<'a> {
    /// The routers of the stage, which begin at 0.
    pub fn new(stage: HistorySetting<'a>, times: InterfaceTimes) -> Play<'a> {
        Play {
            routers: Routers::new(stage.alloc, stage.topology, times),
            mail: Mail::new(stage),
            moment: 0,
        }
    }

    /// Why something is left out: memory was refused, or the times aren't allowed.
    pub fn fault(&self) -> Option<NetworkError> {
        if self.mail.lacks_memory {
            Some(NetworkError::Memory)
        } else {
            self.routers.fault
        }
    }

    /// Frees the routers.
    pub fn close(self) {
        let Play {
            routers,
            mail: _,
            moment: _,
        } = self;
        routers.close();
    }

    // The event happens to the router at the place, if there is one.
    fn takes(&mut self, place: usize, event: &Event) {
        let outs = self.routers.step(place, self.moment, event);
        self.mail.send_all(place, outs);
    }

    // The packet of this index comes, once more or for the first time.
    fn comes(&mut self, index: usize) {
        if index < self.mail.packets.len() {
            let sent = &self.mail.packets[index];
            let place = sent.place;
            let outs = self.routers.step(place, self.moment, &sent.event);
            self.mail.send_all(place, outs);
        }
    }

    fn next_comes(&mut self) {
        self.comes(self.mail.at);
        self.mail.goes_on();
    }

    fn comes_again(&mut self, back: u32) {
        let sent = self.mail.packets.len();
        self.comes(sent.wrapping_sub(back as usize));
    }

    fn next_two_are_exchanged(&mut self) {
        self.comes(self.mail.at.saturating_add(1));
        self.next_comes();
        self.mail.goes_on();
    }

    fn next_comes_twice(&mut self) {
        self.comes(self.mail.at);
        self.next_comes();
    }

    fn passes(&mut self) {
        self.moment = self.moment.saturating_add(1);
        let tick = Event::Tick;
        for place in 0..self.mail.stage.topology.ends.len() {
            self.takes(place, &tick);
        }
    }

    fn delivers(&mut self) {
        for _packet in 0..MAX_PACKETS {
            if self.mail.is_quiet() {
                return;
            }
            self.next_comes();
        }
    }

    fn is_calm_for(&mut self, seconds: u32) {
        for _second in 0..seconds {
            self.passes();
            self.delivers();
        }
    }

    fn announces(&mut self, place: usize, number: u32) {
        let events = self.mail.stage.events;
        if (number as usize) < events.len() {
            self.takes(place, &events[number as usize]);
        }
    }

    fn withdraws(&mut self, place: usize, number: u32) {
        if let Some(prefix) = prefix(number) {
            self.takes(place, &Event::Withdraw(prefix));
        }
    }

    fn goes_down(&mut self, place: usize, number: u32) {
        let interface = u16::try_from(number).unwrap_or(0);
        self.takes(place, &Event::LinkDown(interface));
    }

    // Does what is done at a single router.
    fn does_at_one(&mut self, act: HistoryStep) {
        match act {
            HistoryStep::Tick(place) => self.takes(place as usize, &Event::Tick),
            HistoryStep::Announce(place, number) => self.announces(place as usize, number),
            HistoryStep::Withdraw(place, number) => self.withdraws(place as usize, number),
            HistoryStep::LinkDown(place, number) => self.goes_down(place as usize, number),
            HistoryStep::Restart(place) => {
                let topology = self.mail.stage.topology;
                self.routers.restart(topology, place as usize, self.moment);
            }
            _ => (),
        }
    }

    /// Does the act. What an act names and isn't there is left alone.
    pub fn does(&mut self, act: HistoryStep) {
        match act {
            HistoryStep::Comes => self.next_comes(),
            HistoryStep::Lost => self.mail.goes_on(),
            HistoryStep::Twice => self.next_comes_twice(),
            HistoryStep::Exchanged => self.next_two_are_exchanged(),
            HistoryStep::Again(back) => self.comes_again(back),
            HistoryStep::Passes => self.passes(),
            HistoryStep::Calm(seconds) => self.is_calm_for(seconds),
            _ => self.does_at_one(act),
        }
    }

    /// Does one act after the other.
    pub fn does_all(&mut self, acts: &[HistoryStep]) {
        for act in acts {
            self.does(*act);
        }
    }

    // The routers at both ends of the link.
    fn sides(&self, link: &LinkEnds) -> Option<(Side<'_>, Side<'_>)> {
        match (self.routers.get(link.one), self.routers.get(link.other)) {
            (Some(one), Some(other)) => Some((
                Side {
                    core: one,
                    interface: link.one_interface,
                },
                Side {
                    core: other,
                    interface: link.other_interface,
                },
            )),
            _ => None,
        }
    }

    fn differ_over(&self, link: &LinkEnds) -> bool {
        match self.sides(link) {
            Some((one, other)) => {
                sees_full(one.core, one.interface)
                    && sees_full(other.core, other.interface)
                    && !holds_the_same(one.core, other.core)
            }
            None => false,
        }
    }

    /// Whether two neighbors that see each other as Full hold different databases.
    pub fn differ(&self) -> bool {
        for link in &self.mail.stage.topology.links {
            if self.differ_over(link) {
                return true;
            }
        }
        false
    }

    // `None` if memory is refused.
    fn loop_over(&self, link: &LinkEnds) -> Option<bool> {
        match self.sides(link) {
            Some((one, other)) => lead_to_each_other(&one, &other),
            None => Some(false),
        }
    }

    /// Whether two neighbors hand packets for a prefix to each other that neither of them
    /// announces.
    pub fn loop_between_two(&mut self) -> bool {
        let topology = self.mail.stage.topology;
        for link in &topology.links {
            match self.loop_over(link) {
                Some(false) => (),
                Some(true) => return true,
                None => self.mail.lacks_memory = true,
            }
        }
        false
    }
}
