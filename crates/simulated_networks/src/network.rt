//! Routers, their links, and time that goes on second by second.
use crate::counts::{add, is_update};
use crate::fault::NetworkError;
use crate::one_router::InterfaceTimes;
use crate::readings::Readings;
use crate::routers::Routers;
use crate::seen::TableFaults;
use crate::topology::Topology;
use crate::wires::Wires;
use flood::Event;
use std::alloc::Global;

// In a second there are fewer rounds.
const MAX_ROUNDS: u32 = 100_000;

/// A network. It has no `Drop`: its owner closes it. If memory is refused for something, that is
/// left out, and `fault` reports it from then on.
pub struct Network<'a> {
    pub routers: Routers,
    /// The links, what is under way over them, and what was counted.
    pub wires: Wires<'a>,
    // what was last read off the routers
    readings: Readings,
}

// An Update that comes may change the table, and so may all that isn't a packet or a Tick.
fn may_change_tables(event: &Event) -> bool {
    match event {
        Event::Tick => false,
        Event::Packet(_, bytes) => is_update(bytes.as_slice()),
        _ => true,
    }
}

impl<'a> Network<'a> {
    /// The routers of the topology, which begin at 0 and know nothing, with the numbers of this
    /// seed. Nothing is lost, late or repeated.
    pub fn new(
        alloc: Global,
        topology: &'a Topology,
        times: InterfaceTimes,
        seed: u64,
    ) -> Network<'a> {
        Network {
            routers: Routers::new(alloc, topology, times),
            wires: Wires::new(alloc, topology, seed),
            readings: Readings::new(alloc, topology.ends.len()),
        }
    }

    /// Frees the routers.
    pub fn close(self) {
        let Network {
            routers,
            wires: _,
            readings: _,
        } = self;
        routers.close();
    }

    /// Why something is left out: memory was refused, or the times aren't allowed.
    pub fn fault(&self) -> Option<NetworkError> {
        if self.wires.lacks_memory || self.readings.lacks_memory {
            Some(NetworkError::Memory)
        } else {
            self.routers.fault
        }
    }

    /// The event happens to the router at the place, if there is one. An event that the router
    /// refuses is counted.
    pub fn happens(&mut self, place: usize, event: &Event) {
        add(&mut self.wires.counts.events, 1);
        let outs = self.routers.step(place, self.wires.moment, event);
        let updates = self.wires.send_all(place, outs);
        let may_change = updates || may_change_tables(event);
        self.readings
            .note(place, self.routers.fulls(place), may_change);
    }

    /// Time goes on by a second, with a Tick at each router, the first of them by chance.
    pub fn passes(&mut self) {
        self.wires.wake();
        let count = self.wires.topology.ends.len();
        let first = self.wires.random.place(count);
        let tick = Event::Tick;
        for step in 0..count {
            self.happens(first.wrapping_add(step) % count, &tick);
        }
    }

    // All that is under way comes over those links that are up. Returns whether something was.
    fn round(&mut self) -> bool {
        let all = self.wires.take();
        for coming in &all {
            if self.wires.is_up(coming.link) {
                self.happens(coming.place, &coming.event);
            }
        }
        !all.is_empty()
    }

    /// All that is under way comes, and what is sent then, until nothing is.
    pub fn delivers(&mut self) {
        for _round in 0..MAX_ROUNDS {
            if !self.round() {
                return;
            }
        }
    }

    fn goes_down(&mut self, place: usize, interface: u8) {
        self.happens(place, &Event::LinkDown(u16::from(interface)));
    }

    /// The link goes down; with notice, the routers at both ends are told.
    pub fn link_down(&mut self, number: usize, notice: bool) {
        self.wires.set_up(number, false);
        let links = self.wires.topology.links.as_slice();
        if notice && number < links.len() {
            let link = links[number];
            self.goes_down(link.one, link.one_interface);
            self.goes_down(link.other, link.other_interface);
        }
    }

    /// The router at the place begins anew, and knows nothing.
    pub fn restarts(&mut self, place: usize) {
        self.routers
            .restart(self.wires.topology, place, self.wires.moment);
        self.readings.note(place, self.routers.fulls(place), true);
    }

    /// How many links are up and not Full.
    pub fn not_full(&self) -> usize {
        let links = self.wires.topology.links.as_slice();
        let mut count = 0_usize;
        for number in 0..links.len() {
            if self.wires.is_up(number) && !self.readings.are_full(&links[number]) {
                count = count.wrapping_add(1);
            }
        }
        count
    }

    /// How many links between Full neighbors join databases that differ.
    pub fn differ(&mut self) -> usize {
        for place in 0..self.wires.topology.ends.len() {
            if self.readings.print(place) == 0 {
                self.readings.set_print(place, self.routers.print(place));
            }
        }
        self.readings.differ(&self.wires)
    }

    fn take_table(&mut self, place: usize, links: usize, prefixes: usize) {
        match self.routers.routes(place) {
            Ok(routes) => self.readings.take_routes(place, &routes, links, prefixes),
            Err(_) => self.readings.lacks_memory = true,
        }
    }

    /// What is wrong with the tables of all routers now. `owners` has for each external destination
    /// the place of the router that announces it.
    pub fn see(&mut self, owners: &[usize]) -> TableFaults {
        let links = self.wires.topology.links.len();
        let prefixes = links.wrapping_add(owners.len());
        self.readings.set_prefixes(prefixes);
        for place in 0..self.wires.topology.ends.len() {
            if self.readings.has_changed(place) {
                self.take_table(place, links, prefixes);
            }
        }
        self.readings.see(&self.wires, owners)
    }
}
