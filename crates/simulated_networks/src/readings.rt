//! What was last read off all routers, and what it says together.
use crate::addresses::number_at;
use crate::seen::TableFaults;
use crate::topology::FarEnd;
use crate::ways::{HERE, NO_COST, NONE, way_at, way_of};
use crate::wires::Wires;
use routes::{LinkEnds, PrefixRoute, count_looping};
use std::alloc::Global;
use words::{Hops, Route};

/// Stands for the place of a router if no router announces the external destination.
pub const NOBODY: usize = 0xffff_ffff;

// What was last read off a router.
#[derive(Clone, Copy)]
struct Reading {
    // the interfaces with a Full neighbor
    full: Hops,
    // a hash of the instances in the database; 0 if it isn't known
    print: u64,
    // the table may be another one than the ways
    has_changed: bool,
}

// Nothing yet.
const UNREAD: Reading = Reading {
    full: Hops::NONE,
    print: 0,
    has_changed: true,
};

/// What was last read off all routers. If memory is refused for something, that is left out.
#[derive(Drop)]
pub struct Readings {
    /// Memory was refused: something is left out.
    pub lacks_memory: bool,
    alloc: Global,
    list: Vec<Reading>,
    // to each prefix the ways of all routers; the prefixes of links come first
    ways: Vec<PrefixRoute>,
}

impl Readings {
    /// `count` routers, none of which was read.
    pub fn new(alloc: Global, count: usize) -> Readings {
        let mut list = Vec::new(alloc);
        let lacks_memory = list.resize(count, UNREAD).is_err();
        Readings {
            lacks_memory,
            alloc,
            list,
            ways: Vec::new(alloc),
        }
    }

    /// The router has these Full neighbors after an event, by which its table may have changed.
    pub fn note(&mut self, place: usize, full: Hops, may_change: bool) {
        if place < self.list.len() {
            let reading = &mut self.list[place];
            // a router without Full neighbors sends no Update of what it originates
            if may_change || reading.full.bits() != full.bits() {
                reading.full = full;
                reading.print = 0;
                reading.has_changed = true;
            }
        }
    }

    /// The hash of the router's database; 0 if it isn't known.
    pub fn print(&self, place: usize) -> u64 {
        if place < self.list.len() {
            self.list[place].print
        } else {
            0
        }
    }

    /// Keeps the hash of the router's database.
    pub fn set_print(&mut self, place: usize, print: u64) {
        if place < self.list.len() {
            self.list[place].print = print;
        }
    }

    fn sees(&self, place: usize, interface: u8) -> bool {
        place < self.list.len() && interface < 64 && self.list[place].full.contains(interface)
    }

    /// Whether both ends see each other as Full.
    pub fn are_full(&self, link: &LinkEnds) -> bool {
        self.sees(link.one, link.one_interface) && self.sees(link.other, link.other_interface)
    }

    // Whether the databases of both ends differ, and they see each other as Full.
    fn differ_over(&self, link: &LinkEnds) -> bool {
        self.print(link.one) != self.print(link.other) && self.are_full(link)
    }

    /// How many links between Full neighbors join databases that differ.
    pub fn differ(&self, wires: &Wires<'_>) -> usize {
        let links = wires.topology.links.as_slice();
        let mut count = 0_usize;
        for number in 0..links.len() {
            if wires.is_up(number) && self.differ_over(&links[number]) {
                count = count.wrapping_add(1);
            }
        }
        count
    }

    /// Makes room for the routes to `count` prefixes.
    pub fn set_prefixes(&mut self, count: usize) {
        let ways = count.wrapping_mul(self.list.len());
        if self.ways.resize(ways, NONE).is_err() {
            self.lacks_memory = true;
        }
    }

    /// Whether the router's table may differ from what was last read.
    pub fn has_changed(&self, place: usize) -> bool {
        place < self.list.len() && self.list[place].has_changed
    }

    fn set_way(&mut self, number: usize, place: usize, way: PrefixRoute) {
        let at = number.wrapping_mul(self.list.len()).wrapping_add(place);
        if at < self.ways.len() {
            self.ways[at] = way;
        }
    }

    fn clear_ways(&mut self, place: usize, prefixes: usize) {
        if place < self.list.len() {
            self.list[place].has_changed = false;
        }
        for number in 0..prefixes {
            self.set_way(number, place, NONE);
        }
    }

    /// Keeps the routes of the router's table. The first `links` of the `prefixes` are those of
    /// links.
    pub fn take_routes(&mut self, place: usize, routes: &[Route], links: usize, prefixes: usize) {
        self.clear_ways(place, prefixes);
        for route in routes {
            let number = number_at(route.prefix.address(), links);
            self.set_way(number, place, way_of(route));
        }
    }

    // Adds the way of each router to the prefix. It ends at the router that announces the prefix.
    fn add_ways(&self, ways: &mut Vec<PrefixRoute>, number: usize, owner: usize) -> bool {
        let count = self.list.len();
        let first = number.wrapping_mul(count);
        let all = self
            .ways
            .get(first..first.wrapping_add(count))
            .unwrap_or(&[]);
        let fits = ways.extend_from_slice(all).is_ok();
        if owner < ways.len() {
            ways[owner] = HERE;
        }
        fits
    }

    // What the ways to a prefix say, over the links that are up.
    fn see_prefix(
        &mut self,
        wires: &Wires<'_>,
        up: &[LinkEnds],
        number: usize,
        owner: usize,
        is_there: bool,
    ) -> TableFaults {
        let mut ways = Vec::new(self.alloc);
        let fits = self.add_ways(&mut ways, number, owner);
        let mut seen = see_ways(wires, &ways, is_there);
        match count_looping(self.alloc, up, &ways) {
            Ok(looping) if fits => seen.looping = looping as u64,
            _ => self.lacks_memory = true,
        }
        seen
    }

    fn see_all(&mut self, wires: &Wires<'_>, up: &[LinkEnds], owners: &[usize]) -> TableFaults {
        let links = wires.topology.links.len();
        let mut seen = TableFaults::NOTHING;
        for number in 0..links {
            seen.add(&self.see_prefix(wires, up, number, NOBODY, true));
        }
        for place in 0..owners.len() {
            let (number, owner) = (links.wrapping_add(place), owners[place]);
            seen.add(&self.see_prefix(wires, up, number, owner, owner != NOBODY));
        }
        seen
    }

    /// What is wrong with the tables of all routers. `owners` has for each external destination
    /// the place of the router that announces it.
    pub fn see(&mut self, wires: &Wires<'_>, owners: &[usize]) -> TableFaults {
        let mut up = Vec::new(self.alloc);
        if !wires.add_links_up(&mut up) {
            self.lacks_memory = true;
        }
        self.see_all(wires, &up, owners)
    }
}

// What a next hop of the way leads to.
fn see_hop(
    wires: &Wires<'_>,
    ways: &[PrefixRoute],
    way: &PrefixRoute,
    end: &FarEnd,
    seen: &mut TableFaults,
) {
    let cost = way_at(ways, end.place).cost;
    if !wires.is_up(end.link) || cost == NO_COST {
        seen.nowhere = 1;
    } else if cost.wrapping_add(u32::from(end.cost)) != way.cost {
        seen.other_cost = 1;
    }
}

// What the next hops of the way lead to.
fn see_hops(
    wires: &Wires<'_>,
    ways: &[PrefixRoute],
    way: &PrefixRoute,
    ends: &[FarEnd],
    seen: &mut TableFaults,
) {
    let mut interface = 0_u8;
    for end in ends {
        interface = interface.saturating_add(1);
        if way.leaves_by(interface) {
            see_hop(wires, ways, way, end, seen);
        }
    }
}

// What the router's way says: each count is 0 or 1.
fn see_way(wires: &Wires<'_>, ways: &[PrefixRoute], place: usize, is_there: bool) -> TableFaults {
    let mut seen = TableFaults::NOTHING;
    let way = way_at(ways, place);
    if way.cost == NO_COST {
        seen.missing = u64::from(is_there);
    } else {
        seen.stray = u64::from(!is_there);
        see_hops(wires, ways, &way, wires.topology.ends_of(place), &mut seen);
    }
    seen
}

// How many routers' ways lead nowhere, are missing, have another cost, or are there though nobody
// announces the prefix.
fn see_ways(wires: &Wires<'_>, ways: &[PrefixRoute], is_there: bool) -> TableFaults {
    let mut seen = TableFaults::NOTHING;
    for place in 0..ways.len() {
        seen.add(&see_way(wires, ways, place, is_there));
    }
    seen
}
