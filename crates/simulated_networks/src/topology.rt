//! Which routers are joined.
use crate::random::Random;
use routes::LinkEnds;
use std::alloc::{AllocError, Global};

/// What an interface of a router leads to: the router at a place, over a link, at an interface
/// there.
#[derive(Clone, Copy)]
pub struct FarEnd {
    pub place: usize,
    pub interface: u8,
    pub link: usize,
    pub cost: u16,
}

/// The shape of a network.
#[derive(Clone, Copy)]
pub enum TopologyShape {
    /// Squares, as wide as the root of the number of routers.
    Grid,
    Row,
    Ring,
    /// Of 5 k^2 / 4 switches, as many as there may be (Al-Fares, Loukissas and Vahdat, 2008).
    FatTree,
    /// A tree, and about as many links more.
    Random,
}

/// Routers by their places, and what joins them.
#[derive(Drop)]
pub struct Topology {
    /// For each router its interfaces, of which the first has number 1.
    pub ends: Vec<Vec<FarEnd>>,
    pub links: Vec<LinkEnds>,
    // the cost of a link is 10, and a number below this more
    spread: u32,
    // memory was refused: something is left out
    lacks_memory: bool,
}

// A router has no more interfaces.
const MAX_INTERFACES: usize = 63;

impl Topology {
    /// The topology of this kind with `routers` routers, a fat tree with at most that many. A
    /// link's cost is 10, and a number below `spread` more.
    ///
    /// # Errors
    /// `AllocError` if an allocation is refused.
    pub fn new(
        alloc: Global,
        random: &mut Random,
        kind: TopologyShape,
        routers: usize,
        spread: u32,
    ) -> Result<Topology, AllocError> {
        let mut made = Topology {
            ends: Vec::new(alloc),
            links: Vec::new(alloc),
            spread,
            lacks_memory: false,
        };
        made.grow(alloc, random, kind, routers);
        if made.lacks_memory {
            Err(AllocError)
        } else {
            Ok(made)
        }
    }

    fn grow(&mut self, alloc: Global, random: &mut Random, kind: TopologyShape, routers: usize) {
        let half = half_of(routers);
        let count = match kind {
            TopologyShape::FatTree => half.wrapping_mul(half).wrapping_mul(5),
            _ => routers,
        };
        self.add_routers(alloc, count);
        match kind {
            TopologyShape::Grid => self.join_grid(random, count, count.isqrt()),
            // a row is a grid that is as wide as it has routers
            TopologyShape::Row => self.join_grid(random, count, count),
            TopologyShape::Ring => self.join_ring(random, count),
            TopologyShape::FatTree => self.join_pods(random, half),
            TopologyShape::Random => self.join_any(random, count),
        }
    }

    fn add_routers(&mut self, alloc: Global, count: usize) {
        for _place in 0..count {
            let none: Vec<FarEnd> = Vec::new(alloc);
            if self.ends.push(none).is_err() {
                self.lacks_memory = true;
            }
        }
    }

    /// What the interfaces of the router lead to, if there is one.
    pub fn ends_of(&self, place: usize) -> &[FarEnd] {
        if place < self.ends.len() {
            self.ends[place].as_slice()
        } else {
            &[]
        }
    }

    /// What the router's interface of this number leads to.
    pub fn end(&self, place: usize, interface: u16) -> Option<FarEnd> {
        let ends = self.ends_of(place);
        ends.get(usize::from(interface).wrapping_sub(1)).copied()
    }

    // Whether the router has an interface left, and none that leads to the other one.
    fn may_join(&self, place: usize, other: usize) -> bool {
        let ends = self.ends_of(place);
        place < self.ends.len() && ends.len() < MAX_INTERFACES && !lead_to(ends, other)
    }

    // The number of the router's next interface.
    fn next_interface(&self, place: usize) -> u8 {
        u8::try_from(self.ends_of(place).len().wrapping_add(1)).unwrap_or(1)
    }

    fn add_end(&mut self, place: usize, end: FarEnd) {
        if place < self.ends.len() && self.ends[place].push(end).is_err() {
            self.lacks_memory = true;
        }
    }

    fn add_link(&mut self, random: &mut Random, one: usize, other: usize) {
        let cost = u16::try_from(random.below(self.spread).wrapping_add(10)).unwrap_or(10);
        let one_interface = self.next_interface(one);
        let other_interface = self.next_interface(other);
        let mut end = FarEnd {
            place: other,
            interface: other_interface,
            link: self.links.len(),
            cost,
        };
        self.add_end(one, end);
        end.place = one;
        end.interface = one_interface;
        self.add_end(other, end);
        let link = LinkEnds {
            one,
            one_interface,
            other,
            other_interface,
        };
        if self.links.push(link).is_err() {
            self.lacks_memory = true;
        }
    }

    // Joins two routers, unless they are joined or one has no interface left.
    fn join(&mut self, random: &mut Random, one: usize, other: usize) {
        if one != other && self.may_join(one, other) && self.may_join(other, one) {
            self.add_link(random, one, other);
        }
    }

    // Joins a router to those at `count` places from `first` on.
    fn join_all(&mut self, random: &mut Random, one: usize, first: usize, count: usize) {
        for step in 0..count {
            self.join(random, one, first.wrapping_add(step));
        }
    }

    fn join_grid(&mut self, random: &mut Random, count: usize, width: usize) {
        for place in 0..count {
            let right = place.wrapping_add(1);
            if width > 0 && right % width != 0 {
                self.join(random, place, right);
            }
            self.join(random, place, place.wrapping_add(width));
        }
    }

    fn join_ring(&mut self, random: &mut Random, count: usize) {
        self.join_grid(random, count, count);
        self.join(random, count.wrapping_sub(1), 0);
    }

    fn join_any(&mut self, random: &mut Random, count: usize) {
        for place in 1..count {
            let other = random.place(place);
            self.join(random, place, other);
        }
        for _link in 0..count {
            let one = random.place(count);
            let other = random.place(count);
            self.join(random, one, other);
        }
    }

    // First the switches at the core, half times half; then pods of twice half, half of them upper
    // ones. An upper one is joined to the lower ones of its pod, and to its switches at the core.
    fn join_pods(&mut self, random: &mut Random, half: usize) {
        let pods = half.wrapping_mul(2);
        for pod in 0..pods {
            let base = half.wrapping_mul(half).wrapping_add(pod.wrapping_mul(pods));
            for upper in 0..half {
                let place = base.wrapping_add(upper);
                self.join_all(random, place, base.wrapping_add(half), half);
                self.join_all(random, place, upper.wrapping_mul(half), half);
            }
        }
    }
}

fn lead_to(ends: &[FarEnd], place: usize) -> bool {
    for end in ends {
        if end.place == place {
            return true;
        }
    }
    false
}

// Half of the ports of a switch in the greatest fat tree of at most this many, and at least 1.
fn half_of(routers: usize) -> usize {
    (routers / 5).isqrt().max(1)
}
