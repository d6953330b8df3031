//! What is under way over the links, and what becomes of it.
use crate::counts::{Counts, add};
use crate::random::{Faults, Random};
use crate::topology::{FarEnd, Topology};
use flood::{Event, Out};
use routes::LinkEnds;
use std::alloc::Global;
use std::mem::replace;

/// An event that is under way to a router.
#[derive(Drop)]
pub struct Coming {
    pub place: usize,
    pub link: usize,
    pub event: Event,
    // the moment from which on it comes
    due: u64,
}

/// The links, and what is under way over them. If memory is refused for something, that is left
/// out.
#[derive(Drop)]
pub struct Wires<'a> {
    pub topology: &'a Topology,
    pub moment: u64,
    pub counts: Counts,
    /// How many packets are lost, late and repeated.
    pub faults: Faults,
    pub random: Random,
    /// Memory was refused: something isn't under way that should be.
    pub lacks_memory: bool,
    alloc: Global,
    is_up: Vec<bool>,
    next: Vec<Coming>,
    late: Vec<Coming>,
}

impl<'a> Wires<'a> {
    /// Those of the topology, which are up, with the numbers of this seed. Nothing is lost, late
    /// or repeated.
    pub fn new(alloc: Global, topology: &'a Topology, seed: u64) -> Wires<'a> {
        let mut is_up = Vec::new(alloc);
        let lacks_memory = is_up.resize(topology.links.len(), true).is_err();
        Wires {
            topology,
            moment: 0,
            counts: Counts::ZERO,
            faults: Faults::NONE,
            random: Random::new(seed),
            lacks_memory,
            alloc,
            is_up,
            next: Vec::new(alloc),
            late: Vec::new(alloc),
        }
    }

    /// Whether the link is up.
    pub fn is_up(&self, link: usize) -> bool {
        link < self.is_up.len() && self.is_up[link]
    }

    /// The link goes up or down.
    pub fn set_up(&mut self, link: usize, up: bool) {
        if link < self.is_up.len() {
            self.is_up[link] = up;
        }
    }

    /// Adds the links that are up. Returns whether memory was enough.
    pub fn add_links_up(&self, up: &mut Vec<LinkEnds>) -> bool {
        let links = self.topology.links.as_slice();
        let mut fits = true;
        for number in 0..links.len() {
            if self.is_up(number) {
                fits = up.push(links[number]).is_ok() && fits;
            }
        }
        fits
    }

    // The event is under way. If it is due, it comes with the next round.
    fn put(&mut self, coming: Coming) {
        let list = if coming.due <= self.moment {
            &mut self.next
        } else {
            &mut self.late
        };
        if list.push(coming).is_err() {
            self.lacks_memory = true;
        }
    }

    // The moment at which an event comes that is sent now: at once or up to three seconds later.
    fn due(&mut self) -> u64 {
        if self.random.happens(self.faults.late) {
            let wait = self.random.below(3).saturating_add(1);
            self.moment.saturating_add(u64::from(wait))
        } else {
            self.moment
        }
    }

    fn goes(&mut self, end: &FarEnd, event: Event) {
        let due = self.due();
        self.put(Coming {
            place: end.place,
            link: end.link,
            event,
            due,
        });
    }

    fn goes_again(&mut self, end: &FarEnd, event: &Event) {
        match event.copy() {
            Ok(copy) => self.goes(end, copy),
            Err(_) => self.lacks_memory = true,
        }
    }

    // What goes out to an end, and isn't lost.
    fn goes_out(&mut self, end: &FarEnd, event: Event) {
        if self.random.happens(self.faults.twice) {
            self.goes_again(end, &event);
        }
        self.goes(end, event);
    }

    fn is_lost(&mut self) -> bool {
        let lost = self.random.happens(self.faults.loss);
        add(&mut self.counts.lost, u64::from(lost));
        lost
    }

    // What the router sends at an interface, if that leads somewhere.
    fn sends(&mut self, place: usize, out: Out) {
        if let Some(end) = self.topology.end(place, out.interface) {
            if !self.is_lost() {
                self.goes_out(&end, Event::Packet(u16::from(end.interface), out.bytes));
            }
        }
    }

    /// The router at the place sends these packets. Returns whether one is a Link State Update.
    pub fn send_all(&mut self, place: usize, outs: Vec<Out>) -> bool {
        let mut updates = false;
        for out in outs {
            updates = self.counts.count_sent(out.bytes.as_slice()) || updates;
            self.sends(place, out);
        }
        updates
    }

    /// A second goes by: what is due then comes with the next round.
    pub fn wake(&mut self) {
        self.moment = self.moment.saturating_add(1);
        for coming in replace(&mut self.late, Vec::new(self.alloc)) {
            self.put(coming);
        }
    }

    /// All that comes with this round.
    pub fn take(&mut self) -> Vec<Coming> {
        self.counts.count_under_way(self.next.len());
        replace(&mut self.next, Vec::new(self.alloc))
    }
}
