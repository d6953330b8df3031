//! What is wrong with the tables of all routers together.
use crate::counts::add;

/// How many pairs of a router and a prefix have this fault.
#[derive(Clone, Copy)]
pub struct TableFaults {
    /// A walk over next hops comes back to the router.
    pub looping: u64,
    /// A next hop leads over a link that is down, or to a router that has no route.
    pub nowhere: u64,
    /// The router has no route, though the prefix is there.
    pub missing: u64,
    /// The cost isn't that of a next hop's route and the link to it.
    pub other_cost: u64,
    /// The router has a route, though nobody announces the prefix.
    pub stray: u64,
}

impl TableFaults {
    /// All tables are those of the rules.
    pub const NOTHING: TableFaults = TableFaults {
        looping: 0,
        nowhere: 0,
        missing: 0,
        other_cost: 0,
        stray: 0,
    };

    /// Whether there is no fault.
    pub fn is_nothing(&self) -> bool {
        (self.looping | self.nowhere | self.missing | self.other_cost | self.stray) == 0
    }

    /// Adds the counts of the other ones.
    pub fn add(&mut self, more: &TableFaults) {
        add(&mut self.looping, more.looping);
        add(&mut self.nowhere, more.nowhere);
        add(&mut self.missing, more.missing);
        add(&mut self.other_cost, more.other_cost);
        add(&mut self.stray, more.stray);
    }
}
