//! What is to be played.
use crate::one_router::InterfaceTimes;
use crate::random::Faults;
use crate::topology::TopologyShape;

/// What happens after the start.
#[derive(Clone, Copy, PartialEq, Eq)]
pub enum Scenario {
    /// Nothing.
    Start,
    /// A link in the middle goes down, and both ends are told.
    Link,
    /// A link in the middle goes down, and neither end is told.
    Silent,
    /// A router in the middle begins anew, and announces again what it announced.
    Restart,
    /// The link goes down and up again every ten seconds, for a minute.
    Flap,
    /// All links between the lower and the upper half of the places go down, and up again after a
    /// minute.
    Partition,
    /// All destinations are announced at once.
    Announce,
    /// All destinations are withdrawn at once.
    Withdraw,
    /// Two minutes of all of this by chance.
    Storm,
}

impl Scenario {
    /// The last second in which something is done.
    pub fn last_act(self) -> u64 {
        match self {
            Scenario::Flap => 60,
            Scenario::Partition => 61,
            Scenario::Storm => 141,
            _ => 1,
        }
    }
}

/// A network, and what happens to it.
#[derive(Clone, Copy)]
pub struct ScenarioPlan {
    pub topology: TopologyShape,
    pub routers: u32,
    /// How many external destinations there are, and how many routers announce them.
    pub externals: u32,
    pub announcers: u32,
    /// The cost of a link is 10, and a number below this more.
    pub spread: u32,
    pub times: InterfaceTimes,
    pub faults: Faults,
    pub scenario: Scenario,
    pub seed: u64,
    /// How long the start may take, and as long the change.
    pub seconds: u64,
    /// How long nothing may change until a phase is over.
    pub stay: u64,
    /// How long nothing is lost, late or repeated at the end.
    pub calm: u64,
    /// Whether tables are read in each second, and not only if all databases are the same.
    pub watches: bool,
}
