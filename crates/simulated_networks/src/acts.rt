//! Single acts, and those that numbers choose.
use crate::random::{Faults, Random};

/// What is done with a network. Routers and destinations go by their places and numbers.
#[derive(Clone, Copy)]
pub enum HistoryStep {
    /// The next packet that is under way comes; it is lost; it comes twice; or it comes after the
    /// one behind it.
    Comes,
    Lost,
    Twice,
    Exchanged,
    /// A packet comes that was sent before this many others, early or once more.
    Again(u32),
    /// A Tick at a router.
    Tick(u32),
    /// A second passes, with a Tick at each router.
    Passes,
    /// A router announces a destination, or withdraws it.
    Announce(u32, u32),
    Withdraw(u32, u32),
    /// A router's interface of this number goes down.
    LinkDown(u32, u32),
    /// A router begins anew.
    Restart(u32),
    /// This many seconds pass, and in each all comes.
    Calm(u32),
}

impl HistoryStep {
    /// A simpler act that may do as well, if there is one.
    pub fn simpler(self) -> Option<HistoryStep> {
        match self {
            HistoryStep::Twice
            | HistoryStep::Exchanged
            | HistoryStep::Lost
            | HistoryStep::Again(_) => Some(HistoryStep::Comes),
            HistoryStep::Tick(_) => Some(HistoryStep::Passes),
            HistoryStep::Comes | HistoryStep::Passes => Some(HistoryStep::Calm(1)),
            HistoryStep::Calm(seconds) if seconds > 1 => Some(HistoryStep::Calm(
                seconds.saturating_sub(1),
            )),
            _ => None,
        }
    }
}

// If the act isn't asked for, a packet comes.
fn if_asked(asked: bool, act: HistoryStep) -> HistoryStep {
    if asked { act } else { HistoryStep::Comes }
}

fn chosen_destination(random: &mut Random, place: u32, externals: u32) -> HistoryStep {
    let number = random.below(externals);
    if random.below(2) == 0 {
        HistoryStep::Announce(place, number)
    } else {
        HistoryStep::Withdraw(place, number)
    }
}

fn chosen_rarely(random: &mut Random, place: u32, faults: &Faults, restarts: bool) -> HistoryStep {
    match random.below(8) {
        0 => HistoryStep::LinkDown(place, random.below(2).saturating_add(1)),
        1 => if_asked(
            restarts && random.below(4) == 0,
            HistoryStep::Restart(place),
        ),
        2 => if_asked(faults.late > 0, HistoryStep::Exchanged),
        _ => HistoryStep::Comes,
    }
}

/// The next act among these numbers of routers and destinations. Packets are lost, late and
/// repeated, and routers begin anew, if that is asked for.
pub fn chosen(
    random: &mut Random,
    routers: u32,
    externals: u32,
    faults: &Faults,
    restarts: bool,
) -> HistoryStep {
    let place = random.below(routers);
    match random.below(16) {
        0 => if_asked(faults.loss > 0, HistoryStep::Lost),
        1 => if_asked(faults.late > 0, HistoryStep::Again(random.below(32))),
        2 => if_asked(faults.twice > 0, HistoryStep::Twice),
        3 => HistoryStep::Tick(place),
        4 | 5 => HistoryStep::Passes,
        6 => chosen_destination(random, place, externals),
        7 => chosen_rarely(random, place, faults, restarts),
        _ => HistoryStep::Comes,
    }
}
