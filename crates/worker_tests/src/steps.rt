//! What is played at a router, row by row: turns one after the other with what is seen after each,
//! turns by a clock, turns beside others.
use crate::samples::{COUNTING, VETOING};
use crate::scenes::{End, Scene, end_of};
use crate::serving::Heard;
use crate::stage::{Deed, Seen, StageStep};
use event_rules::CoreError;
use isa::Hook;
use packet::PacketFault;
use words::ExternalType;
use worker::{BookError, TurnError};

// What is seen at the router after the first Tick: its two own routes are in the table.
const STARTED: Seen = Seen {
    answer: Ok(false),
    neighbors: (false, false),
    wanted: false,
    rows: 2,
    counted: 0,
};

const FIRST: Seen = Seen {
    answer: Ok(true),
    ..STARTED
};

const HEARD: Seen = Seen {
    neighbors: (true, true),
    ..STARTED
};

const WITHOUT_ROWS: Seen = Seen { rows: 0, ..STARTED };

const FOLLOWED: &[StageStep] = &[
    (1, Deed::Tick, FIRST),
    (2, Deed::Tick, STARTED),
    (2, Deed::Attach(VETOING), STARTED),
    (2, Deed::Refresh, WITHOUT_ROWS),
    (3, Deed::Tick, WITHOUT_ROWS),
    (3, Deed::Detach(Hook::Veto), WITHOUT_ROWS),
    (3, Deed::Refresh, STARTED),
];

// What was asked before the programs were changed isn't taken; the next turn tries again.
const CHANGED: &[StageStep] = &[
    (1, Deed::TickAtChange, WITHOUT_ROWS),
    (2, Deed::Tick, FIRST),
    (3, Deed::TickAtChange, STARTED),
];

const ONE_HEARD: Seen = Seen {
    answer: Ok(true),
    neighbors: (true, false),
    ..STARTED
};

const ANNOUNCED: Seen = Seen {
    wanted: true,
    ..HEARD
};

const FIRST_IS_DOWN: Seen = Seen {
    neighbors: (false, true),
    ..STARTED
};

const BROUGHT: &[StageStep] = &[
    (5, Deed::Hear(1, 0), ONE_HEARD),
    (5, Deed::Hear(2, 0), HEARD),
    (6, Deed::Add(ExternalType::Type2), ANNOUNCED),
    (7, Deed::Withdraw, HEARD),
    (7, Deed::Withdraw, HEARD),
    (8, Deed::Down(1), FIRST_IS_DOWN),
];

const TOO_EARLY: Seen = Seen {
    answer: Err(TurnError::Book(BookError::Core(CoreError::ClockBack))),
    ..STARTED
};

const NO_INTERFACE: Seen = Seen {
    answer: Err(TurnError::Book(BookError::Core(CoreError::NoInterface))),
    ..STARTED
};

// A datagram of more than 8,192 bytes, or with a byte behind it.
const WRONG_LENGTH: Seen = Seen {
    answer: Err(TurnError::Book(BookError::Core(CoreError::BadPacket(PacketFault::Length)))),
    ..STARTED
};

const REFUSED: &[StageStep] = &[
    (5, Deed::Tick, FIRST),
    (4, Deed::Tick, TOO_EARLY),
    (4, Deed::Hear(1, 0), TOO_EARLY),
    (5, Deed::Hear(3, 0), NO_INTERFACE),
    (5, Deed::Down(3), NO_INTERFACE),
    (5, Deed::Hear(1, 8_149), WRONG_LENGTH),
];

const THREE_COUNTED: Seen = Seen {
    counted: 3,
    ..HEARD
};

const SIX_COUNTED: Seen = Seen {
    counted: 6,
    ..HEARD
};

const REFUSED_AND_COUNTED: Seen = Seen {
    neighbors: (true, true),
    counted: 6,
    ..WRONG_LENGTH
};

// The program adds 3 at counter 5 for each datagram of interface 1, a refused one too, and for
// nothing else: those of interface 2 count elsewhere.
const COUNTED: &[StageStep] = &[
    (5, Deed::Hear(1, 0), ONE_HEARD),
    (5, Deed::Hear(2, 0), HEARD),
    (5, Deed::Attach(COUNTING), HEARD),
    (5, Deed::Tick, HEARD),
    (5, Deed::Hear(1, 0), THREE_COUNTED),
    (5, Deed::Hear(2, 0), THREE_COUNTED),
    (5, Deed::Hear(1, 1), REFUSED_AND_COUNTED),
    (6, Deed::Tick, SIX_COUNTED),
    (6, Deed::Refresh, SIX_COUNTED),
];

// A name, what is played, its status, and how many events are taken, all of which stand in the
// journal. Nothing is sent, and all steps are as told.
type Row = (&'static str, Scene<'static>, u8, usize);

const SCENES: &[Row] = &[
    (
        "a refresh follows until nothing is stale",
        Scene::Steps(FOLLOWED),
        0,
        6,
    ),
    (
        "a refresh of earlier programs is not taken",
        Scene::Steps(CHANGED),
        0,
        4,
    ),
    (
        "the book takes what the ports bring",
        Scene::Steps(BROUGHT),
        0,
        7,
    ),
    (
        "a refused turn changes nothing",
        Scene::Steps(REFUSED),
        0,
        2,
    ),
    ("each datagram is counted once", Scene::Steps(COUNTED), 0, 8),
    // A try at moment 6 is taken. After the first try come three more, and no fourth.
    // Before it come a Tick and the refresh that follows it.
    (
        "a turn is tried three times again",
        Scene::Tries(Deed::Tick, &[5, 6, 6, 6, 6], 6),
        0,
        3,
    ),
    (
        "a turn is tried three times again",
        Scene::Tries(Deed::Tick, &[5, 6, 7, 8, 9], 7),
        0,
        3,
    ),
    (
        "a turn is tried three times again",
        Scene::Tries(Deed::Tick, &[5, 5, 5, 6, 6], 6),
        0,
        3,
    ),
    (
        "a turn is tried three times again",
        Scene::Tries(Deed::Tick, &[5, 5, 5, 5, 6], 6),
        4,
        2,
    ),
    (
        "a turn is tried three times again",
        Scene::Tries(Deed::Tick, &[5, 5, 5, 5], 5),
        4,
        2,
    ),
    // A turn that is taken is tried once, and so is one that is refused since there is no interface
    // 3, once the clock isn't behind the router's.
    (
        "a turn is tried again only for its moment",
        Scene::Tries(Deed::Tick, &[6, 7, 8, 9, 10], 7),
        0,
        3,
    ),
    (
        "a turn is tried again only for its moment",
        Scene::Tries(Deed::Down(3), &[6, 7, 8, 9, 10], 7),
        2,
        2,
    ),
    (
        "a turn is tried again only for its moment",
        Scene::Tries(Deed::Down(3), &[5, 6, 7, 8, 9], 7),
        2,
        2,
    ),
    // a Tick at each moment that differs from the last one's, and the refresh that follows the
    // first; two sends of Hellos in the first round, and each round a receive, after the last of
    // which the script has no more
    (
        "a worker ticks where the second has changed",
        Scene::Serves(Heard::Nothing(2), &[5]),
        0,
        2,
    ),
    (
        "a worker ticks where the second has changed",
        Scene::Serves(Heard::Nothing(4), &[5, 5, 5]),
        0,
        2,
    ),
    (
        "a worker ticks where the second has changed",
        Scene::Serves(Heard::Nothing(6), &[5, 5, 6, 7, 7]),
        0,
        4,
    ),
    (
        "a worker ticks where the second has changed",
        Scene::Serves(Heard::Nothing(5), &[5, 6, 7, 8]),
        0,
        5,
    ),
    // the first Tick is followed by a refresh, and the Hello comes third
    (
        "a worker is answered while another is held",
        Scene::Held(Deed::Hear(1, 0), 6),
        0,
        3,
    ),
    // 996 Ticks, and the refresh that follows the first: the Hello's moment has passed
    (
        "a turn whose moment has passed is refused",
        Scene::Held(Deed::Hear(1, 0), 1_001),
        4,
        997,
    ),
    // the same Ticks, and then the refresh that was held, at the last Tick's moment
    (
        "a refresh whose moment has passed is taken",
        Scene::Held(Deed::Refresh, 1_001),
        0,
        998,
    ),
    // the Hello, and the refresh that follows
    ("a turn passes once after it asked", Scene::Watched, 0, 2),
    // The operator's own refresh is refused, so the router is stale after the Tick. No refresh
    // follows it, since the programs were changed after the turn began: what it would install may
    // be answers of earlier programs.
    (
        "no refresh follows a turn during which an operator detaches",
        Scene::Operated,
        0,
        1,
    ),
    // no table is asked for if no program stands at `tag` and `price`; the book isn't looked at
    (
        "an announcement without programs asks for no table",
        Scene::Tableless,
        0,
        0,
    ),
];

// The end of the scene of a row.
fn end_at(scene: Scene<'_>, status: u8, events: usize) -> End {
    match scene {
        Scene::Steps(steps) => (status, steps.len(), events, events as u64),
        _ => (status, 0, events, events as u64),
    }
}

#[test]
fn scenes_end_as_told(rt: HostRuntime) {
    for row in SCENES {
        let (name, scene, status, events) = *row;
        let wanted = end_at(scene, status, events);
        let end = end_of(&rt, rt.alloc(), scene, wanted);
        assert!(rt; end == wanted, "{name}: {end:?}");
    }
}

// A name, what is played, and how it ends: transports that fail at each call, and many Ticks.
fn long_row(number: usize) -> (&'static str, Scene<'static>, End) {
    if number > 40 {
        // the first Tick is followed by a refresh; the journal of a router with one LSA starts anew
        // after each 1,026 events
        let name = "no turn is refused for its journal";
        return (name, Scene::Ticks(65_537), (0, 0, 900, 65_538));
    }
    // The first round has a Tick, the refresh that follows it, and two Hellos that are sent; then
    // each call receives a Hello. A fault while sending leaves the two events, and sends no later
    // packet.
    let (events, status) = (number.max(2), if number < 40 { 3 } else { 0 });
    let end = (status, number.min(2), events, events as u64);
    let scene = Scene::Serves(Heard::Hellos(number), &[]);
    ("a transport that fails", scene, end)
}

#[test]
fn a_worker_ends_at_a_fault_and_keeps_the_events_before(rt: HostRuntime) {
    for number in 0..42usize {
        let (name, scene, wanted) = long_row(number);
        let end = end_of(&rt, rt.alloc(), scene, wanted);
        assert!(rt; end == wanted, "{name}, {number}: {end:?}");
    }
}
