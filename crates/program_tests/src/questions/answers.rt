//! The answers to questions.
use crate::questions::trial::{HookTrial, MOMENT, SEVEN, Subjects, samples};
use machine::Hook;
use std::alloc::Global;
use std::process::Abort;
use std::sync::Wait;
use words::Second;

// A Hello of 44 bytes.
const HELLO: &[u8] = &[
    2, 1, 0, 0x2c, 2, 2, 2, 2, 0, 0, 0, 0, 0xf8, 0x9a, 0, 0, 0, 0, 0, 0, 0, 0, 0, 0, 0xff, 0xff,
    0xff, 0, 0, 10, 2, 1, 0, 0, 0, 40, 0, 0, 0, 0, 0, 0, 0, 0,
];

// A step of a trial, and its expected answer.
#[derive(Clone, Copy)]
enum Step<'a> {
    Attach(&'a str),
    Detach(Hook),
    Learn,
    // The word on this packet.
    Count(&'a [u8], Option<u64>),
    // The word and the tag.
    Tag(Option<(u64, u32)>),
    Price(Option<u64>),
    Veto(Option<u64>),
    // The words on two routes, by one reading.
    Vetoes(Option<(u64, u64)>),
    // The words of `tag` and `price`, if neither hook has a program.
    Configured(Option<(u64, u64)>),
    // Whether `veto` has no program.
    Vacant(Option<bool>),
    // How many of two routes are accepted, if `veto` has no program.
    LetIn(Option<usize>),
}

// Whether the step has its answer.
fn takes<R: Wait + Drop>(
    trial: &mut HookTrial<R>,
    alloc: Global,
    of: &Subjects,
    step: Step<'_>,
) -> bool {
    match step {
        Step::Attach(text) => trial.attach(alloc, text),
        Step::Detach(hook) => trial.detach(hook),
        Step::Learn => {
            trial.learn();
            true
        }
        Step::Count(packet, word) => trial.count(packet) == word,
        Step::Tag(words) => trial.tag(of) == words,
        Step::Price(word) => trial.price(of) == word,
        Step::Veto(word) => trial.veto(of) == word,
        Step::Vetoes(words) => trial.vetoes(alloc, of) == words,
        Step::Configured(words) => trial.configured(of) == words,
        Step::Vacant(is) => trial.asker.is_veto_vacant() == is,
        Step::LetIn(routes) => trial.let_in(alloc, of) == routes,
    }
}

// Whether all steps have their answers.
fn take<R: Wait + Drop>(
    trial: &mut HookTrial<R>,
    alloc: Global,
    of: &Subjects,
    steps: &[Step<'_>],
) -> bool {
    for step in steps {
        if !takes(trial, alloc, of, *step) {
            return false;
        }
    }
    true
}

// Whether the asker gives no answer after its loader is dropped.
fn is_silent<R: Wait + Drop>(trial: HookTrial<R>, of: &Subjects) -> bool {
    let HookTrial {
        loader,
        asker,
        shared,
        seat,
    } = trial;
    let (mut asker, mut seat) = (asker, seat);
    drop(loader);
    asker
        .price(&of.external, Second::new(MOMENT), &[], &shared, &mut seat)
        .is_none()
}

// Plays the steps in a new trial, and drops its loader at the end.
fn plays<R: Wait + Drop>(alloc: Global, rt: R, steps: &[Step<'_>]) -> bool {
    let Some(of) = samples() else {
        return false;
    };
    let Some(mut trial) = HookTrial::new(alloc, rt) else {
        return false;
    };
    let is_answered = take(&mut trial, alloc, &of, steps);
    let is_silent = is_silent(trial, &of);
    is_answered && is_silent
}

const DEFAULTS: &[Step<'_>] = &[
    Step::Tag(Some((0x0506_0708, 0x0506_0708))),
    Step::Count(HELLO, Some(0)),
    Step::Price(Some(20)),
    Step::Veto(Some(0)),
];

const CONFIGURED: &[Step<'_>] = &[
    Step::Configured(Some((0x0506_0708, 20))),
    Step::LetIn(Some(2)),
    Step::Attach(SEVEN),
    Step::Configured(None),
    Step::LetIn(Some(2)),
    Step::Attach("hook veto\nrank 0\nr0 = 3\nexit"),
    Step::LetIn(None),
    Step::Vacant(Some(false)),
    Step::Detach(Hook::Price),
    Step::Attach("hook tag\nrank 0\nr0 = 3\nexit"),
    Step::Configured(None),
    Step::Detach(Hook::Tag),
    Step::Detach(Hook::Veto),
    Step::Configured(Some((0x0506_0708, 20))),
    Step::LetIn(Some(2)),
    Step::Vacant(Some(true)),
];

const DETACHED: &[Step<'_>] = &[
    Step::Attach(SEVEN),
    Step::Price(Some(7)),
    Step::Detach(Hook::Price),
    Step::Learn,
    Step::Price(Some(20)),
];

const REPLACED: &[Step<'_>] = &[
    Step::Attach(SEVEN),
    Step::Attach("hook veto\nrank 0\nr0 = 3\nexit"),
    Step::Attach("hook price\nrank 0\nr0 = 9\nexit"),
    Step::Price(Some(9)),
    Step::Veto(Some(3)),
    Step::Count(HELLO, Some(0)),
    Step::Detach(Hook::Count),
    Step::Learn,
    Step::Price(Some(9)),
];

const COSTS: &[Step<'_>] = &[
    Step::Attach("hook tag\nrank 0\nr1 = wide 3221225984\nr2 = 24\ncall 4\nexit"),
    Step::Tag(Some((20, 20))),
    Step::Attach("hook tag\nrank 0\nr1 = wide 3221225984\nr2 = 25\ncall 4\nexit"),
    Step::Tag(Some((4_294_967_296, 0))),
];

const BYTES: &[Step<'_>] = &[
    Step::Attach("hook count\nrank 0\nr1 = 1\ncall 3\nexit"),
    Step::Count(HELLO, Some(1)),
    // the first byte alone
    Step::Count(&[2], Some(256)),
    Step::Attach("hook count\nrank 0\nr1 = 44\ncall 3\nexit"),
    Step::Count(HELLO, Some(256)),
];

const COST_OF_THE_ROUTE: &[Step<'_>] = &[
    Step::Attach("hook veto\nrank 0\nr0 = *u32 r1 12\nexit"),
    Step::Veto(Some(20)),
    Step::Vetoes(Some((20, 21))),
];

// How many questions a seat had, in a number of its own.
const COUNTED: &[Step<'_>] = &[
    Step::Vetoes(Some((0, 0))),
    Step::Attach("hook veto\nrank 0\nr6 = map 1 8\nr0 = *u64 r6 0\nr0 += 1\n*u64 r6 0 = r0\nexit"),
    Step::Vetoes(Some((1, 2))),
    Step::Veto(Some(3)),
    Step::Detach(Hook::Veto),
    Step::Vetoes(Some((0, 0))),
];

// The second run of one reading writes the stack that the first one wrote.
const ONE_STACK: &[Step<'_>] = &[
    Step::Attach("hook veto\nrank 0\nr0 = *u32 r1 12\n*u64 r10 -8 = r0\nr0 = *u64 r10 -8\nexit"),
    Step::Vetoes(Some((20, 21))),
];

const CASES: &[(&str, &[Step<'_>])] = &[
    ("without a program the default is answered", DEFAULTS),
    (
        "the configured is answered at once while no program stands",
        CONFIGURED,
    ),
    ("a program answers until it is detached", DETACHED),
    (
        "a program takes the place of another at its hook alone",
        REPLACED,
    ),
    ("a program finds the cost of a row", COSTS),
    ("a program reads a byte of the packet", BYTES),
    (
        "a program of veto reads the cost of its route",
        COST_OF_THE_ROUTE,
    ),
    ("each route is asked about in its turn", COUNTED),
    ("a run finds on the stack what it has stored", ONE_STACK),
];

// An allocation may be refused once.
#[test]
fn questions_are_answered(rt: HostRuntime) {
    for case in CASES {
        let (name, steps) = *case;
        assert!(rt;
            plays(rt.alloc(), &rt, steps) || plays(rt.alloc(), &rt, steps),
            "{name}"
        );
    }
}
