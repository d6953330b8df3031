//! Tables of candidates and answers.
use keyed_map::{Pages, RouteAnswers};
use routes::{compare, is_stale, table};
use std::alloc::{AllocError, Global};
use std::process::Abort;
use std::test::Fail;
use words::{Address, Hops, Prefix, Route, RouteKind, Sequence};

// An answer: the index of the candidate that it is for, the answer, and by how much the cost
// differed.
type Answer = (usize, u64, u32);

// A name; how many candidates there are; the answers; which of the candidates are in the table;
// whether that is stale.
type Case = (
    &'static str,
    usize,
    &'static [Answer],
    &'static [usize],
    bool,
);

const CASES: &[Case] = &[
    ("without candidates", 0, &[], &[], false),
    ("an answer of 0", 1, &[(0, 0, 0)], &[0], false),
    ("a veto", 1, &[(0, 1, 0)], &[], false),
    ("no answer", 1, &[], &[], true),
    ("0 before 1", 1, &[(0, 0, 0), (0, 1, 0)], &[0], false),
    ("1 before 0", 1, &[(0, 1, 0), (0, 0, 0)], &[0], false),
    ("an answer for another cost", 1, &[(0, 0, 1)], &[], true),
    (
        "all",
        3,
        &[(0, 0, 0), (1, 0, 0), (2, 0, 0)],
        &[0, 1, 2],
        false,
    ),
    (
        "in another order",
        3,
        &[(2, 0, 0), (1, 0, 0), (0, 0, 0)],
        &[0, 1, 2],
        false,
    ),
    (
        "without the least",
        3,
        &[(2, 0, 0), (1, 0, 0)],
        &[1, 2],
        true,
    ),
];

fn route(bits: u32, kind: RouteKind, cost: u32) -> Option<Route> {
    let prefix = Prefix::new(Address::new(bits), 24)?;
    Some(Route {
        prefix,
        kind,
        cost,
        distance: 0,
        hops: Hops::only(1),
        tag: 0,
    })
}

// What an area of two routers offers the first.
fn offered() -> Option<[Route; 3]> {
    Some([
        route(0x0a00_0100, RouteKind::Intra, 10)?,
        route(0x0a00_0200, RouteKind::Intra, 15)?,
        route(0xcb00_7100, RouteKind::External2, 20)?,
    ])
}

fn answered(
    alloc: Global,
    routes: &[Route],
    answers: &[Answer],
) -> Result<Vec<(Route, u64)>, AllocError> {
    let mut made = Vec::new(alloc);
    for answer in answers {
        let (at, word, more) = *answer;
        if let Some(route) = routes.get(at) {
            let cost = route.cost.wrapping_add(more);
            made.push((Route { cost, ..*route }, word))?;
        }
    }
    Ok(made)
}

// Whether the table has exactly these of the candidates.
fn is_table(table: &[Route], routes: &[Route], places: &[usize]) -> bool {
    if table.len() != places.len() {
        return false;
    }
    let mut is = true;
    for at in 0..table.len() {
        is &= routes.get(places[at]) == Some(&table[at]);
    }
    is
}

// Whether the case has the expected result for these candidates.
fn comes_out(alloc: Global, routes: &[Route], case: &Case) -> Result<bool, AllocError> {
    let (_name, _count, answers, places, wanted_stale) = *case;
    let answers = answered(alloc, routes, answers)?;
    let stale = is_stale(alloc, routes, &answers)?;
    let table = table(alloc, routes, &answers)?;
    Ok(stale == wanted_stale && is_table(&table, routes, places))
}

#[test]
fn answers_let_candidates_in(rt: HostRuntime) -> Result<(), Fail> {
    let offered = offered().ok_or("lengths of 24")?;
    let routes: &[Route] = &offered;
    for case in CASES {
        let of_case = routes.get(..case.1).ok_or("at most three")?;
        assert!(rt; comes_out(rt.alloc(), of_case, case)?, "{}", case.0);
    }
    Ok(())
}

// A name; which of the offered routes are candidates; which were answered; whether some
// candidate lacks an answer; whether each answered route is known to be a candidate.
type PagedCase = (&'static str, &'static [usize], &'static [usize], bool, bool);

const PAGED_CASES: &[PagedCase] = &[
    ("nothing", &[], &[], false, true),
    ("the same", &[0, 1, 2], &[0, 1, 2], false, true),
    ("a candidate that came", &[0, 1, 2], &[0, 2], true, false),
    ("one that came last", &[0, 1, 2], &[0, 1], true, false),
    ("one that left", &[0, 2], &[0, 1, 2], false, false),
    ("the last one left", &[0, 1], &[0, 1, 2], false, false),
    (
        "one that left, and one that came",
        &[0, 2],
        &[0, 1],
        true,
        false,
    ),
];

fn chosen(alloc: Global, routes: &[Route], places: &[usize]) -> Result<Pages<Route>, AllocError> {
    let mut made = Vec::new(alloc);
    for place in places {
        if let Some(route) = routes.get(*place) {
            made.push(*route)?;
        }
    }
    Pages::from_slice(alloc, &made)
}

// The same, each answered with 1.
fn kept_out(alloc: Global, routes: &[Route], places: &[usize]) -> Result<RouteAnswers, AllocError> {
    let mut made = Vec::new(alloc);
    for place in places {
        if let Some(route) = routes.get(*place) {
            made.push((*route, 1))?;
        }
    }
    Ok(RouteAnswers::each(Sequence::from_vec(made)))
}

#[test]
fn candidates_are_compared_with_answers(rt: HostRuntime) -> Result<(), Fail> {
    let alloc = rt.alloc();
    let offered = offered().ok_or("lengths of 24")?;
    for case in PAGED_CASES {
        let (name, candidates, answered, lacks, only_candidates) = *case;
        let candidates = chosen(alloc, &offered, candidates)?;
        let answers = RouteAnswers::all_in(chosen(alloc, &offered, answered)?);
        let found = compare(&candidates, &answers)?;
        assert!(rt;
            found.lacks == lacks && found.only_candidates == only_candidates,
            "{name}"
        );
        let each = kept_out(alloc, &offered, answered)?;
        let found = compare(&candidates, &each)?;
        assert!(rt;
            found.lacks == lacks && found.only_candidates == only_candidates,
            "{name}, one by one"
        );
    }
    Ok(())
}
