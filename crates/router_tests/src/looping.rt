//! To which routers a packet comes back, over hops of a few routers written by hand.
ghost use Rattle.std.specs.Prelude.{IfOk, length};
ghost use Rattle.std.specs.List.{All};
ghost use Rattle.routes.specs.Loops.{IsAmong};

use routes::{Hop, count_loops, loops};
use std::alloc::{AllocError, Global};
use std::process::Abort;
use std::test::Fail;

struct Case {
    name: &'static str,
    costs: &'static [u32],
    hops: &'static [(usize, usize)],
    // which routers are on a loop, and how many
    marks: &'static [bool],
    count: usize,
}

const CASES: &[Case] = &[
    Case {
        name: "a row to the first router",
        costs: &[0, 10, 20],
        hops: &[(1, 0), (2, 1)],
        marks: &[false, false, false],
        count: 0,
    },
    Case {
        name: "two hand packets to each other",
        costs: &[10, 10],
        hops: &[(0, 1), (1, 0)],
        marks: &[true, true],
        count: 2,
    },
    Case {
        name: "the last one leads into their loop, and lies on none",
        costs: &[10, 20, 30],
        hops: &[(0, 1), (1, 0), (2, 1)],
        marks: &[true, true, false],
        count: 2,
    },
    Case {
        name: "a way out of a loop doesn't end it",
        costs: &[0, 10, 20],
        hops: &[(1, 0), (1, 2), (2, 1)],
        marks: &[false, true, true],
        count: 2,
    },
    Case {
        name: "the one between two loops lies on none",
        costs: &[50, 40, 30, 20, 10],
        hops: &[(0, 1), (1, 0), (1, 2), (2, 3), (3, 4), (4, 3)],
        marks: &[true, true, false, true, true],
        count: 4,
    },
    Case {
        name: "two loops that meet",
        costs: &[7, 7, 7, 7, 7],
        hops: &[(0, 1), (1, 2), (2, 0), (2, 3), (3, 4), (4, 2)],
        marks: &[true, true, true, true, true],
        count: 5,
    },
    Case {
        name: "a router that leads to itself",
        costs: &[3, 2],
        hops: &[(0, 1), (1, 1)],
        marks: &[false, true],
        count: 1,
    },
];

fn hops_of(alloc: Global, pairs: &[(usize, usize)], routers: usize) -> Result<Vec<Hop>, AllocError>
    ensures { IfOk result (λ hops. All (IsAmong routers) hops.items) }
{
    let mut hops = Vec::new(alloc);
    for pair in pairs {
        let (from, to) = *pair;
        if from < routers && to < routers {
            hops.push(Hop { from, to })?;
        }
    }
    Ok(hops)
}

// Whether the marks and the count are those of the case.
fn is_case(alloc: Global, hops: &[Hop], case: &Case) -> Result<bool, AllocError>
    requires { All (IsAmong (length case.now.costs.now)) hops.now }
{
    let count = count_loops(alloc, hops, case.costs)?;
    let marks = loops(alloc, hops, case.costs)?;
    Ok(count == case.count && marks.as_slice() == case.marks)
}

fn is_right(alloc: Global, case: &Case) -> Result<bool, AllocError> {
    let hops = hops_of(alloc, case.hops, case.costs.len())?;
    is_case(alloc, &hops, case)
}

#[test]
fn loops_are_found_and_counted(rt: HostRuntime) -> Result<(), Fail> {
    for case in CASES {
        assert!(rt; is_right(rt.alloc(), case)?, "{}", case.name);
    }
    Ok(())
}
