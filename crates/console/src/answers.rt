//! The lines of the console's answers.
ghost use Rattle.std.specs.Prelude.{◌≡◌, ◌∷◌, ◌++◌, IfOk, OnOk, decimal, if◌then◌else◌};
ghost use Rattle.std.specs.Prelude.{string_bytes};
ghost use Rattle.console.specs.Answers.{counter_line, counter_lines, counters_text, hops_text};
ghost use Rattle.console.specs.Answers.{kind_name, neighbor_line, neighbor_lines, neighbors_text};
ghost use Rattle.console.specs.Answers.{route_line, route_lines, route_text, state_name};
ghost use Rattle.console.specs.Answers.{table_text};

use adjacency::NeighborState;
use std::alloc::{AllocError, Global};
use std::fmt::Write;
use words::{Hops, Route, RouteKind, RouterId};

fn kind_name(kind: RouteKind) -> &'static str
    ensures { result.now ≡ kind_name kind }
{
    match kind {
        RouteKind::Intra => "intra",
        RouteKind::Inter => "inter",
        RouteKind::External1 => "ext1",
        RouteKind::External2 => "ext2",
    }
}

/// Appends a number, after a comma if it isn't the first.
fn push_number(text: &mut String, is_first: bool, number: u8) -> Result<(), AllocError>
    ensures { OnOk result (string_bytes text.new
        ≡ string_bytes text.old ++ (if is_first then decimal number else 44 ∷ decimal number)) }
{
    if is_first {
        write!(text, "{number}")
    } else {
        write!(text, ",{number}")
    }
}

/// Appends the interfaces of a set in ascending order, separated by commas.
fn push_hops(text: &mut String, hops: Hops) -> Result<(), AllocError>
    ensures { OnOk result (string_bytes text.new ≡ string_bytes text.old ++ hops_text hops) }
{
    let mut is_first = true;
    for interface in 0..64 {
        if hops.contains(interface) {
            push_number(text, is_first, interface)?;
            is_first = false;
        }
    }
    Ok(())
}

/// Appends the part of a route's line before its interfaces.
fn push_route_text(text: &mut String, route: &Route) -> Result<(), AllocError>
    ensures { OnOk result (string_bytes text.new
        ≡ string_bytes text.old ++ route_text route.now) }
{
    let prefix = route.prefix;
    let kind = kind_name(route.kind);
    let cost = route.cost;
    write!(text, "{prefix} {kind} {cost} via ")
}

/// Appends the line of a route.
#[tactic(auto, using(crate::proofs::Pieces::three_pieces))]
fn push_route(text: &mut String, route: &Route) -> Result<(), AllocError>
    ensures { OnOk result (string_bytes text.new
        ≡ string_bytes text.old ++ route_line route.now) }
{
    push_route_text(text, route)?;
    push_hops(text, route.hops)?;
    text.push_str("\n")
}

/// Appends the lines of routes.
fn push_routes(text: &mut String, routes: &[Route]) -> Result<(), AllocError>
    ensures { OnOk result (string_bytes text.new
        ≡ string_bytes text.old ++ route_lines routes.now) }
{
    for route in routes {
        push_route(text, route)?;
    }
    Ok(())
}

/// The lines of a routing table, `A.B.C.D/L KIND COST via H,H` for each route, and `end`.
///
/// # Errors
/// `AllocError` if an allocation is refused.
pub fn table_text(alloc: Global, routes: &[Route]) -> Result<String, AllocError>
    ensures { IfOk result (λ text. string_bytes text ≡ table_text routes.now) }
{
    let mut text = String::new(alloc);
    push_routes(&mut text, routes)?;
    text.push_str("end\n")?;
    Ok(text)
}

fn state_name(state: NeighborState) -> &'static str
    ensures { result.now ≡ state_name state }
{
    match state {
        NeighborState::Init => "Init",
        NeighborState::ExStart => "ExStart",
        NeighborState::Exchange => "Exchange",
        NeighborState::Loading => "Loading",
        NeighborState::Full => "Full",
    }
}

/// Appends the line of an interface's neighbor, if it isn't Down.
fn push_neighbor(
    text: &mut String,
    interface: usize,
    neighbor: Option<(RouterId, NeighborState)>,
) -> Result<(), AllocError>
    ensures { OnOk result (string_bytes text.new
        ≡ string_bytes text.old ++ neighbor_line interface neighbor) }
{
    if let Some((router, state)) = neighbor {
        let state = state_name(state);
        writeln!(text, "neighbor {interface} {router} {state}")?;
    }
    Ok(())
}

/// Appends the lines of neighbors, the first of which is that of interface 1.
fn push_neighbors(
    text: &mut String,
    neighbors: &[Option<(RouterId, NeighborState)>],
) -> Result<(), AllocError>
    ensures { OnOk result (string_bytes text.new
        ≡ string_bytes text.old ++ neighbor_lines 1 neighbors.now) }
{
    for (index, neighbor) in neighbors.iter().enumerate() {
        push_neighbor(text, index + 1, *neighbor)?;
    }
    Ok(())
}

/// The lines of the neighbors at interfaces 1, 2, .., `neighbor I A.B.C.D STATE` for each that
/// isn't Down (`None`), and `end`.
///
/// # Errors
/// `AllocError` if an allocation is refused.
pub fn neighbors_text(
    alloc: Global,
    neighbors: &[Option<(RouterId, NeighborState)>],
) -> Result<String, AllocError>
    ensures { IfOk result (λ text. string_bytes text ≡ neighbors_text neighbors.now) }
{
    let mut text = String::new(alloc);
    push_neighbors(&mut text, neighbors)?;
    text.push_str("end\n")?;
    Ok(text)
}

/// Appends the line of a counter, if it is above 0.
fn push_counter(text: &mut String, index: usize, sum: u64) -> Result<(), AllocError>
    ensures { OnOk result (string_bytes text.new
        ≡ string_bytes text.old ++ counter_line index sum) }
{
    if sum > 0 {
        writeln!(text, "counter {index} {sum}")?;
    }
    Ok(())
}

/// Appends the lines of counters.
fn push_counters(text: &mut String, sums: &[u64]) -> Result<(), AllocError>
    ensures { OnOk result (string_bytes text.new
        ≡ string_bytes text.old ++ counter_lines 0 sums.now) }
{
    for (index, sum) in sums.iter().enumerate() {
        push_counter(text, index, *sum)?;
    }
    Ok(())
}

/// The line `counter K V` of each counter above 0, from index 0 on.
///
/// # Errors
/// `AllocError` if an allocation is refused.
pub fn totals_text(alloc: Global, sums: &[u64]) -> Result<String, AllocError>
    ensures { IfOk result (λ text. string_bytes text ≡ counter_lines 0 sums.now) }
{
    let mut text = String::new(alloc);
    push_counters(&mut text, sums)?;
    Ok(text)
}

/// The lines of `totals_text`, and `end`: what `counters` prints.
///
/// # Errors
/// `AllocError` if an allocation is refused.
pub fn counters_text(alloc: Global, sums: &[u64]) -> Result<String, AllocError>
    ensures { IfOk result (λ text. string_bytes text ≡ counters_text sums.now) }
{
    let mut text = String::new(alloc);
    push_counters(&mut text, sums)?;
    text.push_str("end\n")?;
    Ok(text)
}
