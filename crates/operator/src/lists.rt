//! The lines of tables.
ghost use Rattle.std.specs.Prelude.{◌≡◌, List, IfOk, MatchResult, OnErr, string_bytes, vec_len};
ghost use Rattle.words.specs.declared.route.Route.{Route};
ghost use Rattle.routes.specs.Rows.{rows_of};
ghost use Rattle.hooks.specs.Known.{known_to};
ghost use Rattle.turns.specs.Turns.{IsListed};
ghost use Rattle.operator.specs.Shown.{HasReadSome, IsCountersText, IsPartOf, ShowsNeighbors};
ghost use Rattle.operator.specs.Shown.{ShowsTable};
ghost use Rattle.operator.specs.declared.reply.Reply.TheVariants as reply;

use crate::reply::Reply;
use console::{counters_text, neighbors_text, table_text};
use std::alloc::{AllocError, Global};
use std::sync::Wait;
use words::{Route, TableRow};
use worker::{Hub, Port, Site, Taker};

/// The answer of these lines.
pub fn lines(made: Result<String, AllocError>) -> Reply
    ensures { MatchResult made (λ text. result ≡ reply.Lines text) (λ _. result ≡ reply.Memory) }
{
    match made {
        Ok(text) => Reply::Lines(text),
        Err(_) => Reply::Memory,
    }
}

// The routes of the table: the candidates that have a row. Both are ordered by their prefixes, of
// which each has one.
fn routes_of(
    alloc: Global,
    candidates: &[Route],
    rows: &[TableRow],
) -> Result<Vec<Route>, AllocError>
    ensures { IfOk result (λ routes. (table : List Route) → IsPartOf candidates.now table
        → rows.now ≡ rows_of table → routes.items ≡ table) }
{
    let mut routes = Vec::with_capacity(alloc, rows.len())?;
    for route in candidates {
        if routes.len() < rows.len() && rows[routes.len()].prefix == route.prefix {
            routes.push(*route)?;
        }
    }
    Ok(routes)
}

/// What the console's `table` prints: the routing table.
///
/// # Errors
/// `AllocError` if an allocation is refused.
pub fn table<L: Site, B: Taker<L>, R: Wait>(
    rt: &R,
    alloc: Global,
    hub: &Hub<L, B>,
) -> Result<String, AllocError>
    ensures { IfOk result (λ text. ShowsTable B.offers (string_bytes text)) }
{
    let offered = hub.offered(rt)?;
    let routes = routes_of(
        alloc,
        offered.candidates.as_slice(),
        offered.rows.as_slice(),
    )?;
    let text = table_text(alloc, &routes)?;
    Ok(text)
}

/// What the console's `neighbors` prints: the neighbors at the interfaces from 1 to `interfaces`,
/// all of one moment.
///
/// # Errors
/// `AllocError` if an allocation is refused.
pub fn neighbors<L: Site, B: Taker<L>, R: Wait>(
    rt: &R,
    alloc: Global,
    hub: &Hub<L, B>,
    interfaces: u16,
) -> Result<String, AllocError>
    ensures { IfOk result (λ text.
        ShowsNeighbors (IsListed B.began B.neighbor_at interfaces) (string_bytes text)) }
{
    let neighbors = hub.neighbors(rt, alloc, interfaces)?;
    let text = neighbors_text(alloc, &neighbors)?;
    Ok(text)
}

/// What the console's `counters` prints: the 256 counters that the programs share, each read once,
/// in order, so not all of one moment.
///
/// # Errors
/// `AllocError` if an allocation is refused; some may have been read then.
pub fn counters<L: Site, B: Taker<L>>(
    alloc: Global,
    hub: &Hub<L, B>,
    port: &mut Port<L>,
) -> Result<String, AllocError>
    ensures text { IfOk result (λ text.
        IsCountersText port.old.seat port.new.seat (string_bytes text)) }
    ensures some { OnErr result (HasReadSome port.old.seat port.new.seat) }
    ensures known { known_to port.new.asker ≡ known_to port.old.asker }
    ensures share { port.new.share ≡ port.old.share }
{
    let mut sums = Vec::new(alloc);
    for index in 0..256usize {
        sums.push(hub.counter(port, index))?;
    }
    let text = counters_text(alloc, &sums)?;
    Ok(text)
}
