//! The routes of all routers to one prefix, and their loops.
ghost use Rattle.std.specs.Prelude.{◌≡◌, ◌++◌, IfOk, OnOk, length};
ghost use Rattle.std.specs.List.{All};
ghost use Rattle.routes.specs.Loops.{IsAmong, IsCountOfLoops};
ghost use Rattle.routes.specs.LoopTables.{hop_by, hops_over, leaves_by, next_hops};

use crate::counting::count_loops;
use crate::hop::Hop;
use std::alloc::{AllocError, Global};
use words::Hops;

/// A router's route to a prefix: the outgoing interfaces, bit k for interface k (0 is the router
/// itself), and the cost.
#[derive(Clone, Copy)]
pub struct PrefixRoute {
    pub hops: u64,
    pub cost: u32,
}

/// A link between interfaces of two routers, which are given by their indices.
#[derive(Clone, Copy)]
pub struct LinkEnds {
    pub one: usize,
    pub one_interface: u8,
    pub other: usize,
    pub other_interface: u8,
}

impl PrefixRoute {
    /// Whether packets are sent out of the interface. Those that end at the router are sent out of
    /// none.
    pub fn leaves_by(&self, interface: u8) -> bool
        ensures { result ≡ leaves_by self.now interface }
    {
        let hops = Hops::from_bits(self.hops);
        interface < 64 && !hops.contains(0) && hops.contains(interface)
    }
}

// Adds the next hop by the interface, if the route of the router before it has that.
fn add_hop(
    hops: &mut Vec<Hop>,
    ways: &[PrefixRoute],
    from: usize,
    interface: u8,
    to: usize,
) -> Result<(), AllocError>
    ensures added { OnOk result (hops.new.items ≡ hops.old.items
        ++ hop_by ways.now from interface to) }
    ensures within { All (IsAmong (length ways.now)) hops.old.items
        → All (IsAmong (length ways.now)) hops.new.items }
{
    if from >= ways.len() {
        return Ok(());
    }
    if to >= ways.len() {
        return Ok(());
    }
    if !ways[from].leaves_by(interface) {
        return Ok(());
    }
    hops.push(Hop { from, to })?;
    Ok(())
}

// Adds the next hops over the link, of both routers.
fn add_hops(hops: &mut Vec<Hop>, ways: &[PrefixRoute], link: &LinkEnds) -> Result<(), AllocError>
    ensures added { OnOk result (hops.new.items ≡ hops.old.items ++ hops_over ways.now link.now) }
    ensures within { All (IsAmong (length ways.now)) hops.old.items
        → All (IsAmong (length ways.now)) hops.new.items }
{
    add_hop(hops, ways, link.one, link.one_interface, link.other)?;
    add_hop(hops, ways, link.other, link.other_interface, link.one)
}

// The next hops over all links.
fn hops_of(alloc: Global, links: &[LinkEnds], ways: &[PrefixRoute]) -> Result<Vec<Hop>, AllocError>
    ensures hops { IfOk result (λ hops. hops.items ≡ next_hops ways.now links.now) }
    ensures within { IfOk result (λ hops. All (IsAmong (length ways.now)) hops.items) }
{
    let mut hops = Vec::new(alloc);
    for link in links {
        add_hops(&mut hops, ways, link)?;
    }
    Ok(hops)
}

fn costs_of(alloc: Global, ways: &[PrefixRoute]) -> Result<Vec<u32>, AllocError>
    ensures { IfOk result (λ costs. length costs.items ≡ length ways.now) }
{
    ways.iter().map(|way| way.cost).collect(alloc)
}

/// Counts the routers to which a packet for a prefix may come back, if each router forwards it by
/// its route over one of these links.
///
/// # Errors
/// `AllocError` if an allocation is refused.
pub fn count_looping(
    alloc: Global,
    links: &[LinkEnds],
    ways: &[PrefixRoute],
) -> Result<usize, AllocError>
    ensures { IfOk result (IsCountOfLoops (next_hops ways.now links.now) (length ways.now)) }
{
    let costs = costs_of(alloc, ways)?;
    let hops = hops_of(alloc, links, ways)?;
    count_loops(alloc, &hops, &costs)
}
