//! From the drafts of an event to its packets.
ghost use Rattle.std.specs.Prelude.{◌≡◌, ◌≤◌, List, IfOk, OnOk, length};
ghost use Rattle.received.specs.Links.{Link as LinkOfArea};
ghost use Rattle.received.specs.AreaStates.{Send};
ghost use Rattle.event_rules.specs.Packing.{outs_of};
ghost use Rattle.invariants.specs.Keeping.{AreTexts};
ghost use Rattle.flood.specs.Drafts.{AreDrafts};

use adjacency::Draft;
use event_rules::Out;
use router::push_packets;
use std::alloc::{AllocError, Global};
use words::RouterId;

/// The packets of all interfaces, in the order of their numbers.
///
/// # Errors
/// `AllocError` if an allocation is refused.
pub fn outs(alloc: Global, own: RouterId, drafts: Vec<Draft>) -> Result<Vec<Out>, AllocError>
    // They are the drafts of an event's contents, each of which fits into a packet.
    requires drafts { (links : List LinkOfArea) × (sends : List Send)
        × AreDrafts links sends drafts.items }
    requires few { length drafts.items ≤ 63 }
    ensures outs { (links : List LinkOfArea) (sends : List Send)
        → AreDrafts links sends drafts.items
        → IfOk result (λ outs. outs.items ≡ outs_of own links sends) }
    // Each packet is encoded correctly.
    ensures texts { (links : List LinkOfArea) (sends : List Send)
        → AreDrafts links sends drafts.items → OnOk result (AreTexts own links sends) }
{
    let mut outs = Vec::new(alloc);
    let mut interface = 1;
    for draft in drafts {
        push_packets(alloc, &mut outs, own, interface, draft)?;
        interface += 1;
    }
    Ok(outs)
}
