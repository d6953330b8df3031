//! Encodes packets.
ghost use Rattle.std.specs.Prelude.{◌≡◌, ◌∷◌, [], ◌++◌, List, OnOk};
ghost use Rattle.received.specs.Links.{Link};
ghost use Rattle.received.specs.AreaStates.{Send, at_interface};
ghost use Rattle.std.specs.List.{AllByRecursion, filter_map};
ghost use Rattle.packet.specs.Ranges.{LsasAreWhole};
ghost use Rattle.event_rules.specs.Packing.{bodies, out_of, outs_at};
ghost use Rattle.event_rules.specs.PackingLaws.{HasPacketRoom};
ghost use Rattle.router.specs.Drafts.{IsDraftAt};
ghost use Rattle.router.specs.Texts.{IsSentText};

use crate::bodies::bodies;
use adjacency::Draft;
use event_rules::Out;
use packet::{Packet, PacketBody, write};
use std::alloc::{AllocError, Global};
use words::{RouterId, Sequence};

// Adds one more packet.
fn push_packet(
    alloc: Global,
    outs: &mut Vec<Out>,
    own: RouterId,
    interface: u16,
    body: PacketBody,
) -> Result<(), AllocError>
    requires room { HasPacketRoom body }
    requires whole { LsasAreWhole body }
    ensures out { OnOk result (outs.new.items ≡ outs.old.items ++ out_of own interface body ∷ []) }
    ensures text { OnOk result (IsSentText own body) }
{
    let packet = Packet { router: own, body };
    let bytes = write(alloc, &packet)?;
    outs.push(Out {
        interface,
        bytes: Sequence::from_vec(bytes),
    })?;
    Ok(())
}

/// Appends the packets that the router with this Router ID sends at the interface with this number:
/// Hellos, Database Descriptions, Link State Requests, Updates, Acknowledgments. Requests are in
/// the order of their first keys, LSAs and acknowledged headers in the order of their keys, those
/// with one key as they arose; each Update and each Acknowledgment has as many as fit into 8,192
/// bytes.
///
/// # Errors
/// `AllocError` if an allocation is refused; some of the packets may have been appended then.
pub fn push_packets(
    alloc: Global,
    outs: &mut Vec<Out>,
    own: RouterId,
    interface: u16,
    draft: Draft,
) -> Result<(), AllocError>
    // The draft is that of an event's contents, each of which fits into a packet.
    requires { (link : Link) × (sends : List Send) × IsDraftAt interface link sends draft }
    ensures outs { (link : Link) (sends : List Send) → IsDraftAt interface link sends draft
        → OnOk result (outs.new.items ≡ outs.old.items ++ outs_at own sends interface link) }
    // The bytes of each encode a packet from this router with its body.
    ensures texts { (link : Link) (sends : List Send) → IsDraftAt interface link sends draft
        → OnOk result (AllByRecursion (IsSentText own)
        (bodies link.interface.delay (filter_map (at_interface interface) sends))) }
{
    for body in bodies(alloc, draft)? {
        push_packet(alloc, outs, own, interface, body)?;
    }
    Ok(())
}
