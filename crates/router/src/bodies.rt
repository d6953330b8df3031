//! The bodies of the packets, in order.
ghost use Rattle.std.specs.Prelude.{◌≡◌, ◌++◌, map, IfOk, OnOk};
ghost use Rattle.router.specs.Bodies.{
  AllShort,
  acknowledgment_bodies,
  drafted_bodies,
  texts,
  update_bodies,
};

use crate::contents::Says;
use crate::order::sort_by_keys;
use crate::packing::packed;
use adjacency::{Draft, DraftLists, Update};
use lsa::Header;
use packet::PacketBody;
use std::alloc::{AllocError, Global};
use words::Sequence;

// Each item is a packet of its own.
fn put_bodies<X: Says + Drop>(bodies: &mut Vec<PacketBody>, items: Vec<X>) -> Result<(), AllocError>
    ensures { OnOk result (bodies.new.items ≡ bodies.old.items ++ map X.says items.items) }
{
    for item in items {
        bodies.push(item.body())?;
    }
    Ok(())
}

// The bytes of the LSAs.
fn texts(alloc: Global, updates: Vec<Update>) -> Result<Vec<Sequence<u8>>, AllocError>
    ensures { IfOk result (λ made. made.items ≡ texts updates.items) }
{
    let mut made = Vec::new(alloc);
    for update in updates {
        made.push(update.text)?;
    }
    Ok(made)
}

// A Link State Update has 28 bytes before its first LSA.
fn put_updates(
    alloc: Global,
    bodies: &mut Vec<PacketBody>,
    mut updates: Vec<Update>,
) -> Result<(), AllocError>
    requires { AllShort updates.items }
    ensures { OnOk result (bodies.new.items
        ≡ bodies.old.items ++ update_bodies updates.items) }
{
    sort_by_keys(&mut updates)?;
    let texts = texts(alloc, updates)?;
    let packets = packed(alloc, 28, texts)?;
    put_bodies(bodies, packets)
}

// A Link State Acknowledgment has 24 bytes before its first header.
fn put_acknowledgments(
    alloc: Global,
    bodies: &mut Vec<PacketBody>,
    mut headers: Vec<Header>,
) -> Result<(), AllocError>
    ensures { OnOk result (bodies.new.items
        ≡ bodies.old.items ++ acknowledgment_bodies headers.items) }
{
    sort_by_keys(&mut headers)?;
    let packets = packed(alloc, 24, headers)?;
    put_bodies(bodies, packets)
}

/// The bodies of the packets to be sent: Hellos, Database Descriptions, Link State Requests,
/// Updates and Acknowledgments.
///
/// # Errors
/// `AllocError` if an allocation is refused.
pub fn bodies(alloc: Global, draft: Draft) -> Result<Vec<PacketBody>, AllocError>
    // Each LSA fits into a Link State Update.
    requires { AllShort draft.updates }
    ensures { IfOk result (λ bodies. bodies.items ≡ drafted_bodies draft) }
{
    let DraftLists {
        hellos,
        descriptions,
        mut requests,
        updates,
        acknowledgments,
    } = draft.into_lists();
    let mut bodies = Vec::new(alloc);
    put_bodies(&mut bodies, hellos)?;
    put_bodies(&mut bodies, descriptions)?;
    sort_by_keys(&mut requests)?;
    put_bodies(&mut bodies, requests)?;
    put_updates(alloc, &mut bodies, updates)?;
    put_acknowledgments(alloc, &mut bodies, acknowledgments)?;
    Ok(bodies)
}
