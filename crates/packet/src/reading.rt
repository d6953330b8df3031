//! Parses packets.
ghost use Rattle.std.specs.Prelude.{◌≡◌, ◌≤◌, ◌<◌, ◌+◌, ◌*◌, ◌/◌, ◌^◌, ◌⊎◌, true, length, drop};
ghost use Rattle.std.specs.Prelude.{IfOk};
ghost use Rattle.words.specs.Constants.{largest_packet};
ghost use Rattle.lsa.specs.Headers.{header_at};
ghost use Rattle.packet.specs.Text.{PacketText, closed_fields, lsa_count, text};
ghost use Rattle.packet.specs.Reading.{are_lsas, body_of, description_of, hello_of, is_filled};
ghost use Rattle.packet.specs.Reading.{key_at, least_length, lsas_of};
ghost use Rattle.words.specs.Records.{records};
ghost use Rattle.packet.specs.Outcome.{Reads};

use crate::judging::{behind, front, judge};
use crate::model::{Description, Hello, Packet, PacketBody, PacketType};
use crate::refusal::PacketError;
use lsa::{Header, header_at, router_ids};
use std::alloc::{AllocError, Global};
use words::{Key, LinkStateId, RouterId, Sequence, byte_at, u16_at, u32_at};

// Consecutive LSA headers from index `at` on.
fn headers(
    alloc: Global,
    bytes: &[u8],
    at: usize,
    count: usize,
) -> Result<Sequence<Header>, AllocError>
    requires { at + 20 * count ≤ length bytes.now }
    ensures { IfOk result (λ hs. hs ≡ records header_at 20 bytes.now at count) }
{
    let mut headers = Vec::with_capacity(alloc, count)?;
    for i in 0..count {
        headers.push(header_at(bytes, at + 20 * i))?;
    }
    Ok(Sequence::from_vec(headers))
}

fn key_at(bytes: &[u8], at: usize) -> Key
    requires { at + 12 ≤ length bytes.now }
    ensures { result ≡ key_at bytes.now at }
{
    Key {
        ls_type: u32_at(bytes, at),
        link_state_id: LinkStateId::new(u32_at(bytes, at + 4)),
        advertising_router: RouterId::new(u32_at(bytes, at + 8)),
    }
}

// The keys in the body of a Link State Request.
fn keys(alloc: Global, bytes: &[u8]) -> Result<Sequence<Key>, AllocError>
    ensures { IfOk result (λ ks. ks ≡ records key_at 12 bytes.now 0 (length bytes.now / 12)) }
{
    let count = bytes.len() / 12;
    let mut keys = Vec::with_capacity(alloc, count)?;
    for i in 0..count {
        keys.push(key_at(bytes, 12 * i))?;
    }
    Ok(Sequence::from_vec(keys))
}

// The bytes of an LSA, which are parsed when it is received.
fn copied(alloc: Global, bytes: &[u8]) -> Result<Sequence<u8>, AllocError>
    ensures { IfOk result (λ lsa. lsa ≡ bytes.now) }
{
    Ok(Sequence::from_vec(Vec::from_slice(alloc, bytes)?))
}

// The LSAs that fill the bytes, unparsed.
fn lsas(alloc: Global, count: u32, bytes: &[u8]) -> Result<Sequence<Sequence<u8>>, AllocError>
    requires { are_lsas count bytes.now ≡ true }
    ensures { IfOk result (λ ls. ls ≡ lsas_of count bytes.now) }
{
    let mut lsas = Vec::with_capacity(alloc, count as usize)?;
    let mut rest = bytes;
    for i in 0..count {
        let size = usize::from(u16_at(rest, 18));
        lsas.push(copied(alloc, front(rest, size))?)?;
        rest = behind(rest, size);
    }
    Ok(Sequence::from_vec(lsas))
}

fn hello(alloc: Global, body: &[u8]) -> Result<Hello, AllocError>
    requires { 20 ≤ length body.now }
    ensures { IfOk result (λ h. h ≡ hello_of body.now) }
{
    Ok(Hello {
        mask: u32_at(body, 0),
        hello_interval: u16_at(body, 4),
        options: byte_at(body, 6),
        priority: byte_at(body, 7),
        dead_interval: u32_at(body, 8),
        neighbors: router_ids(alloc, body, 20, (body.len() - 20) / 4)?,
    })
}

fn description(alloc: Global, body: &[u8]) -> Result<Description, AllocError>
    requires { 8 ≤ length body.now }
    ensures { IfOk result (λ d. d ≡ description_of body.now) }
{
    let flags = byte_at(body, 3);
    Ok(Description {
        mtu: u16_at(body, 0),
        options: byte_at(body, 2),
        init: flags & 4 != 0,
        more: flags & 2 != 0,
        master: flags & 1 != 0,
        sequence: u32_at(body, 4),
        headers: headers(alloc, body, 8, (body.len() - 8) / 20)?,
    })
}

fn body(alloc: Global, kind: PacketType, bytes: &[u8]) -> Result<PacketBody, AllocError>
    requires room { least_length (Some kind) ≤ 24 + length bytes.now }
    requires filled { is_filled kind bytes.now ≡ true }
    ensures { IfOk result (λ b. b ≡ body_of kind bytes.now) }
{
    match kind {
        PacketType::Hello => Ok(PacketBody::Hello(hello(alloc, bytes)?)),
        PacketType::Description => Ok(PacketBody::Description(description(alloc, bytes)?)),
        PacketType::Request => Ok(PacketBody::Request(keys(alloc, bytes)?)),
        PacketType::Update => {
            let count = u32_at(bytes, 0);
            Ok(PacketBody::Update(lsas(alloc, count, behind(bytes, 4))?))
        }
        PacketType::Acknowledgment => Ok(PacketBody::Acknowledgment(headers(
            alloc,
            bytes,
            0,
            bytes.len() / 20,
        )?)),
    }
}

// The packet in the bytes, or the first fault.
fn parsed(alloc: Global, bytes: &[u8]) -> Result<Packet, PacketError>
    ensures { Reads bytes.now result }
{
    match judge(bytes) {
        Err(fault) => Err(PacketError::Fault(fault)),
        Ok(kind) => {
            let router = RouterId::new(u32_at(bytes, 4));
            let body = body(alloc, kind, behind(bytes, 24))?;
            Ok(Packet { router, body })
        }
    }
}

/// Parses a packet (RFC 2328, section 8.2 and appendix A.3).
///
/// The authentication bytes and a Hello's two Designated Routers may have any values.
///
/// # Errors
/// `Fault` with the first fault, in the order of [`PacketFault`](crate::PacketFault); `Memory` if
/// there is none, and an allocation is refused.
pub fn read(alloc: Global, bytes: &[u8]) -> Result<Packet, PacketError>
    // The bytes encode the packet that is returned.
    ensures found { IfOk result (λ p. PacketText bytes.now p) }
    // The bytes of a packet are parsed as that packet, unless an allocation is refused.
    ensures only { (p : Packet) → PacketText bytes.now p → result ≡ Ok p
        ⊎ (result ≡ Err PacketError.Memory) }
    // Which fault it is; `Memory` is returned only if there is none.
    ensures exact { Reads bytes.now result }
    // The packet can be written.
    ensures writable { IfOk result (λ p. (length (text closed_fields 0 p) ≤ largest_packet)
        × (lsa_count p.body < 2 ^ 32)) }
{
    parsed(alloc, bytes)
}
