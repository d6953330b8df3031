//! Encodes packets.
ghost use Rattle.std.specs.Prelude.{◌≡◌, ◌≤◌, ◌<◌, ◌^◌, ◌+◌, ◌*◌, ◌++◌, ℕ, List, [], ◌∷◌, length};
ghost use Rattle.std.specs.Prelude.{IfOk, OnOk, take};
ghost use Rattle.std.specs.List.{flat_map};
ghost use Rattle.words.specs.Constants.{largest_packet};
ghost use Rattle.byteorder.specs.Endian.{big_bytes};
ghost use Rattle.words.specs.Fields.{fields};
ghost use Rattle.lsa.specs.Headers.{header_text};
ghost use Rattle.packet.specs.Ranges.{LsasAreWhole};
ghost use Rattle.packet.specs.Text.{PacketText, body_text, canonical};
ghost use Rattle.packet.specs.Text.{closed_fields, description, flags};
ghost use Rattle.packet.specs.Text.{header, hello, key_text, lsa_count, router_id_text, text};
ghost use Rattle.packet.specs.Text.{type_number, type_of};

use crate::checksum::checksum;
use crate::model::{Description, Hello, Packet, PacketBody, PacketType};
use lsa::{Header, put_header, put_router_ids};
use std::alloc::{AllocError, Global};
use words::{Key, LARGEST_PACKET, RouterId, Sequence, put_u8, put_u16, put_u32};

fn type_number(kind: PacketType) -> u8
    ensures { result ≡ type_number kind }
{
    match kind {
        PacketType::Hello => 1,
        PacketType::Description => 2,
        PacketType::Request => 3,
        PacketType::Update => 4,
        PacketType::Acknowledgment => 5,
    }
}

fn type_of(body: &PacketBody) -> PacketType
    ensures { result ≡ type_of body.now }
{
    match body {
        PacketBody::Hello(_) => PacketType::Hello,
        PacketBody::Description(_) => PacketType::Description,
        PacketBody::Request(_) => PacketType::Request,
        PacketBody::Update(_) => PacketType::Update,
        PacketBody::Acknowledgment(_) => PacketType::Acknowledgment,
    }
}

// Appends the header, with 0 for the length and the checksum.
fn put_start(out: &mut Vec<u8>, kind: PacketType, router: RouterId) -> Result<(), AllocError>
    ensures { OnOk result (out.new.items ≡ out.old.items ++ fields (header kind 0 router 0 0)) }
{
    put_u8(out, 2)?;
    put_u8(out, type_number(kind))?;
    put_u16(out, 0)?;
    put_u32(out, router.number())?;
    out.extend_from_slice(&[0; 16])
}

fn put_headers(out: &mut Vec<u8>, headers: &[Header]) -> Result<(), AllocError>
    ensures { OnOk result (out.new.items ≡ out.old.items ++ flat_map header_text headers.now) }
{
    for header in headers {
        let header = *header;
        put_header(out, &header)?;
    }
    Ok(())
}

fn put_key(out: &mut Vec<u8>, key: Key) -> Result<(), AllocError>
    ensures { OnOk result (out.new.items ≡ out.old.items ++ key_text key) }
{
    put_u32(out, key.ls_type)?;
    put_u32(out, key.link_state_id.number())?;
    put_u32(out, key.advertising_router.number())
}

fn put_keys(out: &mut Vec<u8>, keys: &[Key]) -> Result<(), AllocError>
    ensures { OnOk result (out.new.items ≡ out.old.items ++ flat_map key_text keys.now) }
{
    for key in keys {
        put_key(out, *key)?;
    }
    Ok(())
}

fn put_lsas(out: &mut Vec<u8>, lsas: &[Sequence<u8>]) -> Result<(), AllocError>
    ensures { OnOk result (out.new.items ≡ out.old.items ++ flat_map (λ lsa. lsa) lsas.now) }
{
    for lsa in lsas {
        out.extend_from_slice(lsa.as_slice())?;
    }
    Ok(())
}

fn put_intervals(out: &mut Vec<u8>, h: &Hello) -> Result<(), AllocError>
    ensures { OnOk result (out.new.items ≡ out.old.items ++ fields (hello closed_fields h.now)) }
{
    put_u32(out, h.mask)?;
    put_u16(out, h.hello_interval)?;
    put_u8(out, h.options)?;
    put_u8(out, h.priority)?;
    put_u32(out, h.dead_interval)?;
    out.extend_from_slice(&[0; 8])
}

fn flags(d: &Description) -> u8
    ensures { result ≡ flags d.now }
{
    4 * u8::from(d.init) + 2 * u8::from(d.more) + u8::from(d.master)
}

fn put_sequence(out: &mut Vec<u8>, d: &Description) -> Result<(), AllocError>
    ensures { OnOk result (out.new.items ≡ out.old.items ++ fields (description d.now)) }
{
    put_u16(out, d.mtu)?;
    put_u8(out, d.options)?;
    put_u8(out, flags(d))?;
    put_u32(out, d.sequence)
}

#[tactic(auto, using(crate::proofs::Sizes::two_parts))]
fn put_hello(out: &mut Vec<u8>, h: &Hello) -> Result<(), AllocError>
    ensures { OnOk result (out.new.items ≡ out.old.items ++ (fields (hello closed_fields h.now)
        ++ flat_map router_id_text h.now.neighbors)) }
{
    put_intervals(out, h)?;
    put_router_ids(out, h.neighbors.as_slice())
}

#[tactic(auto, using(crate::proofs::Sizes::two_parts))]
fn put_description(out: &mut Vec<u8>, d: &Description) -> Result<(), AllocError>
    ensures { OnOk result (out.new.items ≡ out.old.items ++ (fields (description d.now)
        ++ flat_map header_text d.now.headers)) }
{
    put_sequence(out, d)?;
    put_headers(out, d.headers.as_slice())
}

#[tactic(auto, using(crate::proofs::Sizes::two_parts))]
fn put_update(out: &mut Vec<u8>, lsas: &[Sequence<u8>]) -> Result<(), AllocError>
    requires { length lsas.now < 2 ^ 32 }
    ensures { OnOk result (out.new.items ≡ out.old.items ++ (big_bytes 4 (length lsas.now)
        ++ flat_map (λ lsa. lsa) lsas.now)) }
{
    put_u32(out, lsas.len() as u32)?;
    put_lsas(out, lsas)
}

fn put_body(out: &mut Vec<u8>, body: &PacketBody) -> Result<(), AllocError>
    requires { lsa_count body.now < 2 ^ 32 }
    ensures { OnOk result (out.new.items ≡ out.old.items ++ body_text closed_fields body.now) }
{
    match body {
        PacketBody::Hello(h) => put_hello(out, h),
        PacketBody::Description(d) => put_description(out, d),
        PacketBody::Request(keys) => put_keys(out, keys.as_slice()),
        PacketBody::Update(lsas) => put_update(out, lsas.as_slice()),
        PacketBody::Acknowledgment(headers) => put_headers(out, headers.as_slice()),
    }
}

// The approximate length of a packet, so that its encoding is allocated once.
fn likely_length(body: &PacketBody) -> usize {
    match body {
        PacketBody::Hello(_) => 48,
        PacketBody::Description(d) => 32usize.saturating_add(
            d.headers.as_slice().len().saturating_mul(20),
        ),
        PacketBody::Request(keys) => 24usize.saturating_add(
            keys.as_slice().len().saturating_mul(12),
        ),
        PacketBody::Update(lsas) => lsas_length(lsas.as_slice()).saturating_add(28),
        PacketBody::Acknowledgment(headers) => {
            24usize.saturating_add(headers.as_slice().len().saturating_mul(20))
        }
    }
}

fn lsas_length(lsas: &[Sequence<u8>]) -> usize {
    let mut size: usize = 0;
    for lsa in lsas {
        size = size.saturating_add(lsa.as_slice().len());
    }
    size
}

// The encoding with 0 for its length and its checksum.
fn draft(alloc: Global, packet: &Packet) -> Result<Vec<u8>, AllocError>
    requires { lsa_count packet.now.body < 2 ^ 32 }
    ensures { IfOk result (λ bytes. bytes.items
        ≡ fields (header (type_of packet.now.body) 0 packet.now.router 0 0)
        ++ body_text closed_fields packet.now.body) }
{
    let mut out = Vec::with_capacity(
        alloc,
        likely_length(&packet.body).min(usize::from(LARGEST_PACKET)),
    )?;
    put_start(&mut out, type_of(&packet.body), packet.router)?;
    put_body(&mut out, &packet.body)?;
    Ok(out)
}

/// The canonical encoding of the packet, with zeros in the open fields (RFC 2328, appendix A.3).
///
/// # Errors
/// `AllocError` if an allocation is refused.
#[tactic(auto, unfolding(crate::specs::Text::canonical))]
pub fn write(alloc: Global, packet: &Packet) -> Result<Vec<u8>, AllocError>
    // A packet has at most 8,192 bytes.
    requires size { length (text closed_fields 0 packet.now) ≤ largest_packet }
    // The number of LSAs in a Link State Update has 32 bits.
    requires count { lsa_count packet.now.body < 2 ^ 32 }
    ensures canonical { IfOk result (λ bytes. bytes.items ≡ canonical packet.now) }
    // The result is a valid encoding if each LSA of a Link State Update has the length that it
    // gives.
    ensures text { LsasAreWhole packet.now.body
        → IfOk result (λ bytes. PacketText bytes.items packet.now) }
{
    // For the prover alone, by what the call ensures.
    packet.prove_ranges();
    let mut out = draft(alloc, packet)?;
    let size = out.len() as u16;
    out[2] = (size / 256) as u8;
    out[3] = (size % 256) as u8;
    let sum = checksum(&out);
    out[12] = (sum / 256) as u8;
    out[13] = (sum % 256) as u8;
    Ok(out)
}
