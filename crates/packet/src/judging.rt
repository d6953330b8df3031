//! What is wrong with the bytes of a packet, in the order in which it is reported.
ghost use Rattle.std.specs.Prelude.{◌≡◌, ◌≤◌, ◌+◌, ℕ, length, take, drop, Some};
ghost use Rattle.packet.specs.Reading.{are_lsas, is_filled, least_length};
ghost use Rattle.packet.specs.Outcome.{Judges};

use crate::checksum::checksum;
use crate::model::PacketType;
use crate::refusal::PacketFault;
use words::{LARGEST_PACKET, byte_at, u16_at, u32_at};

fn least_length(kind: Option<PacketType>) -> usize
    ensures { result ≡ least_length kind }
{
    match kind {
        None => 24,
        Some(PacketType::Hello) => 44,
        Some(PacketType::Description) => 32,
        Some(PacketType::Request) => 24,
        Some(PacketType::Update) => 28,
        Some(PacketType::Acknowledgment) => 24,
    }
}

/// The first `count` bytes.
pub fn front(bytes: &[u8], count: usize) -> &[u8]
    requires { count ≤ length bytes.now }
    ensures { result.now ≡ take count bytes.now }
{
    &bytes[..count]
}

/// The bytes after the first `count`.
pub fn behind(bytes: &[u8], count: usize) -> &[u8]
    requires { count ≤ length bytes.now }
    ensures { result.now ≡ drop count bytes.now }
{
    &bytes[count..]
}

// Whether that many LSAs, divided by their length fields, fill these bytes exactly.
#[tactic(auto, using(crate::proofs::Cuts::lsas_short, crate::proofs::Cuts::lsas_cut, crate::proofs::Cuts::lsas_on))]
fn are_lsas(count: u32, bytes: &[u8]) -> bool
    ensures { result ≡ are_lsas count bytes.now }
{
    let mut rest = bytes;
    for i in 0..count {
        if rest.len() < 20 {
            return false;
        }
        let size = usize::from(u16_at(rest, 18));
        if size < 20 || rest.len() < size {
            return false;
        }
        rest = behind(rest, size);
    }
    rest.is_empty()
}

// Whether the bytes are a body of this type: by their length, a Database Description also by its
// flags (I, M and MS alone), a Link State Update by the lengths of its LSAs.
fn is_filled(kind: PacketType, body: &[u8]) -> bool
    requires { least_length (Some kind) ≤ 24 + length body.now }
    ensures { result ≡ is_filled kind body.now }
{
    match kind {
        PacketType::Hello => (body.len() - 20) % 4 == 0,
        PacketType::Description => byte_at(body, 3) < 8 && (body.len() - 8) % 20 == 0,
        PacketType::Request => body.len() % 12 == 0,
        PacketType::Update => are_lsas(u32_at(body, 0), behind(body, 4)),
        PacketType::Acknowledgment => body.len() % 20 == 0,
    }
}

/// The type of the packet that the bytes encode.
///
/// # Errors
/// The first fault, in the order of [`PacketFault`].
#[tactic(auto, unfolding(crate::specs::Reading::fault_of))]
pub fn judge(bytes: &[u8]) -> Result<PacketType, PacketFault>
    ensures { Judges bytes.now result }
{
    let size = bytes.len();
    if size < 24 {
        return Err(PacketFault::Short);
    }
    let named = PacketType::from_number(byte_at(bytes, 1));
    if size < least_length(named) {
        return Err(PacketFault::Short);
    }
    if byte_at(bytes, 0) != 2 {
        return Err(PacketFault::Version);
    }
    let Some(kind) = named else {
        return Err(PacketFault::PacketType);
    };
    if usize::from(u16_at(bytes, 2)) != size {
        return Err(PacketFault::Length);
    }
    if size > usize::from(LARGEST_PACKET) {
        return Err(PacketFault::Length);
    }
    if u16_at(bytes, 12) != checksum(bytes) {
        return Err(PacketFault::Checksum);
    }
    if u32_at(bytes, 8) != 0 {
        return Err(PacketFault::Area);
    }
    if u16_at(bytes, 14) != 0 {
        return Err(PacketFault::Auth);
    }
    if !is_filled(kind, behind(bytes, 24)) {
        return Err(PacketFault::Body);
    }
    Ok(kind)
}
