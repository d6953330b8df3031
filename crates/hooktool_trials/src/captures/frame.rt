//! Frames of a link, and the OSPF packets in them.
ghost use Rattle.std.specs.Prelude.{◌≡◌, ◌↔◌, ◌+◌, ◌≤◌, length, IsTrue, MatchOption};
ghost use Rattle.hooktool_trials.specs.CaptureNumbers.{half};
ghost use Rattle.hooktool_trials.specs.Frames.{CarriesIp, HasNumber, HasOspf, Holds, IsOspf};
ghost use Rattle.hooktool_trials.specs.Frames.{IsPacketOf, header_length, header_of};
ghost use Rattle.hooktool_trials.specs.declared.captures.frame.LinkType.{LinkType};

use crate::captures::number::{Order, half};

/// What a frame begins with.
#[derive(Clone, Copy)]
pub enum LinkType {
    /// The IP packet itself.
    Raw,
    Ethernet,
    /// The pseudo-header that Linux writes before packets that are captured at all interfaces.
    LinuxCooked,
    /// Its second version, which newer programs write.
    LinuxCooked2,
}

/// What is in a frame.
#[derive(Clone, Copy)]
pub enum FrameContent<'a> {
    /// No OSPF packet, or a fragment of one.
    Other,
    /// An OSPF packet of which the capture has only the beginning.
    Cut,
    /// An OSPF packet, from its version on.
    Packet(&'a [u8]),
}

/// The link of this number.
pub(crate) fn link_of(number: u32) -> Option<LinkType>
    ensures { MatchOption result ((link : LinkType) → HasNumber link number → ⊥)
        (λ link. HasNumber link number) }
{
    match number {
        1 => Some(LinkType::Ethernet),
        101 | 228 => Some(LinkType::Raw),
        113 => Some(LinkType::LinuxCooked),
        276 => Some(LinkType::LinuxCooked2),
        _ => None,
    }
}

/// How many bytes stand in front of what a frame carries.
fn header_length(link: LinkType) -> usize
    ensures { result ≡ header_length link }
{
    match link {
        LinkType::Raw => 0,
        LinkType::Ethernet => 14,
        LinkType::LinuxCooked => 16,
        LinkType::LinuxCooked2 => 20,
    }
}

/// Whether two bytes of the frame's header, which has this size, name IP.
fn names_ip(frame: &[u8], size: usize, at: usize) -> bool
    requires { at + 2 ≤ size }
    ensures { IsTrue result ↔ ((size ≤ length frame.now) × (half Order.Big frame.now at ≡ 0x0800)) }
{
    frame.len() >= size && half(Order::Big, frame, at) == 0x0800
}

/// Whether the frame carries an IP packet.
fn carries_ip(link: LinkType, frame: &[u8]) -> bool
    ensures { IsTrue result ↔ CarriesIp link frame.now }
{
    match link {
        LinkType::Raw => true,
        LinkType::Ethernet => names_ip(frame, 14, 12),
        LinkType::LinuxCooked => names_ip(frame, 16, 14),
        LinkType::LinuxCooked2 => names_ip(frame, 20, 0),
    }
}

/// How many bytes the header of an IP packet has.
fn header_of(datagram: &[u8]) -> usize
    requires { 1 ≤ length datagram.now }
    ensures { result ≡ header_of datagram.now }
{
    4 * usize::from(datagram[0] % 16)
}

/// Whether the bytes begin with a whole IP packet of OSPF's protocol.
fn is_ospf(datagram: &[u8]) -> bool
    ensures { IsTrue result ↔ IsOspf datagram.now }
{
    datagram.len() >= 20
        && datagram[0] / 16 == 4
        && header_of(datagram) >= 20
        && header_of(datagram) <= usize::from(half(Order::Big, datagram, 2))
        && half(Order::Big, datagram, 6) % 16_384 == 0
        && datagram[9] == 89
}

/// What an IP packet of OSPF's protocol has in it.
fn packet_of(datagram: &[u8]) -> FrameContent<'_>
    requires { IsOspf datagram.now }
    ensures { IsPacketOf datagram.now result }
{
    let total = usize::from(half(Order::Big, datagram, 2));
    if total > datagram.len() {
        return FrameContent::Cut;
    }
    FrameContent::Packet(&datagram[header_of(datagram)..total])
}

/// What is in a frame of this link.
pub fn content_of(link: LinkType, frame: &[u8]) -> FrameContent<'_>
    ensures { Holds link frame.now result }
{
    if !carries_ip(link, frame) {
        return FrameContent::Other;
    }
    let start = header_length(link);
    if start > frame.len() {
        return FrameContent::Other;
    }
    let datagram = &frame[start..];
    if !is_ospf(datagram) {
        return FrameContent::Other;
    }
    packet_of(datagram)
}
