//! The sockets over which a worker receives and sends, and its clock.
ghost use Rattle.std.specs.Prelude.{◌≡◌, ℕ, ◌<◌, ◌≤◌, List, Option, IfOk, IfSome, OnOk};
ghost use Rattle.std.specs.Prelude.{OnErr, length};

use std::alloc::Global;
use words::{Second, Sequence};

/// A socket failed. For which cause isn't kept.
#[derive(Clone, Copy, PartialEq, Eq)]
pub struct SocketFault {}

/// The sockets over which a worker receives and sends. `faults` counts the calls that failed, and
/// nothing else.
///
/// `gives` (bytes sent at an interface) and `hears` (a datagram received, or none) are relations
/// that each implementation defines. Code that is generic over the transport can establish them
/// only by the call itself, with that interface and those bytes, so a contract that has them shows
/// what was sent and received.
pub trait Transport {
    ghost faults: { Self → ℕ };

    ghost gives: { Self → ℕ → List ℕ → Self → Type 0 };

    ghost hears: { Self → Option (List ℕ) → Self → Type 0 };

    /// Receives a datagram. `None` if none came within a second, if the system refused the receive
    /// for a passing reason, or if an allocation for it was refused, in which case it is lost. One
    /// that is longer than the buffer is cut to 8,193 bytes, one more than a packet may have, so
    /// that it is seen to be too long.
    ///
    /// # Errors
    /// `SocketFault` if the socket failed for a cause that doesn't pass: it is of no use any more.
    fn receive(
        &mut self,
        alloc: Global,
        buffer: &mut [u8; 8193],
    ) -> Result<Option<Sequence<u8>>, SocketFault>
        ensures heard { IfOk result (λ heard. hears self.old heard self.new) }
        ensures cut { IfOk result (λ heard. IfSome heard (λ datagram. length datagram ≤ 8193)) }
        ensures fine { OnOk result (faults self.new ≡ faults self.old) }
        ensures fault { OnErr result (faults self.old < faults self.new) };

    /// Sends the bytes at the interface with this number, from 1 on, and returns whether they were
    /// sent. If not, they are lost: sending would have blocked, or was refused because of the
    /// packet or its route.
    ///
    /// # Errors
    /// `SocketFault` if the socket failed for a cause that doesn't pass: it is of no use any more.
    fn send(&mut self, interface: u16, bytes: &[u8]) -> Result<bool, SocketFault>
        ensures given { OnOk result (gives self.old interface bytes.now self.new) }
        ensures fine { OnOk result (faults self.new ≡ faults self.old) }
        ensures fault { OnErr result (faults self.old < faults self.new) };
}

/// A datagram with these bytes; `None` if an allocation is refused.
pub fn datagram(alloc: Global, bytes: &[u8]) -> Option<Sequence<u8>>
    ensures { IfSome result (λ datagram. datagram ≡ bytes.now) }
{
    let copy = Vec::from_slice(alloc, bytes).ok()?;
    Some(Sequence::from_vec(copy))
}

/// A clock of whole seconds. `shows` is a relation that each implementation defines: code that is
/// generic over the clock can establish it only by reading the clock.
pub trait Seconds {
    ghost shows: { Self → ℕ → Self → Type 0 };

    /// The present moment. The clock of `routerd` shows the whole seconds since the Unix epoch,
    /// 1970-01-01 00:00:00 UTC, and never goes back; that of a test may begin anywhere.
    fn second(&mut self) -> Second
        ensures { shows self.old result self.new };
}
