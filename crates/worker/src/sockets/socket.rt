//! A socket of datagrams.
ghost use Rattle.std.specs.Prelude.{◌≡◌, ℕ, ◌≤◌, List, [], ◌∷◌, IfErr, IfOk, take, ⊤};
ghost use Rattle.std.specs.Net.Socket.{socket_ip, socket_port};
ghost use Rattle.std.specs.declared.io.Error.{Error};
ghost use Rattle.worker.specs.Addresses.{octets};

use mio::net::UdpSocket;
use std::io;
use std::net::{IpAddr, Ipv4Addr, SocketAddr};

/// A socket of datagrams whose calls don't wait.
///
/// `takes` (bytes for a UDP port of 127.0.0.1), `hands` (a datagram) and `refuses` (why a receive
/// failed) are relations that each implementation defines. Code that is generic over the socket can
/// establish them only by the calls, so a contract that has them shows that the calls were made.
pub trait DatagramSocket {
    ghost takes: { Self → (udp_port : ℕ) → List ℕ → Type 0 };

    ghost hands: { Self → List ℕ → Type 0 };

    ghost refuses: { Self → Error → Type 0 };

    /// Sends the bytes to this UDP port of 127.0.0.1 as one datagram, and returns how many there
    /// were.
    ///
    /// # Errors
    /// What the system says, such as `WouldBlock` if there is no room for it now.
    fn send(&self, bytes: &[u8], udp_port: u16) -> io::Result<usize>
        ensures { takes self.now udp_port bytes.now };

    /// Puts a datagram that is there at the buffer's front. Returns its length. One that is longer
    /// than the buffer is cut.
    ///
    /// # Errors
    /// What the system says, such as `WouldBlock` if none is there now.
    fn receive(&self, buffer: &mut [u8; 8193]) -> io::Result<usize>
        ensures length { IfOk result (λ n. n ≤ 8193) }
        ensures handed { IfOk result (λ n. hands self.now (take n buffer.new)) }
        ensures refused { IfErr result (λ error. refuses self.now error) };
}

// No contract says what the system's socket takes or gives.
impl DatagramSocket for UdpSocket {
    ghost takes = { λ _ _ _. ⊤ };

    ghost hands = { λ _ _. ⊤ };

    ghost refuses = { λ _ _. ⊤ };

    fn send(&self, bytes: &[u8], udp_port: u16) -> io::Result<usize> {
        self.send_to(bytes, address_of(udp_port))
    }

    fn receive(&self, buffer: &mut [u8; 8193]) -> io::Result<usize> {
        // Who sent it isn't asked: a neighbor is known by its Router ID (RFC 2328, section 8.2).
        let (length, _sender) = self.recv_from(buffer)?;
        Ok(length)
    }
}

/// A UDP port of 127.0.0.1.
pub fn address_of(udp_port: u16) -> SocketAddr
    ensures address { octets (socket_ip result) ≡ 127 ∷ 0 ∷ 0 ∷ 1 ∷ [] }
    ensures udp_port { socket_port result ≡ udp_port }
{
    SocketAddr::new(IpAddr::V4(Ipv4Addr::new(127, 0, 0, 1)), udp_port)
}
