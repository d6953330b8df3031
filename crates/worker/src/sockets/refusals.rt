//! What the outcome of a call at a socket says.
ghost use Rattle.std.specs.Prelude.{◌≡◌, IfErr, IfOk, IsErr, IsFalse, IsTrue, true, false};
ghost use Rattle.worker.specs.SocketRefusals.{is_lost, is_passing, is_passing_kind};
ghost use Rattle.worker.specs.SocketRefusals.{is_passing_number};

use crate::transport::SocketFault;
use std::io::{self, ErrorKind};

fn is_passing_kind(kind: ErrorKind) -> bool
    ensures { result ≡ is_passing_kind kind }
{
    matches!(
        kind,
        ErrorKind::WouldBlock
            | ErrorKind::Interrupted
            | ErrorKind::PermissionDenied
            | ErrorKind::NetworkDown
            | ErrorKind::NetworkUnreachable
            | ErrorKind::HostUnreachable
            | ErrorKind::ConnectionRefused
            | ErrorKind::ConnectionReset
            | ErrorKind::AddrNotAvailable
            | ErrorKind::TimedOut
            | ErrorKind::OutOfMemory
    )
}

// Linux's EMSGSIZE (90), ENETRESET (102), ENOBUFS (105) and EHOSTDOWN (112) have no kind.
fn is_passing_number(number: Option<i32>) -> bool
    ensures { result ≡ is_passing_number number }
{
    match number {
        Some(number) => number == 90 || number == 102 || number == 105 || number == 112,
        None => false,
    }
}

// Whether the socket is of use after this error: what went wrong is one packet, its path or a
// passing condition.
fn is_passing(error: &io::Error) -> bool
    ensures { result ≡ is_passing error.now }
{
    is_passing_kind(error.kind()) || is_passing_number(error.raw_os_error())
}

// Whether an error says that a packet is lost that was to be sent. A route that lets packets vanish
// (a `blackhole`) refuses a send as an argument that is wrong.
fn is_lost(error: &io::Error) -> bool
    ensures { result ≡ is_lost error.now }
{
    is_passing(error) || matches!(error.kind(), ErrorKind::InvalidInput)
}

/// Whether a packet went out, by what a send answered: a packet that the system refuses to send
/// because of itself or of its path (a firewall rule, no route, no buffer space) is lost, as OSPF
/// expects some to be.
///
/// # Errors
/// `SocketFault` if the error says that the socket is of no use.
pub fn judge_send(outcome: io::Result<usize>) -> Result<bool, SocketFault>
    ensures went { IfOk outcome (λ _. result ≡ Ok true) }
    ensures lost { IfErr outcome (λ error. IsTrue (is_lost error) → result ≡ Ok false) }
    ensures fault { IfErr outcome (λ error. IsFalse (is_lost error) → IsErr result) }
{
    match outcome {
        Ok(_) => Ok(true),
        Err(error) if is_lost(&error) => Ok(false),
        Err(_) => Err(SocketFault {}),
    }
}

/// The length of the datagram that came, by what a receive answered; `None` if none did, or the
/// system refused the receive because of a packet or its path.
///
/// # Errors
/// `SocketFault` if the error says that the socket is of no use.
pub fn judge_receive(outcome: io::Result<usize>) -> Result<Option<usize>, SocketFault>
    ensures length { IfOk outcome (λ length. result ≡ Ok (Some length)) }
    ensures none { IfErr outcome (λ error. IsTrue (is_passing error) → result ≡ Ok None) }
    ensures fault { IfErr outcome (λ error. IsFalse (is_passing error) → IsErr result) }
{
    match outcome {
        Ok(length) => Ok(Some(length)),
        Err(error) if is_passing(&error) => Ok(None),
        Err(_) => Err(SocketFault {}),
    }
}
