//! Waiting at a socket until a datagram may be there.
ghost use Rattle.std.specs.Prelude.{◌≡◌, ℕ, IfOk, OnErr, OnOk, ⊤};

use mio::net::UdpSocket;
use mio::unix::SourceFd;
use mio::{Events, Interest, Poll, Token};
use std::alloc::Global;
use std::io::{self, ErrorKind};
use std::net::Net;
use std::os::fd::AsRawFd;
use std::time::Duration;

/// Waits until a datagram may be there.
///
/// `waited` is a relation that each implementation defines: code that is generic over the waiter
/// can establish it only by waiting.
pub trait Waits {
    ghost waited: { Self → (seconds : ℕ) → Self → Type 0 };

    /// Waits until a datagram may be there, but no longer than `seconds`. A signal may end it
    /// earlier, which is no error.
    ///
    /// # Errors
    /// What the system says if it can't wait.
    fn wait(&mut self, seconds: u64) -> io::Result<()>
        ensures { OnOk result (waited self.old seconds self.new) };
}

/// Makes waiters, each for one socket.
///
/// `listens` (a waiter and its socket) and `fails` (a socket that can't be waited at) are relations
/// that each implementation defines: code that is generic over it can establish them only by the
/// call.
pub trait ListensAt<S, E> {
    ghost listens: { E → S → Type 0 };

    ghost fails: { S → Type 0 };

    /// A waiter for this socket. It may miss a datagram that was there before, so the socket is
    /// read first.
    ///
    /// # Errors
    /// `OutOfMemory` if an allocation is refused, else what the system says if the socket can't be
    /// waited at.
    fn listen(&self, alloc: Global, socket: &S) -> io::Result<E>
        ensures listening { IfOk result (λ ear. listens ear socket.now) }
        ensures failed { OnErr result (fails socket.now) };
}

/// A poll of the system with one socket: it waits until a datagram may be there.
#[derive(Drop)]
pub struct Ear {
    poll: Poll,
    events: Events,
}

// No contract says how long the system waits.
impl Waits for Ear {
    ghost waited = { λ _ _ _. ⊤ };

    fn wait(&mut self, seconds: u64) -> io::Result<()> {
        match self
            .poll
            .poll(&mut self.events, Some(Duration::from_secs(seconds)))
        {
            Ok(()) => Ok(()),
            Err(error) => match error.kind() {
                ErrorKind::Interrupted => Ok(()),
                _ => Err(error),
            },
        }
    }
}

/// Makes an [`Ear`] for a socket of the system. No contract says what the system does.
#[derive(Drop)]
pub struct SystemPoller<'a, R> {
    pub rt: &'a R,
}

impl<'a, R: Net> ListensAt<UdpSocket, Ear> for SystemPoller<'a, R> {
    ghost listens = { λ _ _. ⊤ };

    ghost fails = { λ _. ⊤ };

    fn listen(&self, alloc: Global, socket: &UdpSocket) -> io::Result<Ear> {
        let poll = Poll::new(self.rt)?;
        let events = Events::with_capacity(alloc, 1)?;
        let fd = socket.as_raw_fd();
        poll.registry()
            .register(&mut SourceFd(&fd), Token(0), Interest::READABLE)?;
        Ok(Ear { poll, events })
    }
}
