//! A transport and a clock that play back lists, for tests.
ghost use Rattle.std.specs.Prelude.{◌≡◌, ◌≢◌, ℕ, ◌+◌, ◌<◌, ◌≤◌, IfSome, length};
ghost use Rattle.worker.specs.declared.script.Played.TheVariants.{Fault};

use crate::transport::{Seconds, SocketFault, Transport, datagram};
use std::alloc::Global;
use std::sync::atomic::{AtomicBool, Ordering};
use words::{Second, Sequence};

/// The result of a call of the transport.
#[derive(Drop)]
pub enum Answer {
    /// These bytes were received, or what was to be sent was sent.
    Datagram(Sequence<u8>),
    /// Nothing was received, or sending would have blocked.
    Nothing,
    /// The socket failed.
    Fault,
}

// An answer without its bytes, which are at this index.
#[derive(Clone, Copy, PartialEq, Eq)]
enum Played {
    Datagram(usize),
    Nothing,
    Fault,
}

/// Plays back the answers, one for each call that receives or sends, and tells the worker to end at
/// the first call after the last one.
#[derive(Drop)]
pub struct Script<'a> {
    answers: Vec<Answer>,
    played: usize,
    /// The number of calls that failed.
    pub faults: usize,
    /// The number of datagrams that were sent.
    pub sent: usize,
    quit: &'a AtomicBool,
    ghost counted: { faults ≤ played },
}

impl<'a> Script<'a> {
    /// A script with these answers, which sets `quit` after the last one.
    pub fn new(answers: Vec<Answer>, quit: &'a AtomicBool) -> Script<'a>
        ensures { result.faults ≡ 0 }
    {
        Script {
            answers,
            played: 0,
            faults: 0,
            sent: 0,
            quit,
        }
    }

    fn next(&mut self) -> Played
        ensures sent { self.new.sent ≡ self.old.sent }
        ensures fine { result ≢ Fault → self.new.faults ≡ self.old.faults }
        ensures fault { result ≡ Fault → self.old.faults < self.new.faults }
    {
        let at = self.played;
        if at >= self.answers.len() {
            self.quit.store(true, Ordering::SeqCst);
            return Played::Nothing;
        }
        self.played += 1;
        match self.answers[at] {
            Answer::Datagram(_) => Played::Datagram(at),
            Answer::Nothing => Played::Nothing,
            Answer::Fault => {
                self.faults += 1;
                Played::Fault
            }
        }
    }

    // A copy of the datagram at this index, cut to 8,193 bytes; `None` if an allocation is refused.
    fn copied(&self, alloc: Global, at: usize) -> Option<Sequence<u8>>
        ensures { IfSome result (λ datagram. length datagram ≤ 8193) }
    {
        let Some(Answer::Datagram(bytes)) = self.answers.get(at) else {
            return None;
        };
        let length = bytes.as_slice().len().min(8193);
        datagram(alloc, &bytes.as_slice()[..length])
    }
}

impl<'a> Transport for Script<'a> {
    ghost faults = { λ s. s.faults };

    // Receiving sends nothing.
    ghost hears = { λ s _ t. t.sent ≡ s.sent };

    // At most one more datagram was sent.
    ghost gives = { λ s interface bytes t. t.sent ≤ s.sent + 1 };

    fn receive(
        &mut self,
        alloc: Global,
        _buffer: &mut [u8; 8193],
    ) -> Result<Option<Sequence<u8>>, SocketFault> {
        match self.next() {
            Played::Datagram(at) => Ok(self.copied(alloc, at)),
            Played::Nothing => Ok(None),
            Played::Fault => Err(SocketFault {}),
        }
    }

    fn send(&mut self, _interface: u16, _bytes: &[u8]) -> Result<bool, SocketFault> {
        match self.next() {
            Played::Datagram(_) => {
                self.sent = self.sent.saturating_add(1);
                Ok(true)
            }
            Played::Nothing => Ok(false),
            Played::Fault => Err(SocketFault {}),
        }
    }
}

/// Plays back moments, one for each call, and stays at the last one; without any it stays at 0.
#[derive(Drop)]
pub struct Times {
    moments: Vec<u64>,
    played: usize,
}

impl Times {
    /// A clock that shows these moments.
    pub fn new(moments: Vec<u64>) -> Times {
        Times { moments, played: 0 }
    }
}

impl Seconds for Times {
    ghost use Rattle.std.specs.Prelude.{⊤};

    // Its moments are those of the list, which may decrease.
    ghost shows = { λ _ _ _. ⊤ };

    fn second(&mut self) -> Second {
        let at = self.played;
        self.played = at.saturating_add(1);
        let count = match self.moments.get(at) {
            Some(count) => *count,
            None => match self.moments.last() {
                Some(count) => *count,
                None => 0,
            },
        };
        Second::new(count)
    }
}
