//! The events of a router.
ghost use Rattle.std.specs.Prelude.{◌≡◌, ◌<◌, ◌^◌, IfOk};
ghost use Rattle.flood.specs.Occurrences.{is_install, occurrence_of};

use hooks::{PriceAnswer, TagAnswer, VetoAnswers};
use std::alloc::AllocError;
use words::{Prefix, Sequence};

/// What happens to a router at a moment.
#[derive(Drop)]
pub enum Event {
    /// These bytes were received at the interface with this number.
    Packet(u16, Sequence<u8>),
    /// Time has passed: what is due is done. Timers expire at a `Tick` and at no other event; that
    /// an LSA reaches MaxAge is noticed at each event.
    Tick,
    /// An external destination is to be announced, with these answers for its tag and its metric.
    Redistribute(TagAnswer, PriceAnswer),
    /// The external destination with this prefix is to be withdrawn.
    Withdraw(Prefix),
    /// Routes, each with the answer whether it is kept out of the routing table: of a turn those
    /// that were offered. No rule asks whether they were, or who answered.
    Install(VetoAnswers),
    /// The neighbor at the interface with this number goes Down (LLDown, RFC 2328, section 10.3).
    /// The interface stays up: it goes on sending Hellos, and its network stays announced.
    LinkDown(u16),
}

/// For the prover alone: tells it that the destination's address is in the range of its type. It
/// does nothing at run time.
pub fn prove_address(price: &PriceAnswer)
    ensures { price.now.external.prefix.address < 2 ^ 32 }
{
    let _address = price.external().prefix.address().bits();
}

impl Event {
    /// A copy of the event.
    ///
    /// # Errors
    /// `AllocError` if an allocation is refused.
    pub fn copy(&self) -> Result<Event, AllocError>
        ensures { IfOk result (λ copy. copy ≡ self.now) }
    {
        match self {
            Event::Packet(interface, bytes) => Ok(Event::Packet(*interface, bytes.copy()?)),
            Event::Tick => Ok(Event::Tick),
            Event::Redistribute(tag, price) => Ok(Event::Redistribute(*tag, *price)),
            Event::Withdraw(prefix) => Ok(Event::Withdraw(*prefix)),
            Event::Install(answers) => Ok(Event::Install(answers.copy()?)),
            Event::LinkDown(interface) => Ok(Event::LinkDown(*interface)),
        }
    }

    /// Whether it brings the answers of the program at `veto`.
    pub fn is_install(&self) -> bool
        ensures { result ≡ is_install (occurrence_of self.now) }
    {
        match self {
            Event::Packet(_, _) => false,
            Event::Tick => false,
            Event::Redistribute(_, _) => false,
            Event::Withdraw(_) => false,
            Event::Install(_) => true,
            Event::LinkDown(_) => false,
        }
    }
}
