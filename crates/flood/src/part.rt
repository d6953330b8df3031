//! The own part of an event, after its bytes are parsed and its answers checked for agreement.
ghost use Rattle.std.specs.Prelude.{◌≡◌, ◌≤◌, ◌<◌, ◌^◌, ℕ, IfOk, None, length};
ghost use Rattle.event_rules.specs.Refusals.{bad_packet};
ghost use Rattle.event_rules.specs.Routers.{Occurrence};
ghost use Rattle.packet.specs.Reading.{fault_of};
ghost use Rattle.invariants.specs.Keeping.{AnnouncesAddress};
ghost use Rattle.flood.specs.Early.{early_refusal_of};
ghost use Rattle.flood.specs.Occurrences.{occurrence_of, words_of};
ghost use Rattle.flood.specs.Parts.{HasInterface, IsPartOf, RefusesAs, late_refusal};

use crate::clash::clashes;
use crate::event::{Event, prove_address};
use event_rules::CoreError;
use hooks::{PriceAnswer, TagAnswer, VetoAnswers};
use keyed_map::RouteAnswers;
use packet::{Packet, read};
use router::Router;
use std::alloc::{AllocError, Global};
use words::{External, Prefix};

/// The own part of an event.
#[derive(Drop)]
pub enum Part {
    /// This packet was received at the interface with this number.
    Packet(usize, Packet),
    /// Time has passed.
    Tick,
    /// A destination is to be announced, with the answers for its tag and its metric.
    Redistribute(External, u64, u64),
    /// A destination is to be withdrawn.
    Withdraw(Prefix),
    /// The routes that were offered, each with the program's answer.
    Install(RouteAnswers),
    /// The neighbor at the interface with this number goes Down.
    LinkDown(usize),
}

fn read_packet(alloc: Global, interface: u16, bytes: &[u8]) -> Result<Part, CoreError>
    ensures part { IfOk result (λ part. IsPartOf (Occurrence.Packet interface bytes.now) part) }
    ensures interface { IfOk result (λ part. (count : ℕ)
        → 1 ≤ interface → interface ≤ count → HasInterface part count) }
    ensures tells { RefusesAs (bad_packet (fault_of bytes.now)) result }
{
    let packet = read(alloc, bytes)?;
    Ok(Part::Packet(usize::from(interface), packet))
}

// The two answers, which have to be for one destination whose Link State ID no other announced
// prefix has.
fn read_answers(router: &Router, tag: &TagAnswer, price: &PriceAnswer) -> Result<Part, CoreError>
    ensures part { IfOk result (λ part. IsPartOf (Occurrence.Redistribute
        tag.now.external tag.now.word price.now.external price.now.word) part) }
    ensures interface { IfOk result (λ part. (count : ℕ) → HasInterface part count) }
    ensures tells { RefusesAs (late_refusal router.now.present (Occurrence.Redistribute
        tag.now.external tag.now.word price.now.external price.now.word)) result }
    ensures address { price.now.external.prefix.address < 2 ^ 32 }
{
    // For the prover alone, by what the call ensures.
    prove_address(price);
    if clashes(router, tag.external(), price.external()) {
        return Err(CoreError::Clash);
    }
    Ok(Part::Redistribute(price.external(), tag.word(), price.word()))
}

fn read_vetoes(alloc: Global, answers: &VetoAnswers) -> Result<Part, AllocError>
    ensures { IfOk result (λ part. part ≡ Part.Install (words_of answers.now)) }
{
    let words = answers.words(alloc)?;
    Ok(Part::Install(words))
}

/// The own part of an event for a router that accepts its moment and its interface.
///
/// # Errors
/// `BadPacket` if the bytes encode no packet, `Clash` if the two answers of a `Redistribute` are
/// for different destinations or the Link State ID is that of another announced prefix, `Memory` if
/// an allocation is refused.
pub fn read_part(router: &Router, alloc: Global, event: &Event) -> Result<Part, CoreError>
    requires { early_refusal_of router.now.present (occurrence_of event.now) ≡ None }
    ensures part { IfOk result (λ part. IsPartOf (occurrence_of event.now) part) }
    ensures interface { IfOk result (λ part. HasInterface part
        (length router.now.present.area.links)) }
    ensures tells { RefusesAs (late_refusal router.now.present (occurrence_of event.now)) result }
    ensures address { AnnouncesAddress (occurrence_of event.now) }
{
    match event {
        Event::Packet(interface, bytes) => read_packet(alloc, *interface, bytes.as_slice()),
        Event::Tick => Ok(Part::Tick),
        Event::Redistribute(tag, price) => read_answers(router, tag, price),
        Event::Withdraw(prefix) => Ok(Part::Withdraw(*prefix)),
        Event::Install(answers) => Ok(read_vetoes(alloc, answers)?),
        Event::LinkDown(interface) => Ok(Part::LinkDown(usize::from(*interface))),
    }
}
