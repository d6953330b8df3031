//! The LSAs of a received Link State Update in turn (RFC 2328, section 13).
ghost use Rattle.std.specs.Prelude.{◌≡◌, ◌≤◌, IfOk, length};
ghost use Rattle.lsa.specs.Reading.{lsa_in};
ghost use Rattle.received.specs.Updates.{goes_on};
ghost use Rattle.event_rules.specs.Packets.{after_lsas, after_parsed};
ghost use Rattle.area.specs.Cases.{case_of, is_to_be_installed};
ghost use Rattle.router.specs.Making.{RouterDoes};
ghost use Rattle.router.specs.Received.{goes_on_at};

use crate::originate::receive_self_originated;
use crate::state::Router;
use area::Case;
use lsa::{Lsa, LsaError, read};
use std::alloc::{AllocError, Global};
use words::{Second, Sequence};

// Whether an LSA of this case is to be installed: it is newer than the copy, or there is none, and
// MinLSArrival doesn't forbid it.
fn is_to_be_installed(case: Case) -> bool
    ensures { result ≡ is_to_be_installed (case_of case) }
{
    match case {
        Case::NothingToFlush => false,
        Case::TooSoon => false,
        Case::Newer => true,
        Case::BadRequest => false,
        Case::ImpliedAcknowledgment => false,
        Case::Duplicate => false,
        Case::SequenceWraps => false,
        Case::SentJustNow => false,
        Case::Older => false,
    }
}

// After a bad request (BadLSReq) the rest of the Link State Update is dropped.
fn goes_on(case: Case) -> bool
    ensures { result ≡ goes_on (case_of case) }
{
    match case {
        Case::NothingToFlush => true,
        Case::TooSoon => true,
        Case::Newer => true,
        Case::BadRequest => false,
        Case::ImpliedAcknowledgment => true,
        Case::Duplicate => true,
        Case::SequenceWraps => true,
        Case::SentJustNow => true,
        Case::Older => true,
    }
}

// The LSA in the bytes, if they encode one.
fn read_lsa(alloc: Global, bytes: &[u8]) -> Result<Option<Lsa>, AllocError>
    ensures { IfOk result (λ lsa. lsa ≡ lsa_in bytes.now) }
{
    match read(alloc, bytes) {
        Ok(lsa) => Ok(Some(lsa)),
        Err(LsaError::Fault(_fault)) => Ok(None),
        Err(LsaError::Memory) => Err(AllocError),
    }
}

impl Router {
    // Processes the bytes of an LSA, or bytes that encode none. Returns whether the rest of the
    // Link State Update is processed. One of the case `Newer` is installed and flooded; if it is
    // self-originated, it is originated again or flushed.
    fn receive_lsa(
        &mut self,
        alloc: Global,
        moment: Second,
        interface: usize,
        bytes: &[u8],
    ) -> Result<bool, AllocError>
        requires first { 1 ≤ interface }
        requires last { interface ≤ length self.old.present.area.links }
        ensures goes_on { IfOk result (λ goes. goes
            ≡ goes_on_at moment interface (lsa_in bytes.now) self.old.present) }
        ensures does { RouterDoes (after_parsed moment interface (lsa_in bytes.now))
            self.old self.new result }
    {
        let parsed = read_lsa(alloc, bytes)?;
        let Some(lsa) = parsed else {
            return Ok(true);
        };
        let header = lsa.header();
        let case = self.area.case_at(moment, interface, &lsa);
        let newer = is_to_be_installed(case);
        if newer {
            self.area.flood_and_install(alloc, moment, interface, lsa)?;
            receive_self_originated(self, alloc, moment, &header)?;
            return Ok(true);
        }
        self.area
            .carry_out_case(alloc, case, moment, interface, &lsa)?;
        Ok(goes_on(case))
    }
}

/// Processes the LSAs of a Link State Update that was received at the interface with this number,
/// from a neighbor in Exchange or later: in turn, up to a bad request. Bytes that encode no LSA are
/// skipped: they aren't acknowledged, so the neighbor goes on sending them, and a request for such
/// an LSA stays.
///
/// # Errors
/// `AllocError` if an allocation is refused.
pub fn receive_lsas(
    router: &mut Router,
    alloc: Global,
    moment: Second,
    interface: usize,
    lsas: &[Sequence<u8>],
) -> Result<(), AllocError>
    requires first { 1 ≤ interface }
    requires last { interface ≤ length router.old.present.area.links }
    ensures { RouterDoes (after_lsas moment interface lsas.now) router.old router.new result }
{
    for i in 0..lsas.len() {
        let bytes = lsas[i].as_slice();
        let goes = router.receive_lsa(alloc, moment, interface, bytes)?;
        if !goes {
            return Ok(());
        }
    }
    Ok(())
}
