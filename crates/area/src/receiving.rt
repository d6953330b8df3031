//! Processing an LSA of a received Link State Update (RFC 2328, section 13).
ghost use Rattle.std.specs.Prelude.{◌≡◌, ◌≤◌, false, length};
ghost use Rattle.std.specs.FinMap as finite;
ghost use Rattle.received.specs.Updates.{after_case, case_at, send_copy};
ghost use Rattle.area.specs.Cases.{case_of, is_to_be_installed};
ghost use Rattle.area.specs.Doing.{AreaDoes};
ghost use Rattle.area.specs.Links.{with_no_sends};

use crate::area::Area;
use crate::cases::{Case, case_on};
use crate::on_links::{
    any_exchange_or_loading, bad_request, draft_direct_acknowledgment, draft_update,
    remove_retransmission,
};
use lsa::Lsa;
use std::alloc::{AllocError, Global};
use words::{Key, Second};

impl Area {
    /// The case of an LSA of a Link State Update that was received at the interface with this
    /// number, 1 or greater.
    pub fn case_at(&self, moment: Second, interface: usize, lsa: &Lsa) -> Case
        requires first { 1 ≤ interface }
        requires last { interface ≤ length self.now.present.links }
        ensures { case_of result ≡ case_at moment interface lsa.now self.now.present }
    {
        let header = lsa.header();
        let key = header.key();
        let copy = self.database.get(&key);
        let links = self.links();
        let synchronizing = any_exchange_or_loading(links);
        let i = interface - 1;
        case_on(moment, &copy, &links[i], synchronizing, lsa)
    }

    // Sends the copy of this key, if there is one, to the sender, without putting it on the
    // retransmission list.
    fn draft_copy(
        &mut self,
        alloc: Global,
        moment: Second,
        interface: usize,
        key: &Key,
    ) -> Result<(), AllocError>
        requires first { 1 ≤ interface }
        requires last { interface ≤ length self.old.present.links }
        ensures { AreaDoes
            (λ a. send_copy moment interface (finite.get a.database key.now) (with_no_sends a))
            self.old self.new result }
    {
        let Some(copy) = self.database.get(key) else {
            return Ok(());
        };
        let header = copy.header(moment);
        draft_update(alloc, moment, interface, &copy, &mut self.links)?;
        let sent_key = header.key();
        self.database.mark_sent(moment, &sent_key)
    }

    /// Carries out each case of a received LSA but `Newer`, which the caller must not hand it: an
    /// LSA that is newer than the copy goes to [`flood_and_install`](Area::flood_and_install), and
    /// `router_state` then looks whether it is self-originated (RFC 2328, sections 13 and 13.4).
    /// `case` is that of `case_at` for this LSA at this interface.
    ///
    /// A duplicate is acknowledged directly, and so is an LSA at MaxAge if there is nothing to
    /// flush. The same instance as on the sender's retransmission list is removed from there. One
    /// that is on the request list but not newer is BadLSReq; the caller then drops the rest of the
    /// packet. If the copy is newer, it is sent to the sender. Nothing is done within MinLSArrival,
    /// or if the newer copy has MaxAge and MaxSequenceNumber or was just sent.
    ///
    /// # Errors
    /// `AllocError` if an allocation is refused.
    pub fn carry_out_case(
        &mut self,
        alloc: Global,
        case: Case,
        moment: Second,
        interface: usize,
        lsa: &Lsa,
    ) -> Result<(), AllocError>
        requires first { 1 ≤ interface }
        requires last { interface ≤ length self.old.present.links }
        requires other { is_to_be_installed (case_of case) ≡ false }
        ensures { AreaDoes (λ a.
            after_case (case_of case) moment interface lsa.now (with_no_sends a))
            self.old self.new result }
    {
        let header = lsa.header();
        match case {
            Case::NothingToFlush => draft_direct_acknowledgment(interface, header, &mut self.links),
            Case::TooSoon => Ok(()),
            // Excluded by what is required: `flood_and_install` takes it.
            Case::Newer => Ok(()),
            Case::BadRequest => bad_request(alloc, moment, interface, &mut self.links),
            Case::ImpliedAcknowledgment => remove_retransmission(
                interface,
                &header,
                &mut self.links,
            ),
            Case::Duplicate => draft_direct_acknowledgment(interface, header, &mut self.links),
            Case::SequenceWraps => Ok(()),
            Case::SentJustNow => Ok(()),
            Case::Older => {
                let key = header.key();
                self.draft_copy(alloc, moment, interface, &key)
            }
        }
    }
}
