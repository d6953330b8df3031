//! What packets from a neighbor do to the conversation with it (RFC 2328, sections 10.5 to 10.7 and
//! 13.7).
ghost use Rattle.std.specs.Prelude.{◌≡◌, ◌≤◌, length, true};
ghost use Rattle.received.specs.Links.{neighbor_at};
ghost use Rattle.event_rules.specs.EventState.{on_area};
ghost use Rattle.event_rules.specs.Packets.{neighbor_is_exchange_or_later, receive_acknowledgment};
ghost use Rattle.event_rules.specs.Packets.{receive_description, receive_hello};
ghost use Rattle.event_rules.specs.Packets.{receive_request};
ghost use Rattle.router.specs.Making.{RouterDoes};

use crate::received_hellos::ReceivingHello;
use crate::state::Router;
use area::{ReceivingAcknowledgment, ReceivingDescription, ReceivingRequest};
use lsa::Header;
use packet::{Description, Hello};
use std::alloc::{AllocError, Global};
use words::{Key, RouterId, Second};

impl Router {
    /// A Hello from the router `from` at the interface with this number (RFC 2328, section 10.5).
    /// It is discarded if the interface and it differ in HelloInterval, RouterDeadInterval or the
    /// E-bit, or if the interface has another neighbor.
    ///
    /// # Errors
    /// `AllocError` if an allocation is refused.
    pub fn receive_hello(
        &mut self,
        alloc: Global,
        moment: Second,
        interface: usize,
        from: RouterId,
        hello: &Hello,
    ) -> Result<(), AllocError>
        requires first { 1 ≤ interface }
        requires last { interface ≤ length self.old.present.area.links }
        ensures { RouterDoes (on_area (receive_hello self.old.present.id moment interface from
            hello.now)) self.old self.new result }
    {
        let receiving = ReceivingHello {
            own: self.id,
            moment,
            from,
            hello,
        };
        self.area.step_link(alloc, moment, interface, &receiving)
    }

    /// A Database Description from the neighbor at the interface with this number (RFC 2328,
    /// section 10.6).
    ///
    /// # Errors
    /// `AllocError` if an allocation is refused.
    pub fn receive_description(
        &mut self,
        alloc: Global,
        moment: Second,
        interface: usize,
        description: &Description,
    ) -> Result<(), AllocError>
        requires first { 1 ≤ interface }
        requires last { interface ≤ length self.old.present.area.links }
        ensures { RouterDoes
            (on_area (receive_description self.old.present.id moment interface description.now))
            self.old self.new result }
    {
        let receiving = ReceivingDescription {
            own: self.id,
            moment,
            description,
        };
        self.area.step_link(alloc, moment, interface, &receiving)
    }

    /// A Link State Request for these keys from the neighbor at the interface with this number,
    /// which is in Exchange or later (RFC 2328, section 10.7): the copies are sent and marked as
    /// sent; if one is missing, none is sent (BadLSReq).
    ///
    /// # Errors
    /// `AllocError` if an allocation is refused.
    pub fn receive_request(
        &mut self,
        alloc: Global,
        moment: Second,
        interface: usize,
        keys: &[Key],
    ) -> Result<(), AllocError>
        requires first { 1 ≤ interface }
        requires last { interface ≤ length self.old.present.area.links }
        requires exchange { neighbor_is_exchange_or_later
            (neighbor_at interface self.old.present.area.links) ≡ true }
        ensures { RouterDoes (on_area (receive_request moment interface keys.now)) self.old self.new
            result }
    {
        let receiving = ReceivingRequest { moment, keys };
        self.area.step_link(alloc, moment, interface, &receiving)
    }

    /// A Link State Acknowledgment of these instances from the neighbor at the interface with this
    /// number (RFC 2328, section 13.7).
    ///
    /// # Errors
    /// `AllocError` if an allocation is refused.
    pub fn receive_acknowledgment(
        &mut self,
        alloc: Global,
        moment: Second,
        interface: usize,
        headers: &[Header],
    ) -> Result<(), AllocError>
        requires first { 1 ≤ interface }
        requires last { interface ≤ length self.old.present.area.links }
        ensures { RouterDoes (on_area (receive_acknowledgment moment interface headers.now))
            self.old self.new result }
    {
        let receiving = ReceivingAcknowledgment { moment, headers };
        self.area.step_link(alloc, moment, interface, &receiving)
    }
}
