//! What a Tick and the end of an event do to the links and the database (RFC 2328, sections 9.5,
//! 10.3, 10.8, 10.9, 13.5, 13.6 and 14).
ghost use Rattle.std.specs.Prelude.{map};
ghost use Rattle.received.specs.AreaStates.{on_links};
ghost use Rattle.event_rules.specs.Commands.{after_link_down};
ghost use Rattle.event_rules.specs.EventState.{on_area};
ghost use Rattle.event_rules.specs.Endings.{flood_aged, loading_done};
ghost use Rattle.event_rules.specs.Ticks.{expire_timers};
ghost use Rattle.router.specs.Making.{Makes, RouterDoes};
ghost use Rattle.router.specs.Parts.{request_and_remove_aged, send_what_is_due};

use crate::aging::{flood_aged, remove_aged};
use crate::sent_hellos::SendingHello;
use crate::state::Router;
use area::{EndLoading, ExpireTimers, Link, LinkStep, Lsdb, NextRequest, SendingAgain};
use std::alloc::{AllocError, Global};
use words::Second;

// Each link's delayed acknowledgments, in the order of their keys.
#[derive(Drop)]
struct SendingAcknowledgments;

impl LinkStep for SendingAcknowledgments {
    ghost use Rattle.event_rules.specs.Ticks.{acknowledgments_on, without_acknowledgments};

    ghost after = { λ a database link. without_acknowledgments link };

    ghost sends = { λ a database link. acknowledgments_on link };

    fn apply(&self, alloc: Global, _database: &Lsdb, link: &mut Link) -> Result<(), AllocError> {
        link.draft_delayed_acknowledgments(alloc)
    }
}

impl Router {
    /// Floods each copy that has reached MaxAge since the moment of the last event to every
    /// neighbor (RFC 2328, section 14).
    ///
    /// # Errors
    /// `AllocError` if an allocation is refused.
    pub fn flood_aged(&mut self, alloc: Global, moment: Second) -> Result<(), AllocError>
        ensures { RouterDoes (on_area (flood_aged self.old.present.moment moment))
            self.old self.new result }
    {
        let before = self.moment();
        flood_aged(&mut self.area, alloc, before, moment)
    }

    /// What a Tick sends: what is retransmitted if RxmtInterval has passed (RFC 2328, sections
    /// 10.8, 10.9 and 13.6), then each link's delayed acknowledgments (section 13.5), then a Hello
    /// at each interface at which none was sent for HelloInterval (section 9.5).
    ///
    /// # Errors
    /// `AllocError` if an allocation is refused.
    pub fn send_what_is_due(&mut self, alloc: Global, moment: Second) -> Result<(), AllocError>
        ensures { RouterDoes (send_what_is_due moment) self.old self.new result }
    {
        let again = SendingAgain { moment };
        self.area.step_links(alloc, moment, &again)?;
        self.area
            .step_links(alloc, moment, &SendingAcknowledgments)?;
        let sending = SendingHello { moment };
        self.area.step_links(alloc, moment, &sending)
    }

    /// The end of an event on links and database: the next LSAs are requested from each neighbor
    /// for which nothing is outstanding (RFC 2328, section 10.9), copies at MaxAge that are on no
    /// retransmission list are removed from the database, unless some neighbor is in Exchange or
    /// Loading (section 14), and the moment is noted.
    ///
    /// # Errors
    /// `AllocError` if an allocation is refused.
    pub fn request_and_remove_aged(
        &mut self,
        alloc: Global,
        moment: Second,
    ) -> Result<(), AllocError>
        ensures { RouterDoes (request_and_remove_aged moment) self.old self.new result }
    {
        let requests = NextRequest { moment };
        self.area.step_links(alloc, moment, &requests)?;
        remove_aged(&mut self.area, alloc, moment)?;
        self.moment.set(moment);
        Ok(())
    }

    /// The timers that a Tick finds expired: a neighbor from which no Hello was received for
    /// RouterDeadInterval goes Down, and the last Database Description is discarded that long after
    /// the exchange. It doesn't allocate.
    pub fn expire_timers(&mut self, moment: Second)
        ensures { Makes (on_area (on_links (map (expire_timers moment)))) self.old self.new }
    {
        self.area.change_links(&ExpireTimers { moment });
    }

    /// LoadingDone (RFC 2328, section 10.3): each neighbor goes from Loading to Full if its request
    /// list is empty. It doesn't allocate.
    pub fn end_loading(&mut self)
        ensures { Makes loading_done self.old self.new }
    {
        self.area.change_links(&EndLoading);
    }

    /// The neighbor at the interface with this number goes Down. It doesn't allocate. If there is
    /// no such interface, nothing changes.
    pub fn take_down(&mut self, interface: usize)
        ensures { Makes (after_link_down interface) self.old self.new }
    {
        if interface == 0 {
            return;
        }
        let links = self.area.links();
        if links.len() < interface {
            return;
        }
        self.area.take_down(interface);
    }
}
