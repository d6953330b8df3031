//! The questions of the four hooks.
ghost use Rattle.std.specs.Prelude.{◌≡◌, IfSome, IfNone};
ghost use Rattle.maps.specs.Words.{IsSeatOf};
ghost use Rattle.hooks.specs.Answered.{IsAnswered};
ghost use Rattle.hooks.specs.Known.{known_to, asker_history};
ghost use Rattle.hooks.specs.Questions.{count_input, tag_input, price_input, veto_input};

use crate::answer::{PriceAnswer, TagAnswer, VetoAnswer};
use crate::asker::{Asker, HookAnswer};
use machine::{Input, TableRow, count_context, price_context, tag_context, veto_context};
use maps::{Seat, Shared};
use words::{External, Route, Second};

/// A question never blocks or allocates. `None` if the published programs can't be read: entering
/// was refused, or they are older than those that the asker knows. Asker and seat are then
/// unchanged. The seat has to be one of `shared`.
impl Asker {
    /// Asks `count` about a packet that came in on the interface at this moment, before it is
    /// parsed.
    pub fn count(
        &mut self,
        interface: u16,
        moment: Second,
        packet: &[u8],
        shared: &Shared,
        seat: &mut Seat,
    ) -> Option<HookAnswer>
        requires table { IsSeatOf shared.now seat.old }
        ensures history { asker_history self.new ≡ asker_history self.old }
        ensures unread { IfNone result ((known_to self.new ≡ known_to self.old)
            × (seat.new ≡ seat.old)) }
        ensures answered { IfSome result (λ a. IsAnswered (known_to self.old) (known_to self.new)
            seat.old seat.new (count_input interface moment packet.now) a.word) }
        ensures table { IsSeatOf shared.now seat.new }
    {
        let input = Input {
            context: count_context(interface, moment, packet),
            packet,
            rows: &[],
        };
        let answer = self.ask(&input, shared, seat)?;
        Some(answer)
    }

    /// Asks `tag` for the tag to announce an external destination with, given the rows of a table.
    pub fn tag(
        &mut self,
        external: &External,
        moment: Second,
        rows: &[TableRow],
        shared: &Shared,
        seat: &mut Seat,
    ) -> Option<TagAnswer>
        requires table { IsSeatOf shared.now seat.old }
        ensures history { asker_history self.new ≡ asker_history self.old }
        ensures unread { IfNone result ((known_to self.new ≡ known_to self.old)
            × (seat.new ≡ seat.old)) }
        ensures question { IfSome result (λ a. (a.external ≡ external.now) × (a.moment ≡ moment)) }
        ensures answered { IfSome result (λ a. IsAnswered (known_to self.old) (known_to self.new)
            seat.old seat.new (tag_input external.now moment rows.now) a.word) }
        ensures table { IsSeatOf shared.now seat.new }
    {
        let input = Input {
            context: tag_context(*external, moment),
            packet: &[],
            rows,
        };
        let answer = self.ask(&input, shared, seat)?;
        Some(TagAnswer::new(*external, moment, answer.word))
    }

    /// Asks `price` for the metric to announce an external destination with, given the rows of a
    /// table.
    pub fn price(
        &mut self,
        external: &External,
        moment: Second,
        rows: &[TableRow],
        shared: &Shared,
        seat: &mut Seat,
    ) -> Option<PriceAnswer>
        requires table { IsSeatOf shared.now seat.old }
        ensures history { asker_history self.new ≡ asker_history self.old }
        ensures unread { IfNone result ((known_to self.new ≡ known_to self.old)
            × (seat.new ≡ seat.old)) }
        ensures question { IfSome result (λ a. (a.external ≡ external.now) × (a.moment ≡ moment)) }
        ensures answered { IfSome result (λ a. IsAnswered (known_to self.old) (known_to self.new)
            seat.old seat.new (price_input external.now moment rows.now) a.word) }
        ensures table { IsSeatOf shared.now seat.new }
    {
        let input = Input {
            context: price_context(*external, moment),
            packet: &[],
            rows,
        };
        let answer = self.ask(&input, shared, seat)?;
        Some(PriceAnswer::new(*external, moment, answer.word))
    }

    /// Asks `veto` whether to keep a route out of the table, given the rows of a table; 0 lets it
    /// in. A router asks about all its candidates by [`vetoes`](Asker::vetoes).
    pub fn veto(
        &mut self,
        route: &Route,
        moment: Second,
        rows: &[TableRow],
        shared: &Shared,
        seat: &mut Seat,
    ) -> Option<VetoAnswer>
        requires table { IsSeatOf shared.now seat.old }
        ensures history { asker_history self.new ≡ asker_history self.old }
        ensures unread { IfNone result ((known_to self.new ≡ known_to self.old)
            × (seat.new ≡ seat.old)) }
        ensures question { IfSome result (λ a. (a.route ≡ route.now) × (a.moment ≡ moment)) }
        ensures answered { IfSome result (λ a. IsAnswered (known_to self.old) (known_to self.new)
            seat.old seat.new (veto_input route.now moment rows.now) a.word) }
        ensures table { IsSeatOf shared.now seat.new }
    {
        let input = Input {
            context: veto_context(*route, moment),
            packet: &[],
            rows,
        };
        let answer = self.ask(&input, shared, seat)?;
        Some(VetoAnswer::new(*route, moment, answer.word))
    }
}
