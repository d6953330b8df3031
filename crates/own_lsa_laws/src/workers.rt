//! What a worker's rounds come to, and that nobody speaks for the router that workers serve, as
//! laws, each carried by a function that does nothing.
ghost use Rattle.std.specs.Prelude.{ℕ};
ghost use Rattle.worker.specs.Lives.{senses_of};
ghost use Rattle.own_lsa_laws.specs.Deeds.{LivesAreDeedsInOrder};
ghost use Rattle.own_lsa_laws.specs.RunningRouter.{NobodySpeaksForTheRunningRouter};

use crate::nobody_speaks_for_this_router;
use event_rules::routers_refuse_clocks_that_go_back;
use worker::{Flag, Seconds, Site, Taker, Transport};

/// Whatever rounds a worker has lived, it did one thing after the other: it looked at its clock, it
/// listened at its transport, or it gave a work to a turn. The works that it gave are, in order,
/// the datagrams that it heard, with Ticks between. Each look at the clock was followed by a Tick
/// at the second that it showed; or, if that was the second of the last Tick, by listening; or it
/// was for a datagram that had just been heard, and was followed by that one's turn. So it is of
/// any transport, any clock, any flag and whatever takes the events.
#[tactic(auto, using(crate::proofs::InOrder::in_order))]
pub fn lives_are_deeds_in_order<L: Site, B: Taker<L>, K: Transport, S: Seconds, F: Flag>()
    ensures { (number : ℕ) → LivesAreDeedsInOrder
        (senses_of K.gives K.hears S.shows B.offers B.took B.refuses number) F.reads }
{}

/// No other router speaks for the running one for longer than MinLSInterval, five seconds, whatever
/// it receives (RFC 2328, section 13.4): a book takes no event that is earlier than the last one,
/// so what holds of every run in which the clock doesn't go back holds of all that a book ever
/// took. Each copy in the router's own name that is below MaxAge has the wanted body, or waits for
/// a Tick to be replaced. After each Tick that a turn gives only MinLSInterval prevents that, and
/// no copy that was stored five seconds before the Tick has another body.
pub fn nobody_speaks_for_the_running_router()
    ensures { NobodySpeaksForTheRunningRouter }
{
    nobody_speaks_for_this_router();
    routers_refuse_clocks_that_go_back();
}
