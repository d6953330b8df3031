//! Runs of a router in which its clock doesn't go back, as laws, each carried by a function with an
//! empty body.

ghost use Rattle.event_rules.specs.Clocks.{RoutersRefuseClocksThatGoBack};

/// A router refuses an event that is earlier than the one before it, or than its start. So in a run
/// of events that no rule refuses the clock doesn't go back, nor does it come to its end; and the
/// router's moment, which is that of the last event, is no earlier than it was.
pub fn routers_refuse_clocks_that_go_back()
    ensures { RoutersRefuseClocksThatGoBack }
{}
