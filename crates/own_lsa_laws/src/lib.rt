//! Laws about the LSAs in the database with this router as Advertising Router, whoever originated
//! them, each the contract of a function with an empty body (RFC 2328, sections 12.4 and 13.4): in
//! every run, and in the router that workers serve.
#![tactic(auto)]

ghost use Rattle.own_lsa_laws.specs.OwnCopies.{NobodySpeaksForThisRouter};
ghost use Rattle.own_lsa_laws.specs.Worked.{WorkedOwnCopies};

pub mod workers;

/// No other router speaks for this one for longer than MinLSInterval, five seconds, in any run from
/// the start in which the clock doesn't go back, whatever is received (RFC 2328, section 13.4).
/// After every event, each copy in the database that is below MaxAge and has this router as
/// Advertising Router is an LSA that the router wants to originate; and either it has the wanted
/// body, or it waits for a Tick to be replaced. What isn't wanted is at MaxAge. After a Tick only
/// MinLSInterval prevents a replacement: the copy was stored less than five seconds ago.
pub fn nobody_speaks_for_this_router()
    ensures { NobodySpeaksForThisRouter }
{}

/// Worked examples of routers without a neighbor whose database has an LSA that another router sent
/// in their name. A router that keeps an LSA that it doesn't want, or one with other links that
/// doesn't wait for a Tick, or that keeps it five seconds after its last origination, doesn't speak
/// for itself; one that flushes it, or waits for a Tick within these five seconds, does.
pub fn worked_own_copies()
    ensures { WorkedOwnCopies }
{}
