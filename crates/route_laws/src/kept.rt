//! Worked examples of which LSAs are unchanged from one event to the next (RFC 2328, sections 13.2
//! and 16), each the contract of a function with an empty body.
ghost use Rattle.route_laws.specs.WorkedCopies.{WorkedCopies, WorkedTypes};

/// Which LSAs are unchanged: also those with another instance that says the same below MaxAge, and
/// those that were sent; but not those that are added or removed, reach MaxAge or say something
/// else.
pub fn worked_copies()
    ensures { WorkedCopies }
{}

/// LSAs of which types count: those up to and including the last type, or all if there is none.
pub fn worked_types()
    ensures { WorkedTypes }
{}
