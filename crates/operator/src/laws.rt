//! What the definitions mean, as laws.
ghost use Rattle.operator.specs.Shown.{ABookShowsItsTable};

/// What the console shows as the table of a router's book is the text of the routing table of a
/// router, at the moment of its last event.
pub fn a_book_shows_its_table()
    ensures { ABookShowsItsTable }
{}
