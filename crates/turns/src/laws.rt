//! Laws of turns, carried by functions that do nothing.
ghost use Rattle.turns.specs.Laws.{
  AnswersAreBesideATable,
  BooksNeverReachTheEndOfTheClock,
  EventOfADatagramIsItsPacket,
};

/// A turn for a datagram gives the packet that came, whatever a program at `count` answers. What it
/// leaves in counters and cells may reach later answers of `tag`, `price` and `veto`.
pub fn the_event_of_a_datagram_is_its_packet()
    ensures { EventOfADatagramIsItsPacket }
{}

/// If a table is offered, the answers of an announcement are beside the rows of one that is: if no
/// program stands at `tag` and `price`, they are the same beside each.
pub fn answers_are_beside_a_table()
    ensures { AnswersAreBesideATable }
{}

/// A book that began before the end of the clock refuses an `Install` for its moment only if that
/// is the end of the clock, or past it: then the worker's own clock has come there.
pub fn books_never_reach_the_end_of_the_clock()
    ensures { BooksNeverReachTheEndOfTheClock }
{}
