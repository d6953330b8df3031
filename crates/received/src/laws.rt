//! Laws about flooding, each the contract of a function with an empty body.
ghost use Rattle.received.specs.Laws.{ExactlyOneCaseApplies, FloodingReplacesOlderInstances};
ghost use Rattle.received.specs.Laws.{FloodingExaminesEachNeighbor};
ghost use Rattle.received.specs.Worked.{WorkedCases};
ghost use Rattle.received.specs.WorkedTable.{WorkedTable};

/// After an LSA was flooded, the retransmission list of a neighbor in Exchange or later has an
/// instance of its key if and only if the neighbor was sent the LSA, and it is the LSA itself: no
/// older one stays (RFC 2328, sections 13 and 13.3).
pub fn flooding_replaces_older_instances()
    ensures { FloodingReplacesOlderInstances }
{}

/// Exactly one case, the first that applies, is that of a parsed LSA in a Link State Update (RFC
/// 2328, section 13).
pub fn exactly_one_case_applies()
    ensures { ExactlyOneCaseApplies }
{}

/// An LSA at MaxAge without a database copy: only acknowledged if no neighbor is in Exchange or
/// Loading, installed if one is.
pub fn worked_cases()
    ensures { WorkedCases }
{}

/// The table of received LSAs, row by row, for instances of one LSA: newer than a copy installed in
/// the same second, newer, on the request list, an implied acknowledgment, a duplicate, and older
/// than a copy with MaxAge and MaxSequenceNumber, one just sent or one that is sent back (RFC 2328,
/// section 13).
pub fn the_table_of_received_lsas()
    ensures { WorkedTable }
{}

/// The flooding step of each neighbor, in the words of RFC 2328, section 13.3: nothing before
/// Exchange; a request is removed unless a newer instance is requested; the LSA is sent unless it
/// came from this neighbor or is not more recent than the requested instance.
pub fn flooding_examines_each_neighbor()
    ensures { FloodingExaminesEachNeighbor }
{}
