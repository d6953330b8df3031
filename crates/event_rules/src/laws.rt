//! Laws about events, each the contract of a function with an empty body: about their outcomes, the
//! order and packing of what is sent, and the sizes of packets. `proofs/Walk` is the induction over
//! all parts of an event by which a law proves an invariant.
ghost use Rattle.event_rules.specs.Laws.{VetoesLeaveTheArea, EventsAreDetermined};
ghost use Rattle.event_rules.specs.Laws.{WhatIsNoLsaIsSkipped};
ghost use Rattle.event_rules.specs.PackingLaws.{OutsAreOrderedAndPacked};
ghost use Rattle.event_rules.specs.RoomLaws.{EveryPacketHasRoom};

/// An event has only one outcome: the new state of the router and what it sends are determined.
pub fn events_are_determined()
    ensures { EventsAreDetermined }
{}

/// The answers of `veto` change neither the database nor a link, and send nothing. (Those of `tag`
/// and `price` may: an LSA is originated or flushed by them.)
pub fn answers_leave_the_area()
    ensures { VetoesLeaveTheArea }
{}

/// Bytes of a Link State Update that encode no LSA are skipped, and the LSAs after them are
/// processed (RFC 2328, section 13).
pub fn what_is_no_lsa_is_skipped()
    ensures { WhatIsNoLsaIsSkipped }
{}

/// What is sent is in the order of the interfaces. LSAs and headers are in key order, those with
/// one key as they arose. Each is in exactly one packet, a packet has at most 8,192 bytes, and the
/// first item of the next packet didn't fit into it.
pub fn outs_are_ordered_and_packed()
    ensures { OutsAreOrderedAndPacked }
{}

/// No packet that an event sends has more than 8,192 bytes: an invariant that holds at the start
/// and after each event ensures it, and so in every run.
pub fn every_packet_has_room()
    ensures { EveryPacketHasRoom }
{}
