//! Laws about events and runs of the router, each the contract of a function with an empty body:
//! invariants at every point of a run, and what is known and acknowledged.

ghost use Rattle.invariants.specs.Known.{EventsHoldOnlyWhatIsKnown, UpdatesTellWhatTheyBear};
ghost use Rattle.invariants.specs.Keeping.{EventsKeepWhatIsKnown, InstancesStayInRange};
ghost use Rattle.invariants.specs.InOrder.{RoutersStayInOrder};
ghost use Rattle.invariants.specs.Keeping.{WhatIsTakenOffWasTold};
ghost use Rattle.invariants.specs.Lawful.{TextsAreLawful};
ghost use Rattle.invariants.specs.LimitLaws.{OthersStayWithinLimits};
ghost use Rattle.invariants.specs.NeighborLaws.{FullNeighborsRequestNothing, ListsAreSound};
ghost use Rattle.invariants.specs.NeighborLaws.{WhatIsLeftIsRequested};
ghost use Rattle.invariants.specs.OwnLsas.{OnlyRouterAndExternalLsasAreWanted};
ghost use Rattle.invariants.specs.Retransmissions.{RetransmissionsAreOfTheDatabase};
ghost use Rattle.invariants.specs.Worlds.{AcknowledgedWasReceived};
ghost use Rattle.invariants.specs.WrongSteps.{AnotherAcknowledgmentTakesNothingOff};

/// A Full neighbor has an empty request list: at the start, after each event, and so after every
/// run (RFC 2328, section 10.3).
pub fn full_neighbors_request_nothing()
    ensures { FullNeighborsRequestNothing }
{}

/// The lists of every neighbor satisfy their invariants at the start, after each event and after
/// every run: they are empty before Exchange, every outstanding key is on the request list, and a
/// Full neighbor has an empty request list and nothing outstanding (RFC 2328, sections 10.3 and
/// 10.9).
pub fn lists_are_sound()
    ensures { ListsAreSound }
{}

/// After every event, whatever was before it: a neighbor in Loading has a request list that isn't
/// empty, and if that of a neighbor in Exchange or Loading isn't empty, a Link State Request is
/// outstanding (RFC 2328, sections 10.3 and 10.9).
pub fn what_is_left_is_requested()
    ensures { WhatIsLeftIsRequested }
{}

/// Each entry of a retransmission list is the database's instance of its key: there is a copy, and
/// at each moment since the entry was made, the entry's header is the copy's, including its age.
/// This holds at the start, after each event, and so after every run (RFC 2328, sections 10 and
/// 13.3).
pub fn retransmissions_are_of_the_database()
    ensures { RetransmissionsAreOfTheDatabase }
{}

/// A router starts within its limits. A Tick, a Withdraw, an Install and a LinkDown keep a router
/// within them, 16,384 LSAs and 4,096 self-originated AS-external-LSAs, and are never refused
/// because the database is full: what they originate checks for room first. Only a Packet and a
/// Redistribute may be.
pub fn others_stay_within_limits()
    ensures { OthersStayWithinLimits }
{}

/// A router in one area originates only its router-LSA and AS-external-LSAs: at every point of a
/// run, the wanted body for a key is of the key's LS type, and that is 1 or 5. It never wants a
/// network-LSA or a summary-LSA (RFC 2328, section 12.4).
pub fn only_router_and_external_lsas_are_wanted()
    ensures { OnlyRouterAndExternalLsasAreWanted }
{}

/// An invariant by which entries can be followed through events: a router announces only external
/// destinations, only under its own Router ID, and its retransmission lists have the database's
/// instances. It holds at the start, after each event, and so after every run.
pub fn routers_stay_in_order()
    ensures { RoutersStayInOrder }
{}

/// If an entry is removed from a neighbor's retransmission list in an event, the event's packet
/// came from that neighbor and has the instance, by key, sequence number and checksum: unless the
/// adjacency is given up, which clears the lists, or the LSA is flooded in the event, which
/// replaces its entries (RFC 2328, sections 13, step 7a, and 13.7).
pub fn what_is_taken_off_was_told()
    ensures { WhatIsTakenOffWasTold }
{}

/// Each event keeps the Router ID. After it, each instance in the database, on the retransmission
/// lists and among the delayed acknowledgments, and each in a Link State Update or Acknowledgment
/// that it sends, was held before, was received in the event's Link State Update, or is a new one
/// of the router's own LSAs. This requires `InOrder.IsConsistent`, which holds in every run.
pub fn events_hold_only_what_is_known()
    ensures { EventsHoldOnlyWhatIsKnown }
{}

/// A Link State Update of LSAs whose header fields are in their ranges contains only those LSAs:
/// each LSA is parsed with the key, the sequence number and the checksum that were written.
pub fn updates_tell_what_they_bear()
    ensures { UpdatesTellWhatTheyBear }
{}

/// The canonical encoding of a Link State Update, and of a Link State Acknowledgment, is a valid
/// packet, if the header fields are in their ranges, each LSA's length is that of its bytes, and
/// there are at most 8,192 bytes.
pub fn texts_are_lawful()
    ensures { TextsAreLawful }
{}

/// The numbers of the instances that a router holds, and of the keys that it announces, stay in
/// their ranges: at the start, after each event, if an address that it announces is in its range,
/// and so in every run.
pub fn instances_stay_in_range()
    ensures { InstancesStayInRange }
{}

/// A router's step keeps what acknowledgments rely on, if the packets are encoded correctly: the
/// Router ID stays the same, each packet that is sent is from this router, and each instance that
/// is then in the database, on the retransmission lists and among the delayed acknowledgments, and
/// each in a Link State Update or Acknowledgment that it sends, was held before, was received in
/// the event's Link State Update, or is a new one of the router's own LSAs. If an instance is
/// removed from a retransmission list as acknowledged, the event's packet from that neighbor says
/// so (RFC 2328, sections 13 and 13.7).
pub fn events_keep_what_is_known()
    ensures { EventsKeepWhatIsKnown }
{}

/// No step that takes an entry off a retransmission list for an acknowledgment of an older
/// instance, or of any other than the one on the list, keeps what acknowledgments rely on, whatever
/// else it does (RFC 2328, section 13.7).
pub fn another_acknowledgment_takes_nothing_off()
    ensures { AnotherAcknowledgmentTakesNothingOff }
{}

/// In every history of routers whose steps keep what `Keeps` says, whatever packets are lost,
/// repeated or late and whichever routers restart: if an entry is removed from a neighbor's
/// retransmission list, and that step neither gives up the adjacency nor floods the LSA, the
/// neighbor had received or originated the instance.
pub fn acknowledged_was_received()
    ensures { AcknowledgedWasReceived }
{}
