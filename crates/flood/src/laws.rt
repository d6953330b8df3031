//! A law about routers joined by links, the contract of a function with an empty body.
ghost use Rattle.invariants.specs.Worlds.{AcknowledgedWasReceived};

/// In every history of routers whose steps keep what `Keeps` says, whatever packets are lost,
/// repeated or late and whichever routers restart: if an entry is removed from a neighbor's
/// retransmission list, and that step neither gives up the adjacency nor floods the LSA, the
/// neighbor had received or originated the instance (RFC 2328, sections 13.3 and 13.7).
pub fn acknowledged_was_received()
    ensures { AcknowledgedWasReceived }
{}
