//! The verdict on a received Database Description.

/// The verdict on a received Database Description (RFC 2328, section 10.6).
#[derive(Clone, Copy)]
pub enum Verdict {
    /// It is ignored.
    Discarded,
    /// NegotiationDone, with this router as the slave.
    NegotiatedAsSlave,
    /// NegotiationDone, with this router as the master.
    NegotiatedAsMaster,
    /// A duplicate: the last Database Description is sent again.
    Repeated,
    /// It is the next one of the exchange.
    Accepted,
    /// SeqNumberMismatch, for this reason.
    Mismatch(Mismatch),
}

/// Why a Database Description leads to SeqNumberMismatch: the first of these tests that it fails
/// (RFC 2328, section 10.6). No code reads it, and no operator learns it: it is there for
/// contracts.
#[derive(Clone, Copy)]
pub enum Mismatch {
    /// The MS-bits of both sides are the same.
    Roles,
    /// The I-bit is set.
    Init,
    /// The Options differ from those of the last one received.
    Options,
    /// The DD sequence number isn't the expected one.
    Sequence,
    /// The exchange is over, and this is no duplicate that the slave can answer.
    ExchangeOver,
}
