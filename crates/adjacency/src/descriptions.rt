//! The tests of a received Database Description, and the verdict on it (RFC 2328, section 10.6).
ghost use Rattle.std.specs.Prelude.{◌≡◌, not, ◌&&◌, [], ◌∷◌};
ghost use Rattle.std.specs.List.{list_all};
ghost use Rattle.lsa.specs.Reading.{is_known_type};
ghost use Rattle.lsa.specs.declared.header.Header.{Header as AnyHeader};
ghost use Rattle.adjacency.specs.Descriptions.{Verdict as Judgment};
ghost use Rattle.adjacency.specs.Descriptions.{as_received, changes_options, first_verdict};
ghost use Rattle.adjacency.specs.Descriptions.{is_duplicate, is_empty, is_initial_description};
ghost use Rattle.adjacency.specs.Descriptions.{knows_types, same_flag, same_received};
ghost use Rattle.adjacency.specs.Exchanges.{becomes_master, becomes_slave};
ghost use Rattle.adjacency.specs.Exchanges.{expected_of, first_mismatch};
ghost use Rattle.adjacency.specs.Exchanges.{mismatch_of, starts_over, verdict_of};
ghost use Rattle.adjacency.specs.declared.verdict.Mismatch.TheVariants as Reason;

use crate::standing::{ReceivedDescription, Standing};
use crate::verdict::{Mismatch, Verdict};
use lsa::Header;
use packet::Description;
use words::RouterId;

/// What identifies a duplicate of this Database Description.
pub fn as_received(description: &Description) -> ReceivedDescription
    ensures { result ≡ as_received description.now }
{
    ReceivedDescription {
        options: description.options,
        init: description.init,
        more: description.more,
        master: description.master,
        sequence: description.sequence,
    }
}

/// Whether both flags are set, or neither is.
pub fn same_flag(a: bool, b: bool) -> bool
    ensures { result ≡ same_flag a b }
{
    if a { b } else { !b }
}

fn same_received(last: &ReceivedDescription, description: &Description) -> bool
    ensures { result ≡ same_received last.now (as_received description.now) }
{
    let options = last.options == description.options;
    let init = same_flag(last.init, description.init);
    let more = same_flag(last.more, description.more);
    let master = same_flag(last.master, description.master);
    let sequence = last.sequence == description.sequence;
    options && init && more && master && sequence
}

/// Whether it is a duplicate of the last one received: the flags, Options and DD sequence number
/// are the same.
pub fn is_duplicate(received: &Option<ReceivedDescription>, description: &Description) -> bool
    ensures { result ≡ is_duplicate received.now description.now }
{
    match received {
        None => false,
        Some(last) => same_received(last, description),
    }
}

/// Whether its Options differ from those of the last one received.
pub fn changes_options(received: &Option<ReceivedDescription>, description: &Description) -> bool
    ensures { result ≡ changes_options received.now description.now }
{
    match received {
        None => false,
        Some(last) => !(last.options == description.options),
    }
}

fn is_empty(headers: &[Header]) -> bool
    ensures { result ≡ is_empty headers.now }
{
    match headers {
        [] => true,
        [_first, ..] => false,
    }
}

// Whether it starts a negotiation.
fn is_initial_description(description: &Description) -> bool
    ensures { result ≡ is_initial_description description.now }
{
    let empty = is_empty(description.headers.as_slice());
    description.init && description.more && description.master && empty
}

/// The sequence number of the next Database Description from the other side.
pub fn expected(standing: &Standing) -> u32
    ensures { result ≡ expected_of standing.now }
{
    if standing.is_master {
        standing.sequence
    } else {
        standing.sequence.wrapping_add(1)
    }
}

fn is_known_type(header: &Header) -> bool
    ensures { result ≡ is_known_type header.now.ls_type }
{
    header.ls_type >= 1 && header.ls_type <= 5
}

// Whether all these headers have known LS types.
fn know_types(headers: &[Header]) -> bool
    ensures { result ≡ list_all (λ (h : AnyHeader). is_known_type h.ls_type) headers.now }
{
    for header in headers {
        let known = is_known_type(header);
        if !known {
            return false;
        }
    }
    true
}

fn knows_types(description: &Description) -> bool
    ensures { result ≡ knows_types description.now }
{
    know_types(description.headers.as_slice())
}

/// Whether the adjacency starts over: for a mismatch, or for an accepted Database Description with
/// a header of an unknown LS type.
pub fn starts_over(verdict: Verdict, description: &Description) -> bool
    ensures { result ≡ starts_over (verdict_of verdict) description.now }
{
    match verdict {
        Verdict::Discarded => false,
        Verdict::NegotiatedAsSlave => !knows_types(description),
        Verdict::NegotiatedAsMaster => !knows_types(description),
        Verdict::Repeated => false,
        Verdict::Accepted => !knows_types(description),
        Verdict::Mismatch(_why) => true,
    }
}

/// Whether this router becomes the slave: the other side starts the negotiation and has the larger
/// Router ID.
pub fn becomes_slave(own: RouterId, other: RouterId, description: &Description) -> bool
    ensures { result ≡ becomes_slave own other description.now }
{
    let smaller = own.number() < other.number();
    is_initial_description(description) && smaller
}

/// Whether this router becomes the master: the other side has the smaller Router ID and has taken
/// over this router's sequence number.
pub fn becomes_master(
    own: RouterId,
    other: RouterId,
    sequence: u32,
    description: &Description,
) -> bool
    ensures { result ≡ becomes_master own other sequence description.now }
{
    let same = description.sequence == sequence;
    let larger = other.number() < own.number();
    !description.init && !description.master && same && larger
}

/// The verdict in ExStart.
pub fn negotiation(becomes_slave: bool, becomes_master: bool) -> Verdict
    ensures { verdict_of result ≡ first_verdict
        ((becomes_slave, Judgment.NegotiatedAsSlave) ∷ (becomes_master, Judgment.NegotiatedAsMaster)
        ∷ []) Judgment.Discarded }
{
    if becomes_slave {
        Verdict::NegotiatedAsSlave
    } else if becomes_master {
        Verdict::NegotiatedAsMaster
    } else {
        Verdict::Discarded
    }
}

/// The tests in Exchange of a Database Description that is no duplicate.
#[derive(Clone, Copy)]
pub struct ExchangeTests {
    /// The MS-bits of both sides are the same.
    pub same_roles: bool,
    /// The I-bit is set.
    pub init: bool,
    /// The Options differ from those of the last one received.
    pub other_options: bool,
    /// The DD sequence number is the expected one.
    pub expected: bool,
}

impl ExchangeTests {
    /// The verdict: it is accepted if the MS-bits of both sides differ, the I-bit is clear, the
    /// Options are unchanged, and the sequence number is the expected one.
    pub fn verdict(&self) -> Verdict
        ensures verdict { verdict_of result ≡ first_verdict
            ((self.now.same_roles, Judgment.Mismatch) ∷ (self.now.init, Judgment.Mismatch) ∷
            (self.now.other_options, Judgment.Mismatch) ∷
            (not self.now.expected, Judgment.Mismatch) ∷ []) Judgment.Accepted }
        ensures reason { mismatch_of result ≡ first_mismatch
            ((self.now.same_roles, Reason.Roles) ∷ (self.now.init, Reason.Init) ∷
            (self.now.other_options, Reason.Options) ∷
            (not self.now.expected, Reason.Sequence) ∷ []) }
    {
        if self.same_roles {
            Verdict::Mismatch(Mismatch::Roles)
        } else if self.init {
            Verdict::Mismatch(Mismatch::Init)
        } else if self.other_options {
            Verdict::Mismatch(Mismatch::Options)
        } else if self.expected {
            Verdict::Accepted
        } else {
            Verdict::Mismatch(Mismatch::Sequence)
        }
    }
}

/// The verdict on a duplicate, which the master ignores, and which the slave answers if it still
/// has its last Database Description; otherwise the given verdict.
pub fn repetition(duplicate: bool, is_master: bool, answers: bool, otherwise: Verdict) -> Verdict
    ensures { verdict_of result ≡ first_verdict
        ((duplicate && is_master, Judgment.Discarded) ∷ (duplicate && answers, Judgment.Repeated) ∷
        []) (verdict_of otherwise) }
{
    if duplicate {
        if is_master {
            Verdict::Discarded
        } else if answers {
            Verdict::Repeated
        } else {
            otherwise
        }
    } else {
        otherwise
    }
}
