//! The case of an LSA in a received Link State Update (RFC 2328, section 13).
ghost use Rattle.std.specs.Prelude.{◌≡◌, ◌&&◌, not, None, Option};
ghost use Rattle.words.specs.Numbers.{Moment};
ghost use Rattle.lsdb.specs.Copies.{in_this_second, received_just_now, newer_than_copy};
ghost use Rattle.lsdb.specs.Copies.{same_as_copy, sent_just_now};
ghost use Rattle.lsdb.specs.Order.{is_max_age};
ghost use Rattle.adjacency.specs.Neighbors.{Neighbor};
ghost use Rattle.received.specs.Cases.{Case as Row, case_of_readable, case_tests, first_case};
ghost use Rattle.received.specs.Cases.{is_wrapping};
ghost use Rattle.area.specs.Cases.{case_of, tests_of};

use crate::link::Link;
use adjacency::{DatabaseCopy, compare, instance_of, newer};
use lsa::{Header, Lsa};
use std::cmp::Ordering;
use words::{MAX_AGE, Second, SequenceNumber};

/// The case of an LSA in a received Link State Update: of the first test that succeeds (RFC 2328,
/// section 13), in the order of `case_tests` in the crate `received`.
#[derive(Clone, Copy)]
pub enum Case {
    /// At MaxAge, without a database copy, and no neighbor is in Exchange or Loading: nothing to
    /// flush.
    NothingToFlush,
    /// Newer than a copy that flooding installed in the same second (MinLSArrival).
    TooSoon,
    /// Newer than the copy, or there is none.
    Newer,
    /// Not newer, although it is on the sender's request list.
    BadRequest,
    /// The same instance as the copy, and it is on the sender's retransmission list: an implied
    /// acknowledgment.
    ImpliedAcknowledgment,
    /// The same instance as the copy, otherwise.
    Duplicate,
    /// The copy is newer, with MaxAge and MaxSequenceNumber: it is being flushed.
    SequenceWraps,
    /// The copy is newer, and was sent in the same second (MinLSArrival).
    SentJustNow,
    /// The copy is newer.
    Older,
}

/// The tests that distinguish the cases, in order.
#[derive(Clone, Copy)]
pub struct Tests {
    nothing_to_flush: bool,
    too_soon: bool,
    newer: bool,
    requested: bool,
    implied: bool,
    same: bool,
    wraps: bool,
    sent_just_now: bool,
}

fn nothing_to_flush(age: u16, missing: bool, synchronizing: bool) -> bool
    ensures { result ≡ (is_max_age age && missing && not synchronizing) }
{
    age == MAX_AGE && missing && !synchronizing
}

fn newer_than_copy(moment: Second, header: &Header, copy: &Option<DatabaseCopy<'_>>) -> bool
    ensures { result ≡ newer_than_copy moment header.now copy.now }
{
    match copy {
        None => true,
        Some(copy) => newer(instance_of(header), copy.instance(moment)),
    }
}

fn same_as_copy(moment: Second, header: &Header, copy: &Option<DatabaseCopy<'_>>) -> bool
    ensures { result ≡ same_as_copy moment header.now copy.now }
{
    match copy {
        None => false,
        Some(copy) => compare(instance_of(header), copy.instance(moment)) == Ordering::Equal,
    }
}

// Within MinLSArrival, 1 second (RFC 2328, appendix B). Since moments are whole seconds, only what
// happened in the same second counts: an instance that comes less than a second later, but in the
// next second, is accepted. There the router departs from section 13, steps 5 (a) and 8
// (docs/reference/DEPARTURES.md).
fn in_this_second(moment: Second, then: Option<Second>) -> bool
    ensures { result ≡ in_this_second moment then }
{
    match then {
        None => false,
        Some(then) => moment.since(then) == 0,
    }
}

fn received_just_now(moment: Second, copy: &Option<DatabaseCopy<'_>>) -> bool
    ensures { result ≡ received_just_now moment copy.now }
{
    match copy {
        None => false,
        Some(copy) => in_this_second(moment, copy.times.received),
    }
}

fn sent_just_now(moment: Second, copy: &Option<DatabaseCopy<'_>>) -> bool
    ensures { result ≡ sent_just_now moment copy.now }
{
    match copy {
        None => false,
        Some(copy) => in_this_second(moment, copy.times.sent),
    }
}

// Whether the copy has MaxAge and MaxSequenceNumber.
fn is_wrapping(moment: Second, copy: &Option<DatabaseCopy<'_>>) -> bool
    ensures { result ≡ is_wrapping moment copy.now }
{
    match copy {
        None => false,
        Some(copy) => {
            let header = copy.header(moment);
            let last = header.sequence.number() == SequenceNumber::MAX.number();
            copy.is_aged_out(moment) && last
        }
    }
}

// The case of an LSA without a database copy, whatever the neighbor's lists have.
fn case_without_copy(lsa: &Lsa, synchronizing: bool) -> Case
    ensures { (moment : Moment) (sender : Option Neighbor) → case_of result
        ≡ case_of_readable moment None sender synchronizing lsa.now }
{
    let header = lsa.header();
    if nothing_to_flush(header.age, true, synchronizing) {
        return Case::NothingToFlush;
    }
    Case::Newer
}

/// The case of an LSA that was received on this link, by the copy of its key and by whether any
/// neighbor is in Exchange or Loading. Without a copy the neighbor's lists aren't searched.
pub fn case_on(
    moment: Second,
    copy: &Option<DatabaseCopy<'_>>,
    link: &Link,
    synchronizing: bool,
    lsa: &Lsa,
) -> Case
    ensures { case_of result
        ≡ case_of_readable moment copy.now link.now.present.neighbor synchronizing lsa.now }
{
    match copy {
        None => case_without_copy(lsa, synchronizing),
        Some(_copy) => {
            let tests = Tests::of_received(moment, copy, link, synchronizing, lsa);
            tests.case()
        }
    }
}

impl Tests {
    /// The tests of an LSA that was received on this link, by the copy of its key and by whether
    /// any neighbor is in Exchange or Loading. [`case_on`] asks only with a copy, so that the first
    /// test, for which there must be none, is there to have all tests of section 13 in one list.
    pub fn of_received(
        moment: Second,
        copy: &Option<DatabaseCopy<'_>>,
        link: &Link,
        synchronizing: bool,
        lsa: &Lsa,
    ) -> Tests
        ensures { tests_of result
            ≡ case_tests moment copy.now link.now.present.neighbor synchronizing lsa.now }
    {
        let header = lsa.header();
        let there = copy.is_some();
        let missing = copy.is_none();
        let newer = newer_than_copy(moment, &header, copy);
        let same = same_as_copy(moment, &header, copy);
        let received = received_just_now(moment, copy);
        let listed = link.has_retransmission_of(moment, &header);
        Tests {
            nothing_to_flush: nothing_to_flush(header.age, missing, synchronizing),
            too_soon: there && newer && received,
            newer,
            requested: link.is_on_request_list(&header.key()),
            implied: same && listed,
            same,
            wraps: is_wrapping(moment, copy),
            sent_just_now: sent_just_now(moment, copy),
        }
    }

    /// The case of the first test that succeeds.
    pub fn case(&self) -> Case
        ensures { case_of result ≡ first_case (tests_of self.now) Row.Older }
    {
        if self.nothing_to_flush {
            return Case::NothingToFlush;
        }
        if self.too_soon {
            return Case::TooSoon;
        }
        if self.newer {
            return Case::Newer;
        }
        if self.requested {
            return Case::BadRequest;
        }
        if self.implied {
            return Case::ImpliedAcknowledgment;
        }
        if self.same {
            return Case::Duplicate;
        }
        if self.wraps {
            return Case::SequenceWraps;
        }
        if self.sent_just_now {
            return Case::SentJustNow;
        }
        Case::Older
    }
}
