//! Laws on how an exchange of Descriptions goes on between two neighbors.
ghost use Rattle.agreement_laws.specs.Answers.{DescriptionsAreAnswered};
ghost use Rattle.agreement_laws.specs.BothDone.{WhatWasDescribedWasAccepted};
ghost use Rattle.agreement_laws.specs.Described.{WhatWasDescribedIsHeld};
ghost use Rattle.agreement_laws.specs.Held.{WhatWasAcceptedIsHeld};
ghost use Rattle.agreement_laws.specs.WorkedAnswers.{WorkedAnswers};

use crate::requests::{requests_are_met, requests_stay, what_is_accepted_is_requested};
use crate::{copies_climb, ranks_follow_the_comparison};

/// In every history of two neighbors, from Exchange on: the one with the larger Router ID is the
/// master; each Description that the slave sent, but its opening one, answers one that it accepted,
/// of the master's role and with that DD sequence number; and once the master is done, each that it
/// sent was answered so, the opening one too (RFC 2328, sections 10.6 and 10.8).
pub fn descriptions_are_answered()
    ensures { DescriptionsAreAnswered }
{}

/// In every history of two neighbors that are both done with their exchange: of each Description
/// that one sent in it, but an empty opening one, the other accepted one with its number and role,
/// which the first one sent in it too, and so the very Description, unless a number served twice;
/// or else a Description of another conversation was taken for one of this (RFC 2328, sections 10.6
/// and 10.8).
pub fn what_was_described_was_accepted()
    ensures { WhatWasDescribedWasAccepted }
{
    descriptions_are_answered();
}

/// In every history of two neighbors: if a router is Full with the other one, and in their
/// conversation has accepted Descriptions with headers of a key, each of which names an instance as
/// new as the given one, it holds an instance that is as new; unless it lost the key since it
/// accepted one: after some event it had no copy, and one was there before that event, or came in
/// it, or the key is its own (RFC 2328, sections 10.3, 10.6, 10.9 and 14).
pub fn what_was_accepted_is_held()
    ensures { WhatWasAcceptedIsHeld }
{
    ranks_follow_the_comparison();
    copies_climb();
    requests_are_met();
    what_is_accepted_is_requested();
    requests_stay();
}

/// So in every history of two neighbors that are done with their exchange, if one is Full with the
/// other one: of each key that this one described to it in the conversation, by headers as new as
/// the given instance, it holds one as new, or it lost the key; unless a Description of another
/// conversation was taken for one of this, or a number served twice (RFC 2328, sections 10.3 and
/// 10.6).
pub fn what_was_described_is_held()
    ensures { WhatWasDescribedIsHeld }
{
    what_was_described_was_accepted();
    what_was_accepted_is_held();
}

/// Worked cases: the larger Router ID leads; an attempt's opening Description is of its
/// conversation, and no other one that wasn't sent in it; what was accepted counts only while the
/// conversation stands; in a turn of the other router this one sends nothing.
pub fn worked_answers()
    ensures { WorkedAnswers }
{}
