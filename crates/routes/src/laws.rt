//! Laws that code relies on, each the contract of a function with an empty body: there is one way
//! to a node, and one list of candidates.
ghost use Rattle.routes.specs.Answers.{GraphsCarryAnswers};
ghost use Rattle.routes.specs.Laws.{CandidatesAreDetermined, OneCandidateForEachPrefix};
ghost use Rattle.routes.specs.Laws.{WaysAreDetermined, WaysRestOnLinks};

/// A node has one distance and one set of next hops (RFC 2328, section 16.1).
pub fn ways_are_determined()
    ensures { WaysAreDetermined }
{}

/// The ways to all nodes don't change while the LSAs of types 1 and 2 say the same (RFC 2328,
/// section 16.1).
pub fn ways_rest_on_links()
    ensures { WaysRestOnLinks }
{}

/// A prefix has at most one candidate.
pub fn one_candidate_for_each_prefix()
    ensures { OneCandidateForEachPrefix }
{}

/// A database has one list of candidates, by the address of the prefix and then its length.
pub fn candidates_are_determined()
    ensures { CandidatesAreDetermined }
{}

/// Let a graph stand for the links of a database, possibly with only the cheapest of links that
/// differ in cost alone. `least_ways` of the graph then gives the distances and next hops of the
/// database (RFC 2328, section 16.1).
pub fn graphs_carry_answers()
    ensures { GraphsCarryAnswers }
{}
