//! Laws about what a loaded program can do to a router and to its neighbors, each the contract of a
//! function with an empty body: whatever a program answers, there are no other consequences.
ghost use Rattle.program_laws.specs.Announced.{WhatIsAnnouncedWasAskedFor};
ghost use Rattle.program_laws.specs.Announcements.{OtherAnnouncementsStayTheSame};
ghost use Rattle.program_laws.specs.Destinations.{AnswersReachOneDestination};
ghost use Rattle.program_laws.specs.Tables.{VetoesOnlyKeepRoutesOut};
ghost use Rattle.program_laws.specs.Unheard.{VetoesAreNeverHeard};
ghost use Rattle.program_laws.specs.Vetoes.{VetoesAreNotHeard};

/// Other routers don't notice what a program answers at `veto`: for two `Install`s of one router at
/// one moment with any two lists of answers, the packets that are sent are the same, and so is the
/// router afterwards except for the answers themselves.
pub fn vetoes_are_not_heard()
    ensures { VetoesAreNotHeard }
{}

/// What a program answers at `veto` is never noticed elsewhere: two runs of a router, and two
/// histories of a network, with the same events except for the answers of `Install`s send the same
/// datagrams in the same order, and result in the same routers except for the answers that they
/// keep.
pub fn vetoes_are_never_heard()
    ensures { VetoesAreNeverHeard }
{}

/// Whatever programs answer at `veto`, the routing table has only candidates, and lacks only those
/// that weren't answered with 0.
pub fn vetoes_only_keep_routes_out()
    ensures { VetoesOnlyKeepRoutesOut }
{}

/// Whatever programs answer at `tag` and `price`, in every run: each destination that the router
/// announces is one that the operator asked for, with a metric below LSInfinity, and its
/// AS-external-LSA says so (RFC 2328, section 12.4.4).
pub fn what_is_announced_was_asked_for()
    ensures { WhatIsAnnouncedWasAskedFor }
{}

/// The answers of programs at `tag` and `price` affect only the one destination that they are for:
/// for two `Redistribute`s of one destination at one moment with any answers, what is sent is the
/// same except for Link State Updates of that destination's LSA, and the router is the same
/// afterwards except for what it has for the key of that LSA. Each other copy in the database, each
/// other destination, each other entry of a list, and each neighbor's state is the same. This
/// requires that the LSA is on no neighbor's request list, and that the router-LSA has a copy.
pub fn answers_reach_one_destination()
    ensures { AnswersReachOneDestination }
{}

/// The consequences of such an answer in whole runs: if an operator asks for the same and programs
/// answer the same except about one destination, the router announces the same for every other one,
/// and wants the same body for each of its other AS-external-LSAs, however much later, and whatever
/// packets are received, at whatever moments, in either run.
pub fn other_announcements_stay_the_same()
    ensures { OtherAnnouncementsStayTheSame }
{}
