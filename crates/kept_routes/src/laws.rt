//! Laws of what may be kept, each the contract of a function with an empty body.
ghost use Rattle.kept_routes.specs.Laws.{CandidatesAreKept, RoutesAreKept, WalksAreKept};

/// A walk remains that of its database while the LSAs of types 1 and 2 say the same, whatever
/// others say (RFC 2328, section 16.1).
pub fn walks_are_kept()
    ensures { WalksAreKept }
{}

/// While all LSAs say the same, candidates and table are unchanged, and a table that isn't stale
/// doesn't become stale.
pub fn routes_are_kept()
    ensures { RoutesAreKept }
{}

/// Candidates are unchanged, and a table that isn't stale doesn't become stale, while two kinds of
/// LSAs say the same: those of types 1 to 4, and the AS-external-LSAs of other routers that are
/// reached as AS boundary routers (RFC 2328, section 16.4).
pub fn candidates_are_kept()
    ensures { CandidatesAreKept }
{}
