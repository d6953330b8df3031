//! Laws of what is unchanged while only AS-external-LSAs change, each the contract of a function
//! with an empty body.
ghost use Rattle.kept_routes.specs.ExternalLaws.{InnerRoutesAreKept, UntouchedCandidatesAreKept};

/// The results from the LSAs of types 1 to 4 remain valid while those say the same (RFC 2328,
/// sections 16.1 and 16.2).
pub fn inner_routes_are_kept()
    ensures { InnerRoutesAreKept }
{}

/// The candidate for a destination is unchanged while the LSAs of types 1 to 4 and the
/// AS-external-LSAs that advertise the destination say the same (RFC 2328, section 16.6).
pub fn untouched_candidates_are_kept()
    ensures { UntouchedCandidatesAreKept }
{}
