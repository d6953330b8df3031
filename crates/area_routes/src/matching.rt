//! How the answers match the candidates that are kept.
ghost use Rattle.std.specs.Prelude.{◌≡◌, IsTrue, List, Option, Some, false};
ghost use Rattle.area_routes.specs.Kept.{HaveAnother, KnowsMatching};
ghost use Rattle.area_routes.specs.declared.matching.Matching.TheVariants.{OnlyCandidates, Lacking};
ghost use Rattle.routes.specs.Tables.{RouteWords};
ghost use Rattle.routes.specs.Parts.{AreAnswersAmong, LacksAnswers};
ghost use Rattle.words.specs.declared.route.Route.{Route as RouteValue};

use routes::Comparison;

/// What is known of the answers and of the candidates that are kept.
#[derive(Clone, Copy)]
pub enum Matching {
    /// Nothing.
    Unknown,
    /// Each answered route is among the candidates.
    OnlyCandidates,
    /// Some candidate has no answer.
    Lacking,
}

/// What is known of candidates and answers that were compared.
pub fn matching_by(found: Comparison) -> Matching
    ensures matches { (answers : RouteWords) (candidates : List RouteValue)
        → (IsTrue found.lacks → LacksAnswers answers candidates)
        → (IsTrue found.only_candidates → AreAnswersAmong answers candidates)
        → KnowsMatching answers (Some candidates) result }
    ensures lacking { IsTrue found.lacks → result ≡ Lacking }
    ensures only_candidates { found.lacks ≡ false → IsTrue found.only_candidates
        → result ≡ OnlyCandidates }
{
    if found.lacks {
        return Matching::Lacking;
    }
    if found.only_candidates {
        return Matching::OnlyCandidates;
    }
    Matching::Unknown
}

/// What is known after the candidates followed an event. If each answered route was a candidate, a
/// candidate that wasn't one before has no answer.
pub fn matching_after(matching: Matching, none_new: bool) -> Matching
    ensures matches { (answers : RouteWords) (kept : Option (List RouteValue))
        (now : List RouteValue)
        → (none_new ≡ false → HaveAnother kept now)
        → KnowsMatching answers kept matching
        → KnowsMatching answers (Some now) result }
    ensures lacking { matching ≡ OnlyCandidates → none_new ≡ false → result ≡ Lacking }
{
    if none_new {
        return Matching::Unknown;
    }
    match matching {
        Matching::Unknown => Matching::Unknown,
        Matching::OnlyCandidates => Matching::Lacking,
        Matching::Lacking => Matching::Unknown,
    }
}
