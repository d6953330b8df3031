//! A law about originations, the contract of a function with an empty body.
ghost use Rattle.router.specs.Laws.{OriginationsAreTheRules};

/// Deciding about a wanted self-originated LSA and carrying that out is what the rules of an event
/// say: the LSA is flushed, waits or is originated.
pub fn originations_are_the_rules()
    ensures { OriginationsAreTheRules }
{}
