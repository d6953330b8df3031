//! A law about configurations, the contract of a function with an empty body.
ghost use Rattle.console.specs.Laws.{ConfigurationsAreInProfile};

/// The configuration that a text spells is valid for a router, whatever the moment of its start
/// below 2^62 seconds: `Core::new` never returns `Interface` for what
/// [`read_configuration`](crate::read_configuration) returns.
pub fn configurations_are_in_profile()
    ensures { ConfigurationsAreInProfile }
{}
