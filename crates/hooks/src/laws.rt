//! Laws that show what the definitions mean.
ghost use Rattle.hooks.specs.Laws.{LastDecides, DefaultsAreConfigured};

/// The last operation at a hook decides which program is attached there.
pub fn last_operation_decides()
    ensures { LastDecides }
{}

/// Without a program `tag` answers the configured tag, and `price` the configured metric.
pub fn the_defaults_are_configured()
    ensures { DefaultsAreConfigured }
{}
