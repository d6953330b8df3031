//! Which router a book begins with.
ghost use Rattle.std.specs.Prelude.{[]};
ghost use Rattle.event_rules.specs.Events.{initial};
ghost use Rattle.event_rules.specs.Routers.{Router};

use std::marker::Brand;
use std::sync::ledger::Ledger;

/// The ledger in which the events of one router count, and the router that it began with.
///
/// A book's type names both. Who makes one picks them, by `Brand`.
pub trait Origin: Ledger {
    ghost origin: { Router };
}

impl Origin for Brand {
    ghost origin = { initial (record { router = 1; start = 0; interfaces = [] }) };
}
