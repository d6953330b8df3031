//! What a program is asked, in named fields.
ghost use Rattle.std.specs.Prelude.{◌≡◌};
ghost use Rattle.hooktool_trials.specs.Contexts.{asked_context, destination_of, route_of};

use isa::Hook;
use machine::{Context, count_context, price_context, tag_context, veto_context};
use words::{External, ExternalType, Hops, Prefix, Route, RouteKind, Second};

/// The fields of a question. Each hook has some of them.
#[derive(Clone, Copy)]
pub struct Asked {
    pub prefix: Prefix,
    pub metric: u32,
    pub tag: u32,
    pub external: ExternalType,
    pub kind: RouteKind,
    pub cost: u32,
    pub distance: u32,
    pub hops: Hops,
    pub interface: u16,
    pub moment: Second,
}

impl Asked {
    fn destination(&self) -> External
        ensures { result ≡ destination_of self.now }
    {
        External {
            prefix: self.prefix,
            metric: self.metric,
            kind: self.external,
            tag: self.tag,
        }
    }

    fn route(&self) -> Route
        ensures { result ≡ route_of self.now }
    {
        Route {
            prefix: self.prefix,
            kind: self.kind,
            cost: self.cost,
            distance: self.distance,
            hops: self.hops,
            tag: self.tag,
        }
    }
}

/// The context of the question at the hook, as the router makes it.
pub fn context_of(hook: Hook, asked: &Asked, packet: &[u8]) -> Context
    ensures { result ≡ asked_context hook asked.now packet.now }
{
    match hook {
        Hook::Count => count_context(asked.interface, asked.moment, packet),
        Hook::Tag => tag_context(asked.destination(), asked.moment),
        Hook::Price => price_context(asked.destination(), asked.moment),
        Hook::Veto => veto_context(asked.route(), asked.moment),
    }
}
