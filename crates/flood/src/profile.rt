//! Which configurations are valid.
ghost use Rattle.std.specs.Prelude.{◌≡◌, ◌==◌, ◌<◌, ◌^◌};
ghost use Rattle.std.specs.List.{list_all, list_any};
ghost use Rattle.event_rules.specs.Routers.{are_distinct, in_profile, is_lawful};

use adjacency::Interface;
use event_rules::Config;
use words::{Address, MAX_AGE};

fn is_lawful(i: Interface) -> bool
    ensures { result ≡ is_lawful i }
{
    i.length <= 32
        && 1 <= i.cost
        && 1 <= i.hello_interval
        && 1 <= i.dead_interval
        && 1 <= i.retransmit_interval
        && 1 <= i.delay
        && i.delay <= MAX_AGE
}

fn all_lawful(interfaces: &[Interface]) -> bool
    ensures { result ≡ list_all is_lawful interfaces.now }
{
    interfaces.iter().all(|i| is_lawful(*i))
}

fn any_has(interfaces: &[Interface], address: Address) -> bool
    ensures { result ≡ list_any (λ j. j.address == address) interfaces.now }
{
    interfaces
        .iter()
        .any(|other| other.address.bits() == address.bits())
}

#[tactic(auto, using(crate::proofs::Distinct::distinct_more, crate::proofs::Distinct::distinct_fails))]
fn are_distinct(interfaces: &[Interface]) -> bool
    ensures { result ≡ are_distinct interfaces.now }
{
    for i in 0..interfaces.len() {
        if any_has(&interfaces[i + 1..], interfaces[i].address) {
            return false;
        }
    }
    true
}

/// Whether a router can run with this configuration.
pub fn in_profile(config: &Config) -> bool
    ensures profile { result ≡ in_profile config.now }
    ensures router { config.now.router < 2 ^ 32 }
{
    let interfaces = config.interfaces.as_slice();
    config.router.number() != 0
        && config.start.count() < 1 << 62
        && 1 <= interfaces.len()
        && interfaces.len() <= 63
        && all_lawful(interfaces)
        && are_distinct(interfaces)
}
