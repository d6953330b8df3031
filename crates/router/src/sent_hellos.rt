//! Hellos that are sent (RFC 2328, section 9.5).
ghost use Rattle.std.specs.Prelude.{◌≡◌, IfOk};
ghost use Rattle.event_rules.specs.Hellos.{heard_of, hello_is_due, hello_on, is_due};
ghost use Rattle.router.specs.SentHellos.{routers_of};

use crate::router::subnet_mask;
use area::{Link, LinkStep, Lsdb, NeighborState, has_passed};
use packet::Hello;
use std::alloc::{AllocError, Global};
use words::{E_BIT, RouterId, Second, Sequence};

fn is_due(moment: Second, interval: u16, last: Option<Second>) -> bool
    ensures { result ≡ is_due moment interval last }
{
    match last {
        None => true,
        Some(last) => has_passed(last, u32::from(interval), moment),
    }
}

fn hello_is_due(moment: Second, link: &Link) -> bool
    ensures { result ≡ hello_is_due moment link.now.present }
{
    let interface = link.interface();
    let last = link.last_hello_sent();
    is_due(moment, interface.hello_interval, last)
}

fn routers_of(
    alloc: Global,
    neighbor: Option<(RouterId, NeighborState)>,
) -> Result<Sequence<RouterId>, AllocError>
    ensures { IfOk result (λ rs. rs ≡ routers_of neighbor) }
{
    let mut routers = Vec::new(alloc);
    if let Some((router, _state)) = neighbor {
        routers.push(router)?;
    }
    Ok(Sequence::from_vec(routers))
}

fn heard_of(alloc: Global, link: &Link) -> Result<Sequence<RouterId>, AllocError>
    ensures { IfOk result (λ rs. rs ≡ heard_of link.now.present.neighbor) }
{
    let neighbor = link.neighbor();
    let routers = routers_of(alloc, neighbor)?;
    Ok(routers)
}

fn hello_on(alloc: Global, link: &Link) -> Result<Hello, AllocError>
    ensures { IfOk result (λ h. h ≡ hello_on link.now.present) }
{
    let interface = link.interface();
    let neighbors = heard_of(alloc, link)?;
    Ok(Hello {
        mask: subnet_mask(&interface),
        hello_interval: interface.hello_interval,
        options: E_BIT,
        priority: 1,
        dead_interval: interface.dead_interval,
        neighbors,
    })
}

/// A Hello at an interface at which none was sent for HelloInterval: it lists the neighbor, if
/// there is one, and has the interface's mask and intervals.
#[derive(Drop)]
pub struct SendingHello {
    pub moment: Second,
}

impl LinkStep for SendingHello {
    ghost use Rattle.event_rules.specs.Hellos.{with_hello_sent};
    ghost use Rattle.event_rules.specs.Ticks.{hello_sent_on};

    ghost after = { λ a database link. with_hello_sent a.moment link };

    ghost sends = { λ a database link. hello_sent_on a.moment link };

    fn apply(&self, alloc: Global, _database: &Lsdb, link: &mut Link) -> Result<(), AllocError> {
        let due = hello_is_due(self.moment, link);
        if due {
            let hello = hello_on(alloc, link)?;
            return link.draft_hello(self.moment, hello);
        }
        Ok(())
    }
}
