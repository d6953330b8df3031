//! What an event's own part does to the router.
ghost use Rattle.std.specs.Prelude.{length};
ghost use Rattle.router.specs.Making.{RouterDoes};
ghost use Rattle.flood.specs.Parts.{HasInterface, after_part};

use crate::part::Part;
use router::{Router, receive_packet, redistribute, tick, withdraw};
use std::alloc::{AllocError, Global};
use words::Second;

/// Does what the event itself asks for: processes its packet, its Tick or its command.
///
/// # Errors
/// `AllocError` if an allocation is refused.
pub fn apply_part(
    router: &mut Router,
    alloc: Global,
    moment: Second,
    part: Part,
) -> Result<(), AllocError>
    requires interface { HasInterface part (length router.old.present.area.links) }
    ensures { RouterDoes (after_part part moment) router.old router.new result }
{
    match part {
        Part::Packet(interface, packet) => {
            receive_packet(router, alloc, moment, interface, &packet)
        }
        Part::Tick => tick(router, alloc, moment),
        Part::Redistribute(external, tag, price) => {
            redistribute(router, alloc, moment, external, tag, price)
        }
        Part::Withdraw(prefix) => withdraw(router, alloc, moment, prefix),
        Part::Install(answers) => {
            router.set_answers(answers);
            Ok(())
        }
        Part::LinkDown(interface) => {
            router.take_down(interface);
            Ok(())
        }
    }
}
