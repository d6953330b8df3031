//! The question of a packet that comes in.
ghost use Rattle.std.specs.Prelude.{◌≡◌, []};

use crate::asked::Asked;
use crate::requests::{PacketSource, Question};
use std::alloc::Global;
use words::{Address, ExternalType, Hops, Prefix, RouteKind, Second};

// 0.0.0.0/0, which no packet has anything to do with.
fn everything() -> Prefix {
    Prefix::under(Address::new(0), 0).unwrap()
}

/// The question of a packet that comes in at the interface, at the moment; its bytes are handed
/// over beside it.
pub fn packet_question<'a>(alloc: Global, interface: u16, moment: Second) -> Question<'a>
    ensures interface { result.asked.interface ≡ interface }
    ensures moment { result.asked.moment ≡ moment }
    ensures settings { (result.counters.items ≡ []) × (result.cells.items ≡ []) }
    ensures once { result.times ≡ 1 }
{
    let asked = Asked {
        prefix: everything(),
        metric: 0,
        tag: 0,
        external: ExternalType::Type2,
        kind: RouteKind::Intra,
        cost: 0,
        distance: 0,
        hops: Hops::NONE,
        interface,
        moment,
    };
    Question {
        asked,
        packet: PacketSource::Bytes(Vec::new(alloc)),
        rows: Vec::new(alloc),
        counters: Vec::new(alloc),
        cells: Vec::new(alloc),
        times: 1,
    }
}
