//! The context of a packet.
ghost use Rattle.std.specs.Prelude.{◌≡◌};
ghost use Rattle.machine.specs.Contexts.{count_context, type_in, router_id_in};

use crate::contexts::Context;
use crate::fields::{put_eight, put_four};
use isa::Hook;
use words::{Second, u32_at};

/// The packet's type (RFC 2328, A.3.1); 0 if it has fewer than two bytes.
fn type_in(packet: &[u8]) -> u8
    ensures { result ≡ type_in packet.now }
{
    if packet.len() < 2 { 0 } else { packet[1] }
}

/// The packet's Router ID; 0 if it has fewer than eight bytes.
fn router_id_in(packet: &[u8]) -> u32
    ensures { result ≡ router_id_in packet.now }
{
    if packet.len() < 8 {
        0
    } else {
        u32_at(packet, 4)
    }
}

/// The context of `count` for a packet that came in on the interface at this moment. The packet's
/// length is cut to its low 32 bits.
pub fn count_context(interface: u16, moment: Second, packet: &[u8]) -> Context
    ensures { result ≡ count_context interface moment packet.now }
{
    let mut context = [0; 64];
    put_four(&mut context, 0, u64::from(Hook::Count.number()));
    put_four(&mut context, 4, u64::from(interface));
    put_eight(&mut context, 8, moment.count());
    put_four(&mut context, 16, packet.len() as u64);
    put_four(&mut context, 20, u64::from(type_in(packet)));
    put_four(&mut context, 24, u64::from(router_id_in(packet)));
    context
}
