//! Routers, a destination, packets and programs for tests.
use event_rules::{Config, Interface};
use std::alloc::{AllocError, Global};
use words::{Address, External, ExternalType, Prefix, RouterId, Second, Sequence};
use worker::{Core, Work};

/// Router 2.2.2.2's Hello on a network of 24 bits (RFC 2328, A.3.2), which names nobody.
pub const HELLO: &[u8] =
    b"\x02\x01\x00\x2c\x02\x02\x02\x02\x00\x00\x00\x00\xf8\x9a\x00\x00\x00\x00\x00\x00\x00\x00\x00\
        \x00\xff\xff\xff\x00\x00\x0a\x02\x01\x00\x00\x00\x28\x00\x00\x00\x00\x00\x00\x00\x00";

/// The object file of `r1 = *u32 r1 4; r1 &= 63; r1 += 4; r2 = 3; call 1; exit` at `count`: it adds
/// 3 at the counter 4 beyond the interface's number.
pub const COUNTING: &[u8] =
    b"BPFH\x01\x01\x00\x00\x00\x00\x00\x00\x06\x00\x00\x00\x61\x11\x04\x00\x00\x00\x00\x00\x57\x01\
        \x00\x00\x3f\x00\x00\x00\x07\x01\x00\x00\x04\x00\x00\x00\xb7\x02\x00\x00\x03\x00\x00\x00\
        \x85\x00\x00\x00\x01\x00\x00\x00\x95\x00\x00\x00\x00\x00\x00\x00";

/// The object file of `r0 = 1; exit` at `veto`: no route comes into the table.
pub const VETOING: &[u8] =
    b"BPFH\x01\x04\x00\x00\x00\x00\x00\x00\x02\x00\x00\x00\xb7\x00\x00\x00\x01\x00\x00\x00\x95\x00\
        \x00\x00\x00\x00\x00\x00";

/// The Hello at the interface `number`, with this many zeros behind it.
///
/// # Errors
/// `AllocError` if an allocation is refused.
pub fn hello(alloc: Global, number: u16, zeros: usize) -> Result<Work, AllocError> {
    let mut bytes = Vec::from_slice(alloc, HELLO)?;
    bytes.resize(HELLO.len().saturating_add(zeros), 0)?;
    Ok(Work::Datagram(number, Sequence::from_vec(bytes)))
}

// The interface of this address on a network of 24 bits.
fn interface(address: u32) -> Interface {
    Interface {
        address: Address::new(address),
        length: 24,
        cost: 10,
        hello_interval: 10,
        dead_interval: 40,
        retransmit_interval: 5,
        delay: 1,
    }
}

/// The router of this ID with these interfaces, from moment 0 on; None for want of memory.
pub fn router(alloc: Global, id: u32, interfaces: &[Interface]) -> Option<Core> {
    let config = Config {
        router: RouterId::new(id),
        start: Second::new(0),
        interfaces: Sequence::from_vec(Vec::from_slice(alloc, interfaces).ok()?),
    };
    Core::new(alloc, &config).ok()
}

/// 1.1.1.1 with the interfaces 10.0.1.1/24 and 10.0.2.1/24.
pub fn first(alloc: Global) -> Option<Core> {
    let interfaces = [interface(0x0a00_0101), interface(0x0a00_0201)];
    router(alloc, 0x0101_0101, &interfaces)
}

/// 203.0.113.0/24 of this type, with the metric 20 and the tag 7.
pub fn destination(kind: ExternalType) -> Option<External> {
    Some(External {
        prefix: Prefix::new(Address::new(0xcb00_7100), 24)?,
        metric: 20,
        kind,
        tag: 7,
    })
}
