//! What bytes and texts say, by all fields. What is encoded again, and what is refused, are rows of
//! trials/{lsas,packets,configurations}.rows. Another program computed the checksums.
use console::read_configuration;
use std::alloc::Global;
use std::process::Abort;
use std::test::Fail;

// ---- LSAs

// 1.1.1.1 with a link to 2.2.2.2, with two TOS metrics, and one to 10.0.1.0/24.
const LINKS: &[u8] =
    b"\x00\x01\x02\x01\x01\x01\x01\x01\x01\x01\x01\x01\x80\x00\x00\x01\x68\x66\x00\x38\x02\x00\x00\
        \x02\x02\x02\x02\x02\x0a\x00\x01\x01\x01\x02\x00\x0a\x08\x00\x00\x14\x0c\xff\x00\x07\x0a\
        \x00\x01\x00\xff\xff\xff\x00\x03\x00\x00\x0a";

// 9.9.9.9 by 2.2.2.2: LS type 4, metric 7, checksum 0xc761.
const ROUTER: &[u8] =
    b"\x00\x00\x02\x04\x09\x09\x09\x09\x02\x02\x02\x02\x80\x00\x00\x01\xc7\x61\x00\x1c\x00\x00\x00\
        \x00\x00\x00\x00\x07";

// The summary-LSA of the network with metrics for two other types of service.
const TOS: &[u8] =
    b"\x00\x00\x02\x03\xc6\x33\x64\x00\x02\x02\x02\x02\x80\x00\x00\x01\x73\xb1\x00\x24\xff\xff\xff\
        \x00\x00\x00\x00\x05\x08\x00\x00\x14\x0c\x12\x34\x56";

const BODIES: &[(&[u8], &str)] = &[
    (
        LINKS,
        "Router(RouterLsa { flags: 2, links: Sequence { items: [RouterLink { link_id: 33686018, link_data: 167772417, kind: PointToPoint, metric: 10, tos: Sequence { items: [LinkTos { tos: 8, unused: 0, metric: 20 }, LinkTos { tos: 12, unused: 255, metric: 7 }] } }, RouterLink { link_id: 167772416, link_data: 4294967040, kind: Stub, metric: 10, tos: Sequence { items: [] } }] } })",
    ),
    (
        TOS,
        "NetworkSummary(SummaryLsa { mask: Address { bits: 4294967040 }, metric: 5, tos: Sequence { items: [SummaryTos { tos: 8, metric: 20 }, SummaryTos { tos: 12, metric: 1193046 }] } })",
    ),
    (
        ROUTER,
        "RouterSummary(SummaryLsa { mask: Address { bits: 0 }, metric: 7, tos: Sequence { items: [] } })",
    ),
];

// The body of the LSA in the bytes, printed.
fn lsa_says(alloc: Global, bytes: &[u8]) -> Result<String, Fail> {
    let lsa = lsa::read(alloc, bytes)?;
    let body = lsa.body();
    Ok(format!(in alloc; "{body:?}")?)
}

#[test]
fn lsas_are_read_by_their_fields(rt: HostRuntime) -> Result<(), Fail> {
    for row in BODIES {
        let found = lsa_says(rt.alloc(), row.0)?;
        assert!(rt; found.as_str() == row.1, "{found}");
    }
    Ok(())
}

// ---- packets

// A Hello of 1.1.1.1 that lists 2.2.2.2; checksum 0xf694.
const HELLO_NAMING: &[u8] =
    b"\x02\x01\x00\x30\x01\x01\x01\x01\x00\x00\x00\x00\xf6\x94\x00\x00\x00\x00\x00\x00\x00\x00\x00\
        \x00\xff\xff\xff\x00\x00\x0a\x02\x01\x00\x00\x00\x28\x00\x00\x00\x00\x00\x00\x00\x00\x02\
        \x02\x02\x02";

// A Database Description of 2.2.2.2: only the M-bit, two headers.
const DESCRIPTION: &[u8] =
    b"\x02\x02\x00\x48\x02\x02\x02\x02\x00\x00\x00\x00\xf9\x90\x00\x00\x00\x00\x00\x00\x00\x00\x00\
        \x00\x05\xdc\x02\x02\x01\x02\x03\x04\x00\x01\x02\x01\x01\x01\x01\x01\x01\x01\x01\x01\x80\
        \x00\x00\x01\x59\xae\x00\x30\x00\x00\x02\x05\xcb\x00\x71\x00\x01\x01\x01\x01\x80\x00\x00\
        \x01\x54\x29\x00\x24";

// A Link State Request for two LSAs, the second with an LS type above 255.
const REQUEST: &[u8] =
    b"\x02\x03\x00\x30\x01\x01\x01\x01\x00\x00\x00\x00\xb7\xca\x00\x00\x00\x00\x00\x00\x00\x00\x00\
        \x00\x00\x00\x00\x01\x01\x01\x01\x01\x01\x01\x01\x01\xff\xff\xff\xf5\xcb\x00\x71\x00\x02\
        \x02\x02\x02";

// A Link State Update with a router-LSA of 48 bytes and an AS-external-LSA of 36.
const UPDATE: &[u8] =
    b"\x02\x04\x00\x70\x01\x01\x01\x01\x00\x00\x00\x00\x69\x19\x00\x00\x00\x00\x00\x00\x00\x00\x00\
        \x00\x00\x00\x00\x02\x00\x01\x02\x01\x01\x01\x01\x01\x01\x01\x01\x01\x80\x00\x00\x01\x59\
        \xae\x00\x30\x02\x00\x00\x02\x02\x02\x02\x02\x0a\x00\x01\x01\x01\x00\x00\x0a\x0a\x00\x01\
        \x00\xff\xff\xff\x00\x03\x00\x00\x0a\x00\x00\x02\x05\xcb\x00\x71\x00\x01\x01\x01\x01\x80\
        \x00\x00\x01\x54\x29\x00\x24\xff\xff\xff\x00\x80\x00\x00\x14\x00\x00\x00\x00\x00\x00\x00\
        \x00";

// A Link State Acknowledgment with a header and 20 bytes of ones.
const ACKNOWLEDGMENT: &[u8] =
    b"\x02\x05\x00\x40\x01\x01\x01\x01\x00\x00\x00\x00\xe7\x61\x00\x00\x00\x00\x00\x00\x00\x00\x00\
        \x00\x00\x00\x02\x05\xcb\x00\x71\x00\x01\x01\x01\x01\x80\x00\x00\x01\x54\x29\x00\x24\xff\
        \xff\xff\xff\xff\xff\xff\xff\xff\xff\xff\xff\xff\xff\xff\xff\xff\xff\xff\xff";

const PACKETS: &[(&[u8], &str)] = &[
    (
        HELLO_NAMING,
        "Packet { router: RouterId { number: 16843009 }, body: Hello(Hello { mask: 4294967040, hello_interval: 10, options: 2, priority: 1, dead_interval: 40, neighbors: Sequence { items: [RouterId { number: 33686018 }] } }) }",
    ),
    (
        DESCRIPTION,
        "Packet { router: RouterId { number: 33686018 }, body: Description(Description { mtu: 1500, options: 2, init: false, more: true, master: false, sequence: 16909060, headers: Sequence { items: [Header { age: 1, options: 2, ls_type: 1, link_state_id: LinkStateId { number: 16843009 }, advertising_router: RouterId { number: 16843009 }, sequence: SequenceNumber { number: -2147483647 }, checksum: 22958, length: 48 }, Header { age: 0, options: 2, ls_type: 5, link_state_id: LinkStateId { number: 3405803776 }, advertising_router: RouterId { number: 16843009 }, sequence: SequenceNumber { number: -2147483647 }, checksum: 21545, length: 36 }] } }) }",
    ),
    (
        REQUEST,
        "Packet { router: RouterId { number: 16843009 }, body: Request(Sequence { items: [Key { ls_type: 1, link_state_id: LinkStateId { number: 16843009 }, advertising_router: RouterId { number: 16843009 } }, Key { ls_type: 4294967285, link_state_id: LinkStateId { number: 3405803776 }, advertising_router: RouterId { number: 33686018 } }] }) }",
    ),
    (
        UPDATE,
        "Packet { router: RouterId { number: 16843009 }, body: Update(Sequence { items: [Sequence { items: [0, 1, 2, 1, 1, 1, 1, 1, 1, 1, 1, 1, 128, 0, 0, 1, 89, 174, 0, 48, 2, 0, 0, 2, 2, 2, 2, 2, 10, 0, 1, 1, 1, 0, 0, 10, 10, 0, 1, 0, 255, 255, 255, 0, 3, 0, 0, 10] }, Sequence { items: [0, 0, 2, 5, 203, 0, 113, 0, 1, 1, 1, 1, 128, 0, 0, 1, 84, 41, 0, 36, 255, 255, 255, 0, 128, 0, 0, 20, 0, 0, 0, 0, 0, 0, 0, 0] }] }) }",
    ),
    (
        ACKNOWLEDGMENT,
        "Packet { router: RouterId { number: 16843009 }, body: Acknowledgment(Sequence { items: [Header { age: 0, options: 2, ls_type: 5, link_state_id: LinkStateId { number: 3405803776 }, advertising_router: RouterId { number: 16843009 }, sequence: SequenceNumber { number: -2147483647 }, checksum: 21545, length: 36 }, Header { age: 65535, options: 255, ls_type: 255, link_state_id: LinkStateId { number: 4294967295 }, advertising_router: RouterId { number: 4294967295 }, sequence: SequenceNumber { number: -1 }, checksum: 65535, length: 65535 }] }) }",
    ),
];

// The packet in the bytes, printed. That it is encoded as these bytes again is shown by
// trials/packets.rows.
fn packet_says(alloc: Global, bytes: &[u8]) -> Result<String, Fail> {
    let packet = packet::read(alloc, bytes)?;
    Ok(format!(in alloc; "{packet:?}")?)
}

#[test]
fn packets_are_read_by_their_fields(rt: HostRuntime) -> Result<(), Fail> {
    for row in PACKETS {
        let found = packet_says(rt.alloc(), row.0)?;
        assert!(rt; found.as_str() == row.1, "{found}");
    }
    Ok(())
}

// ---- configurations

const FIRST: &str = "router 1.1.1.1\n\
        interface 1 10.0.1.1/24 cost 10 hello 10 dead 40 rxmt 5 delay 1 port 7001 peer 7002\n";

// The greatest numbers, and the least.
const ENDS: &str = "router 255.255.255.255\n\
        interface 1 0.0.0.0/0 cost 65535 hello 65535 dead 4294967295 rxmt 65535 delay 3600 port \
        65535 peer 1\ninterface 2 10.0.2.1/32 cost 1 hello 1 dead 1 rxmt 1 delay 1 port 7003 peer \
        7004";

const CONFIGURATIONS: &[(&str, &str)] = &[
    (
        FIRST,
        "Configured { router: RouterId { number: 16843009 }, interfaces: Sequence { items: [ConfiguredInterface { interface: Interface { address: Address { bits: 167772417 }, length: 24, cost: 10, hello_interval: 10, dead_interval: 40, retransmit_interval: 5, delay: 1 }, udp_port: 7001, peer: 7002 }] } }",
    ),
    // the last line feed is optional
    (
        ENDS,
        "Configured { router: RouterId { number: 4294967295 }, interfaces: Sequence { items: [ConfiguredInterface { interface: Interface { address: Address { bits: 0 }, length: 0, cost: 65535, hello_interval: 65535, dead_interval: 4294967295, retransmit_interval: 65535, delay: 3600 }, udp_port: 65535, peer: 1 }, ConfiguredInterface { interface: Interface { address: Address { bits: 167772673 }, length: 32, cost: 1, hello_interval: 1, dead_interval: 1, retransmit_interval: 1, delay: 1 }, udp_port: 7003, peer: 7004 }] } }",
    ),
];

fn configuration_says(alloc: Global, text: &str) -> Result<String, Fail> {
    let configured = read_configuration(alloc, text)?;
    Ok(format!(in alloc; "{configured:?}")?)
}

#[test]
fn configurations_are_read_by_their_fields(rt: HostRuntime) -> Result<(), Fail> {
    for row in CONFIGURATIONS {
        let found = configuration_says(rt.alloc(), row.0)?;
        assert!(rt; found.as_str() == row.1, "{found}");
    }
    Ok(())
}
