//! Lemmas for proofs: the ranges that the types of a packet's fields ensure. Nothing here does
//! anything at run time.
ghost use Rattle.std.specs.List.{AllByRecursion};
ghost use Rattle.words.specs.Fields.{AreBytes};
ghost use Rattle.lsa.specs.Headers.{IsHeader};
ghost use Rattle.packet.specs.Text.{IsDescription, IsHello, IsKey};
ghost use Rattle.packet.specs.Ranges.{BodyIsTyped, PacketIsTyped};

use crate::model::{Description, Hello, Packet, PacketBody};
use lsa::{Header, prove_router_ids};
use words::{Key, Sequence};

fn prove_headers(headers: &[Header])
    ensures { AllByRecursion IsHeader headers.now }
{
    for header in headers {
        header.prove_ranges();
    }
}

fn prove_key(key: &Key)
    ensures { IsKey key.now }
{
    let _ls_type = key.ls_type;
    let _link_state_id = key.link_state_id.number();
    let _advertising_router = key.advertising_router.number();
}

fn prove_keys(keys: &[Key])
    ensures { AllByRecursion IsKey keys.now }
{
    for key in keys {
        prove_key(key);
    }
}

fn prove_bytes(bytes: &[u8])
    ensures { AreBytes bytes.now }
{
    let _bytes = bytes;
}

fn prove_lsas(lsas: &[Sequence<u8>])
    ensures { AllByRecursion AreBytes lsas.now }
{
    for lsa in lsas {
        prove_bytes(lsa.as_slice());
    }
}

fn prove_hello(hello: &Hello)
    ensures { IsHello hello.now }
{
    let _mask = hello.mask;
    let _hello_interval = hello.hello_interval;
    let _options = hello.options;
    let _priority = hello.priority;
    let _dead_interval = hello.dead_interval;
    prove_router_ids(hello.neighbors.as_slice());
}

fn prove_description(description: &Description)
    ensures { IsDescription description.now }
{
    let _mtu = description.mtu;
    let _options = description.options;
    let _sequence = description.sequence;
    prove_headers(description.headers.as_slice());
}

fn prove_body(body: &PacketBody)
    ensures { BodyIsTyped body.now }
{
    match body {
        PacketBody::Hello(hello) => prove_hello(hello),
        PacketBody::Description(description) => prove_description(description),
        PacketBody::Request(keys) => prove_keys(keys.as_slice()),
        PacketBody::Update(lsas) => prove_lsas(lsas.as_slice()),
        PacketBody::Acknowledgment(headers) => prove_headers(headers.as_slice()),
    }
}

impl Packet {
    /// For the prover alone: tells it that every field is in the range of its type. It does nothing
    /// at run time.
    ///
    /// The types don't ensure that each LSA of a Link State Update has room for its header and the
    /// length that it gives.
    pub fn prove_ranges(&self)
        ensures { PacketIsTyped self.now }
    {
        let _router = self.router.number();
        prove_body(&self.body);
    }
}
