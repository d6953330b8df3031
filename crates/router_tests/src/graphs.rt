//! The graph of an area after an event: updated, or to be rebuilt. That an updated one is the
//! database's is a clause of `update_graph`, which doesn't say when it can be.
ghost use Rattle.std.specs.Prelude.{◌≤◌, length};
ghost use Rattle.std.specs.FinMap as finite;
ghost use Rattle.words.specs.Constants.{max_lsas};

use area_routes::update_graph;
use candidates::AreaGraph;
use lsa::{Lsa, read};
use lsdb::Lsdb;
use routes::Root;
use std::alloc::{AllocError, Global};
use std::process::Abort;
use std::test::Fail;
use words::{Address, RouterId, Second, Sequence};

// 1.1.1.1 and 2.2.2.2, an AS boundary router, on a link with cost 10 with the network 10.0.1.0/24;
// the second also has 10.0.2.0/24, with cost 5. The checksums are from tools/area-rows.
const TWO: &[&[u8]] = &[
    b"\x00\x01\x02\x01\x01\x01\x01\x01\x01\x01\x01\x01\x80\x00\x00\x01\x59\xae\x00\x30\x02\x00\x00\
        \x02\x02\x02\x02\x02\x0a\x00\x01\x01\x01\x00\x00\x0a\x0a\x00\x01\x00\xff\xff\xff\x00\x03\
        \x00\x00\x0a",
    b"\x00\x01\x02\x01\x02\x02\x02\x02\x02\x02\x02\x02\x80\x00\x00\x01\xd8\x09\x00\x3c\x02\x00\x00\
        \x03\x01\x01\x01\x01\x0a\x00\x01\x02\x01\x00\x00\x0a\x0a\x00\x01\x00\xff\xff\xff\x00\x03\
        \x00\x00\x0a\x0a\x00\x02\x00\xff\xff\xff\x00\x03\x00\x00\x05",
];

// A name; a router's LSA with one link to the first router; whether the graph of two routers can be
// updated for it.
const CHANGES: &[(&str, &[u8], bool)] = &[
    (
        "the other router's link costs something else",
        b"\x00\x01\x02\x01\x02\x02\x02\x02\x02\x02\x02\x02\x80\x00\x00\x01\x0a\x25\x00\x24\x02\x00\
            \x00\x01\x01\x01\x01\x01\x0a\x00\x01\x02\x01\x00\x00\x03",
        true,
    ),
    (
        "it doesn't count",
        b"\x00\x01\x02\x01\x02\x02\x02\x02\x02\x02\x02\x02\x80\x00\x00\x01\xd3\x5e\x00\x24\x02\x00\
            \x00\x01\x01\x01\x01\x01\x0a\x00\x01\x02\x01\x00\x00\x00",
        true,
    ),
    (
        "the other router has a stub link alone",
        b"\x00\x01\x02\x01\x02\x02\x02\x02\x02\x02\x02\x02\x80\x00\x00\x01\x28\x05\x00\x24\x02\x00\
            \x00\x01\x01\x01\x01\x01\x0a\x00\x01\x02\x03\x00\x00\x03",
        true,
    ),
    (
        "it has a transit link",
        b"\x00\x01\x02\x01\x02\x02\x02\x02\x02\x02\x02\x02\x80\x00\x00\x01\x19\x15\x00\x24\x02\x00\
            \x00\x01\x01\x01\x01\x01\x0a\x00\x01\x02\x02\x00\x00\x03",
        true,
    ),
    (
        "a third router comes",
        b"\x00\x01\x02\x01\x03\x03\x03\x03\x03\x03\x03\x03\x80\x00\x00\x01\xbd\x69\x00\x24\x02\x00\
            \x00\x01\x01\x01\x01\x01\x0a\x00\x01\x02\x01\x00\x00\x03",
        false,
    ),
];

// Routers 1.1.1.1 and 2.2.2.2 on a transit network, 10.0.1.0/24, whose LSA 2.2.2.2 originates.
const ON_A_NETWORK: &[&[u8]] = &[
    b"\x00\x01\x02\x01\x01\x01\x01\x01\x01\x01\x01\x01\x80\x00\x00\x01\x11\x18\x00\x24\x00\x00\x00\
        \x01\x0a\x00\x01\x02\x0a\x00\x01\x01\x02\x00\x00\x0a",
    b"\x00\x01\x02\x01\x02\x02\x02\x02\x02\x02\x02\x02\x80\x00\x00\x01\xd2\x4d\x00\x24\x00\x00\x00\
        \x01\x0a\x00\x01\x02\x0a\x00\x01\x02\x02\x00\x00\x0a",
    b"\x00\x01\x02\x02\x0a\x00\x01\x02\x02\x02\x02\x02\x80\x00\x00\x01\x2a\x0f\x00\x20\xff\xff\xff\
        \x00\x01\x01\x01\x01\x02\x02\x02\x02",
];

// A name; an LSA; whether the graph of the network with two routers can be updated for it.
const CHANGES_OF_NETWORKS: &[(&str, &[u8], bool)] = &[
    (
        "the other router's transit link costs something else",
        b"\x00\x01\x02\x01\x02\x02\x02\x02\x02\x02\x02\x02\x80\x00\x00\x01\x54\xd2\x00\x24\x00\x00\
            \x00\x01\x0a\x00\x01\x02\x0a\x00\x01\x02\x02\x00\x00\x03",
        true,
    ),
    (
        "it has a point-to-point link instead",
        b"\x00\x01\x02\x01\x02\x02\x02\x02\x02\x02\x02\x02\x80\x00\x00\x01\x04\x2d\x00\x24\x00\x00\
            \x00\x01\x01\x01\x01\x01\x0a\x00\x01\x02\x01\x00\x00\x03",
        true,
    ),
    (
        "it has two links to the network",
        b"\x00\x01\x02\x01\x02\x02\x02\x02\x02\x02\x02\x02\x80\x00\x00\x01\x8d\x6a\x00\x30\x00\x00\
            \x00\x02\x0a\x00\x01\x02\x0a\x00\x01\x02\x02\x00\x00\x03\x0a\x00\x01\x02\x0a\x00\
            \x01\x03\x02\x00\x00\x05",
        false,
    ),
    (
        "the network lists the other router alone",
        b"\x00\x01\x02\x02\x0a\x00\x01\x02\x02\x02\x02\x02\x80\x00\x00\x01\xdf\x61\x00\x1c\xff\xff\
            \xff\x00\x02\x02\x02\x02",
        true,
    ),
    (
        "the network's LSA has MaxAge",
        b"\x0e\x10\x02\x02\x0a\x00\x01\x02\x02\x02\x02\x02\x80\x00\x00\x01\x2a\x0f\x00\x20\xff\xff\
            \xff\x00\x01\x01\x01\x01\x02\x02\x02\x02",
        false,
    ),
    (
        "another network with its Link State ID comes",
        b"\x00\x01\x02\x02\x0a\x00\x01\x02\x01\x01\x01\x01\x80\x00\x00\x01\x48\xf4\x00\x20\xff\xff\
            \xff\x00\x01\x01\x01\x01\x02\x02\x02\x02",
        false,
    ),
];

// 1.1.1.1, whose interface has the address 10.0.1.1.
fn root(alloc: Global) -> Result<Root, AllocError> {
    let own = [Address::new(0x0a00_0101)];
    Ok(Root {
        router: RouterId::new(0x0101_0101),
        addresses: Sequence::from_vec(own.to_vec(alloc)?),
    })
}

fn install(alloc: Global, db: &mut Lsdb, texts: &[&[u8]]) -> Result<(), Fail> {
    for text in texts {
        db.install(
            Second::new(1000),
            read(alloc, text)?,
            Some(Second::new(1000)),
        )?;
        db.commit();
    }
    Ok(())
}

// Whether the graph of the database is updated for this LSA, which is received a second later.
fn is_followed(alloc: Global, db: &mut Lsdb, root: &Root, lsa: Lsa) -> Result<bool, Fail>
    requires interfaces { length root.now.addresses ≤ 63 }
    requires size { finite.len db.old.present ≤ max_lsas }
{
    let (before, now) = (Second::new(1000), Second::new(1001));
    db.commit();
    let graph = AreaGraph::new(alloc, db, root, before)?;
    db.install(now, lsa, Some(now))?;
    let next = update_graph(alloc, db, graph, before, now)?;
    Ok(next.is_some())
}

// Whether the graph of the LSAs in `texts` is updated for the LSA in `text`.
fn follows(alloc: Global, texts: &[&[u8]], text: &[u8]) -> Result<bool, Fail> {
    let root = root(alloc)?;
    let mut db = Lsdb::new(alloc, root.router);
    install(alloc, &mut db, texts)?;
    let lsa = read(alloc, text)?;
    if db.len() > 16384 || root.addresses.as_slice().len() > 63 {
        return Err(Fail::from("a database or a router that is too large"));
    }
    is_followed(alloc, &mut db, &root, lsa)
}

#[test]
fn a_graph_follows_router_lsas(rt: HostRuntime) -> Result<(), Fail> {
    for change in CHANGES {
        let (name, text, wanted) = *change;
        assert!(rt; follows(rt.alloc(), TWO, text)? == wanted, "{name}");
    }
    Ok(())
}

#[test]
fn a_graph_follows_network_lsas(rt: HostRuntime) -> Result<(), Fail> {
    for change in CHANGES_OF_NETWORKS {
        let (name, text, wanted) = *change;
        assert!(rt;
            follows(rt.alloc(), ON_A_NETWORK, text)? == wanted,
            "{name}"
        );
    }
    Ok(())
}
