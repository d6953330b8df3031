//! Whether the router-LSA has changed since other neighbors were Full (RFC 2328, section 12.4.1).
ghost use Rattle.std.specs.Prelude.{◌≡◌, ◌≤◌, List, length, map, IfOk, IsTrue};
ghost use Rattle.lsa.specs.Ranges.{BodyFits};
ghost use Rattle.lsa.specs.Text.{body_text};
ghost use Rattle.received.specs.Links.{Link as OnLink};
ghost use Rattle.event_rules.specs.Endings.{copy_has_body, links_differ, same_body};
ghost use Rattle.event_rules.specs.Originations.{router_body};
ghost use Rattle.area.specs.Links.{present};
ghost use Rattle.router.specs.Described.{described_body, full_routers, interfaces};

use crate::router::{described_body, full_routers};
use area::{DatabaseCopy, Link};
use lsa::{Header, Lsa, LsaBody};
use std::alloc::{AllocError, Global};
use std::cmp::Ordering;
use words::{E_BIT, LinkStateId, RouterId, SequenceNumber};

// Some LSA with this body.
fn lsa_with_body(alloc: Global, body: LsaBody) -> Result<Lsa, AllocError>
    requires fits { BodyFits body }
    requires size { length (body_text body) ≤ 65515 }
    ensures { IfOk result (λ lsa. lsa.body ≡ body) }
{
    let header = Header {
        age: 0,
        options: E_BIT,
        ls_type: 0,
        link_state_id: LinkStateId::new(0),
        advertising_router: RouterId::new(0),
        sequence: SequenceNumber::INITIAL,
        checksum: 0,
        length: 0,
    };
    let lsa = Lsa::new(alloc, header, body)?;
    Ok(lsa)
}

// The router-LSA of these interfaces while these neighbors are Full.
fn described_lsa(
    alloc: Global,
    links: &[Link],
    full: &[Option<RouterId>],
) -> Result<Lsa, AllocError>
    requires few { length links.now ≤ 63 }
    requires each { length full.now ≡ length links.now }
    ensures { IfOk result (λ lsa. lsa.body
        ≡ described_body (interfaces (map present links.now)) full.now) }
{
    let body = described_body(alloc, links, full)?;
    lsa_with_body(alloc, body)
}

// The bytes of the LSA's body.
fn body_bytes(alloc: Global, lsa: &Lsa) -> Result<Vec<u8>, AllocError>
    ensures { IfOk result (λ text. text.items ≡ body_text lsa.now.body) }
{
    let mut text = Vec::new(alloc);
    lsa.put_body(&mut text)?;
    Ok(text)
}

// Whether both have the same body.
fn same_body(alloc: Global, a: &Lsa, b: &Lsa) -> Result<bool, AllocError>
    ensures { IfOk result (λ same. same ≡ same_body a.now.body b.now.body) }
{
    let left = body_bytes(alloc, a)?;
    let right = body_bytes(alloc, b)?;
    Ok(left.as_slice().cmp(right.as_slice()) == Ordering::Equal)
}

fn same_router(a: Option<RouterId>, b: Option<RouterId>) -> bool
    ensures { IsTrue result → a ≡ b }
{
    match a {
        None => match b {
            None => true,
            Some(_b) => false,
        },
        Some(a) => match b {
            None => false,
            Some(b) => a.number() == b.number(),
        },
    }
}

fn same_full(a: &[Option<RouterId>], b: &[Option<RouterId>]) -> bool
    requires { length a.now ≡ length b.now }
    ensures { IsTrue result → a.now ≡ b.now }
{
    for i in 0..a.len() {
        let same = same_router(a[i], b[i]);
        if !same {
            return false;
        }
    }
    true
}

// As `links_differ`, by the bytes of both.
fn texts_differ(
    alloc: Global,
    links: &[Link],
    before: &[Option<RouterId>],
    now: &[Option<RouterId>],
) -> Result<bool, AllocError>
    requires few { length links.now ≤ 63 }
    requires before { length before.now ≡ length links.now }
    requires now { now.now ≡ full_routers (map present links.now) }
    ensures { IfOk result (λ differ. (old : List OnLink)
        → interfaces old ≡ interfaces (map present links.now) → full_routers old ≡ before.now
        → differ ≡ links_differ old (map present links.now)) }
{
    let old = described_lsa(alloc, links, before)?;
    let new = described_lsa(alloc, links, now)?;
    let same = same_body(alloc, &old, &new)?;
    Ok(!same)
}

/// Whether the body of the router-LSA differs from what it was for links of the same interfaces
/// when exactly the neighbors `before` were Full, interface n at index n - 1. If the same neighbors
/// are Full now, no bodies are compared.
///
/// # Errors
/// `AllocError` if an allocation is refused.
pub fn links_differ(
    alloc: Global,
    links: &[Link],
    before: &[Option<RouterId>],
) -> Result<bool, AllocError>
    requires few { length links.now ≤ 63 }
    requires before { length before.now ≡ length links.now }
    ensures { IfOk result (λ differ. (old : List OnLink)
        → interfaces old ≡ interfaces (map present links.now) → full_routers old ≡ before.now
        → differ ≡ links_differ old (map present links.now)) }
{
    let now = full_routers(alloc, links)?;
    if same_full(before, &now) {
        return Ok(false);
    }
    texts_differ(alloc, links, before, &now)
}

fn lsa_describes(alloc: Global, links: &[Link], lsa: &Lsa) -> Result<bool, AllocError>
    requires few { length links.now ≤ 63 }
    ensures { IfOk result (λ describes. describes
        ≡ same_body lsa.now.body (router_body (map present links.now))) }
{
    let now = full_routers(alloc, links)?;
    let present = described_lsa(alloc, links, &now)?;
    let same = same_body(alloc, lsa, &present)?;
    Ok(same)
}

/// Whether there is a copy, and its body is that of the router-LSA for these links.
///
/// # Errors
/// `AllocError` if an allocation is refused.
pub fn copy_describes(
    alloc: Global,
    links: &[Link],
    copy: Option<DatabaseCopy<'_>>,
) -> Result<bool, AllocError>
    requires few { length links.now ≤ 63 }
    ensures { IfOk result (λ describes. describes
        ≡ copy_has_body (router_body (map present links.now)) copy.entry) }
{
    match copy {
        None => Ok(false),
        Some(copy) => lsa_describes(alloc, links, copy.lsa),
    }
}
