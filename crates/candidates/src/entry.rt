//! What one link or one list advertises about a router, and the order in which such entries are
//! searched.
ghost use Rattle.std.specs.Prelude.{◌≡◌, ◌↔◌, IsTrue, Some};
ghost use Rattle.std.specs.Ordering.{is_lt};
ghost use Rattle.candidates.specs.Entries.{IsBeside, attached_entry, entry_cmp, entry_of, rank};
ghost use Rattle.candidates.specs.Entries.{with_kind};

use lsa::{LinkKind, RouterLink};
use std::cmp::Ordering;
use words::{LinkStateId, RouterId};

/// The kind of advertisement that the entry comes from.
#[derive(Clone, Copy, PartialEq, Eq)]
pub enum EntryKind {
    /// Its router-LSA has a link to another router.
    PointToPoint,
    /// Its router-LSA has a link to a transit network.
    Transit,
    /// A network-LSA lists it.
    Attached,
}

/// What one link of its router-LSA, or the list of a network-LSA, advertises about a router.
#[derive(Clone, Copy)]
pub struct AdvertisedLink {
    pub router: RouterId,
    pub kind: EntryKind,
    /// The Link ID, or the Link State ID of the network-LSA.
    pub id: u32,
    /// The metric of the link; 0 for `Attached`.
    pub metric: u16,
    /// The index of the network among the nodes; 0 for links.
    pub place: usize,
}

fn rank(kind: EntryKind) -> u8
    ensures { result ≡ rank kind }
{
    match kind {
        EntryKind::PointToPoint => 0,
        EntryKind::Transit => 1,
        EntryKind::Attached => 2,
    }
}

/// Orders entries by router, kind, ID, metric and place.
pub fn compare(a: &AdvertisedLink, b: &AdvertisedLink) -> Ordering
    ensures { result ≡ entry_cmp a.now b.now }
{
    a.router
        .number()
        .cmp(&b.router.number())
        .then(rank(a.kind).cmp(&rank(b.kind)))
        .then(a.id.cmp(&b.id))
        .then(a.metric.cmp(&b.metric))
        .then(a.place.cmp(&b.place))
}

/// Whether the first comes before the second in that order.
pub fn is_before(a: &AdvertisedLink, b: &AdvertisedLink) -> bool
    ensures { result ≡ is_lt (entry_cmp a.now b.now) }
{
    compare(a, b) == Ordering::Less
}

/// Whether both have the same router, kind and ID.
pub fn is_beside(entry: &AdvertisedLink, other: &AdvertisedLink) -> bool
    ensures { IsTrue result ↔ IsBeside entry.now other.now }
{
    entry.router.number() == other.router.number()
        && entry.kind == other.kind
        && entry.id == other.id
}

/// Whether the entry has this router, kind and ID.
pub fn is_of(entry: &AdvertisedLink, router: RouterId, kind: EntryKind, id: u32) -> bool
    ensures { IsTrue result ↔ ((entry.now.id ≡ id) × (entry.now.router ≡ router)
        × (entry.now.kind ≡ kind)) }
{
    entry.id == id && entry.router.number() == router.number() && entry.kind == kind
}

/// The entry of a link of the router's LSA; links to stub networks and virtual links have none.
pub fn of_link(router: RouterId, link: &RouterLink) -> Option<AdvertisedLink>
    ensures { result ≡ entry_of router link.now }
{
    match link.kind {
        LinkKind::PointToPoint => Some(with_kind(router, EntryKind::PointToPoint, link)),
        LinkKind::Transit => Some(with_kind(router, EntryKind::Transit, link)),
        LinkKind::Stub => None,
        LinkKind::Virtual => None,
    }
}

fn with_kind(router: RouterId, kind: EntryKind, link: &RouterLink) -> AdvertisedLink
    ensures { result ≡ with_kind router kind link.now }
{
    AdvertisedLink {
        router,
        kind,
        id: link.link_id,
        metric: link.metric,
        place: 0,
    }
}

/// The entry of a router that the network-LSA with this Link State ID lists. The network's node is
/// at index `place`.
pub fn of_list(id: LinkStateId, place: usize, router: RouterId) -> AdvertisedLink
    ensures { result ≡ attached_entry id place router }
{
    AdvertisedLink {
        router,
        kind: EntryKind::Attached,
        id: id.number(),
        metric: 0,
        place,
    }
}
