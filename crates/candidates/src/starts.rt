//! Where the entries of each router begin, as hints for searches. Only the time of a search depends
//! on them.

use crate::entry::{AdvertisedLink, EntryKind, compare, of_list};
use routes::Node;
use std::alloc::{AllocError, Global};
use words::{LinkStateId, RouterId};

/// Where a router's entries begin: those of its links, and those of the lists of networks.
#[derive(Clone, Copy)]
pub struct Start {
    pub links: usize,
    pub lists: usize,
}

/// Where the entries of the router at each index begin. Nodes and entries are sorted.
///
/// # Errors
/// `AllocError` if an allocation is refused.
pub fn starts_of(
    alloc: Global,
    nodes: &[Node],
    entries: &[AdvertisedLink],
) -> Result<Vec<Start>, AllocError> {
    let mut starts = Vec::with_capacity(alloc, nodes.len())?;
    let mut at = 0;
    for node in nodes {
        if let Node::ARouter(router) = node {
            let start = start_from(entries, at, *router);
            at = start.lists;
            starts.push(start)?;
        }
    }
    Ok(starts)
}

/// Where the entries of the router at this index begin.
pub fn start_at(starts: &[Start], place: usize) -> Start {
    match starts.get(place) {
        None => Start { links: 0, lists: 0 },
        Some(start) => *start,
    }
}

fn start_from(entries: &[AdvertisedLink], from: usize, router: RouterId) -> Start {
    let first = AdvertisedLink {
        router,
        kind: EntryKind::PointToPoint,
        id: 0,
        metric: 0,
        place: 0,
    };
    let links = first_from(entries, from, &first);
    let lists = first_from(entries, links, &of_list(LinkStateId::new(0), 0, router));
    Start { links, lists }
}

// The index of the first entry, from `from` on, that isn't before this one.
fn first_from(entries: &[AdvertisedLink], from: usize, entry: &AdvertisedLink) -> usize {
    for at in from..entries.len() {
        if !compare(&entries[at], entry).is_lt() {
            return at;
        }
    }
    entries.len()
}
