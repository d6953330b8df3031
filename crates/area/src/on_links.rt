//! What is asked of all links, and what the cases of a received LSA do to links.
ghost use Rattle.std.specs.Prelude.{◌≡◌, ◌≤◌, [], ◌∷◌, length, map};
ghost use Rattle.lsa.specs.Headers.{key_of};
ghost use Rattle.lsdb.specs.Copies.{lsa_now};
ghost use Rattle.adjacency.specs.Adjacencies.{mismatch_step};
ghost use Rattle.adjacency.specs.Contents.{Acknowledges, Updates, no_sends};
ghost use Rattle.adjacency.specs.Retransmissions.{remove_retransmission};
ghost use Rattle.received.specs.Links.{any_exchange_or_loading, delay_acknowledgment};
ghost use Rattle.received.specs.Links.{any_has_retransmission, any_long_list, change_link};
ghost use Rattle.received.specs.AreaStates.{sends_at, only_at, stepped_links, stepping_sends};
ghost use Rattle.area.specs.Doing.{LinksDo};
ghost use Rattle.area.specs.Links.{present};

use crate::link::Link;
use adjacency::DatabaseCopy;
use lsa::Header;
use std::alloc::{AllocError, Global};
use words::{Key, Second};

/// Whether some neighbor is in Exchange or Loading.
pub fn any_exchange_or_loading(links: &[Link]) -> bool
    ensures { result ≡ any_exchange_or_loading (map present links.now) }
{
    for i in 0..links.len() {
        let is = links[i].is_exchange_or_loading();
        if is {
            return true;
        }
    }
    false
}

/// Whether the key is on some neighbor's retransmission list.
pub fn any_has_retransmission(key: &Key, links: &[Link]) -> bool
    ensures { result ≡ any_has_retransmission key.now (map present links.now) }
{
    for i in 0..links.len() {
        let has = links[i].has_retransmission(key);
        if has {
            return true;
        }
    }
    false
}

/// Whether some link has a list that is longer than any lawful neighbor makes it.
pub fn any_long_list(links: &[Link]) -> bool
    ensures { result ≡ any_long_list (map present links.now) }
{
    for i in 0..links.len() {
        let is = links[i].has_long_list();
        if is {
            return true;
        }
    }
    false
}

/// BadLSReq at one interface: from Exchange on, the neighbor goes back to ExStart.
///
/// # Errors
/// `AllocError` if an allocation is refused.
pub fn bad_request(
    alloc: Global,
    moment: Second,
    interface: usize,
    links: &mut [Link],
) -> Result<(), AllocError>
    requires first { 1 ≤ interface }
    requires last { interface ≤ length links.old }
    ensures { LinksDo (stepped_links (only_at interface (mismatch_step moment)))
        (stepping_sends (only_at interface (mismatch_step moment)))
        links.old links.new result }
{
    let i = interface - 1;
    links[i].bad_request(alloc, moment)
}

/// Removes the header's key from the retransmission list of the neighbor at one interface.
///
/// # Errors
/// `AllocError` if an allocation is refused.
pub fn remove_retransmission(
    interface: usize,
    header: &Header,
    links: &mut [Link],
) -> Result<(), AllocError>
    requires first { 1 ≤ interface }
    requires last { interface ≤ length links.old }
    ensures { LinksDo
        (stepped_links (only_at interface (λ n. no_sends (remove_retransmission (key_of header.now)
        n))))
        (λ ls. [])
        links.old links.new result }
{
    let i = interface - 1;
    links[i].remove_retransmission(header)
}

/// Adds a delayed acknowledgment at one interface.
///
/// # Errors
/// `AllocError` if an allocation is refused.
pub fn delay_acknowledgment(
    interface: usize,
    header: Header,
    links: &mut [Link],
) -> Result<(), AllocError>
    requires first { 1 ≤ interface }
    requires last { interface ≤ length links.old }
    ensures { LinksDo (change_link interface (delay_acknowledgment header)) (λ ls. []) links.old
        links.new result }
{
    let i = interface - 1;
    links[i].delay_acknowledgment(header)
}

/// Drafts a direct acknowledgment at one interface.
///
/// # Errors
/// `AllocError` if an allocation is refused.
pub fn draft_direct_acknowledgment(
    interface: usize,
    header: Header,
    links: &mut [Link],
) -> Result<(), AllocError>
    requires first { 1 ≤ interface }
    requires last { interface ≤ length links.old }
    ensures { LinksDo (λ ls. ls) (λ ls. sends_at interface (Acknowledges header ∷ [])) links.old
        links.new result }
{
    let i = interface - 1;
    links[i].draft_direct_acknowledgment(header)
}

/// Drafts a Link State Update with the copy at one interface.
///
/// # Errors
/// `AllocError` if an allocation is refused.
pub fn draft_update(
    alloc: Global,
    moment: Second,
    interface: usize,
    copy: &DatabaseCopy<'_>,
    links: &mut [Link],
) -> Result<(), AllocError>
    requires first { 1 ≤ interface }
    requires last { interface ≤ length links.old }
    ensures { LinksDo (λ ls. ls)
        (λ ls. sends_at interface (Updates (lsa_now moment copy.now) ∷ []))
        links.old links.new result }
{
    let i = interface - 1;
    links[i].draft_copy(alloc, moment, copy)
}
