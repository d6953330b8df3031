//! Drafting direct and delayed acknowledgments (RFC 2328, section 13.5).
ghost use Rattle.std.specs.Prelude.{◌≡◌, ◌∷◌, [], ℕ, OnOk, map};
ghost use Rattle.std.specs.List.{fold};
ghost use Rattle.std.specs.FinMap as finite;
ghost use Rattle.adjacency.specs.Contents.{Acknowledges};
ghost use Rattle.adjacency.specs.Drafts.{drafting};
ghost use Rattle.adjacency.specs.Doing.{ListDoes};
ghost use Rattle.area.specs.Doing.{LinkDoes};

use super::Link;
use adjacency::Draft;
use keyed_map::KeyedMap;
use lsa::Header;
use std::alloc::{AllocError, Global};
use words::Key;

// Drafts acknowledgments of these headers, in the order of their keys.
fn draft_headers(headers: &KeyedMap<Header>, draft: &mut Draft) -> Result<(), AllocError>
    ensures { OnOk result ((delay : ℕ) → draft.new ≡ drafting delay
        (map Acknowledges (finite.values headers.now.present)) draft.old) }
{
    for (_, header) in headers.entries() {
        draft.add_acknowledgment(*header)?;
    }
    Ok(())
}

// Removes these keys.
fn remove_headers(keys: &[Key], headers: &mut KeyedMap<Header>) -> Result<(), AllocError>
    ensures { ListDoes (λ l. fold finite.remove l keys.now) headers.old headers.new result }
{
    for i in 0..keys.len() {
        headers.remove(&keys[i])?;
    }
    Ok(())
}

impl Link {
    /// Drafts the delayed acknowledgments, in the order of their keys, and clears them (RFC 2328,
    /// section 13.5).
    ///
    /// # Errors
    /// `AllocError` if an allocation is refused.
    pub fn draft_delayed_acknowledgments(&mut self, alloc: Global) -> Result<(), AllocError>
        ensures { LinkDoes (λ link. record link { acknowledgments = finite.empty })
            (λ link. map Acknowledges (finite.values link.acknowledgments))
            self.old self.new result }
    {
        let count = self.acknowledgments.len();
        let keys = self.acknowledgments.first(alloc, count)?;
        draft_headers(&self.acknowledgments, &mut self.draft)?;
        remove_headers(&keys, &mut self.acknowledgments)
    }

    /// Drafts a direct acknowledgment of the instance (RFC 2328, section 13.5).
    ///
    /// # Errors
    /// `AllocError` if an allocation is refused.
    pub fn draft_direct_acknowledgment(&mut self, header: Header) -> Result<(), AllocError>
        ensures { LinkDoes (λ link. link) (λ link. Acknowledges header ∷ []) self.old self.new
            result }
    {
        self.draft.add_acknowledgment(header)
    }
}
