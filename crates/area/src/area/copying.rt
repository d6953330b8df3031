//! Copies of links and database.
ghost use Rattle.std.specs.Prelude.{◌≡◌, IfOk, map};
ghost use Rattle.area.specs.Drafted.{nothing_at};
ghost use Rattle.area.specs.Links.{committed_link, draft_of, present};

use super::Area;
use crate::link::Link;
use std::alloc::{AllocError, Global};

fn copy_links(alloc: Global, links: &[Link]) -> Result<Vec<Link>, AllocError>
    ensures present { IfOk result (λ made. map present made.items ≡ map present links.now) }
    ensures committed { IfOk result (λ made. map committed_link made.items
        ≡ map present links.now) }
    ensures drafts { IfOk result (λ made. map draft_of made.items
        ≡ nothing_at (map present links.now)) }
{
    let mut made = Vec::new(alloc);
    for i in 0..links.len() {
        made.push(links[i].copy(alloc)?)?;
    }
    Ok(made)
}

impl Area {
    /// A copy of the links and the database, committed, with nothing drafted.
    ///
    /// # Errors
    /// `AllocError` if an allocation is refused.
    pub fn copy(&self, alloc: Global) -> Result<Self, AllocError>
        ensures { IfOk result (λ made. made ≡ record self.now {
          committed = self.now.present;
          drafted = nothing_at self.now.present.links;
        }) }
    {
        let links = copy_links(alloc, &self.links)?;
        let database = self.database.copy(alloc)?;
        Ok(Area { links, database })
    }
}
