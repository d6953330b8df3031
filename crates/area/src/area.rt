//! Links and database as one value.
//!
//! A call that is a part of an event says by `AreaDoes` what it does: it changes links and database
//! as the definition that it names, adds what that sends to the drafts of the interfaces, and
//! leaves what was committed and the Router ID as they were. If it errors with `AllocError`, it may
//! have done a part of its work; its caller then rolls back, which drops what was drafted, too.
ghost use Rattle.std.specs.Prelude.{◌≡◌, ◌||◌, map, IfOk, OnOk};
ghost use Rattle.lsdb.specs.Limits.{exceeds as database_exceeds};
ghost use Rattle.received.specs.Links.{any_long_list};
ghost use Rattle.std.specs.FinMap as finite;
ghost use Rattle.area.specs.Drafted.{nothing_at};
ghost use Rattle.area.specs.Links.{area_of, committed_link, draft_of, present};

mod copying;

use crate::flood::{commit_links, roll_back_links, take_drafts};
use crate::link::Link;
use crate::on_links::any_long_list;
use adjacency::{Draft, Lsdb};
use std::alloc::{AllocError, Global};
use std::marker::Model;
use words::{RouterId, Second};

/// The links of a router and its database, their state when they were last committed, and what was
/// drafted since.
#[derive(Drop)]
pub struct Area {
    pub(crate) links: Vec<Link>,
    pub(crate) database: Lsdb,
}

impl Model for Area {
    ghost use Rattle.std.specs.Prelude.{map};
    ghost use Rattle.std.specs.Coded.{codes};
    ghost use Rattle.std.specs.FinMap as finite;
    ghost use Rattle.lsdb.specs.Copies.{DatabaseCopy};
    ghost use Rattle.lsdb.specs.Keys.{coded_key, key_cmp};
    ghost use Rattle.adjacency.specs.Codes.{coded_headers, coded_keys, coded_lists};
    ghost use Rattle.area.specs.Kept.{RouterArea, coded_area};

    ghost Value = { RouterArea };

    ghost coded = { coded_area (Prim.hlevel (
      codes,
      coded_lists,
      coded_keys,
      coded_headers,
      finite.code {X = DatabaseCopy} {R = key_cmp} coded_key (Prim.hlevel codes),
    )) (Prim.hlevel codes) };

    ghost use Rattle.area.specs.Links.{committed_link, draft_of, present};

    ghost view = { λ a. record {
      router = a.database.router;
      present = record { links = map present a.links.items; database = a.database.present };
      committed = record {
        links = map committed_link a.links.items;
        database = a.database.committed;
      };
      drafted = map draft_of a.links.items;
    } };
}

impl Area {
    /// These links, interface n at index n - 1, and an empty database of this router. It doesn't
    /// allocate.
    pub fn new(alloc: Global, router: RouterId, links: Vec<Link>) -> Self
        ensures { result ≡ record {
          router = router;
          present = area_of links.items finite.empty;
          committed = record { links = map committed_link links.items; database = finite.empty };
          drafted = map draft_of links.items;
        } }
    {
        Area {
            links,
            database: Lsdb::new(alloc, router),
        }
    }

    /// The links, interface n at index n - 1.
    pub fn links(&self) -> &[Link]
        ensures present { map present result.now ≡ self.now.present.links }
        ensures committed { map committed_link result.now ≡ self.now.committed.links }
        ensures drafts { map draft_of result.now ≡ self.now.drafted }
    {
        &self.links
    }

    /// The database.
    pub fn database(&self) -> &Lsdb
        ensures { result.now ≡ record {
          router = self.now.router;
          present = self.now.present.database;
          committed = self.now.committed.database;
        } }
    {
        &self.database
    }

    /// Whether the database or a list of a link exceeds a limit.
    pub fn exceeds(&self) -> bool
        ensures { result ≡ (database_exceeds self.now.router self.now.present.database
            || any_long_list self.now.present.links) }
    {
        self.database.exceeds() || any_long_list(&self.links)
    }

    /// Makes the changes so far final, and drops what was drafted. It doesn't allocate.
    pub fn commit(&mut self)
        ensures { self.new ≡ record self.old {
          committed = self.old.present;
          drafted = nothing_at self.old.present.links;
        } }
    {
        commit_links(&mut self.links);
        self.database.commit();
    }

    /// Like `commit`, and the database scans its copies if one may have reached MaxAge by this
    /// moment, as in `Lsdb::commit_at`. If an allocation for that is refused, it tries again the
    /// next time.
    pub fn commit_at(&mut self, alloc: Global, moment: Second)
        ensures { self.new ≡ record self.old {
          committed = self.old.present;
          drafted = nothing_at self.old.present.links;
        } }
    {
        commit_links(&mut self.links);
        self.database.commit_at(alloc, moment);
    }

    /// Undoes all changes since the area was last committed, and drops what was drafted. It doesn't
    /// allocate.
    pub fn roll_back(&mut self)
        ensures { self.new ≡ record self.old {
          present = self.old.committed;
          drafted = nothing_at self.old.committed.links;
        } }
    {
        roll_back_links(&mut self.links);
        self.database.roll_back();
    }

    /// Takes what was drafted away, in the order of the interfaces, so that nothing is left.
    ///
    /// # Errors
    /// `AllocError` if an allocation is refused.
    pub fn take_drafts(&mut self, alloc: Global) -> Result<Vec<Draft>, AllocError>
        ensures drafts { IfOk result (λ drafts. drafts.items ≡ self.old.drafted) }
        ensures rest { OnOk result (self.new ≡ record self.old {
          drafted = nothing_at self.old.present.links;
        }) }
        ensures present { self.new.present ≡ self.old.present }
        ensures committed { self.new.committed ≡ self.old.committed }
        ensures router { self.new.router ≡ self.old.router }
    {
        take_drafts(alloc, &mut self.links)
    }
}
