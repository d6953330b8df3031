//! Changes of links, and steps in which links may send.
ghost use Rattle.std.specs.Prelude.{◌≡◌, ◌≤◌, IfOk, drop, length, map};
ghost use Rattle.received.specs.Links.{change_link, taken_down};
ghost use Rattle.received.specs.AreaStates.{sends_of};
ghost use Rattle.lsdb.specs.Doing.{DatabaseDoes};
ghost use Rattle.area.specs.Doing.{AreaDoes, LinksDo};
ghost use Rattle.area.specs.Links.{draft_of, with_no_sends, without_acknowledged};
ghost use Rattle.area.specs.Steps.{all_links, key_of_update, keys_behind, mark_each, one_link};
ghost use Rattle.area.specs.Steps.{update_count_on};

use crate::area::Area;
use crate::link::Link;
use crate::on_links::any_has_retransmission;
use adjacency::{Lsdb, Update};
use std::alloc::{AllocError, Global};
use words::{Key, Second};

/// A change of a link that sends nothing and doesn't allocate.
pub trait LinkChange {
    ghost use Rattle.received.specs.Links.{Link as Shown};

    ghost after: { Self → Shown → Shown };

    fn change(&self, link: &mut Link)
        ensures { link.new ≡ record link.old { present = after self.now link.old.present } };
}

/// A step of a link that may read the database, and may send.
pub trait LinkStep {
    ghost use Rattle.std.specs.Prelude.{List};
    ghost use Rattle.lsdb.specs.Copies.{Database};
    ghost use Rattle.adjacency.specs.Contents.{Content};
    ghost use Rattle.received.specs.Links.{Link as Shown};
    ghost use Rattle.area.specs.Doing.{LinkDoes};

    ghost after: { Self → Database → Shown → Shown };

    ghost sends: { Self → Database → Shown → List Content };

    /// Changes the link as `after` says, and drafts at it what `sends` says.
    ///
    /// # Errors
    /// `AllocError` if an allocation is refused; the caller then rolls back.
    fn apply(&self, alloc: Global, database: &Lsdb, link: &mut Link) -> Result<(), AllocError>
        ensures { LinkDoes (after self.now database.now.present)
            (sends self.now database.now.present)
            link.old link.new result };
}

// Each link takes the step.
fn step_links<S: LinkStep>(
    alloc: Global,
    step: &S,
    database: &Lsdb,
    links: &mut [Link],
) -> Result<(), AllocError>
    ensures { LinksDo (map (S.after step.now database.now.present))
        (sends_of (S.sends step.now database.now.present))
        links.old links.new result }
{
    for i in 0..links.len() {
        step.apply(alloc, database, &mut links[i])?;
    }
    Ok(())
}

// The number of LSAs that are drafted on each link.
fn update_counts(alloc: Global, links: &[Link]) -> Result<Vec<usize>, AllocError>
    ensures { IfOk result (λ counts. counts.items ≡ map update_count_on links.now) }
{
    let mut counts = Vec::new(alloc);
    for i in 0..links.len() {
        counts.push(links[i].updates().len())?;
    }
    Ok(counts)
}

// Marks as sent the copies of the LSAs after the first `count`.
fn mark_behind(
    moment: Second,
    count: usize,
    updates: &[Update],
    database: &mut Lsdb,
) -> Result<(), AllocError>
    ensures { DatabaseDoes
        (λ d. mark_each moment d (map key_of_update (drop count updates.now)))
        database.old database.new result }
{
    for i in count..updates.len() {
        database.mark_sent(moment, &updates[i].key)?;
    }
    Ok(())
}

// Marks as sent the copies of the LSAs that were drafted on each link after its first ones.
fn mark_all(
    moment: Second,
    counts: &[usize],
    links: &[Link],
    database: &mut Lsdb,
) -> Result<(), AllocError>
    requires { length counts.now ≡ length links.now }
    ensures { DatabaseDoes
        (λ d. mark_each moment d (keys_behind counts.now (map draft_of links.now)))
        database.old database.new result }
{
    for i in 0..links.len() {
        mark_behind(moment, counts[i], links[i].updates(), database)?;
    }
    Ok(())
}

impl Area {
    /// Changes each link. It doesn't allocate.
    pub fn change_links<C: LinkChange>(&mut self, change: &C)
        ensures { self.new ≡ record self.old {
          present = record self.old.present {
            links = map (C.after change.now) self.old.present.links;
          };
        } }
    {
        for i in 0..self.links.len() {
            change.change(&mut self.links[i]);
        }
    }

    /// The neighbor on the link with this number goes Down. It doesn't allocate.
    pub fn take_down(&mut self, interface: usize)
        requires first { 1 ≤ interface }
        requires last { interface ≤ length self.old.present.links }
        ensures { self.new ≡ record self.old {
          present = record self.old.present {
            links = change_link interface taken_down self.old.present.links;
          };
        } }
    {
        self.links[interface - 1].take_down();
    }

    /// Each link takes the step, and each copy that it sends in a Link State Update is marked as
    /// sent at this moment.
    ///
    /// # Errors
    /// `AllocError` if an allocation is refused.
    pub fn step_links<S: LinkStep>(
        &mut self,
        alloc: Global,
        moment: Second,
        step: &S,
    ) -> Result<(), AllocError>
        ensures { AreaDoes
            (λ a. all_links moment (S.after step.now) (S.sends step.now) (with_no_sends a))
            self.old self.new result }
    {
        let counts = update_counts(alloc, &self.links)?;
        step_links(alloc, step, &self.database, &mut self.links)?;
        mark_all(moment, &counts, &self.links, &mut self.database)
    }

    /// The link with this number takes the step, and each copy that it sends in a Link State Update
    /// is marked as sent at this moment.
    ///
    /// # Errors
    /// `AllocError` if an allocation is refused.
    pub fn step_link<S: LinkStep>(
        &mut self,
        alloc: Global,
        moment: Second,
        interface: usize,
        step: &S,
    ) -> Result<(), AllocError>
        requires first { 1 ≤ interface }
        requires last { interface ≤ length self.old.present.links }
        ensures { AreaDoes
            (λ a. one_link moment interface (S.after step.now) (S.sends step.now) (with_no_sends a))
            self.old self.new result }
    {
        let i = interface - 1;
        let count = self.links[i].updates().len();
        step.apply(alloc, &self.database, &mut self.links[i])?;
        mark_behind(moment, count, self.links[i].updates(), &mut self.database)
    }

    /// Removes the copy of this key from the database, if there is one, unless the key is on some
    /// neighbor's retransmission list.
    ///
    /// # Errors
    /// `AllocError` if an allocation is refused.
    pub fn remove_if_unlisted(&mut self, key: &Key) -> Result<(), AllocError>
        ensures { AreaDoes
            (λ a. with_no_sends
            (record a { database = without_acknowledged a.links a.database key.now }))
            self.old self.new result }
    {
        let listed = any_has_retransmission(key, self.links());
        if listed {
            return Ok(());
        }
        self.database.remove(key)
    }
}
