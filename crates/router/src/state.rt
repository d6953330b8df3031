//! A router's state, and how changes of it are made final or undone.
ghost use Rattle.std.specs.Prelude.{◌≡◌, ◌≤◌, IfOk, OnOk, length, map};
ghost use Rattle.std.specs.FinMap as finite;
ghost use Rattle.event_rules.specs.Commands.{after_install};
ghost use Rattle.event_rules.specs.Routers.{with_links};
ghost use Rattle.area.specs.Drafted.{nothing_at};
ghost use Rattle.area.specs.Links.{committed_link, draft_of, present};
ghost use Rattle.router.specs.Making.{Makes};
ghost use Rattle.router.specs.Owned.{AreOwn};

use area::{Area, Draft, Link, Revertible};
use keyed_map::{KeyedMap, RouteAnswers};
use std::alloc::{AllocError, Global};
use std::marker::Model;
use words::{External, Key, RouterId, Second, Sequence};

/// A router between and within events, its state when it was last committed, and what was drafted
/// since.
#[derive(Drop)]
pub struct Router {
    pub(crate) id: RouterId,
    pub(crate) area: Area,
    // the announced external destinations by the keys of their LSAs
    pub(crate) announced: KeyedMap<External>,
    // the keys of self-originated LSAs that wait for a Tick
    pub(crate) waiting: KeyedMap<()>,
    // when each self-originated LSA was last originated, kept for MinLSInterval
    pub(crate) originated: KeyedMap<Second>,
    // the routes that the last `Install` offered, with the programs' answers
    pub(crate) answers: Revertible<RouteAnswers>,
    pub(crate) moment: Revertible<Second>,
}

impl Model for Router {
    ghost use Rattle.std.specs.Prelude.{◌≡◌, ◌≤◌, ℕ, length};
    ghost use Rattle.std.specs.Coded.{codes};
    ghost use Rattle.std.specs.FinMap as finite;
    ghost use Rattle.words.specs.declared.route.External.{External as Destination};
    ghost use Rattle.lsdb.specs.Copies.{DatabaseCopy};
    ghost use Rattle.lsdb.specs.Keys.{coded_key, key_cmp};
    ghost use Rattle.adjacency.specs.Codes.{coded_headers, coded_keys, coded_lists};
    ghost use Rattle.adjacency.specs.Views.{keys_of};
    ghost use Rattle.router.specs.Kept.{KeptRouter, coded_router};
    ghost use Rattle.router.specs.Owned.{AreOwn};

    ghost Value = { KeptRouter };

    ghost coded = { coded_router (Prim.hlevel (
      codes,
      coded_lists,
      coded_keys,
      coded_headers,
      finite.code {X = DatabaseCopy} {R = key_cmp} coded_key (Prim.hlevel codes),
      finite.code {X = Destination} {R = key_cmp} coded_key (Prim.hlevel codes),
      finite.code {X = ℕ} {R = key_cmp} coded_key (Prim.hlevel codes),
    )) (Prim.hlevel codes) };

    ghost view = { λ a. record {
      present = record {
        id = a.id;
        area = a.area.present;
        announced = a.announced.present;
        waiting = keys_of a.waiting.present;
        originated = a.originated.present;
        answers = a.answers.present;
        moment = a.moment.present;
      };
      committed = record {
        id = a.id;
        area = a.area.committed;
        announced = a.announced.committed;
        waiting = keys_of a.waiting.committed;
        originated = a.originated.committed;
        answers = a.answers.committed;
        moment = a.moment.committed;
      };
      drafted = a.area.drafted;
    } };

    ghost invariant = { λ a.
        (a.area.router ≡ a.id)
        × (length a.area.committed.links ≤ 63)
        × AreOwn a.id a.announced.present
        × AreOwn a.id a.announced.committed };
}

impl Router {
    /// A router with these links, interface n at index n - 1, and nothing else. It doesn't
    /// allocate.
    pub fn new(alloc: Global, id: RouterId, links: Vec<Link>, moment: Second) -> Self
        requires few { length links.items ≤ 63 }
        ensures present { result.present ≡ with_links id (map present links.items) moment }
        ensures committed { result.committed
            ≡ with_links id (map committed_link links.items) moment }
        ensures drafted { result.drafted ≡ map draft_of links.items }
    {
        Router {
            id,
            area: Area::new(alloc, id, links),
            announced: KeyedMap::new(alloc),
            waiting: KeyedMap::new(alloc),
            originated: KeyedMap::new(alloc),
            answers: Revertible::new(RouteAnswers::each(Sequence::from_vec(Vec::new(alloc)))),
            moment: Revertible::new(moment),
        }
    }

    /// The router's own Router ID.
    pub fn id(&self) -> RouterId
        ensures { result ≡ self.now.present.id }
    {
        self.id
    }

    /// The links and the database.
    pub fn area(&self) -> &Area
        ensures parts { result.now ≡ record {
          router = self.now.present.id;
          present = self.now.present.area;
          committed = self.now.committed.area;
          drafted = self.now.drafted;
        } }
        ensures few { length self.now.present.area.links ≤ 63 }
    {
        // For the prover alone, by what the call ensures.
        let _links = self.area.links();
        &self.area
    }

    /// The announced external destinations by the keys of their LSAs.
    pub fn announced(&self) -> &KeyedMap<External>
        ensures parts { result.now ≡ record {
          present = self.now.present.announced;
          committed = self.now.committed.announced;
        } }
        ensures own { AreOwn self.now.present.id self.now.present.announced }
    {
        &self.announced
    }

    /// When the self-originated LSA of this key was last originated, if that is known: a Tick drops
    /// what is older than MinLSInterval.
    pub fn originated(&self, key: &Key) -> Option<Second>
        ensures { result ≡ finite.get self.now.present.originated key.now }
    {
        match self.originated.get(key) {
            None => None,
            Some(moment) => Some(*moment),
        }
    }

    /// The routes that the last `Install` offered, with the programs' answers.
    pub fn answers(&self) -> &RouteAnswers
        ensures { result.now ≡ self.now.present.answers }
    {
        self.answers.get()
    }

    /// The moment of the last event.
    pub fn moment(&self) -> Second
        ensures { result ≡ self.now.present.moment }
    {
        *self.moment.get()
    }

    /// Replaces the routes and the programs' answers of the last `Install`. It doesn't allocate.
    pub fn set_answers(&mut self, answers: RouteAnswers)
        ensures { Makes (after_install answers) self.old self.new }
    {
        self.answers.set(answers);
    }

    /// Makes the changes so far final, and drops what was drafted. It doesn't allocate.
    pub fn commit(&mut self)
        ensures { self.new ≡ record self.old {
          committed = self.old.present;
          drafted = nothing_at self.old.present.area.links;
        } }
    {
        // For the prover alone, by what the call ensures.
        let _links = self.area.links();
        self.area.commit();
        self.announced.commit();
        self.waiting.commit();
        self.originated.commit();
        self.answers.commit();
        self.moment.commit();
    }

    /// Like `commit`, and the database scans its copies if one may have reached MaxAge by this
    /// moment, so that the next event needn't. If an allocation for that is refused, it tries again
    /// the next time.
    pub fn commit_at(&mut self, alloc: Global, moment: Second)
        ensures { self.new ≡ record self.old {
          committed = self.old.present;
          drafted = nothing_at self.old.present.area.links;
        } }
    {
        // For the prover alone, by what the call ensures.
        let _links = self.area.links();
        self.area.commit_at(alloc, moment);
        self.announced.commit();
        self.waiting.commit();
        self.originated.commit();
        self.answers.commit();
        self.moment.commit();
    }

    /// Undoes all changes since the router was last committed, and drops what was drafted. It
    /// doesn't allocate.
    pub fn roll_back(&mut self)
        ensures { self.new ≡ record self.old {
          present = self.old.committed;
          drafted = nothing_at self.old.committed.area.links;
        } }
    {
        self.area.roll_back();
        self.announced.roll_back();
        self.waiting.roll_back();
        self.originated.roll_back();
        self.answers.roll_back();
        self.moment.roll_back();
    }

    /// Takes what was drafted away, in the order of the interfaces, so that nothing is left.
    ///
    /// # Errors
    /// `AllocError` if an allocation is refused.
    pub fn take_drafts(&mut self, alloc: Global) -> Result<Vec<Draft>, AllocError>
        ensures drafts { IfOk result (λ drafts. drafts.items ≡ self.old.drafted) }
        ensures rest { OnOk result (self.new ≡ record self.old {
          drafted = nothing_at self.old.present.area.links;
        }) }
        ensures committed { self.new.committed ≡ self.old.committed }
    {
        self.area.take_drafts(alloc)
    }

    /// Drops the router. A function above that drops one itself would have to prove the drop of
    /// each part again.
    pub fn close(self) {}
}
