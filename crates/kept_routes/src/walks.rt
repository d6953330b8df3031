//! The walk of a database, kept.
ghost use Rattle.std.specs.Prelude.{◌≡◌, ◌+◌, ◌≤◌, min, length, IfOk};
ghost use Rattle.std.specs.FinMap as finite;
ghost use Rattle.std.specs.List.{Contains};
ghost use Rattle.words.specs.Constants.{max_lsas};
ghost use Rattle.words.specs.declared.route.Route.{Route as RouteValue};
ghost use Rattle.routes.specs.Candidates.{AreCandidates, Offers};
ghost use Rattle.routes.specs.Contents.{contents_at};
ghost use Rattle.routes.specs.declared.offer.Offer.{Offer};
ghost use Rattle.candidates.specs.Reached.{way_in};
ghost use Rattle.candidates.specs.Inner.{AreInner, AreSearchable};
ghost use Rattle.kept_routes.specs.Kept.{IsWalkOf};
ghost use Rattle.candidates.specs.Externals.{AreExternals};

use candidates::laws::every_offer_has_a_candidate;
use candidates::{
    Calculated, ExternalAdvertisement, Reached, Ways, calculate, copy_of, just_root, routes_of,
    walk,
};
use routes::{Lsdb, Node, Root, Way};
use std::alloc::{AllocError, Global};
use std::marker::Model;
use words::{Route, Second};

/// The walk of a database from its root, kept to calculate candidates without another walk. It is
/// valid while the LSAs of types 1 and 2 say the same (RFC 2328, section 16.1):
/// `laws::walks_are_kept`.
#[derive(Drop)]
pub struct Routes {
    root: Root,
    reached: Reached,
    walks: u64,
}

impl Model for Routes {
    ghost use Rattle.kept_routes.specs.Kept.{KeptWalk};

    ghost Value = { KeptWalk };

    ghost view = { λ a. record { root = a.root; reached = a.reached; walks = a.walks } };
}

impl Routes {
    /// The first walk of a database from its root, at a moment. The database has at most 16,384
    /// LSAs, the root at most 63 interfaces.
    ///
    /// # Errors
    /// `AllocError` if an allocation is refused.
    pub fn new(alloc: Global, db: &Lsdb, root: &Root, moment: Second) -> Result<Routes, AllocError>
        requires interfaces { length root.now.addresses ≤ 63 }
        requires size { finite.len db.now.present ≤ max_lsas }
        ensures walk { IfOk result (λ kept. IsWalkOf (contents_at moment db.now.present) kept) }
        ensures root { IfOk result (λ kept. kept.root ≡ root.now) }
        ensures walks { IfOk result (λ kept. kept.walks ≡ 1) }
    {
        let own = copy_of(root)?;
        let reached = walk(alloc, db, root, moment)?;
        Ok(Routes {
            root: own,
            reached,
            walks: 1,
        })
    }

    /// What is kept before any walk: the root alone, which no database is asked about.
    ///
    /// # Errors
    /// `AllocError` if an allocation is refused.
    pub fn without_walk(alloc: Global, root: Root) -> Result<Routes, AllocError>
        ensures root { IfOk result (λ kept. kept.root ≡ root) }
        ensures walks { IfOk result (λ kept. kept.walks ≡ 0) }
    {
        let reached = just_root(alloc, &root)?;
        Ok(Routes {
            root,
            reached,
            walks: 0,
        })
    }

    /// Replaces the walk by a new one.
    pub fn take_walk(&mut self, root: Root, reached: Reached)
        ensures { self.new ≡ record {
          root = root;
          reached = reached;
          walks
              = min (self.old.walks + 1) 18446744073709551615;
        } }
    {
        self.root = root;
        self.reached = reached;
        self.walks = self.walks.saturating_add(1);
    }

    /// The candidates at a moment of a database with this walk: one route for each prefix that
    /// anything offers, in the order of the prefixes (RFC 2328, section 16).
    ///
    /// # Errors
    /// `AllocError` if an allocation is refused.
    pub fn candidates(
        &self,
        alloc: Global,
        db: &Lsdb,
        moment: Second,
    ) -> Result<Vec<Route>, AllocError>
        requires { IsWalkOf (contents_at moment db.now.present) self.now }
        ensures candidates { IfOk result (λ routes.
            AreCandidates (contents_at moment db.now.present) self.now.root routes.items) }
        ensures every { IfOk result (λ routes. (o : Offer)
            → Offers (contents_at moment db.now.present) self.now.root o
            → (r : RouteValue) × Contains routes.items r × (r.prefix ≡ o.prefix)) }
    {
        let routes = routes_of(alloc, db, &self.root, moment, &self.reached)?;
        // For the prover alone, by what the call ensures.
        every_offer_has_a_candidate();
        Ok(routes)
    }

    /// The candidates as `candidates` gives them, with what external destinations depend on (RFC
    /// 2328, sections 16.1 to 16.4). `externals` is what AS-external-LSAs advertise.
    ///
    /// # Errors
    /// `AllocError` if an allocation is refused.
    pub fn calculate(
        &self,
        alloc: Global,
        db: &Lsdb,
        moment: Second,
        externals: &[ExternalAdvertisement],
    ) -> Result<Calculated, AllocError>
        requires walk { IsWalkOf (contents_at moment db.now.present) self.now }
        requires externals { AreExternals (contents_at moment db.now.present) externals.now }
        ensures routes { IfOk result (λ made. AreCandidates (contents_at moment db.now.present)
            self.now.root made.routes.items) }
        ensures inner { IfOk result (λ made. AreInner (contents_at moment db.now.present)
            self.now.root
            (way_in self.now.reached) made.inner) }
        ensures searchable { IfOk result (λ made. AreSearchable made.inner) }
    {
        let made = calculate(alloc, db, &self.root, moment, &self.reached, externals)?;
        Ok(made)
    }

    /// The number of walks that were made, which saturates.
    pub fn walks(&self) -> u64
        ensures { result ≡ self.now.walks }
    {
        self.walks
    }

    /// The root of the walk.
    pub fn root(&self) -> &Root
        ensures { result.now ≡ self.now.root }
    {
        &self.root
    }

    // The way to a node; `None` if the walk didn't reach it.
    pub(crate) fn way_to(&self, node: &Node) -> Option<Way>
        ensures { result ≡ way_in self.now.reached node.now }
    {
        self.reached.way_to(node)
    }
}
