//! The routes of a router, kept from one event to the next.
ghost use Rattle.std.specs.Prelude.{◌≡◌, ◌+◌, ◌≤◌, ◌↔◌, ◌&&◌, None, Ok, Some, false, length, min};
ghost use Rattle.std.specs.Prelude.{IfOk, IfSome, IsSome, IsTrue, OnErr, OnOk, true};
ghost use Rattle.std.specs.FinMap as finite;
ghost use Rattle.words.specs.Constants.{max_lsas};
ghost use Rattle.area_routes.specs.Kept.{AreKept, AreRoutesOf, AreCandidateInputsUnchanged};
ghost use Rattle.area_routes.specs.Kept.{AreWalkAndCandidatesOf, BringsAnother, BringsNoneNew};
ghost use Rattle.area_routes.specs.Kept.{ExternalsHaveSameContents, KnowsExternals, KnowsGraph};
ghost use Rattle.area_routes.specs.Kept.{KeepsWalkUnlessChanged};
ghost use Rattle.area_routes.specs.Kept.{KnowsAnswered, KnowsCandidates, KnowsInner, KnowsMatching};
ghost use Rattle.area_routes.specs.Kept.{KnowsWalk};
ghost use Rattle.area_routes.specs.Offers.{AreCandidatesOf, AreOffered, IsStaleOf, IsTableOf};
ghost use Rattle.area_routes.specs.Offers.{root_by};
ghost use Rattle.area_routes.specs.declared.matching.Matching.TheVariants.{Lacking, OnlyCandidates};
ghost use Rattle.area_routes.specs.declared.matching.Matching.TheVariants.{Unknown};
ghost use Rattle.kept_routes.specs.Kept.{IsWalkOf};
ghost use Rattle.kept_routes.specs.Sameness.{HaveSameContents};
ghost use Rattle.routes.specs.Contents.{contents_at};
ghost use Rattle.routes.specs.Tables.{RouteWords};
ghost use Rattle.words.specs.Numbers.{Moment, RouterNumber};
ghost use Rattle.received.specs.Links.{Area as AreaValue};

use crate::calculating::{Made, calculated, kept_or};
use crate::following::followed;
use crate::graphs::{graph_after, graph_at, walk_by};
use crate::matching::{Matching, matching_after, matching_by};
use crate::root::{is_root_of, root_of};
use crate::unchanged::{area_lsas_are_unchanged, candidates_stay, externals_stay};
use area::Area;
use candidates::{AreaGraph, Calculated, ExternalAdvertisement, InnerRoutes};
use kept_routes::Routes;
use kept_routes::external_laws::inner_routes_are_kept;
use kept_routes::laws::{candidates_are_kept, walks_are_kept};
use keyed_map::{Pages, RouteAnswers};
use routes::{Root, compare, rows_of, table_among, table_of};
use std::alloc::{AllocError, Global};
use std::marker::Model;
use words::{Route, RouterId, Second, Sequence, TableRow};

/// The candidates of a router, and the rows of its table, at one moment.
#[derive(Drop)]
pub struct Offered {
    pub candidates: Vec<Route>,
    pub rows: Vec<TableRow>,
}

/// The routes of a router, kept from one event to the next.
///
/// The walk of its database is valid while the LSAs of types 1 and 2 say the same (RFC 2328,
/// section 16.1). The candidates that were calculated, and the knowledge that each has an answer,
/// are valid while all LSAs say the same, apart from AS-external-LSAs that offer nothing (section
/// 16.4). If only a few other AS-external-LSAs change, only the candidates for the destinations
/// that these advertise are recalculated (section 16.6), unless the Link State IDs of 64 or more
/// are in one of them, as in 0.0.0.0/0; and if none of these is a new route, as
/// when an AS-external-LSA is removed, all candidates have answers if they had before. If one is a
/// new route, and each answered route was a candidate, it has no answer, so that none is searched.
/// [`update`](AreaRoutes::update), which is a part of each event, makes no walk. If it leaves no
/// valid one, the next call that needs one makes it; [`is_stale`](AreaRoutes::is_stale) keeps it
/// too. Since `turns` asks that after each event, the shortest paths are calculated at once after a
/// change of the topology, without a delay. The graph of the area is also kept while it can follow
/// what the LSAs say; such a walk is then only a search for shortest paths (section 16.1).
///
/// Links, database and answers aren't part of it. They are passed to each call, whose contract says
/// which moment they are of.
#[derive(Drop)]
pub struct AreaRoutes {
    walk: Routes,
    // the walk may be that of an earlier event
    behind: bool,
    // the graph of the area, if one was built and has followed each event since
    graph: Option<AreaGraph>,
    // the candidates, if they are known: calculated since an LSA of types 1 to 4 changed, and
    // followed over each change of AS-external-LSAs since
    candidates: Option<Pages<Route>>,
    // the results from the LSAs of types 1 to 4, if calculated since one of these changed
    inner: Option<InnerRoutes>,
    // what AS-external-LSAs advertise, if read since one of these changed
    externals: Option<Vec<ExternalAdvertisement>>,
    // each candidate is known to be among the answers
    answered: bool,
    // what else is known of the answers and of the candidates that are kept
    matching: Matching,
}

impl Model for AreaRoutes {
    ghost use Rattle.area_routes.specs.Kept.{KeptRoutes};

    ghost Value = { KeptRoutes };

    ghost view = { λ a. record {
      walk = a.walk;
      behind = a.behind;
      graph = a.graph;
      candidates = a.candidates;
      inner = a.inner;
      externals = a.externals;
      answered = a.answered;
      matching = a.matching;
    } };
}

impl AreaRoutes {
    /// The first walk of a router, at a moment. There are at most 63 links and 16,384 LSAs.
    ///
    /// # Errors
    /// `AllocError` if an allocation is refused.
    pub fn new(
        alloc: Global,
        router: RouterId,
        area: &Area,
        moment: Second,
    ) -> Result<AreaRoutes, AllocError>
        requires few { length area.now.present.links ≤ 63 }
        requires size { finite.len area.now.present.database ≤ max_lsas }
        ensures routes { IfOk result (λ made. AreRoutesOf router area.now.present moment made) }
        ensures walks { IfOk result (λ made. made.walk.walks ≡ 1) }
        ensures behind { IfOk result (λ made. made.behind ≡ false) }
        ensures graph { IfOk result (λ made. made.graph ≡ None) }
        ensures candidates { IfOk result (λ made. made.candidates ≡ None) }
        ensures inner { IfOk result (λ made. made.inner ≡ None) }
        ensures externals { IfOk result (λ made. made.externals ≡ None) }
        ensures answered { IfOk result (λ made. made.answered ≡ false) }
        ensures matching { IfOk result (λ made. made.matching ≡ Unknown) }
    {
        let root = root_of(alloc, router, area)?;
        let db = area.database();
        let walk = Routes::new(alloc, db, &root, moment)?;
        Ok(AreaRoutes::of_walk(walk, false))
    }

    /// The routes of any router, at any moment, before a walk: the first call that needs one makes
    /// it. Nothing is calculated.
    ///
    /// # Errors
    /// `AllocError` if an allocation is refused.
    pub fn without_walk(alloc: Global, router: RouterId) -> Result<AreaRoutes, AllocError>
        ensures routes { IfOk result (λ made. (id : RouterNumber) (area : AreaValue)
            (moment : Moment) → AreRoutesOf id area moment made) }
        ensures walks { IfOk result (λ made. made.walk.walks ≡ 0) }
        ensures answered { IfOk result (λ made. made.answered ≡ false) }
        ensures matching { IfOk result (λ made. made.matching ≡ Unknown) }
    {
        let root = Root {
            router,
            addresses: Sequence::from_vec(Vec::new(alloc)),
        };
        let walk = Routes::without_walk(alloc, root)?;
        Ok(AreaRoutes::of_walk(walk, true))
    }

    // A walk, of which nothing else is kept.
    fn of_walk(walk: Routes, behind: bool) -> AreaRoutes
        ensures { result ≡ record {
          walk = walk;
          behind = behind;
          graph = None;
          candidates = None;
          inner = None;
          externals = None;
          answered = false;
          matching = Unknown;
        } }
    {
        AreaRoutes {
            walk,
            behind,
            graph: None,
            candidates: None,
            inner: None,
            externals: None,
            answered: false,
            matching: Matching::Unknown,
        }
    }

    /// Updates the routes over an event, from the area when it was last committed, at the moment
    /// `before`, to its area at this moment. No walk is made: the old one remains valid if the
    /// router's addresses are the same and no LSA of type 1 or 2 was added or removed, reached
    /// MaxAge or changed its contents; another instance below MaxAge with the same contents is no
    /// change (RFC 2328, section 13.2).
    ///
    /// # Errors
    /// `AllocError` if an allocation is refused; the routes are then unchanged.
    pub fn update(
        &mut self,
        alloc: Global,
        router: RouterId,
        area: &Area,
        before: Second,
        moment: Second,
    ) -> Result<(), AllocError>
        requires order { before ≤ moment }
        requires routes { AreRoutesOf router area.now.committed before self.old }
        ensures routes { OnOk result (AreRoutesOf router area.now.present moment self.new) }
        // What was known of the answers is still known, or not known any more.
        ensures answered { OnOk result ((answers : RouteWords)
            → AreKept router area.now.committed before answers self.old
            → AreKept router area.now.present moment answers self.new) }
        // It walks again later only if the router's addresses differ, or an LSA of type 1 or 2 was
        // added or removed, reached MaxAge or changed its contents.
        ensures walks { OnOk result (KeepsWalkUnlessChanged before moment router
            area.now.committed area.now.present self.old self.new) }
        // If the only LSAs of any type for which that happened are external ones that offer
        // nothing, what is known of the candidates and of the answers is unchanged too.
        ensures candidates { OnOk result (self.old.behind ≡ false
            → AreCandidateInputsUnchanged before moment router area.now.committed area.now.present
            self.old.walk
            → self.new ≡ record self.old {
              externals = self.new.externals;
              graph = self.new.graph;
            }) }
        // If candidates are kept over the event, and each was one before, it stays known, if it
        // was, that each has an answer: none is searched when AS-external-LSAs are removed.
        ensures none_new { OnOk result (BringsNoneNew self.old self.new
            → self.new.answered ≡ self.old.answered) }
        // If one of them is new, and each answered route was a candidate, it is known that some
        // candidate has no answer: none is searched when an AS-external-LSA brings a route.
        ensures lacking { OnOk result (BringsAnother self.old self.new
            → self.old.matching ≡ OnlyCandidates → self.new.matching ≡ Lacking) }
        ensures err { OnErr result (self.new ≡ self.old) }
    {
        let stay = self.externals_stay(alloc, area, before, moment);
        self.update_routes(alloc, router, area, before, moment)?;
        self.keep_externals(stay);
        self.update_graph(alloc, router, area, before, moment);
        Ok(())
    }

    // Whether what is kept of what AS-external-LSAs advertise is still correct after the event.
    fn externals_stay(&self, alloc: Global, area: &Area, before: Second, moment: Second) -> bool
        requires { before ≤ moment }
        ensures { IsTrue result → ExternalsHaveSameContents
            (contents_at before area.now.committed.database)
            (contents_at moment area.now.present.database) }
    {
        if self.externals.is_none() {
            return false;
        }
        externals_stay(alloc, area, before, moment)
    }

    // Keeps what AS-external-LSAs advertise, or forgets it.
    fn keep_externals(&mut self, stay: bool)
        ensures others { self.new ≡ record self.old { externals = self.new.externals } }
        ensures kept { IsTrue stay → self.new.externals ≡ self.old.externals }
        ensures forgotten { stay ≡ false → self.new.externals ≡ None }
    {
        if !stay {
            self.externals = None;
        }
    }

    // Updates the graph, or forgets it.
    fn update_graph(
        &mut self,
        alloc: Global,
        router: RouterId,
        area: &Area,
        before: Second,
        moment: Second,
    )
        requires order { before ≤ moment }
        requires graph { KnowsGraph (contents_at before area.now.committed.database)
            (root_by router area.now.committed.links) self.old }
        ensures graph { KnowsGraph (contents_at moment area.now.present.database)
            (root_by router area.now.present.links) self.new }
        ensures others { self.new ≡ record self.old { graph = self.new.graph } }
    {
        let kept = self.graph.take();
        self.graph = graph_after(alloc, router, area, before, moment, kept);
    }

    // Updates all but the graph and what AS-external-LSAs advertise, which have functions of their
    // own.
    fn update_routes(
        &mut self,
        alloc: Global,
        router: RouterId,
        area: &Area,
        before: Second,
        moment: Second,
    ) -> Result<(), AllocError>
        requires order { before ≤ moment }
        requires routes { AreWalkAndCandidatesOf router area.now.committed before self.old }
        ensures routes { OnOk result
            (AreWalkAndCandidatesOf router area.now.present moment self.new) }
        ensures answered { OnOk result ((answers : RouteWords)
            → KnowsAnswered (contents_at before area.now.committed.database)
            (root_by router area.now.committed.links) answers self.old
            → KnowsAnswered (contents_at moment area.now.present.database)
            (root_by router area.now.present.links) answers self.new) }
        ensures walks { OnOk result (KeepsWalkUnlessChanged before moment router
            area.now.committed area.now.present self.old self.new) }
        ensures candidates { OnOk result (self.old.behind ≡ false
            → AreCandidateInputsUnchanged before moment router area.now.committed area.now.present
            self.old.walk
            → self.new ≡ self.old) }
        ensures none_new { OnOk result (BringsNoneNew self.old self.new
            → self.new.answered ≡ self.old.answered) }
        ensures matching { OnOk result ((answers : RouteWords)
            → KnowsMatching answers self.old.candidates self.old.matching
            → KnowsMatching answers self.new.candidates self.new.matching) }
        ensures lacking { OnOk result (BringsAnother self.old self.new
            → self.old.matching ≡ OnlyCandidates → self.new.matching ≡ Lacking) }
        ensures graph { self.new.graph ≡ self.old.graph }
        ensures externals { self.new.externals ≡ self.old.externals }
        ensures err { OnErr result (self.new ≡ self.old) }
    {
        // For the prover alone, by what the calls ensure.
        walks_are_kept();
        candidates_are_kept();
        inner_routes_are_kept();
        if self.behind {
            self.candidates = None;
            self.inner = None;
            self.answered = false;
            self.matching = Matching::Unknown;
            return Ok(());
        }
        if is_root_of(self.walk.root(), router, area) {
            if area_lsas_are_unchanged(alloc, area, Some(2), before, moment)? {
                if candidates_stay(alloc, area, &self.walk, before, moment)? {
                    return Ok(());
                }
                self.update_candidates(alloc, area, before, moment);
                return Ok(());
            }
        }
        self.behind = true;
        self.candidates = None;
        self.inner = None;
        self.answered = false;
        self.matching = Matching::Unknown;
        Ok(())
    }

    // Follows LSAs of types 3 to 5 over an event that leaves the walk valid. If only
    // AS-external-LSAs change, and few of them, candidates that are kept follow these: if none is
    // new, and each was known to have an answer, each still has. If an allocation is refused,
    // nothing is known of candidates any more.
    fn update_candidates(&mut self, alloc: Global, area: &Area, before: Second, moment: Second)
        requires order { before ≤ moment }
        requires walk { IsWalkOf (contents_at moment area.now.present.database) self.old.walk }
        requires candidates { KnowsCandidates (contents_at before area.now.committed.database)
            self.old.walk.root self.old }
        requires inner { KnowsInner (contents_at before area.now.committed.database)
            self.old.walk.root self.old }
        ensures walk { self.new.walk ≡ self.old.walk }
        ensures behind { self.new.behind ≡ self.old.behind }
        ensures graph { self.new.graph ≡ self.old.graph }
        ensures candidates { KnowsCandidates (contents_at moment area.now.present.database)
            self.old.walk.root self.new }
        ensures inner { KnowsInner (contents_at moment area.now.present.database)
            self.old.walk.root self.new }
        ensures externals { self.new.externals ≡ self.old.externals }
        ensures answered { (answers : RouteWords)
            → KnowsAnswered (contents_at before area.now.committed.database) self.old.walk.root
            answers
            self.old
            → KnowsAnswered (contents_at moment area.now.present.database) self.old.walk.root
            answers
            self.new }
        ensures none_new { BringsNoneNew self.old self.new
            → self.new.answered ≡ self.old.answered }
        ensures matching { (answers : RouteWords)
            → KnowsMatching answers self.old.candidates self.old.matching
            → KnowsMatching answers self.new.candidates self.new.matching }
        ensures lacking { BringsAnother self.old self.new
            → self.old.matching ≡ OnlyCandidates → self.new.matching ≡ Lacking }
    {
        // For the prover alone, by what the call ensures.
        inner_routes_are_kept();
        if let Ok(same) = area_lsas_are_unchanged(alloc, area, Some(4), before, moment) {
            if same {
                self.follow_externals(alloc, area, before, moment);
                return;
            }
        }
        self.candidates = None;
        self.inner = None;
        self.answered = false;
        self.matching = Matching::Unknown;
    }

    // Updates the candidates if only AS-external-LSAs change: follows them, or forgets the
    // candidates.
    fn follow_externals(&mut self, alloc: Global, area: &Area, before: Second, moment: Second)
        requires order { before ≤ moment }
        requires same { HaveSameContents (Some 4) (contents_at before area.now.committed.database)
            (contents_at moment area.now.present.database) }
        requires walk { IsWalkOf (contents_at moment area.now.present.database) self.old.walk }
        requires candidates { KnowsCandidates (contents_at before area.now.committed.database)
            self.old.walk.root self.old }
        requires inner { KnowsInner (contents_at moment area.now.present.database)
            self.old.walk.root self.old }
        ensures walk { self.new.walk ≡ self.old.walk }
        ensures behind { self.new.behind ≡ self.old.behind }
        ensures graph { self.new.graph ≡ self.old.graph }
        ensures candidates { KnowsCandidates (contents_at moment area.now.present.database)
            self.old.walk.root self.new }
        ensures inner { KnowsInner (contents_at moment area.now.present.database)
            self.old.walk.root self.new }
        ensures externals { self.new.externals ≡ self.old.externals }
        ensures answered { (answers : RouteWords)
            → KnowsAnswered (contents_at before area.now.committed.database) self.old.walk.root
            answers
            self.old
            → KnowsAnswered (contents_at moment area.now.present.database) self.old.walk.root
            answers
            self.new }
        ensures none_new { BringsNoneNew self.old self.new
            → self.new.answered ≡ self.old.answered }
        ensures matching { (answers : RouteWords)
            → KnowsMatching answers self.old.candidates self.old.matching
            → KnowsMatching answers self.new.candidates self.new.matching }
        ensures lacking { BringsAnother self.old self.new
            → self.old.matching ≡ OnlyCandidates → self.new.matching ≡ Lacking }
    {
        let kept = self.candidates.take();
        let next = followed(alloc, area, &self.walk, before, moment, &self.inner, kept);
        let Some(next) = next else {
            self.answered = false;
            self.matching = Matching::Unknown;
            return;
        };
        self.answered &= next.none_new;
        self.matching = matching_after(self.matching, next.none_new);
        self.candidates = Some(next.candidates);
    }

    // Builds the graph from this root, unless one is kept or the root has no way out.
    fn make_graph(
        &mut self,
        alloc: Global,
        area: &Area,
        root: &Root,
        moment: Second,
    ) -> Result<(), AllocError>
        requires interfaces { length root.now.addresses ≤ 63 }
        requires size { finite.len area.now.present.database ≤ max_lsas }
        requires graph { KnowsGraph (contents_at moment area.now.present.database) root.now
            self.old }
        ensures graph { KnowsGraph (contents_at moment area.now.present.database) root.now
            self.new }
        ensures others { self.new ≡ record self.old { graph = self.new.graph } }
    {
        if self.graph.is_none() {
            self.graph = graph_at(alloc, area, root, moment)?;
        }
        Ok(())
    }

    // Walks again from this root, by the graph if one is kept or can be built. A graph that was
    // built is kept even if an allocation for the ways is refused.
    fn walk_again(
        &mut self,
        alloc: Global,
        area: &Area,
        root: Root,
        moment: Second,
    ) -> Result<(), AllocError>
        requires interfaces { length root.addresses ≤ 63 }
        requires size { finite.len area.now.present.database ≤ max_lsas }
        requires graph { KnowsGraph (contents_at moment area.now.present.database) root self.old }
        ensures graph { KnowsGraph (contents_at moment area.now.present.database) root self.new }
        ensures walk { OnOk result (IsWalkOf (contents_at moment area.now.present.database)
            self.new.walk) }
        ensures root { OnOk result (self.new.walk.root ≡ root) }
        ensures walks { OnOk result (self.new.walk.walks
            ≡ min (self.old.walk.walks + 1) 18446744073709551615) }
        ensures others { self.new ≡ record self.old {
          walk = self.new.walk;
          graph = self.new.graph;
        } }
        ensures err { OnErr result (self.new.walk ≡ self.old.walk) }
    {
        self.make_graph(alloc, area, &root, moment)?;
        let reached = walk_by(alloc, area, &root, moment, &self.graph)?;
        self.walk.take_walk(root, reached);
        Ok(())
    }

    // Makes a new walk, unless the one that is kept is valid.
    fn catch_up(
        &mut self,
        alloc: Global,
        router: RouterId,
        area: &Area,
        moment: Second,
    ) -> Result<(), AllocError>
        requires few { length area.now.present.links ≤ 63 }
        requires size { finite.len area.now.present.database ≤ max_lsas }
        requires walk { KnowsWalk (contents_at moment area.now.present.database)
            (root_by router area.now.present.links) self.old }
        requires inner { KnowsInner (contents_at moment area.now.present.database)
            (root_by router area.now.present.links) self.old }
        requires graph { KnowsGraph (contents_at moment area.now.present.database)
            (root_by router area.now.present.links) self.old }
        ensures walk { KnowsWalk (contents_at moment area.now.present.database)
            (root_by router area.now.present.links) self.new }
        ensures inner { KnowsInner (contents_at moment area.now.present.database)
            (root_by router area.now.present.links) self.new }
        ensures graph { KnowsGraph (contents_at moment area.now.present.database)
            (root_by router area.now.present.links) self.new }
        ensures behind { OnOk result (self.new.behind ≡ false) }
        ensures stays { self.old.behind ≡ false → self.new.walk ≡ self.old.walk }
        ensures counts { OnOk result (self.old.behind ≡ true → self.new.walk.walks
            ≡ min (self.old.walk.walks + 1) 18446744073709551615) }
        ensures candidates { self.new.candidates ≡ self.old.candidates }
        ensures externals { self.new.externals ≡ self.old.externals }
        ensures answered { self.new.answered ≡ self.old.answered }
        ensures matching { self.new.matching ≡ self.old.matching }
        ensures err { OnErr result (self.new ≡ record self.old { graph = self.new.graph }) }
    {
        if self.behind {
            let root = root_of(alloc, router, area)?;
            self.walk_again(alloc, area, root, moment)?;
            self.inner = None;
            self.behind = false;
        }
        Ok(())
    }

    /// Notes whether each candidate is among these answers, which are the router's from now on. The
    /// answers aren't kept here, the candidates are. If the walk
    /// isn't valid, or an allocation is refused, the outcome is unknown.
    pub fn take_answers(
        &mut self,
        alloc: Global,
        router: RouterId,
        area: &Area,
        moment: Second,
        answers: &RouteAnswers,
    )
        requires routes { AreRoutesOf router area.now.present moment self.old }
        ensures walk { self.new.walk ≡ self.old.walk }
        ensures behind { self.new.behind ≡ self.old.behind }
        ensures kept { AreKept router area.now.present moment answers.now self.new }
    {
        self.matching = Matching::Unknown;
        if self.behind {
            self.answered = false;
            return;
        }
        self.answered = match self.compare_answers(alloc, router, area, moment, answers) {
            Ok(lacks) => !lacks,
            Err(_) => false,
        };
    }

    /// The candidates at a moment: one route for each prefix that anything in the database offers,
    /// in the order of the prefixes (RFC 2328, section 16). If they are kept, these are shared. If
    /// there is no valid walk, one is made for this call alone. There are at most 63 links and
    /// 16,384 LSAs.
    ///
    /// # Errors
    /// `AllocError` if an allocation is refused.
    pub fn candidates(
        &self,
        alloc: Global,
        router: RouterId,
        area: &Area,
        moment: Second,
    ) -> Result<Pages<Route>, AllocError>
        requires few { length area.now.present.links ≤ 63 }
        requires size { finite.len area.now.present.database ≤ max_lsas }
        requires routes { AreRoutesOf router area.now.present moment self.now }
        ensures { IfOk result (λ candidates.
            AreCandidatesOf router area.now.present moment candidates) }
    {
        if let Some(candidates) = &self.candidates {
            let copy = candidates.copy()?;
            return Ok(copy);
        }
        let db = area.database();
        if self.behind {
            let root = root_of(alloc, router, area)?;
            let walk = Routes::new(alloc, db, &root, moment)?;
            let candidates = walk.candidates(alloc, db, moment)?;
            let pages = Pages::from_slice(alloc, &candidates)?;
            return Ok(pages);
        }
        let candidates = self.walk.candidates(alloc, db, moment)?;
        let pages = Pages::from_slice(alloc, &candidates)?;
        Ok(pages)
    }

    /// The routing table at a moment: the candidates whose equal route was answered with 0, in the
    /// order of the prefixes.
    ///
    /// # Errors
    /// `AllocError` if an allocation is refused.
    pub fn table(
        &self,
        alloc: Global,
        router: RouterId,
        area: &Area,
        moment: Second,
        answers: &RouteAnswers,
    ) -> Result<Vec<Route>, AllocError>
        requires few { length area.now.present.links ≤ 63 }
        requires size { finite.len area.now.present.database ≤ max_lsas }
        requires routes { AreRoutesOf router area.now.present moment self.now }
        ensures { IfOk result (λ table.
            IsTableOf router area.now.present moment answers.now table.items) }
    {
        let candidates = self.candidates(alloc, router, area, moment)?;
        let table = table_of(&candidates, answers)?;
        Ok(table)
    }

    /// The candidates, and the rows of the table.
    ///
    /// # Errors
    /// `AllocError` if an allocation is refused.
    pub fn offered(
        &self,
        alloc: Global,
        router: RouterId,
        area: &Area,
        moment: Second,
        answers: &RouteAnswers,
    ) -> Result<Offered, AllocError>
        requires few { length area.now.present.links ≤ 63 }
        requires size { finite.len area.now.present.database ≤ max_lsas }
        requires routes { AreRoutesOf router area.now.present moment self.now }
        ensures { IfOk result (λ offered. AreOffered router area.now.present moment answers.now
            offered.candidates.items offered.rows.items) }
    {
        let shared = self.candidates(alloc, router, area, moment)?;
        let candidates = shared.to_vec()?;
        let table = table_among(alloc, &candidates, answers)?;
        let rows = rows_of(alloc, &table)?;
        Ok(Offered { candidates, rows })
    }

    // Whether some candidate isn't among the answers, by searching for each. The candidates are
    // kept, and what that tells of them and of the answers.
    fn compare_answers(
        &mut self,
        alloc: Global,
        router: RouterId,
        area: &Area,
        moment: Second,
        answers: &RouteAnswers,
    ) -> Result<bool, AllocError>
        requires behind { self.old.behind ≡ false }
        requires routes { AreRoutesOf router area.now.present moment self.old }
        ensures lacks { IfOk result (λ lacks. IsTrue lacks
            ↔ IsStaleOf router area.now.present moment answers.now) }
        ensures walk { self.new.walk ≡ self.old.walk }
        ensures behind { self.new.behind ≡ self.old.behind }
        ensures graph { self.new.graph ≡ self.old.graph }
        ensures candidates { KnowsCandidates (contents_at moment area.now.present.database)
            (root_by router area.now.present.links) self.new }
        ensures inner { KnowsInner (contents_at moment area.now.present.database)
            (root_by router area.now.present.links) self.new }
        ensures externals { KnowsExternals (contents_at moment area.now.present.database) self.new }
        ensures kept { OnOk result (IsSome self.new.candidates) }
        ensures answered { self.new.answered ≡ self.old.answered }
        ensures matching { OnOk result (KnowsMatching answers.now self.new.candidates
            self.new.matching) }
        ensures lacking { IfOk result (λ lacks. IsTrue lacks → self.new.matching ≡ Lacking) }
        ensures err { OnErr result (self.new ≡ self.old) }
    {
        if let Some(candidates) = &self.candidates {
            let found = compare(candidates, answers)?;
            self.matching = matching_by(found);
            return Ok(found.lacks);
        }
        let made = calculated(alloc, area, &self.walk, moment, &self.externals)?;
        let pages = Pages::from_slice(alloc, &made.calculated.routes)?;
        let found = compare(&pages, answers)?;
        let Made {
            calculated,
            advertised,
        } = made;
        let Calculated { inner, routes: _ } = calculated;
        let kept = self.externals.take();
        self.externals = kept_or(kept, advertised);
        self.inner = Some(inner);
        self.candidates = Some(pages);
        self.matching = matching_by(found);
        Ok(found.lacks)
    }

    /// Whether some candidate isn't among the answers, so that they are to be requested again. If
    /// it is known that each is, or that one isn't, no candidate is looked at. What was found, and
    /// the candidates that were calculated, are remembered until an LSA changes. If there is no
    /// valid walk, one is made. There are at most 63 links and 16,384 LSAs.
    ///
    /// # Errors
    /// `AllocError` if an allocation is refused; what is known of candidates and answers is then
    /// unchanged.
    pub fn is_stale(
        &mut self,
        alloc: Global,
        router: RouterId,
        area: &Area,
        moment: Second,
        answers: &RouteAnswers,
    ) -> Result<bool, AllocError>
        requires few { length area.now.present.links ≤ 63 }
        requires size { finite.len area.now.present.database ≤ max_lsas }
        requires kept { AreKept router area.now.present moment answers.now self.old }
        ensures stale { IfOk result (λ stale. IsTrue stale
            ↔ IsStaleOf router area.now.present moment answers.now) }
        ensures kept { AreKept router area.now.present moment answers.now self.new }
        ensures walk { self.old.behind ≡ false → self.new.walk ≡ self.old.walk }
        ensures noted { IfOk result (λ stale. stale ≡ false → self.new.answered ≡ true) }
        ensures looked { OnOk result (self.old.answered ≡ false → IsSome self.new.candidates) }
        ensures found { IfOk result (λ stale. IsTrue stale → self.new.matching ≡ Lacking) }
        ensures lacking { self.old.matching ≡ Lacking
            → (result ≡ Ok true) × (self.new ≡ self.old) }
    {
        if let Matching::Lacking = self.matching {
            return Ok(true);
        }
        if self.answered {
            return Ok(false);
        }
        self.catch_up(alloc, router, area, moment)?;
        let lacks = self.compare_answers(alloc, router, area, moment, answers)?;
        self.answered = !lacks;
        Ok(lacks)
    }

    /// The number of walks that were made and kept, which saturates.
    pub fn walks(&self) -> u64
        ensures { result ≡ self.now.walk.walks }
    {
        self.walk.walks()
    }
}
