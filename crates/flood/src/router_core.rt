//! The router: it processes events one by one, and returns what it sends.
ghost use Rattle.std.specs.Prelude.{◌≡◌, ◌↔◌, IfOk, IsErrOf, OnErr, false, length, IsTrue};
ghost use Rattle.std.specs.FinMap as finite;
ghost use Rattle.event_rules.specs.Commands.{is_for};
ghost use Rattle.event_rules.specs.Events.{Happens, initial};
ghost use Rattle.event_rules.specs.Originations.{external_key};
ghost use Rattle.event_rules.specs.Refusals.{RefusesByRules};
ghost use Rattle.event_rules.specs.Routers.{in_profile, shown_at};
ghost use Rattle.invariants.specs.Keeping.{KeepsWhatIsKnown};
ghost use Rattle.invariants.specs.LawfulSends.{SendsLawfully};
ghost use Rattle.flood.specs.Early.{early_refusal};
ghost use Rattle.flood.specs.Offers.{AreCandidatesNow, IsOffered, IsStaleNow, IsTableNow};
ghost use Rattle.flood.specs.Occurrences.{occurrence_of};
ghost use Rattle.flood.specs.Owed.{owed_at};

use crate::event::Event;
use crate::processing::{early_refusal, process_event};
use crate::profile::in_profile;
use crate::start::begin;
use adjacency::NeighborState;
use area_routes::{AreaRoutes, Offered};
use event_rules::{Config, ConfigError, CoreError, Out};
use keyed_map::Pages;
use lsdb::Lsdb;
use router::{Router, same_network};
use std::alloc::{AllocError, Global};
use std::marker::Model;
use words::{Prefix, Route, RouterId, Second, external_key};

// The most entries of all neighbors' lists that aren't called long.
const LONG_LISTS: usize = 65_536;

/// A router as one value. It has no clock, no socket and no lock: moments, bytes and answers are
/// passed to it.
#[derive(Drop)]
pub struct Core {
    alloc: Global,
    router: Router,
    // what is kept for its routes from one event to the next: the walk, the graph, the candidates,
    // and what is known of the answers
    routes: AreaRoutes,
}

impl Model for Core {
    ghost use Rattle.std.specs.Prelude.{◌≡◌, ℕ, false};
    ghost use Rattle.std.specs.Coded.{codes};
    ghost use Rattle.std.specs.FinMap as finite;
    ghost use Rattle.words.specs.declared.route.External.{External};
    ghost use Rattle.lsdb.specs.Copies.{DatabaseCopy};
    ghost use Rattle.lsdb.specs.Keys.{coded_key, key_cmp};
    ghost use Rattle.adjacency.specs.Codes.{coded_headers, coded_keys, coded_lists};
    ghost use Rattle.event_rules.specs.RoomLaws.{IsRoomy};
    ghost use Rattle.event_rules.specs.Refusals.{exceeds};
    ghost use Rattle.event_rules.specs.Routers.{Router as Shown};
    ghost use Rattle.area.specs.Drafted.{nothing_at};
    ghost use Rattle.flood.specs.Offers.{AreKeptNow};
    ghost use Rattle.invariants.specs.InOrder.{IsConsistent};
    ghost use Rattle.invariants.specs.Keeping.{HasNumbersInRange};

    ghost Value = { Shown };

    ghost coded = { Prim.hlevel (
      codes,
      coded_lists,
      coded_keys,
      coded_headers,
      finite.code {X = DatabaseCopy} {R = key_cmp} coded_key (Prim.hlevel codes),
      finite.code {X = External} {R = key_cmp} coded_key (Prim.hlevel codes),
      finite.code {X = ℕ} {R = key_cmp} coded_key (Prim.hlevel codes),
    ) };

    ghost view = { λ a. a.router.present };

    // Between events the state is committed, nothing is drafted, all that may be sent fits into
    // packets, and no limit is exceeded. The router announces external destinations only under its
    // own Router ID, its retransmission lists have the database's instances, and the numbers of the
    // instances that it holds are in their ranges. What is kept for routes is valid at the moment
    // of the last event.
    ghost invariant = { λ a.
        (a.router.committed ≡ a.router.present)
        × IsRoomy a.router.present
        × (exceeds a.router.present ≡ false)
        × IsConsistent a.router.present
        × HasNumbersInRange a.router.present
        × AreKeptNow a.router.present a.routes
        × (a.router.drafted ≡ nothing_at a.router.present.area.links) };
}

impl Core {
    /// A router without neighbors that has originated its router-LSA (RFC 2328, section 12.4.1).
    /// The start counts as the moment of the last event.
    ///
    /// # Errors
    /// `Interface` if and only if the configuration is invalid by the rules of [`Config`], `Memory`
    /// if an allocation is refused.
    pub fn new(alloc: Global, config: &Config) -> Result<Core, ConfigError>
        ensures ok { IfOk result (λ core. core ≡ initial config.now) }
        ensures profile { IsErrOf result ConfigError.Interface ↔ (in_profile config.now ≡ false) }
    {
        if !in_profile(config) {
            return Err(ConfigError::Interface);
        }
        let mut router = begin(alloc, config)?;
        router.commit();
        match AreaRoutes::new(alloc, router.id(), router.area(), router.moment()) {
            Ok(routes) => Ok(Core {
                alloc,
                router,
                routes,
            }),
            Err(error) => {
                router.close();
                Err(ConfigError::from(error))
            }
        }
    }

    /// Processes one event at a moment, and returns the packets to be sent, in order.
    ///
    /// # Errors
    /// In this order: `ClockBack` if the moment is before that of the last event or isn't below
    /// 2^62; `NoInterface` if the interface of a packet or of a link that went down doesn't exist;
    /// `BadPacket` if the bytes encode no packet; `Clash` if the two answers of a `Redistribute`
    /// are for different destinations or the Link State ID is that of another announced prefix;
    /// `Full` if the database would hold more than 16,384 LSAs, or more than 4,096 self-originated
    /// AS-external-LSAs. `Memory` if an allocation is refused, but not if the moment or the
    /// interface is refused. An error leaves the router unchanged.
    pub fn step(&mut self, moment: Second, event: &Event) -> Result<Vec<Out>, CoreError>
        ensures ok { IfOk result (λ outs. Happens self.old moment (occurrence_of event.now)
            outs.items self.new) }
        // The Router ID stays the same, each packet that is sent is from this router, and each
        // instance that it holds or sends was held before, was received in the event's Link State
        // Update, or is a new one of its own. If an instance is removed from a retransmission list
        // as acknowledged, the event's packet from that neighbor says so.
        ensures keeps { IfOk result (λ outs. KeepsWhatIsKnown self.old moment
            (occurrence_of event.now) outs.items self.new) }
        // Instances that are sent have numbers in their ranges, and packets are encoded as texts:
        // what the laws on two neighbors suppose of a router.
        ensures lawful { IfOk result (λ outs. SendsLawfully self.old moment
            (occurrence_of event.now) outs.items self.new) }
        // Which refusal it is; none applies if the event is accepted.
        ensures refused { RefusesByRules self.old moment (occurrence_of event.now) result }
        ensures err { OnErr result (self.new ≡ self.old) }
    {
        match process_event(
            &mut self.router,
            &mut self.routes,
            self.alloc,
            moment,
            event,
        ) {
            Ok(outs) => {
                self.router.commit_at(self.alloc, moment);
                Ok(outs)
            }
            Err(error) => {
                self.router.roll_back();
                Err(error)
            }
        }
    }

    /// The refusal of an event that is determined before anything is allocated: `ClockBack` for its
    /// moment, or `NoInterface` for its interface. Only `step` can determine the others.
    pub fn early_refusal(&self, moment: Second, event: &Event) -> Option<CoreError>
        ensures { result ≡ early_refusal self.now moment (occurrence_of event.now) }
    {
        early_refusal(&self.router, moment, event)
    }

    /// A copy of the router, for which no routes are calculated before it is asked for some.
    ///
    /// # Errors
    /// `AllocError` if an allocation is refused.
    pub fn copy(&self) -> Result<Core, AllocError>
        ensures { IfOk result (λ copy. copy ≡ self.now) }
    {
        let router = self.router.copy(self.alloc)?;
        match AreaRoutes::without_walk(self.alloc, router.id()) {
            Ok(routes) => Ok(Core {
                alloc: self.alloc,
                router,
                routes,
            }),
            Err(error) => {
                router.close();
                Err(error)
            }
        }
    }

    /// The moment of the last event, or of the start if there was none.
    pub fn moment(&self) -> Second
        ensures { result ≡ self.now.moment }
    {
        self.router.moment()
    }

    /// The number of interfaces, at most 63; they are numbered from 1.
    pub fn interface_count(&self) -> usize
        ensures { result ≡ length self.now.area.links }
    {
        self.router.area().links().len()
    }

    /// The link state database.
    pub fn database(&self) -> &Lsdb
        ensures { result.now ≡ record {
          router = self.now.id;
          present = self.now.area.database;
          committed = self.now.area.database;
        } }
    {
        self.router.area().database()
    }

    /// The neighbor at the interface with this number and its state, or `None` if it is Down or
    /// there is no such interface.
    pub fn neighbor(&self, interface: u16) -> Option<(RouterId, NeighborState)>
        ensures { result ≡ shown_at self.now interface }
    {
        let place = usize::from(interface).checked_sub(1)?;
        let link = self.router.area().links().get(place)?;
        link.neighbor()
    }

    /// How many acknowledgments and requested LSAs the neighbor at the interface with this number
    /// owes: the entries of its retransmission list and of its request list (RFC 2328, section 10).
    /// 0 if it is Down or there is no such interface. It takes constant time.
    pub fn owes(&self, interface: u16) -> usize
        ensures { result ≡ owed_at self.now interface }
    {
        let links = self.router.area().links();
        let interface = usize::from(interface);
        if interface == 0 || interface > links.len() {
            return 0;
        }
        links[interface - 1].owes()
    }

    /// Whether the request lists and retransmission lists of all neighbors together have more than
    /// 65,536 entries.
    pub fn has_long_lists(&self) -> bool {
        let mut sum = 0usize;
        for link in self.router.area().links() {
            sum = sum.saturating_add(link.owes());
        }
        sum > LONG_LISTS
    }

    /// The candidates for the routing table at the moment of the last event (RFC 2328, section 16).
    /// An event calculates no shortest paths itself: if the walk that is kept is no longer valid,
    /// and [`stale`](Core::stale) hasn't made another one since, one is made for this call alone.
    /// If the candidates are kept, they are shared, and not copied.
    ///
    /// # Errors
    /// `AllocError` if an allocation is refused.
    pub fn candidates(&self) -> Result<Pages<Route>, AllocError>
        ensures { IfOk result (λ routes. AreCandidatesNow self.now routes) }
    {
        let router = &self.router;
        let made = self
            .routes
            .candidates(self.alloc, router.id(), router.area(), router.moment())?;
        Ok(made)
    }

    /// The routing table: the candidates that the answers of the last `Install` let in.
    ///
    /// # Errors
    /// `AllocError` if an allocation is refused.
    pub fn rows(&self) -> Result<Vec<Route>, AllocError>
        ensures { IfOk result (λ table. IsTableNow self.now table.items) }
    {
        let router = &self.router;
        let made = self.routes.table(
            self.alloc,
            router.id(),
            router.area(),
            router.moment(),
            router.answers(),
        )?;
        Ok(made)
    }

    /// The candidates, and the rows of the routing table as programs see them.
    ///
    /// # Errors
    /// `AllocError` if an allocation is refused.
    pub fn offered(&self) -> Result<Offered, AllocError>
        ensures { IfOk result (λ o. IsOffered self.now o.candidates.items o.rows.items) }
    {
        let router = &self.router;
        let made = self.routes.offered(
            self.alloc,
            router.id(),
            router.area(),
            router.moment(),
            router.answers(),
        )?;
        Ok(made)
    }

    /// Whether some candidate is in none of the answers of the last `Install`, so that programs
    /// have to be asked again. No candidate is visited if the answer is known from an earlier call,
    /// or because the answers were on all candidates when they came. It stays known over events in
    /// which no LSA is added or removed, comes to MaxAge or gets another body, and over those that
    /// change few AS-external-LSAs. If there is no valid walk, one is made and kept. `turns` asks
    /// this after each event, so a change of the topology has the shortest paths calculated at
    /// once, without a delay that would join several changes.
    ///
    /// # Errors
    /// `AllocError` if an allocation is refused.
    pub fn stale(&mut self) -> Result<bool, AllocError>
        ensures stale { IfOk result (λ b. IsTrue b ↔ IsStaleNow self.old) }
        ensures core { self.new ≡ self.old }
    {
        let router = &self.router;
        let made = self.routes.is_stale(
            self.alloc,
            router.id(),
            router.area(),
            router.moment(),
            router.answers(),
        )?;
        Ok(made)
    }

    /// The number of walks, calculations of all shortest paths, that were made and kept since the
    /// start or the copy; it saturates. [`step`](Core::step) makes none. [`stale`](Core::stale)
    /// makes at most one, and only if since the last one an LSA of type 1 or 2 was added or
    /// removed, has reached MaxAge, has another body or took the place of a copy at MaxAge, or the
    /// addresses of the interfaces differ.
    pub fn walks(&self) -> u64 {
        self.routes.walks()
    }

    /// Whether the external destination with this prefix is announced, or will be as soon as its
    /// LSA may be originated.
    pub fn wants(&self, prefix: Prefix) -> bool
        ensures { result ≡ is_for prefix
            (finite.get self.now.announced (external_key self.now.id prefix)) }
    {
        match self
            .router
            .announced()
            .get(&external_key(self.router.id(), prefix))
        {
            None => false,
            Some(external) => same_network(prefix, external.prefix),
        }
    }

    /// Drops the router. A function above that drops one itself would have to prove the drop of
    /// each part again.
    pub fn close(self) {
        let Core {
            alloc: _,
            router,
            routes: _,
        } = self;
        router.close();
    }
}
