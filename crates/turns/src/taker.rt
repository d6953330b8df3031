//! What takes events, as a turn sees it, and what a turn asks beside.
ghost use Rattle.std.specs.Prelude.{◌≡◌, ◌+◌, ◌<◌, ◌≤◌, ◌↔◌, ℕ, Bool, List, Option, Err, IfOk};
ghost use Rattle.std.specs.Prelude.{IfErr, IfNone, IfSome, IsTrue, MatchResult, None, OnErr};
ghost use Rattle.std.specs.Prelude.{OnOk, Some, map, max};
ghost use Rattle.std.specs.List.{Contains};
ghost use mathlib.Core.List.{IsPrefix};
ghost use Rattle.words.specs.Constants.{clock_end};
ghost use Rattle.words.specs.Numbers.{InterfaceNumber, Moment, RouterNumber};
ghost use Rattle.words.specs.Prefixes.{Network};
ghost use Rattle.words.specs.declared.route.Route.{Route as RouteValue};
ghost use Rattle.words.specs.declared.route.TableRow.{TableRow};
ghost use Rattle.maps.specs.Words.{IsSeatOf};
ghost use Rattle.hooks.specs.Answered.{AreAnswered, IsAnswered};
ghost use Rattle.hooks.specs.Known.{asker_history, known_to, told_by};
ghost use Rattle.hooks.specs.Questions.{count_input, price_input, tag_input, veto_input};
ghost use Rattle.hooks.specs.Vacant.{IsAnsweredWithoutSeat, let_in_answer};
ghost use Rattle.event_rules.specs.Events.{Happens};
ghost use Rattle.event_rules.specs.Routers.{shown_at};
ghost use Rattle.flood.specs.declared.event.Event.{Event};
ghost use Rattle.flood.specs.Occurrences.{occurrence_of};
ghost use Rattle.flood.specs.Offers.{AreCandidatesNow, IsOffered, IsStaleNow};
ghost use Rattle.adjacency.specs.declared.state.NeighborState.{NeighborState};
ghost use Rattle.turns.specs.Askers.{IsLater, asker_state};
ghost use Rattle.turns.specs.Turns.{
  IsAsked,
  IsInstalling,
  IsLacking,
  IsOfferedBySome,
  BeganWith,
  IsRefused,
  IsRefusedBySome,
  IsTaken,
  IsChangeCounted,
  IsWantedBySome,
  Lack,
  Refuses,
  RefusesAt,
  IsTakenBySome,
  Took,
  announces,
  IsNumberOfChanges,
  refuses_from,
  taken_at,
  took_from,
};

use flood::{Book, BookError, CoreError, Event, NeighborState, Offered, Origin, Out};
use hooks::{Asker, HookAnswer, Notice, PriceAnswer, TagAnswer, VetoAnswer, VetoAnswers};
use keyed_map::Pages;
use maps::{Seat, Shared};
use std::alloc::{AllocError, Global};
use std::sync::atomic::{AtomicU64, Ordering};
use std::sync::ledger::Share;
use words::{External, Prefix, Route, RouterId, Second, Sequence, TableRow};

/// What comes of taking an event: what is sent, and whether the router is stale after it: some
/// candidate stands in no answer of the last `Install` then. None if that isn't known, for want of
/// memory.
#[derive(Drop)]
pub struct TakeOutcome {
    pub outs: Vec<Out>,
    pub stale: Option<bool>,
}

/// What a turn needs of a router: it takes events, and tells its candidates, its table and its
/// neighbors. The programs, memory and the count of changes are asked here as well, although a
/// [`Book`] only hands these on.
///
/// `took`, `refuses`, `offers` and the others are relations that each implementation defines. A
/// turn is generic over the implementation, so it can establish them only by the call itself. Hence
/// the prover refuses a turn that gives another event, or none, or gives it at another moment or to
/// another book; and one that reports a reading or memory as lacking though it never asked for one.
pub trait Taker<L: Origin> {
    ghost took: { Took };

    ghost refuses: { Refuses };

    ghost offers: { List RouteValue → List TableRow → Type 0 };

    ghost wanted: { ℕ → Network → Bool → Type 0 };

    ghost began: { Self → Type 0 };

    ghost neighbor_at: { Self → InterfaceNumber → Option (RouterNumber × NeighborState) };

    ghost moment_of: { Self → Moment };

    /// Takes an event, which counts once in the share.
    ///
    /// An `Install` comes after programs were asked, which takes its time: it isn't refused if
    /// another event came at a later moment meanwhile.
    ///
    /// # Errors
    /// Why the event is refused, as [`Book::apply_with_marks`] says. The share is unchanged.
    fn take(
        &mut self,
        mine: &mut Share<L>,
        moment: Second,
        event: Event,
    ) -> Result<TakeOutcome, BookError>
        requires { 0 < mine.old.parts }
        ensures ok { IfOk result (λ t.
            IsTaken took mine.old.amount moment event t.outs.items t.stale) }
        ensures unknown { IfOk result (λ t. t.stale ≡ None → IsLacking refuses Lack.Memory) }
        ensures refused { IfErr result (λ error.
            IsRefused refuses mine.old.amount moment event error) }
        ensures share { OnOk result (mine.new.amount ≡ mine.old.amount + 1) }
        ensures parts { mine.new.parts ≡ mine.old.parts }
        ensures err { OnErr result (mine.new.amount ≡ mine.old.amount) }
        ensures clock { IsInstalling event
            → result ≡ Err (BookError.Core CoreError.ClockBack)
            → began self.old × (clock_end ≤ max moment (moment_of self.old)) };

    /// The candidates for the routing table now, and the table's rows now.
    ///
    /// # Errors
    /// `AllocError` if an allocation is refused.
    fn offered(&self) -> Result<Offered, AllocError>
        ensures offered { IfOk result (λ o. offers o.candidates.items o.rows.items) }
        ensures short { OnErr result (IsLacking refuses Lack.Memory) };

    /// The candidates for the routing table now, for a caller that needs no rows: that takes less
    /// time than [`offered`](Taker::offered).
    ///
    /// # Errors
    /// `AllocError` if an allocation is refused.
    fn candidates(&self) -> Result<Pages<Route>, AllocError>
        ensures offered { IfOk result (λ c. (rows : List TableRow) × offers c rows) }
        ensures short { OnErr result (IsLacking refuses Lack.Memory) };

    /// Whether this destination is announced now, or will be as soon as its LSA may be originated.
    /// `mine` is the share of the port that asks.
    fn wants(&mut self, mine: &mut Share<L>, prefix: Prefix) -> bool
        ensures wanted { wanted mine.old.amount prefix result }
        ensures share { (mine.new.amount ≡ mine.old.amount) × (mine.new.parts ≡ mine.old.parts) };

    /// The neighbor at the interface of this number and its state now, or None if it is Down or
    /// there is no such interface.
    fn neighbor(&self, interface: u16) -> Option<(RouterId, NeighborState)>
        ensures at { result ≡ neighbor_at self.now interface }
        ensures own { began self.now };

    /// Runs the program at `count` on a packet, by [`Asker::count`]. `None` if the published
    /// programs can't be read.
    fn count(
        asker: &mut Asker,
        interface: u16,
        moment: Second,
        packet: &[u8],
        shared: &Shared,
        seat: &mut Seat,
    ) -> Option<HookAnswer>
        requires { IsSeatOf shared.now seat.old }
        ensures history { asker_history asker.new ≡ asker_history asker.old }
        ensures asked { IsAsked took (count_input interface moment packet.now) }
        ensures unread { IfNone result ((known_to asker.new ≡ known_to asker.old)
            × (seat.new ≡ seat.old)) }
        ensures lacking { IfNone result
            (IsLacking refuses (Lack.Reading (count_input interface moment packet.now))) }
        ensures answered { IfSome result (λ a. IsAnswered (known_to asker.old) (known_to asker.new)
            seat.old seat.new (count_input interface moment packet.now) a.word) }
        ensures table { IsSeatOf shared.now seat.new };

    /// Asks the program at `tag` for a destination's tag, by [`Asker::tag`]. `None` if the
    /// published programs can't be read.
    fn tag(
        asker: &mut Asker,
        external: &External,
        moment: Second,
        rows: &[TableRow],
        shared: &Shared,
        seat: &mut Seat,
    ) -> Option<TagAnswer>
        requires { IsSeatOf shared.now seat.old }
        ensures history { asker_history asker.new ≡ asker_history asker.old }
        ensures unread { IfNone result ((known_to asker.new ≡ known_to asker.old)
            × (seat.new ≡ seat.old)) }
        ensures lacking { IfNone result
            (IsLacking refuses (Lack.Reading (tag_input external.now moment rows.now))) }
        ensures question { IfSome result (λ a.
            (a.external ≡ external.now) × (a.moment ≡ moment)) }
        ensures answered { IfSome result (λ a. IsAnswered (known_to asker.old) (known_to asker.new)
            seat.old seat.new (tag_input external.now moment rows.now) a.word) }
        ensures table { IsSeatOf shared.now seat.new };

    /// Asks the program at `price` for a destination's metric, by [`Asker::price`]. `None` if the
    /// published programs can't be read.
    fn price(
        asker: &mut Asker,
        external: &External,
        moment: Second,
        rows: &[TableRow],
        shared: &Shared,
        seat: &mut Seat,
    ) -> Option<PriceAnswer>
        requires { IsSeatOf shared.now seat.old }
        ensures history { asker_history asker.new ≡ asker_history asker.old }
        ensures unread { IfNone result ((known_to asker.new ≡ known_to asker.old)
            × (seat.new ≡ seat.old)) }
        ensures lacking { IfNone result
            (IsLacking refuses (Lack.Reading (price_input external.now moment rows.now))) }
        ensures question { IfSome result (λ a.
            (a.external ≡ external.now) × (a.moment ≡ moment)) }
        ensures answered { IfSome result (λ a. IsAnswered (known_to asker.old) (known_to asker.new)
            seat.old seat.new (price_input external.now moment rows.now) a.word) }
        ensures table { IsSeatOf shared.now seat.new };

    /// Asks the program at `veto` whether to keep each route out of the table, by
    /// [`Asker::vetoes`]. `None` if the published programs can't be read.
    fn vetoes(
        asker: &mut Asker,
        alloc: Global,
        routes: &[Route],
        moment: Second,
        rows: &[TableRow],
        shared: &Shared,
        seat: &mut Seat,
    ) -> Result<Option<Vec<VetoAnswer>>, AllocError>
        requires { IsSeatOf shared.now seat.old }
        ensures history { asker_history asker.new ≡ asker_history asker.old }
        ensures later { IsLater (asker_state asker.old seat.old)
            (asker_state asker.new seat.new) }
        ensures lacking { IfOk result (λ o. IfNone o ((route : RouteValue)
            × Contains routes.now route
            × IsLacking refuses (Lack.Reading (veto_input route moment rows.now)))) }
        ensures answered { IfOk result (λ o. IfSome o (λ answers.
            AreAnswered (known_to asker.old) (known_to asker.new) seat.old seat.new moment
            rows.now routes.now answers.items)) }
        ensures short { OnErr result (IsLacking refuses Lack.Memory) }
        ensures table { IsSeatOf shared.now seat.new };

    /// The answers on these routes if `veto` has no program: each is let in, by
    /// [`Asker::all_let_in`]. `None` if it has one, or the published programs can't be read.
    fn all_let_in(asker: &mut Asker, routes: Pages<Route>, moment: Second) -> Option<VetoAnswers>
        ensures history { asker_history asker.new ≡ asker_history asker.old }
        ensures known { IsPrefix (known_to asker.old) (known_to asker.new) }
        ensures all { IfSome result (λ answers. answers ≡ map (let_in_answer moment) routes) }
        ensures answered { IfSome result (λ answers.
            (route : RouteValue) (rows : List TableRow) → IsAnsweredWithoutSeat
            (known_to asker.old) (known_to asker.new) (veto_input route moment rows) 0) };

    /// Clones a datagram for its event. It stands here, so that a refusal for memory counts
    /// as one of this implementation.
    ///
    /// # Errors
    /// `AllocError` if an allocation is refused.
    fn copied(bytes: &Sequence<u8>) -> Result<Sequence<u8>, AllocError>
        ensures copied { IfOk result (λ copy. copy ≡ bytes.now) }
        ensures short { OnErr result (IsLacking refuses Lack.Memory) };

    /// Counts one more change of the programs, which are now those of the notice.
    fn count_change(changes: &AtomicU64, notice: &Notice)
        ensures { IsChangeCounted took (told_by notice.now) };

    /// How many changes were counted, as it is read by the port that has this share.
    fn changes(changes: &AtomicU64, mine: &Share<L>) -> u64
        ensures { IsNumberOfChanges took mine.now.amount result };
}

// When an event that is given at a moment is taken, after one that came last: an `Install` isn't
// taken before that one.
fn taken_at(event: &Event, moment: Second, last: Second) -> Second
    ensures { result ≡ taken_at event.now moment last }
{
    match event {
        Event::Install(_) => moment.max(last),
        Event::Packet(_, _) => moment,
        Event::Tick => moment,
        Event::Redistribute(_, _) => moment,
        Event::Withdraw(_) => moment,
        Event::LinkDown(_) => moment,
    }
}

// The answer, or `None` if memory was refused for it.
fn known(told: Result<bool, AllocError>) -> Option<bool>
    ensures { MatchResult told (λ is. result ≡ Some is) (λ _. result ≡ None) }
{
    match told {
        Ok(is) => Some(is),
        Err(_) => None,
    }
}

/// A book takes an event by [`Book::apply_with_marks`], an `Install` at the moment of its last
/// event if this is later. What is sent is what the event makes of its own router, which is then
/// the one that the event leaves; and all that it says is of a router to which the events that it
/// took lead from the one that it began with.
impl<L: Origin> Taker<L> for Book<L> {
    ghost took = { took_from L.origin };

    ghost refuses = { refuses_from L.origin };

    ghost offers = { λ candidates rows. IsOfferedBySome L.origin candidates rows };

    ghost wanted = { λ events prefix wanted. IsWantedBySome L.origin events prefix wanted };

    ghost began = { λ book. BeganWith L.origin book };

    ghost neighbor_at = { λ book interface. shown_at book.current interface };

    ghost moment_of = { λ book. book.current.moment };

    fn take(
        &mut self,
        mine: &mut Share<L>,
        moment: Second,
        event: Event,
    ) -> Result<TakeOutcome, BookError>
        requires { 0 < mine.old.parts }
        ensures now { IfOk result (λ t. Happens
            self.old.current (taken_at event moment self.old.current.moment)
            (occurrence_of event) t.outs.items self.new.current) }
        ensures stale { IfOk result (λ t.
            IfSome t.stale (λ is. IsTrue is ↔ IsStaleNow self.new.current)) }
        ensures ok { IfOk result (λ t.
            IsTakenBySome L.origin mine.old.amount moment event t.outs.items t.stale) }
        ensures refused_now { IfErr result (λ error. RefusesAt self.old moment event error) }
        ensures refused { IfErr result (λ error.
            IsRefusedBySome L.origin mine.old.amount moment event error) }
        ensures share { OnOk result (mine.new.amount ≡ mine.old.amount + 1) }
        ensures parts { mine.new.parts ≡ mine.old.parts }
        ensures err { OnErr result (mine.new.amount ≡ mine.old.amount) }
        ensures clock { IsInstalling event
            → result ≡ Err (BookError.Core CoreError.ClockBack)
            → BeganWith L.origin self.old × (clock_end ≤ max moment self.old.current.moment) }
    {
        // For the prover alone, by what the call ensures.
        self.audit(mine);
        let at = taken_at(&event, moment, self.now().moment());
        match self.apply_with_marks(mine, at, event) {
            Ok(outs) => {
                let stale = known(self.is_stale());
                Ok(TakeOutcome { outs, stale })
            }
            Err(error) => Err(error),
        }
    }

    fn offered(&self) -> Result<Offered, AllocError>
        ensures now { IfOk result (λ o.
            IsOffered self.now.current o.candidates.items o.rows.items) }
        ensures some { IfOk result (λ o. IsOfferedBySome L.origin o.candidates.items o.rows.items) }
    {
        self.now().offered()
    }

    fn candidates(&self) -> Result<Pages<Route>, AllocError>
        ensures now { IfOk result (λ c. AreCandidatesNow self.now.current c) }
        ensures some { IfOk result
            (λ c. (rows : List TableRow) × IsOfferedBySome L.origin c rows) }
    {
        self.now().candidates()
    }

    fn wants(&mut self, mine: &mut Share<L>, prefix: Prefix) -> bool
        ensures now { result ≡ announces self.old.current prefix }
        ensures some { IsWantedBySome L.origin mine.old.amount prefix result }
        ensures share { (mine.new.amount ≡ mine.old.amount) × (mine.new.parts ≡ mine.old.parts) }
    {
        // For the prover alone, by what the call ensures.
        self.audit(mine);
        self.now().wants(prefix)
    }

    fn neighbor(&self, interface: u16) -> Option<(RouterId, NeighborState)> {
        self.now().neighbor(interface)
    }

    fn count(
        asker: &mut Asker,
        interface: u16,
        moment: Second,
        packet: &[u8],
        shared: &Shared,
        seat: &mut Seat,
    ) -> Option<HookAnswer> {
        asker.count(interface, moment, packet, shared, seat)
    }

    fn tag(
        asker: &mut Asker,
        external: &External,
        moment: Second,
        rows: &[TableRow],
        shared: &Shared,
        seat: &mut Seat,
    ) -> Option<TagAnswer> {
        asker.tag(external, moment, rows, shared, seat)
    }

    fn price(
        asker: &mut Asker,
        external: &External,
        moment: Second,
        rows: &[TableRow],
        shared: &Shared,
        seat: &mut Seat,
    ) -> Option<PriceAnswer> {
        asker.price(external, moment, rows, shared, seat)
    }

    fn vetoes(
        asker: &mut Asker,
        alloc: Global,
        routes: &[Route],
        moment: Second,
        rows: &[TableRow],
        shared: &Shared,
        seat: &mut Seat,
    ) -> Result<Option<Vec<VetoAnswer>>, AllocError> {
        asker.vetoes(alloc, routes, moment, rows, shared, seat)
    }

    fn all_let_in(asker: &mut Asker, routes: Pages<Route>, moment: Second) -> Option<VetoAnswers> {
        asker.all_let_in(routes, moment)
    }

    fn copied(bytes: &Sequence<u8>) -> Result<Sequence<u8>, AllocError> {
        bytes.copy()
    }

    fn count_change(changes: &AtomicU64, _notice: &Notice) {
        let _before = changes.fetch_add(1, Ordering::SeqCst);
    }

    fn changes(changes: &AtomicU64, _mine: &Share<L>) -> u64 {
        changes.load(Ordering::SeqCst)
    }
}
