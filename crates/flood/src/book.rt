//! A router with its past: how it takes events, and how its journal is emptied.
ghost use Rattle.std.specs.Prelude.{◌≡◌, ℕ, ◌+◌, ◌^◌, ◌<◌, ◌≤◌, [], ◌∷◌, ◌++◌, ◌↔◌, ◌⊎◌, length};
ghost use Rattle.std.specs.Prelude.{Err, IfErr, IfOk, IsOk, IsTrue, None, OnErr, OnOk, Some};
ghost use Rattle.std.specs.Prelude.{false, true};
ghost use Rattle.std.specs.FinMap as finite;
ghost use Rattle.event_rules.specs.Events.{Happens};
ghost use Rattle.flood.specs.Early.{early_refusal};
ghost use Rattle.flood.specs.Occurrences.{occurrence_of};
ghost use Rattle.flood.specs.Offers.{IsStaleNow};
ghost use Rattle.flood.specs.Refusals.{BookRefusesByRules, BookRefusesWithMarksByRules, IsFull};
ghost use Rattle.flood.specs.Refusals.{IsRefusedEarly, without_event};
ghost use Rattle.flood.specs.Replay.{IsDue, IsLightened, IsNotedAtLast, IsUnnoted, MayBeMarked};
ghost use Rattle.flood.specs.Replay.{IsMarkedIfDue, IsAfterEvents, Replays, entry, marked_book};
ghost use Rattle.flood.specs.Replay.{start_of};
ghost use Rattle.flood.specs.Replay.{started_book};

mod answers;
pub mod entry;
pub mod error;
pub mod origin;
mod weight;

use crate::book::answers::{forget_answers, last_install};
use crate::book::entry::JournalEntry;
use crate::book::error::{BookError, Refused};
use crate::book::origin::Origin;
use crate::book::weight::{allowance, with_event};
use crate::event::Event;
use crate::router_core::Core;
use event_rules::{CoreError, Out};
use std::alloc::{AllocError, Global};
use std::marker::Model;
use std::mem::replace;
use std::sync::ledger;
use std::sync::ledger::{Blank, Share};
use words::Second;

/// The most events in a journal.
pub const MAX_JOURNAL: usize = 65_536;

/// The most events that a book takes in all, 2^63.
pub const MAX_TAKEN: u64 = 1 << 63;

/// A router as it is now; and, for contracts and tests alone, its past: the router at the start and
/// the events since.
///
/// Clauses see these and how many events were taken in all, before the start too. `L` is the ledger
/// in which every event counts once, for the share that it was taken with, and names the router
/// that the first event found.
///
/// Start and journal are there for the contracts: only tests read them, and marks keep them small.
#[derive(Drop)]
pub struct Book<L: Origin> {
    alloc: Global,
    // The router at the start. None if that is the router of now, as after a mark: a copy of this
    // one is made when an event comes.
    start: Option<Core>,
    current: Core,
    journal: Vec<JournalEntry>,
    // The bytes that the journal's events take, without the answers of Installs.
    journal_bytes: u64,
    // The place of the last Install that was taken by `apply_with_marks` since the start.
    installed: Option<usize>,
    taken: u64,
    total: ledger::Book<L>,
}

impl<L: Origin> Model for Book<L> {
    ghost use Rattle.std.specs.Prelude.{ℕ};
    ghost use Rattle.std.specs.Coded.{codes};
    ghost use Rattle.std.specs.FinMap as finite;
    ghost use Rattle.words.specs.declared.route.External.{External as Destination};
    ghost use Rattle.lsdb.specs.Copies.{DatabaseCopy};
    ghost use Rattle.lsdb.specs.Keys.{coded_key, key_cmp};
    ghost use Rattle.adjacency.specs.Codes.{coded_headers, coded_keys, coded_lists};
    ghost use Rattle.flood.specs.Replay.{BookView, IsBook, start_of};

    ghost Value = { BookView };

    ghost coded = { Prim.hlevel (
      codes,
      coded_lists,
      coded_keys,
      coded_headers,
      finite.code {X = DatabaseCopy} {R = key_cmp} coded_key (Prim.hlevel codes),
      finite.code {X = Destination} {R = key_cmp} coded_key (Prim.hlevel codes),
      finite.code {X = ℕ} {R = key_cmp} coded_key (Prim.hlevel codes),
    ) };

    ghost view = { λ b. record {
      start = start_of b.start b.current;
      journal = b.journal.items;
      current = b.current;
      taken = b.taken;
    } };

    ghost invariant = { λ b. IsBook L.origin (start_of b.start b.current) b.journal.items b.current
        b.journal_bytes b.taken b.total.total };
}

// Makes the copy that is the router at the start, unless there is one already.
fn hold(start: &mut Option<Core>, now: &Core) -> Result<(), AllocError>
    ensures ok { OnOk result (start.new ≡ Some (start_of start.old now.now)) }
    ensures err { OnErr result (start.new ≡ start.old) }
{
    if start.is_some() {
        return Ok(());
    }
    let copy = now.copy()?;
    if let Some(other) = replace(start, Some(copy)) {
        other.close();
    }
    Ok(())
}

// Drops the copy that is the router at the start: the router as it is now stands for it.
fn drop_start(start: &mut Option<Core>)
    ensures { start.new ≡ None }
{
    if let Some(start) = replace(start, None) {
        start.close();
    }
}

impl<L: Origin> Book<L> {
    /// A book that starts with this router and has taken nothing, and the share that has every part
    /// of the ledger.
    ///
    /// # Errors
    /// `AllocError` if an allocation is refused: the start is a copy.
    pub fn new(alloc: Global, blank: Blank, core: Core) -> Result<(Book<L>, Share<L>), AllocError>
        requires name { blank.name ≡ L.name }
        requires parts { blank.parts ≡ L.parts }
        requires origin { core ≡ L.origin }
        ensures book { IfOk result (λ r. r.0 ≡ started_book core) }
        ensures share { IfOk result (λ r. (r.1.parts ≡ L.parts) × (r.1.amount ≡ 0)) }
    {
        match core.copy() {
            Ok(start) => {
                let (total, share) = blank.open::<L>();
                let book = Book {
                    alloc,
                    start: Some(start),
                    current: core,
                    journal: Vec::new(alloc),
                    journal_bytes: 0,
                    installed: None,
                    taken: 0,
                    total,
                };
                Ok((book, share))
            }
            Err(error) => {
                core.close();
                Err(error)
            }
        }
    }

    /// Takes an event at a moment: what it makes of the router, and what is to be sent. The event
    /// stands last in the journal then, and counts once in the book and once in the share.
    ///
    /// # Errors
    /// In this order: `Journal` if the journal holds 65,536 events or 2^63 were taken in all; what
    /// the router refuses, in its own order; `Core(Memory)` only if neither the journal nor the
    /// clock nor the interface is refused, and an allocation was. A refusal leaves the book and the
    /// share as they were.
    pub fn apply(
        &mut self,
        mine: &mut Share<L>,
        moment: Second,
        event: Event,
    ) -> Result<Vec<Out>, BookError>
        requires { 0 < mine.old.parts }
        ensures ok { IfOk result (λ outs. Happens
            self.old.current moment (occurrence_of event) outs.items self.new.current) }
        ensures book { OnOk result (self.new ≡ record self.old {
          journal = self.old.journal ++ entry moment event ∷ [];
          current = self.new.current;
          taken = self.old.taken + 1;
        }) }
        ensures share { OnOk result (mine.new.amount ≡ mine.old.amount + 1) }
        ensures parts { mine.new.parts ≡ mine.old.parts }
        ensures refused { BookRefusesByRules self.old moment event result }
        ensures err { OnErr result
            ((self.new ≡ self.old) × (mine.new.amount ≡ mine.old.amount)) }
    {
        if self.is_full() {
            return Err(BookError::Journal);
        }
        let early = self.now().early_refusal(moment, &event);
        if let Some(error) = early {
            return Err(BookError::Core(error));
        }
        match self.attempt(mine, moment, event) {
            Ok(outs) => Ok(outs),
            Err(refused) => Err(refused.error),
        }
    }

    // Whether the journal holds 65,536 events, or 2^63 were taken in all.
    fn is_full(&self) -> bool
        ensures full { result ≡ true → IsFull self.now }
        ensures room { result ≡ false → length self.now.journal < 65536 }
        ensures few { result ≡ false → self.now.taken < 2 ^ 63 }
    {
        self.journal.len() == MAX_JOURNAL || self.taken == MAX_TAKEN
    }

    // As `apply`, if neither the journal nor the clock nor the interface is refused. A refusal
    // gives the event back.
    #[tactic(auto, using(crate::proofs::Early::may_lack_memory, crate::proofs::Noted::not_full))]
    fn attempt(
        &mut self,
        mine: &mut Share<L>,
        moment: Second,
        event: Event,
    ) -> Result<Vec<Out>, Refused>
        requires parts { 0 < mine.old.parts }
        requires room { length self.old.journal < 65536 }
        requires few { self.old.taken < 2 ^ 63 }
        requires early { early_refusal self.old.current moment (occurrence_of event) ≡ None }
        ensures ok { IfOk result (λ outs. Happens
            self.old.current moment (occurrence_of event) outs.items self.new.current) }
        ensures book { OnOk result (self.new ≡ record self.old {
          journal = self.old.journal ++ entry moment event ∷ [];
          current = self.new.current;
          taken = self.old.taken + 1;
        }) }
        ensures share { OnOk result (mine.new.amount ≡ mine.old.amount + 1) }
        ensures parts { mine.new.parts ≡ mine.old.parts }
        ensures refused { BookRefusesByRules self.old moment event (without_event result) }
        ensures back { IfErr result (λ refused. refused.event ≡ event) }
        ensures err { OnErr result
            ((self.new ≡ self.old) × (mine.new.amount ≡ mine.old.amount)) }
    {
        // What needs memory comes before the step, after which nothing may fail.
        if hold(&mut self.start, &self.current).is_err() {
            return Err(Refused::new(BookError::Core(CoreError::Memory), event));
        }
        if self.journal.reserve(1).is_err() {
            return Err(Refused::new(BookError::Core(CoreError::Memory), event));
        }
        match self.current.step(moment, &event) {
            Ok(outs) => {
                self.journal_bytes = with_event(self.journal_bytes, &event);
                self.journal.push_reserved(JournalEntry { moment, event });
                self.total.add(mine, 1);
                self.taken += 1;
                Ok(outs)
            }
            Err(error) => Err(Refused::new(BookError::Core(error), event)),
        }
    }

    /// Forgets the events so far: the book starts from the router as it is now, with an empty
    /// journal. The number of the events that were taken stays.
    ///
    /// It wants no memory, and frees what the router at the start and the journal hold: the router
    /// as it is now is copied when the next event comes.
    ///
    /// # Errors
    /// Never.
    pub fn mark(&mut self) -> Result<(), AllocError>
        ensures ok { IsOk result }
        ensures book { self.new ≡ marked_book self.old }
    {
        self.mark_now();
        Ok(())
    }

    // Does what `mark` promises, for `apply_with_marks` too, which has no error to pass on.
    fn mark_now(&mut self)
        ensures { self.new ≡ marked_book self.old }
    {
        self.journal.clear();
        self.installed = None;
        self.journal_bytes = 0;
        drop_start(&mut self.start);
    }

    // Whether the journal holds 65,536 events, or more bytes than it may beside the router's LSAs.
    fn is_due(&self) -> bool
        ensures due { result ≡ true → IsDue self.now }
        ensures light { result ≡ false → IsDue self.now → ⊥ }
        ensures room { result ≡ false → length self.now.journal < 65536 }
    {
        self.journal.len() == MAX_JOURNAL
            || self.journal_bytes > allowance(self.current.database().len())
    }

    // Marks the book if that is due.
    fn make_room(&mut self)
        ensures book { IsMarkedIfDue self.old self.new }
        ensures room { length self.new.journal < 65536 }
        ensures current { self.new.current ≡ self.old.current }
        ensures taken { self.new.taken ≡ self.old.taken }
    {
        if self.is_due() {
            self.mark_now();
        }
    }

    // If the event that was taken last is an Install, drops the answers of the Install before it.
    fn lighten(&mut self)
        ensures book { self.new ≡ record self.old { journal = self.new.journal } }
        ensures journal { IsLightened self.old.journal self.new.journal }
    {
        let Some(last) = last_install(&self.journal) else {
            return;
        };
        if let Some(place) = replace(&mut self.installed, Some(last)) {
            if place < last {
                forget_answers(&mut self.journal, place);
            }
        }
    }

    /// Takes an event as [`apply`](Book::apply) does, in a book that is marked first if its journal
    /// is full, or if its events hold more bytes than 256 KiB and 256 for each LSA of the router.
    /// So `Journal` is answered only if 2^63 events were taken. If memory is refused, the book is
    /// marked, which gives memory back, and the event is tried once more. Such an event isn't noted:
    /// the book starts from the router behind it, and no copy is made. So is each event while the
    /// lists of the neighbors have more than 65,536 entries, whose copy would take longer than the
    /// events that it is kept for.
    ///
    /// An Install that another one follows stands in the journal without its answers, since no
    /// router after the later one tells them: so the journal holds the answers of one alone.
    ///
    /// A mark stands, whether the event is taken or not: so if it is refused for want of memory,
    /// the book is marked. None is made if 2^63 events were taken, nor if the event is refused for
    /// its moment or its interface.
    ///
    /// # Errors
    /// As [`apply`](Book::apply), but `Journal` only if 2^63 events were taken.
    pub fn apply_with_marks(
        &mut self,
        mine: &mut Share<L>,
        moment: Second,
        event: Event,
    ) -> Result<Vec<Out>, BookError>
        requires { 0 < mine.old.parts }
        ensures ok { IfOk result (λ outs. Happens
            self.old.current moment (occurrence_of event) outs.items self.new.current) }
        ensures noted { OnOk result
            (IsNotedAtLast self.old (entry moment event) self.new ⊎ IsUnnoted self.new) }
        ensures taken { OnOk result (self.new.taken ≡ self.old.taken + 1) }
        ensures share { OnOk result (mine.new.amount ≡ mine.old.amount + 1) }
        ensures parts { mine.new.parts ≡ mine.old.parts }
        ensures refused { BookRefusesWithMarksByRules self.old moment event result }
        ensures early { IsRefusedEarly self.old moment event → self.new ≡ self.old }
        ensures short { result ≡ Err (BookError.Core CoreError.Memory)
            → self.new ≡ marked_book self.old }
        ensures err { OnErr result
            ((IsRefusedEarly self.old moment event ⊎ MayBeMarked self.old self.new)
            × (mine.new.amount ≡ mine.old.amount)) }
    {
        if self.taken() == MAX_TAKEN {
            return Err(BookError::Journal);
        }
        // `ClockBack` and `NoInterface` come before any mark.
        if let Some(error) = self.now().early_refusal(moment, &event) {
            return Err(BookError::Core(error));
        }
        if self.current.has_long_lists() {
            return self.take_unnoted(mine, moment, &event);
        }
        self.make_room();
        let refused = match self.attempt(mine, moment, event) {
            Ok(outs) => {
                self.lighten();
                return Ok(outs);
            }
            Err(refused) => refused,
        };
        if !refused.is_short() {
            return Err(refused.error);
        }
        self.take_unnoted(mine, moment, &refused.event)
    }

    // Marks the book, and takes an event that isn't noted in its journal. It wants no memory but what
    // the router itself wants.
    fn take_unnoted(
        &mut self,
        mine: &mut Share<L>,
        moment: Second,
        event: &Event,
    ) -> Result<Vec<Out>, BookError>
        requires parts { 0 < mine.old.parts }
        requires few { self.old.taken < 2 ^ 63 }
        requires early { early_refusal self.old.current moment (occurrence_of event.now) ≡ None }
        ensures ok { IfOk result (λ outs. Happens
            self.old.current moment (occurrence_of event.now) outs.items self.new.current) }
        ensures unnoted { OnOk result (IsUnnoted self.new) }
        ensures taken { OnOk result (self.new.taken ≡ self.old.taken + 1) }
        ensures share { OnOk result (mine.new.amount ≡ mine.old.amount + 1) }
        ensures parts { mine.new.parts ≡ mine.old.parts }
        ensures refused { BookRefusesWithMarksByRules self.old moment event.now result }
        ensures err { OnErr result
            ((self.new ≡ marked_book self.old) × (mine.new.amount ≡ mine.old.amount)) }
    {
        self.mark_now();
        drop_start(&mut self.start);
        let outs = self.current.step(moment, event)?;
        self.total.add(mine, 1);
        self.taken += 1;
        Ok(outs)
    }

    /// For the prover alone: tells it that the book has taken at least as many events as the share
    /// counts, and just as many if the share has every part of the ledger. It changes nothing.
    pub fn audit(&mut self, share: &mut Share<L>)
        ensures least { share.old.amount ≤ self.old.taken }
        ensures sum { share.old.parts ≡ L.parts → self.old.taken ≡ share.old.amount }
        ensures book { self.new ≡ self.old }
        ensures share { (share.new.amount ≡ share.old.amount)
            × (share.new.parts ≡ share.old.parts) }
    {
        self.total.audit(share);
    }

    /// Whether some candidate of the router as it is now stands in none of the answers of its last
    /// `Install`, as [`Core::stale`] does. What clauses see of the book stays.
    ///
    /// # Errors
    /// `AllocError` if an allocation is refused.
    pub fn is_stale(&mut self) -> Result<bool, AllocError>
        ensures stale { IfOk result (λ b. IsTrue b ↔ IsStaleNow self.old.current) }
        ensures book { self.new ≡ self.old }
    {
        self.current.stale()
    }

    /// The router at the last mark, or the one that the book began with if there was none.
    pub fn start(&self) -> &Core
        ensures { result.now ≡ self.now.start }
    {
        match &self.start {
            Some(start) => start,
            None => &self.current,
        }
    }

    /// The router as it is now. The events that were taken lead there from the one that the book
    /// began with.
    pub fn now(&self) -> &Core
        ensures router { result.now ≡ self.now.current }
        ensures leads { IsAfterEvents L.origin self.now.taken self.now.current }
    {
        &self.current
    }

    /// The events since the start, the oldest first. Replayed from there they give the router as it
    /// is now.
    pub fn journal(&self) -> &[JournalEntry]
        ensures journal { result.now ≡ self.now.journal }
        ensures replays { Replays self.now.start self.now.journal self.now.current }
        ensures room { length self.now.journal ≤ 65536 }
    {
        &self.journal
    }

    /// How many events were taken in all, those before the last mark too.
    pub fn taken(&self) -> u64
        ensures taken { result ≡ self.now.taken }
        ensures few { self.now.taken ≤ 2 ^ 63 }
    {
        self.taken
    }

    /// Drops the book, and returns how many events it took in all. It is called in place of a plain
    /// drop: a crate that drops a book itself would have to prove the drop of each part of a router
    /// again.
    pub fn close(self) -> u64
        ensures { result ≡ self.taken }
    {
        let Book {
            alloc: _,
            start,
            current,
            journal: _,
            journal_bytes: _,
            installed: _,
            taken,
            total: _,
        } = self;
        if let Some(start) = start {
            start.close();
        }
        current.close();
        taken
    }
}
