//! The book under its lock.
ghost use Rattle.std.specs.Prelude.{◌≡◌, ◌+◌, ◌<◌, ◌≤◌, ◌⊎◌, List, Err, None};
ghost use Rattle.std.specs.Prelude.{IfErr, IfOk, OnOk, OnErr};
ghost use mathlib.Core.List.{IsPrefix};
ghost use Rattle.words.specs.declared.route.TableRow.{TableRow};
ghost use Rattle.maps.specs.Access.{floor};
ghost use Rattle.maps.specs.Words.{seat_after};
ghost use Rattle.maps.specs.declared.access.Access.TheVariants.{Read};
ghost use Rattle.hooks.specs.Known.{known_to, told_by};
ghost use Rattle.turns.specs.Turns.{
  AreNeighbors,
  IsAtTheEndOfTheClock,
  IsChangedSince,
  IsInstalling,
  IsLacking,
  IsListed,
  IsRefused,
  IsTaken,
  IsChangeCounted,
  Lack,
  IsNumberOfChanges,
};

use crate::port::Port;
use crate::site::Site;
use crate::taker::{TakeOutcome, Taker};
use crate::turned::TurnError;
use flood::{Book, BookError, CoreError, Event, NeighborState, Offered};
use hooks::Notice;
use keyed_map::Pages;
use maps::Shared;
use std::alloc::{AllocError, Global};
use std::marker::PhantomData;
use std::sync::atomic::AtomicU64;
use std::sync::ledger::Share;
use std::sync::{Mutex, Wait};
use words::{Prefix, Route, RouterId, Second};

/// The router's book, at which workers take turns, and the counters and cells of their programs.
#[derive(Drop)]
pub struct Hub<L: Site, B: Taker<L>> {
    book: Mutex<B>,
    of: PhantomData<L>,
    // how often the programs were changed
    pub(crate) changes: AtomicU64,
    pub(crate) shared: Shared,
    pub ghost words: { shared ≡ L.words },
}

// The neighbors at the interfaces from 1 to this number.
fn neighbors_of<L: Site, B: Taker<L>>(
    alloc: Global,
    book: &B,
    interfaces: u16,
) -> Result<Vec<Option<(RouterId, NeighborState)>>, AllocError>
    ensures neighbors { IfOk result (λ all.
        AreNeighbors (B.neighbor_at book.now) interfaces all.items) }
    ensures own { 0 < interfaces → IfOk result (λ _. B.began book.now) }
{
    let mut neighbors = Vec::new(alloc);
    for interface in 0..interfaces {
        neighbors.push(book.neighbor(interface + 1))?;
    }
    Ok(neighbors)
}

impl<L: Site, B: Taker<L>> Hub<L, B> {
    /// A hub with this book, and these counters and cells.
    pub fn new(book: B, shared: Shared) -> Hub<L, B>
        requires { shared ≡ L.words }
    {
        Hub {
            book: Mutex::new(book),
            of: PhantomData,
            changes: AtomicU64::new(0),
            shared,
        }
    }

    /// The book, and the counters and cells, once the workers are done.
    pub fn into_parts(self) -> (B, Shared)
        ensures { result.1 ≡ L.words }
    {
        let Hub {
            book,
            of: _,
            changes: _,
            shared,
        } = self;
        (book.into_inner(), shared)
    }

    /// The number in one of the 256 counters that the programs share, as the port's seat reads it:
    /// at least what the seat's programs have read there and added since.
    pub fn counter(&self, port: &mut Port<L>, index: usize) -> u64
        requires { index < 256 }
        ensures read { port.new.seat ≡ seat_after port.old.seat (Read index result) }
        ensures floor { floor index port.old.seat.accesses ≤ result }
        ensures share { port.new.share ≡ port.old.share }
        ensures number { port.new.number ≡ port.old.number }
        ensures known { known_to port.new.asker ≡ known_to port.old.asker }
    {
        self.shared.read(&mut port.seat, index)
    }

    /// Counts a change of the programs, which are now those of the notice. The caller refreshes the
    /// table next. The refresh that follows a turn which began before is refused from now on: it
    /// may bring answers of an earlier program, which would replace those of the caller's. A turn
    /// for [`Work::Refresh`](crate::Work::Refresh) isn't.
    pub fn count_program_change(&self, notice: &Notice)
        ensures { IsChangeCounted B.took (told_by notice.now) }
    {
        B::count_change(&self.changes, notice);
    }

    /// Takes an event under the lock.
    pub(crate) fn take<R: Wait>(
        &self,
        rt: &R,
        mine: &mut Share<L>,
        moment: Second,
        event: Event,
    ) -> Result<TakeOutcome, BookError>
        requires { 0 < mine.old.parts }
        ensures ok { IfOk result (λ r.
            IsTaken B.took mine.old.amount moment event r.outs.items r.stale) }
        ensures unknown { IfOk result (λ r.
            r.stale ≡ None → IsLacking B.refuses Lack.Memory) }
        ensures refused { IfErr result (λ error.
            IsRefused B.refuses mine.old.amount moment event error) }
        ensures share { OnOk result (mine.new.amount ≡ mine.old.amount + 1) }
        ensures parts { mine.new.parts ≡ mine.old.parts }
        ensures err { OnErr result (mine.new.amount ≡ mine.old.amount) }
        ensures clock { IsInstalling event
            → result ≡ Err (BookError.Core CoreError.ClockBack)
            → IsAtTheEndOfTheClock B.began B.moment_of moment }
    {
        let mut guard = self.book.lock(rt);
        let book: &mut B = &mut *guard;
        book.take(mine, moment, event)
    }

    /// As `take`, but `Away` if the number of changes of the programs is no longer `changes`.
    pub(crate) fn take_unless_changed<R: Wait>(
        &self,
        rt: &R,
        mine: &mut Share<L>,
        moment: Second,
        event: Event,
        changes: u64,
    ) -> Result<TakeOutcome, TurnError>
        requires { 0 < mine.old.parts }
        ensures ok { IfOk result (λ r.
            IsTaken B.took mine.old.amount moment event r.outs.items r.stale) }
        ensures refused { IfErr result (λ error.
            ((error ≡ TurnError.Away) × IsChangedSince B.took mine.old.amount changes)
            ⊎ ((why : BookError) × IsRefused B.refuses mine.old.amount moment event why
            × (error ≡ TurnError.Book why))) }
        ensures unchanged { OnOk result (IsNumberOfChanges B.took mine.old.amount changes) }
        ensures share { OnOk result (mine.new.amount ≡ mine.old.amount + 1) }
        ensures parts { mine.new.parts ≡ mine.old.parts }
        ensures err { OnErr result (mine.new.amount ≡ mine.old.amount) }
    {
        let mut guard = self.book.lock(rt);
        if B::changes(&self.changes, mine) != changes {
            return Err(TurnError::Away);
        }
        let book: &mut B = &mut *guard;
        let taken = book.take(mine, moment, event)?;
        Ok(taken)
    }

    /// The candidates for the routing table now, and the table's rows now, both of one moment under
    /// the lock. Candidates that aren't kept are calculated under the lock. It may wait for the
    /// lock.
    ///
    /// # Errors
    /// `AllocError` if an allocation is refused.
    pub fn offered<R: Wait>(&self, rt: &R) -> Result<Offered, AllocError>
        ensures offered { IfOk result (λ o. B.offers o.candidates.items o.rows.items) }
        ensures short { OnErr result (IsLacking B.refuses Lack.Memory) }
    {
        let guard = self.book.lock(rt);
        let book: &B = &*guard;
        book.offered()
    }

    /// The candidates for the routing table now, for a caller that needs no rows: less work than
    /// `offered`.
    ///
    /// A refresh that then finds a program at `veto` drops them and calls `offered`: the programs
    /// judge candidates beside the rows of the same moment, and meanwhile the lock was released, so
    /// those that are judged may be others.
    pub(crate) fn candidates<R: Wait>(&self, rt: &R) -> Result<Pages<Route>, AllocError>
        ensures offered { IfOk result (λ c. (rows : List TableRow) × B.offers c rows) }
        ensures short { OnErr result (IsLacking B.refuses Lack.Memory) }
    {
        let guard = self.book.lock(rt);
        let book: &B = &*guard;
        book.candidates()
    }

    /// The neighbor at the interface of this number, from 1 on, and its state; `None` if it is Down
    /// or there is no such interface.
    pub fn neighbor<R: Wait>(&self, rt: &R, interface: u16) -> Option<(RouterId, NeighborState)>
        ensures { (book : B) × B.began book × (result ≡ B.neighbor_at book interface) }
    {
        let guard = self.book.lock(rt);
        let book: &B = &*guard;
        book.neighbor(interface)
    }

    /// The neighbors at the interfaces from 1 to `interfaces`, interface n at index n - 1, of one
    /// moment under the lock: each as [`neighbor`](Hub::neighbor) gives it, so `None` beyond the
    /// last interface. A router has at most 63. It may wait for the lock.
    ///
    /// # Errors
    /// `AllocError` if an allocation is refused.
    pub fn neighbors<R: Wait>(
        &self,
        rt: &R,
        alloc: Global,
        interfaces: u16,
    ) -> Result<Vec<Option<(RouterId, NeighborState)>>, AllocError>
        ensures { IfOk result (λ all.
            IsListed B.began B.neighbor_at interfaces all.items) }
    {
        let guard = self.book.lock(rt);
        let book: &B = &*guard;
        neighbors_of::<L, B>(alloc, book, interfaces)
    }

    /// Whether this destination is announced, or will be as soon as its LSA may be originated,
    /// after the port's events so far.
    pub fn wants<R: Wait>(&self, rt: &R, port: &mut Port<L>, prefix: Prefix) -> bool
        ensures wanted { B.wanted port.old.share.amount prefix result }
        ensures share { port.new.share.amount ≡ port.old.share.amount }
        ensures seat { port.new.seat ≡ port.old.seat }
        ensures number { port.new.number ≡ port.old.number }
        ensures known { known_to port.new.asker ≡ known_to port.old.asker }
    {
        let mut guard = self.book.lock(rt);
        let book: &mut B = &mut *guard;
        book.wants(&mut port.share, prefix)
    }
}

impl<L: Site> Hub<L, Book<L>> {
    /// How many events the book has taken. It requires the merged share of all workers, which
    /// proves that they took just as many.
    pub fn taken<R: Wait>(&self, rt: &R, all: &mut Share<L>) -> u64
        requires { all.old.parts ≡ L.parts }
        ensures taken { result ≡ all.old.amount }
        ensures share { (all.new.amount ≡ all.old.amount) × (all.new.parts ≡ all.old.parts) }
    {
        let mut guard = self.book.lock(rt);
        let book = &mut *guard;
        book.audit(all);
        book.taken()
    }
}
