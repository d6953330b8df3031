//! Lines in, answers out, at port 0.
ghost use Rattle.std.specs.Prelude.{◌≡◌, ℕ, Bool};
ghost use Rattle.hooks.specs.Known.{loader_history, operations_of};
ghost use Rattle.turns.specs.Askers.{AskerState, IsLater, asker_state};
ghost use Rattle.worker.specs.Lives.{senses_of, standing};
ghost use Rattle.turns.specs.Turns.{IsListed};
ghost use Rattle.turns.specs.declared.work.Work.TheVariants as work;
ghost use Rattle.operator.specs.Answers.{
  IsAnswerToAdd,
  IsAnswerToAttach,
  IsAnswerToDetach,
  IsAnswerToWithdraw,
  IsAnyFile,
  IsAnyPath,
  IsCarriedOut,
  IsFollowed,
  IsMadeUp,
  IsObeyed,
  IsPublished,
  IsRefreshed,
  IsServed,
  change,
  sources,
};
ghost use Rattle.operator.specs.Served.{
  AreServed,
  IsCommandServed,
  IsLineServed,
  IsServedThen,
  IsTurnServed,
  IsUnlessFault,
  turn_after,
  turn_due,
};

use crate::lists::{counters, lines, neighbors, table};
use crate::outlet::Outlet;
use crate::programs::{ReadsFiles, SystemFiles, read_program, reason};
use crate::reply::Reply;
use console::{Command, read_command};
use hooks::Loader;
use isa::Hook;
use std::alloc::Global;
use std::marker::PhantomData;
use std::rt::Files;
use std::sync::Wait;
use verifier::Accepted;
use words::{External, Prefix};
use worker::{Hub, Port, Seconds, Site, Taker, Transport, Work};

/// What the console works with: the loader of the programs, and where port 0 sends.
#[derive(Drop)]
pub struct Desk<L: Site, Q: Wait + Drop, K: Transport + Drop, C: Seconds + Drop> {
    pub alloc: Global,
    pub loader: Loader<Q>,
    pub interfaces: u16,
    pub outlet: Outlet<K, C>,
    /// Whether the refresh after the last change of the programs was refused, so that it has to be
    /// tried again.
    pub unrefreshed: bool,
    pub of: PhantomData<L>,
    pub ghost loaded: { loader_history loader ≡ L.history },
}

// Announces a destination, unless the answer of `price` withholds it.
fn add<L: Site, B: Taker<L>, R: Wait, K: Transport + Drop, C: Seconds + Drop>(
    rt: &R,
    hub: &Hub<L, B>,
    port: &mut Port<L>,
    outlet: &mut Outlet<K, C>,
    external: External,
) -> Reply
    ensures told { IsAnswerToAdd B.offers B.took B.refuses B.wanted
        (asker_state port.old.asker port.old.seat)
        (asker_state port.new.asker port.new.seat) external
        port.old.share.amount port.new.share.amount result }
    ensures served { IsUnlessFault K.faults (IsServed
        (senses_of K.gives K.hears C.shows B.offers B.took B.refuses port.old.number)
        (work.Add external))
        (standing outlet.old.transport outlet.old.clock
        (asker_state port.old.asker port.old.seat) port.old.share.amount)
        (standing outlet.new.transport outlet.new.clock
        (asker_state port.new.asker port.new.seat) port.new.share.amount) }
{
    let prefix = external.prefix;
    match outlet.take(rt, hub, port, &Work::Add(external)) {
        Ok(()) => {
            if hub.wants(rt, port, prefix) {
                Reply::Originated
            } else {
                Reply::Withheld
            }
        }
        Err(error) => Reply::refused(error),
    }
}

// Withdraws a destination.
fn withdraw<L: Site, B: Taker<L>, R: Wait, K: Transport + Drop, C: Seconds + Drop>(
    rt: &R,
    hub: &Hub<L, B>,
    port: &mut Port<L>,
    outlet: &mut Outlet<K, C>,
    prefix: Prefix,
) -> Reply
    ensures told { IsAnswerToWithdraw B.offers B.took B.refuses
        (asker_state port.old.asker port.old.seat) (asker_state port.new.asker port.new.seat) prefix
        port.old.share.amount port.new.share.amount result }
    ensures served { IsUnlessFault K.faults (IsServed
        (senses_of K.gives K.hears C.shows B.offers B.took B.refuses port.old.number)
        (work.Withdraw prefix))
        (standing outlet.old.transport outlet.old.clock
        (asker_state port.old.asker port.old.seat) port.old.share.amount)
        (standing outlet.new.transport outlet.new.clock
        (asker_state port.new.asker port.new.seat) port.new.share.amount) }
{
    match outlet.take(rt, hub, port, &Work::Withdraw(prefix)) {
        Ok(()) => Reply::Withdrawn,
        Err(error) => Reply::refused(error),
    }
}

impl<L: Site, Q: Wait + Drop, K: Transport + Drop, C: Seconds + Drop> Desk<L, Q, K, C> {
    // Refreshes the table. If that is refused, it is tried again before the next line.
    #[tactic(auto, using(crate::proofs::Done::refreshed))]
    fn refresh<B: Taker<L>, R: Wait>(&mut self, rt: &R, hub: &Hub<L, B>, port: &mut Port<L>)
        ensures done { IsRefreshed B.offers B.took B.refuses
            (asker_state port.old.asker port.old.seat) (asker_state port.new.asker port.new.seat)
            self.new.unrefreshed port.old.share.amount port.new.share.amount }
        ensures later { IsLater (asker_state port.old.asker port.old.seat)
            (asker_state port.new.asker port.new.seat) }
        ensures number { port.new.number ≡ port.old.number }
        ensures served { IsUnlessFault K.faults (IsServed
            (senses_of K.gives K.hears C.shows B.offers B.took B.refuses port.old.number)
            work.Refresh)
            (standing self.old.outlet.transport self.old.outlet.clock
            (asker_state port.old.asker port.old.seat) port.old.share.amount)
            (standing self.new.outlet.transport self.new.outlet.clock
            (asker_state port.new.asker port.new.seat) port.new.share.amount) }
        ensures loader { self.new.loader ≡ self.old.loader }
        ensures interfaces { self.new.interfaces ≡ self.old.interfaces }
    {
        self.unrefreshed = self.outlet.take(rt, hub, port, &Work::Refresh).is_err();
    }

    // Called after the programs were changed. It tells the workers, so that no turn that they began
    // before is followed by a refresh; then the port, which refreshes the table by programs that
    // are no older.
    fn follow<B: Taker<L>, R: Wait>(&mut self, rt: &R, hub: &Hub<L, B>, port: &mut Port<L>)
        ensures followed { IsFollowed B.offers B.took B.refuses
            (operations_of self.old.loader) (asker_state port.old.asker port.old.seat)
            (asker_state port.new.asker port.new.seat) self.new.unrefreshed
            port.old.share.amount port.new.share.amount }
        ensures served { IsUnlessFault K.faults (IsServedThen
            (senses_of K.gives K.hears C.shows B.offers B.took B.refuses port.old.number)
            work.Refresh)
            (standing self.old.outlet.transport self.old.outlet.clock
            (asker_state port.old.asker port.old.seat) port.old.share.amount)
            (standing self.new.outlet.transport self.new.outlet.clock
            (asker_state port.new.asker port.new.seat) port.new.share.amount) }
        ensures loader { self.new.loader ≡ self.old.loader }
        ensures interfaces { self.new.interfaces ≡ self.old.interfaces }
    {
        let notice = self.loader.notice();
        hub.count_program_change(&notice);
        port.learn(notice);
        self.refresh(rt, hub, port);
    }

    // Publishes a program at its hook, and refreshes the table, since the answers of `veto` may
    // have changed. `Attached` is answered even if the refresh is refused: the table then stays as
    // it was until a later line of the console, or an event, brings one that is taken.
    fn publish<B: Taker<L>, R: Wait>(
        &mut self,
        rt: &R,
        hub: &Hub<L, B>,
        port: &mut Port<L>,
        program: Accepted,
    ) -> Reply
        ensures told { IsPublished B.offers B.took B.refuses
            (change (operations_of self.old.loader) (operations_of self.new.loader)
            (asker_state port.old.asker port.old.seat) (asker_state port.new.asker port.new.seat)
            self.old.unrefreshed self.new.unrefreshed
            port.old.share.amount port.new.share.amount)
            program result }
        ensures served { IsUnlessFault K.faults (IsTurnServed
            (senses_of K.gives K.hears C.shows B.offers B.took B.refuses port.old.number)
            (turn_after result))
            (standing self.old.outlet.transport self.old.outlet.clock
            (asker_state port.old.asker port.old.seat) port.old.share.amount)
            (standing self.new.outlet.transport self.new.outlet.clock
            (asker_state port.new.asker port.new.seat) port.new.share.amount) }
        ensures interfaces { self.new.interfaces ≡ self.old.interfaces }
    {
        let hook = program.hook();
        let bound = program.bound();
        if self.loader.attach(program).is_err() {
            return Reply::Memory;
        }
        self.follow(rt, hub, port);
        Reply::Attached(hook, bound)
    }

    fn attach<B: Taker<L>, R: Wait, F: ReadsFiles>(
        &mut self,
        rt: &R,
        files: &F,
        hub: &Hub<L, B>,
        port: &mut Port<L>,
        path: &str,
    ) -> Reply
        ensures told { IsAnswerToAttach
            (sources B.offers B.took B.refuses B.wanted (IsListed B.began B.neighbor_at)
            F.holds F.unreadable)
            (change (operations_of self.old.loader) (operations_of self.new.loader)
            (asker_state port.old.asker port.old.seat) (asker_state port.new.asker port.new.seat)
            self.old.unrefreshed self.new.unrefreshed
            port.old.share.amount port.new.share.amount)
            path.now result }
        ensures served { IsUnlessFault K.faults (IsTurnServed
            (senses_of K.gives K.hears C.shows B.offers B.took B.refuses port.old.number)
            (turn_after result))
            (standing self.old.outlet.transport self.old.outlet.clock
            (asker_state port.old.asker port.old.seat) port.old.share.amount)
            (standing self.new.outlet.transport self.new.outlet.clock
            (asker_state port.new.asker port.new.seat) port.new.share.amount) }
        ensures interfaces { self.new.interfaces ≡ self.old.interfaces }
    {
        match read_program(self.alloc, files, path) {
            Ok(program) => self.publish(rt, hub, port, program),
            Err(error) => lines(reason(self.alloc, path, error)),
        }
    }

    fn detach<B: Taker<L>, R: Wait>(
        &mut self,
        rt: &R,
        hub: &Hub<L, B>,
        port: &mut Port<L>,
        hook: Hook,
    ) -> Reply
        ensures told { IsAnswerToDetach B.offers B.took B.refuses
            (change (operations_of self.old.loader) (operations_of self.new.loader)
            (asker_state port.old.asker port.old.seat) (asker_state port.new.asker port.new.seat)
            self.old.unrefreshed self.new.unrefreshed
            port.old.share.amount port.new.share.amount)
            hook result }
        ensures served { IsUnlessFault K.faults (IsTurnServed
            (senses_of K.gives K.hears C.shows B.offers B.took B.refuses port.old.number)
            (turn_after result))
            (standing self.old.outlet.transport self.old.outlet.clock
            (asker_state port.old.asker port.old.seat) port.old.share.amount)
            (standing self.new.outlet.transport self.new.outlet.clock
            (asker_state port.new.asker port.new.seat) port.new.share.amount) }
        ensures interfaces { self.new.interfaces ≡ self.old.interfaces }
    {
        if self.loader.detach(hook).is_err() {
            return Reply::Memory;
        }
        self.follow(rt, hub, port);
        Reply::Detached(hook)
    }

    // Carries out a command. `None` if it ends the console.
    fn carry_out<B: Taker<L>, R: Wait, F: ReadsFiles>(
        &mut self,
        rt: &R,
        files: &F,
        hub: &Hub<L, B>,
        port: &mut Port<L>,
        command: &Command<'_>,
    ) -> Option<Reply>
        ensures told { IsCarriedOut
            (sources B.offers B.took B.refuses B.wanted (IsListed B.began B.neighbor_at)
            F.holds F.unreadable)
            self.old.interfaces
            (change (operations_of self.old.loader) (operations_of self.new.loader)
            (asker_state port.old.asker port.old.seat) (asker_state port.new.asker port.new.seat)
            self.old.unrefreshed self.new.unrefreshed
            port.old.share.amount port.new.share.amount)
            command.now result }
        ensures served { IsUnlessFault K.faults (IsCommandServed
            (senses_of K.gives K.hears C.shows B.offers B.took B.refuses port.old.number)
            command.now result)
            (standing self.old.outlet.transport self.old.outlet.clock
            (asker_state port.old.asker port.old.seat) port.old.share.amount)
            (standing self.new.outlet.transport self.new.outlet.clock
            (asker_state port.new.asker port.new.seat) port.new.share.amount) }
        ensures interfaces { self.new.interfaces ≡ self.old.interfaces }
    {
        Some(match command {
            Command::Attach(path) => self.attach(rt, files, hub, port, path),
            Command::Detach(hook) => self.detach(rt, hub, port, *hook),
            Command::Add(external) => add(rt, hub, port, &mut self.outlet, *external),
            Command::Withdraw(prefix) => withdraw(rt, hub, port, &mut self.outlet, *prefix),
            Command::Table => lines(table(rt, self.alloc, hub)),
            Command::Neighbors => lines(neighbors(rt, self.alloc, hub, self.interfaces)),
            Command::Counters => lines(counters(self.alloc, hub, port)),
            Command::Quit => return None,
        })
    }

    // Refreshes the table if an earlier refresh was refused.
    fn make_up<B: Taker<L>, R: Wait>(&mut self, rt: &R, hub: &Hub<L, B>, port: &mut Port<L>)
        ensures made_up { IsMadeUp B.offers B.took B.refuses self.old.unrefreshed
            self.new.unrefreshed (asker_state port.old.asker port.old.seat)
            (asker_state port.new.asker port.new.seat)
            port.old.share.amount port.new.share.amount }
        ensures number { port.new.number ≡ port.old.number }
        ensures served { IsUnlessFault K.faults (IsTurnServed
            (senses_of K.gives K.hears C.shows B.offers B.took B.refuses port.old.number)
            (turn_due self.old.unrefreshed))
            (standing self.old.outlet.transport self.old.outlet.clock
            (asker_state port.old.asker port.old.seat) port.old.share.amount)
            (standing self.new.outlet.transport self.new.outlet.clock
            (asker_state port.new.asker port.new.seat) port.new.share.amount) }
        ensures loader { self.new.loader ≡ self.old.loader }
        ensures interfaces { self.new.interfaces ≡ self.old.interfaces }
    {
        if self.unrefreshed {
            self.refresh(rt, hub, port);
        }
    }

    // Does what the line asks for, after `obey_with` has made up for a refused refresh.
    #[tactic(auto, using(crate::proofs::Answered::obeyed, crate::proofs::Served::line_served))]
    fn answer<B: Taker<L>, R: Wait, F: ReadsFiles>(
        &mut self,
        rt: &R,
        files: &F,
        hub: &Hub<L, B>,
        port: &mut Port<L>,
        line: &str,
    ) -> Option<Reply>
        ensures told { IsObeyed
            (sources B.offers B.took B.refuses B.wanted (IsListed B.began B.neighbor_at)
            F.holds F.unreadable)
            self.old.interfaces
            (change (operations_of self.old.loader) (operations_of self.new.loader)
            (asker_state port.old.asker port.old.seat) (asker_state port.new.asker port.new.seat)
            self.old.unrefreshed self.new.unrefreshed
            port.old.share.amount port.new.share.amount)
            line.now result }
        ensures served { IsUnlessFault K.faults (IsLineServed
            (senses_of K.gives K.hears C.shows B.offers B.took B.refuses port.old.number)
            line.now result)
            (standing self.old.outlet.transport self.old.outlet.clock
            (asker_state port.old.asker port.old.seat) port.old.share.amount)
            (standing self.new.outlet.transport self.new.outlet.clock
            (asker_state port.new.asker port.new.seat) port.new.share.amount) }
        ensures interfaces { self.new.interfaces ≡ self.old.interfaces }
    {
        let read = read_command(self.alloc, line);
        match &read {
            Ok(Some(command)) => self.carry_out(rt, files, hub, port, command),
            Ok(None) => Some(Reply::Unknown),
            Err(_) => Some(Reply::Memory),
        }
    }

    /// Does what a line of the console asks for, and reads program files by `files`. `None` if the
    /// line ends the console.
    ///
    /// If a refresh was refused after the programs had been changed, it is tried again first.
    pub fn obey_with<B: Taker<L>, R: Wait, F: ReadsFiles>(
        &mut self,
        rt: &R,
        files: &F,
        hub: &Hub<L, B>,
        port: &mut Port<L>,
        line: &str,
    ) -> Option<Reply>
        ensures told { (still : Bool) × (between : AskerState) × (counted : ℕ)
            × IsMadeUp B.offers B.took B.refuses self.old.unrefreshed still
            (asker_state port.old.asker port.old.seat) between port.old.share.amount counted
            × IsObeyed
            (sources B.offers B.took B.refuses B.wanted (IsListed B.began B.neighbor_at)
            F.holds F.unreadable)
            self.old.interfaces
            (change (operations_of self.old.loader) (operations_of self.new.loader)
            between (asker_state port.new.asker port.new.seat) still
            self.new.unrefreshed counted port.new.share.amount)
            line.now result }
        ensures served { IsUnlessFault K.faults (AreServed
            (senses_of K.gives K.hears C.shows B.offers B.took B.refuses port.old.number)
            self.old.unrefreshed line.now result)
            (standing self.old.outlet.transport self.old.outlet.clock
            (asker_state port.old.asker port.old.seat) port.old.share.amount)
            (standing self.new.outlet.transport self.new.outlet.clock
            (asker_state port.new.asker port.new.seat) port.new.share.amount) }
        ensures interfaces { self.new.interfaces ≡ self.old.interfaces }
    {
        self.make_up(rt, hub, port);
        self.answer(rt, files, hub, port, line)
    }

    /// Does what a line of the console asks for, as [`obey_with`](Desk::obey_with) does, and reads
    /// program files from the system.
    pub fn obey<B: Taker<L>, R: Wait + Files + AllocGlobal>(
        &mut self,
        rt: &R,
        hub: &Hub<L, B>,
        port: &mut Port<L>,
        line: &str,
    ) -> Option<Reply>
        ensures told { (still : Bool) × (between : AskerState) × (counted : ℕ)
            × IsMadeUp B.offers B.took B.refuses self.old.unrefreshed still
            (asker_state port.old.asker port.old.seat) between port.old.share.amount counted
            × IsObeyed
            (sources B.offers B.took B.refuses B.wanted (IsListed B.began B.neighbor_at)
            IsAnyFile IsAnyPath)
            self.old.interfaces
            (change (operations_of self.old.loader) (operations_of self.new.loader)
            between (asker_state port.new.asker port.new.seat) still
            self.new.unrefreshed counted port.new.share.amount)
            line.now result }
        ensures served { IsUnlessFault K.faults (AreServed
            (senses_of K.gives K.hears C.shows B.offers B.took B.refuses port.old.number)
            self.old.unrefreshed line.now result)
            (standing self.old.outlet.transport self.old.outlet.clock
            (asker_state port.old.asker port.old.seat) port.old.share.amount)
            (standing self.new.outlet.transport self.new.outlet.clock
            (asker_state port.new.asker port.new.seat) port.new.share.amount) }
        ensures interfaces { self.new.interfaces ≡ self.old.interfaces }
    {
        self.obey_with(rt, &SystemFiles { rt }, hub, port, line)
    }
}
