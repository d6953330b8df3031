//! Where port 0 sends.
ghost use Rattle.std.specs.Prelude.{◌≡◌, ◌≤◌, IfErr, OnErr, OnOk};
ghost use Rattle.turns.specs.Askers.{IsLater, asker_state};
ghost use Rattle.worker.specs.Lives.{IsSent, senses_of, standing};
ghost use Rattle.operator.specs.Answers.{IsDone, IsRefusedOnce, IsServed};

use std::sync::Wait;
use worker::{
    Hub, Open, Port, Seconds, Site, Taker, Transport, TurnError, TurnOutcome, Work, send_all,
    turn_with_retries,
};

/// The transport and the clock of port 0.
#[derive(Drop)]
pub struct Outlet<K: Transport + Drop, C: Seconds + Drop> {
    pub transport: K,
    pub clock: C,
}

// Sends the outs of a turn. If the transport fails, it counts that, and the console goes on: what
// is sent afterwards is lost, and only the program's exit status tells it.
#[tactic(auto, using(crate::proofs::Done::sent, crate::proofs::Served::never_fewer))]
fn send<K: Transport>(transport: &mut K, turned: &TurnOutcome)
    ensures sent { K.faults transport.new ≡ K.faults transport.old
        → IsSent K.gives transport.old turned.now transport.new }
    ensures faults { K.faults transport.old ≤ K.faults transport.new }
{
    let _failed = send_all(transport, turned).is_err();
}

impl<K: Transport + Drop, C: Seconds + Drop> Outlet<K, C> {
    /// Takes a turn at port 0 with this work, at the moment that the clock shows, and sends what
    /// comes of it. The router takes this event, and nothing else but the refresh that may follow
    /// it. If the transport fails, it counts that, and the console goes on.
    ///
    /// # Errors
    /// Why the turn was refused, as [`turn`](worker::turn) says: the router then took nothing.
    #[tactic(auto, using(crate::proofs::Done::refused))]
    pub fn take<L: Site, B: Taker<L>, R: Wait>(
        &mut self,
        rt: &R,
        hub: &Hub<L, B>,
        port: &mut Port<L>,
        work: &Work,
    ) -> Result<(), TurnError>
        ensures taken { OnOk result (IsDone B.offers B.took B.refuses
            (asker_state port.old.asker port.old.seat)
            (asker_state port.new.asker port.new.seat)
            work.now port.old.share.amount port.new.share.amount) }
        ensures refused { IfErr result (λ error.
            IsRefusedOnce B.offers B.refuses (asker_state port.old.asker port.old.seat)
            (asker_state port.new.asker port.new.seat)
            port.old.share.amount work.now error) }
        ensures err { OnErr result (port.new.share.amount ≡ port.old.share.amount) }
        ensures later { IsLater (asker_state port.old.asker port.old.seat)
            (asker_state port.new.asker port.new.seat) }
        ensures number { port.new.number ≡ port.old.number }
        ensures faults { K.faults self.old.transport ≤ K.faults self.new.transport }
        ensures served { K.faults self.new.transport ≡ K.faults self.old.transport → IsServed
            (senses_of K.gives K.hears C.shows B.offers B.took B.refuses port.old.number) work.now
            (standing self.old.transport self.old.clock
            (asker_state port.old.asker port.old.seat) port.old.share.amount)
            (standing self.new.transport self.new.clock
            (asker_state port.new.asker port.new.seat) port.new.share.amount) }
    {
        let mut moment = self.clock.second();
        let turned = turn_with_retries(
            rt,
            hub,
            port,
            &mut Open {},
            &mut self.clock,
            &mut moment,
            work,
        )?;
        send(&mut self.transport, &turned);
        Ok(())
    }
}
