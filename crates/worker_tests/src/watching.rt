//! What a gate sees of the turn that passes it.
use crate::samples::{COUNTING, hello};
use crate::side_by_side::number_of;
use crate::stage::{Deed, Stage};
use std::alloc::Global;
use std::sync::Wait;
use words::Second;
use worker::{Gate, Hub, Port, Site, Taker, Work, turn};

// Notes one more than what stands in counter 5 whenever a turn passes: each time it multiplies what
// it noted before by 10, and adds that.
struct Noting<'a, L: Site, B: Taker<L>> {
    hub: &'a Hub<L, B>,
    port: &'a mut Port<L>,
    noted: u64,
}

impl<'a, L: Site, B: Taker<L>> Gate for Noting<'a, L, B> {
    fn pass(&mut self, _port: u16) {
        let counted = self.hub.counter(self.port, 5);
        self.noted = self
            .noted
            .wrapping_mul(10)
            .wrapping_add(counted)
            .wrapping_add(1);
    }
}

// What a turn of the one port is answered, which the other sees pass: 9 if it didn't pass the gate
// exactly once, after the datagram was counted.
fn note_turn<L: Site, B: Taker<L>, R: Wait>(
    rt: &R,
    hub: &Hub<L, B>,
    hears: &mut Port<L>,
    looks: &mut Port<L>,
    work: &Work,
) -> u8 {
    let mut gate = Noting {
        hub,
        port: looks,
        noted: 0,
    };
    let answer = number_of(turn(rt, hub, hears, &mut gate, Second::new(5), work));
    let Noting {
        hub: _,
        port: _port,
        noted,
    } = gate;
    if noted == 4 { answer } else { 9 }
}

// Plays the turn of port 1 while port 0 looks on at the gate.
fn watch_turn<L: Site, B: Taker<L>, R: Wait>(
    rt: &R,
    hub: &Hub<L, B>,
    ports: &mut [Port<L>],
    work: &Work,
) -> u8 {
    let Some((looks, others)) = ports.split_last_mut() else {
        return 9;
    };
    match others.last_mut() {
        Some(hears) => note_turn(rt, hub, hears, looks, work),
        None => 9,
    }
}

/// Port 1 hears a datagram, which a program counts by 3 at counter 5. What the turn is answered: 9
/// if it didn't pass the gate exactly once, after the datagram was counted. Port 0 looks.
pub fn watch<L: Site, B: Taker<L>, R: Wait, Q: Wait + Drop>(
    rt: &R,
    alloc: Global,
    hub: &Hub<L, B>,
    stage: &mut Stage<L, Q>,
) -> u8 {
    let _is_attached = stage.change(alloc, Deed::Attach(COUNTING));
    match hello(alloc, 1, 0) {
        Ok(work) => watch_turn(rt, hub, &mut stage.ports, &work),
        Err(_) => 6,
    }
}
