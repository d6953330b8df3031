//! A worker over a transport that plays back what it hears, and may fail.
use crate::samples::HELLO;
use std::alloc::{AllocError, Global};
use std::sync::Wait;
use std::sync::atomic::AtomicBool;
use words::Sequence;
use worker::{Answer, Ended, Hub, Open, Port, Script, Signal, Site, Taker, Times, run};

/// What the calls of a transport are answered.
#[derive(Clone, Copy)]
pub enum Heard {
    /// Of forty calls the one of this number fails, counted from 0: the others send, or receive the
    /// Hello.
    Hellos(usize),
    /// This many calls receive nothing, and send nothing.
    Nothing(usize),
}

fn answer(alloc: Global, heard: Heard, call: usize) -> Result<Answer, AllocError> {
    match heard {
        Heard::Nothing(_) => Ok(Answer::Nothing),
        Heard::Hellos(fails) if call == fails => Ok(Answer::Fault),
        Heard::Hellos(_) => {
            let bytes = Vec::from_slice(alloc, HELLO)?;
            Ok(Answer::Datagram(Sequence::from_vec(bytes)))
        }
    }
}

// An answer for each call. One for which memory is wanting is left out.
fn answers(alloc: Global, heard: Heard) -> Vec<Answer> {
    let count = match heard {
        Heard::Hellos(_) => 40,
        Heard::Nothing(calls) => calls,
    };
    let mut answers = Vec::new(alloc);
    for call in 0..count {
        if let Ok(answer) = answer(alloc, heard, call) {
            let _is_pushed = answers.push(answer).is_ok();
        }
    }
    answers
}

/// A worker runs at this port, whose transport is answered so, by a clock that shows these moments,
/// one a round, and stays at the last one, or at 0 without any: its status, and how many datagrams
/// it sent.
pub fn serve<L: Site, B: Taker<L>, R: Wait>(
    rt: &R,
    alloc: Global,
    hub: &Hub<L, B>,
    port: &mut Port<L>,
    heard: Heard,
    moments: &[u64],
) -> (u8, usize) {
    let quit = AtomicBool::new(false);
    let mut transport = Script::new(answers(alloc, heard), &quit);
    let moments = Vec::from_slice(alloc, moments).unwrap_or(Vec::new(alloc));
    let mut clock = Times::new(moments);
    let mut flag = Signal { quit: &quit };
    let ended = run(
        rt,
        alloc,
        hub,
        port,
        &mut Open {},
        &mut transport,
        &mut clock,
        &mut flag,
    );
    let status = match ended {
        Ended::Quit => 0,
        Ended::Fault => 3,
    };
    (status, transport.sent)
}
