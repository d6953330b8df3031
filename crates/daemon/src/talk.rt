//! The console: lines in, lines out, at port 0.
ghost use Rattle.std.specs.Prelude.{◌≡◌, true, IfErr, OnOk};
ghost use Rattle.hooks.specs.Known.{operations_of};
ghost use Rattle.turns.specs.Askers.{IsLater, asker_state};
ghost use Rattle.turns.specs.Turns.{IsListed};
ghost use Rattle.operator.specs.Answers.{IsAnyFile, IsAnyPath, sources};
ghost use Rattle.operator.specs.Texts.{reply_text};
ghost use Rattle.operator.specs.declared.reply.Reply.{Reply as Answer};
ghost use Rattle.daemon.specs.Talks.{
  Converses,
  HasTalked,
  IsOver,
  IsReplied,
  IsTicked,
  has_input_failed,
  has_output_failed,
  place,
  reply_of,
};
ghost use Rattle.daemon.specs.Texts.{HasFailed};

use crate::lines::{Given, ReadsBytes, next_line};
use crate::texts::WritesTexts;
use operator::{Desk, Outlet, Reply};
use std::rt::Files;
use std::sync::Wait;
use worker::{Hub, Port, Seconds, Site, Taker, Transport, Work};

/// Where an operator's lines come from, what they are carried out with, and where the answers go.
#[derive(Drop)]
pub struct Console<'a, S, I, O> {
    pub rt: &'a S,
    pub input: &'a mut I,
    pub output: &'a mut O,
}

/// How a conversation ends.
#[derive(Clone, Copy)]
pub enum ConsoleEnd {
    /// By `quit`, or at the end of the input.
    Done,
    /// The input can't be read.
    InputFailed,
    /// The output can't be written.
    OutputFailed,
}

/// Evidence that the console's conversation ended, with how it did. Only [`talk`] makes one, so
/// whoever has it has run the console.
#[derive(Clone, Copy)]
pub struct EndedConsole {
    console_end: ConsoleEnd,
}

impl EndedConsole {
    /// The input couldn't be read.
    pub fn has_input_failed(&self) -> bool
        ensures { result ≡ has_input_failed self.now }
    {
        matches!(self.console_end, ConsoleEnd::InputFailed)
    }

    /// The output couldn't be written.
    pub fn has_output_failed(&self) -> bool
        ensures { result ≡ has_output_failed self.now }
    {
        matches!(self.console_end, ConsoleEnd::OutputFailed)
    }
}

// Before the first line: a Tick's turn.
fn tick<L: Site, B: Taker<L>, R: Wait, K: Transport + Drop, C: Seconds + Drop>(
    rt: &R,
    hub: &Hub<L, B>,
    port: &mut Port<L>,
    outlet: &mut Outlet<K, C>,
)
    ensures ticked { IsTicked B.offers B.took B.refuses
        (asker_state port.old.asker port.old.seat)
        (asker_state port.new.asker port.new.seat)
        port.old.share.amount port.new.share.amount }
    ensures later { IsLater (asker_state port.old.asker port.old.seat)
        (asker_state port.new.asker port.new.seat) }
{
    match outlet.take(rt, hub, port, &Work::Tick) {
        Ok(()) => {}
        Err(_) => {}
    }
}

// The console is done if a line has no answer.
fn reply_of(answer: Option<Reply>) -> Result<Reply, ConsoleEnd>
    ensures { result ≡ reply_of answer }
{
    match answer {
        Some(reply) => Ok(reply),
        None => Err(ConsoleEnd::Done),
    }
}

// Reads a line and does what it asks for.
#[tactic(auto, using(crate::proofs::Talked::replied))]
fn answer_next<
    L: Site,
    B: Taker<L>,
    S: Wait + Files + AllocGlobal,
    Q: Wait + Drop,
    K: Transport + Drop,
    C: Seconds + Drop,
    I: ReadsBytes,
    O: WritesTexts,
>(
    hub: &Hub<L, B>,
    port: &mut Port<L>,
    desk: &mut Desk<L, Q, K, C>,
    console: &mut Console<'_, S, I, O>,
) -> Result<Reply, ConsoleEnd>
    ensures replied { IsReplied I.gives I.fails
        (sources B.offers B.took B.refuses B.wanted (IsListed B.began B.neighbor_at)
        IsAnyFile IsAnyPath) desk.old.interfaces
        (place console.old.input.now (operations_of desk.old.loader)
        (asker_state port.old.asker port.old.seat) desk.old.unrefreshed port.old.share.amount)
        result
        (place console.new.input.now (operations_of desk.new.loader)
        (asker_state port.new.asker port.new.seat) desk.new.unrefreshed port.new.share.amount) }
    ensures interfaces { desk.new.interfaces ≡ desk.old.interfaces }
    ensures output { console.new.output.now ≡ console.old.output.now }
{
    match next_line(console.rt, desk.alloc, console.input) {
        Given::Line(line) => reply_of(desk.obey(console.rt, hub, port, line.as_str())),
        Given::Memory => Ok(Reply::Memory),
        Given::End => Err(ConsoleEnd::Done),
        Given::Failed => Err(ConsoleEnd::InputFailed),
    }
}

// Reads a line, does what it asks for, and answers. An error tells how the console ends.
#[tactic(auto, using(crate::proofs::Talked::over_unread, crate::proofs::Talked::over_unprinted))]
fn obey_next<
    L: Site,
    B: Taker<L>,
    S: Wait + Files + AllocGlobal,
    Q: Wait + Drop,
    K: Transport + Drop,
    C: Seconds + Drop,
    I: ReadsBytes,
    O: WritesTexts,
>(
    hub: &Hub<L, B>,
    port: &mut Port<L>,
    desk: &mut Desk<L, Q, K, C>,
    console: &mut Console<'_, S, I, O>,
) -> Result<(), ConsoleEnd>
    ensures answered { OnOk result ((answer : Answer) × IsReplied I.gives I.fails
        (sources B.offers B.took B.refuses B.wanted (IsListed B.began B.neighbor_at)
        IsAnyFile IsAnyPath) desk.old.interfaces
        (place console.old.input.now (operations_of desk.old.loader)
        (asker_state port.old.asker port.old.seat) desk.old.unrefreshed port.old.share.amount)
        (Ok answer)
        (place console.new.input.now (operations_of desk.new.loader)
        (asker_state port.new.asker port.new.seat) desk.new.unrefreshed port.new.share.amount)
        × O.takes console.old.output.now (reply_text answer) console.new.output.now) }
    ensures over { IfErr result (λ console_end. IsOver I.gives I.fails O.fails
        (sources B.offers B.took B.refuses B.wanted (IsListed B.began B.neighbor_at)
        IsAnyFile IsAnyPath) desk.old.interfaces
        (place console.old.input.now (operations_of desk.old.loader)
        (asker_state port.old.asker port.old.seat) desk.old.unrefreshed port.old.share.amount)
        console.old.output.now console_end
        (place console.new.input.now (operations_of desk.new.loader)
        (asker_state port.new.asker port.new.seat) desk.new.unrefreshed port.new.share.amount)
        console.new.output.now) }
    ensures interfaces { desk.new.interfaces ≡ desk.old.interfaces }
{
    match answer_next(hub, port, desk, console) {
        Ok(reply) => match console.output.write_text(&reply) {
            Ok(()) => Ok(()),
            Err(_) => Err(ConsoleEnd::OutputFailed),
        },
        Err(console_end) => Err(console_end),
    }
}

// Line by line, until the console ends.
#[tactic(auto, using(crate::proofs::Talked::not_talked))]
fn answer_all<
    L: Site,
    B: Taker<L>,
    S: Wait + Files + AllocGlobal,
    Q: Wait + Drop,
    K: Transport + Drop,
    C: Seconds + Drop,
    I: ReadsBytes,
    O: WritesTexts,
>(
    hub: &Hub<L, B>,
    port: &mut Port<L>,
    desk: &mut Desk<L, Q, K, C>,
    console: &mut Console<'_, S, I, O>,
) -> ConsoleEnd
    ensures { HasTalked I.gives I.fails O.takes O.fails
        (sources B.offers B.took B.refuses B.wanted (IsListed B.began B.neighbor_at)
        IsAnyFile IsAnyPath) desk.old.interfaces
        (place console.old.input.now (operations_of desk.old.loader)
        (asker_state port.old.asker port.old.seat) desk.old.unrefreshed port.old.share.amount)
        console.old.output.now result
        (place console.new.input.now (operations_of desk.new.loader)
        (asker_state port.new.asker port.new.seat) desk.new.unrefreshed port.new.share.amount)
        console.new.output.now }
{
    let rt = console.rt;
    for _ in rt.forever() {
        match obey_next(hub, port, desk, console) {
            Ok(()) => {}
            Err(console_end) => return console_end,
        }
    }
    unreachable!()
}

/// Runs the console at port 0 until it ends: first a Tick's turn, and then line by line.
pub fn talk<
    L: Site,
    B: Taker<L>,
    S: Wait + Files + AllocGlobal,
    Q: Wait + Drop,
    K: Transport + Drop,
    C: Seconds + Drop,
    I: ReadsBytes,
    O: WritesTexts,
>(
    hub: &Hub<L, B>,
    port: Port<L>,
    desk: &mut Desk<L, Q, K, C>,
    console: &mut Console<'_, S, I, O>,
) -> (Port<L>, EndedConsole)
    ensures conversed { Converses I.gives I.fails O.takes O.fails
        (sources B.offers B.took B.refuses B.wanted (IsListed B.began B.neighbor_at)
        IsAnyFile IsAnyPath) desk.old.interfaces
        (place console.old.input.now (operations_of desk.old.loader)
        (asker_state port.asker port.seat) desk.old.unrefreshed port.share.amount)
        console.old.output.now result.1.console_end
        (place console.new.input.now (operations_of desk.new.loader)
        (asker_state result.0.asker result.0.seat) desk.new.unrefreshed result.0.share.amount)
        console.new.output.now }
    ensures output { has_output_failed result.1 ≡ true → HasFailed O.fails }
{
    let mut port = port;
    tick(console.rt, hub, &mut port, &mut desk.outlet);
    let console_end = answer_all(hub, &mut port, desk, console);
    (port, EndedConsole { console_end })
}
