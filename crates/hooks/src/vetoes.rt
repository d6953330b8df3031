//! The questions of `veto` about many routes, by few readings of the published programs.
ghost use Rattle.std.specs.Prelude.{◌≡◌, ◌<◌, ◌≤◌, IfNone, IfOk, IfSome, IsTrue, List, OnErr};
ghost use Rattle.std.specs.Prelude.{false, length, take, vec_capacity, vec_len};
ghost use mathlib.Core.List.{IsPrefix};
ghost use Rattle.left_right.specs.Sides.{view};
ghost use Rattle.maps.specs.Words.{IsSeatOf, SeatView};
ghost use Rattle.hooks.specs.Answered.{AreAnswered, AreAnsweredInPart};
ghost use Rattle.hooks.specs.Known.{known_to, asker_history};
ghost use Rattle.hooks.specs.Rule.{HasSeen};
ghost use Rattle.hooks.specs.declared.operation.LoaderOperation.{LoaderOperation};

use crate::answer::VetoAnswer;
use crate::asker::Asker;
use crate::history::HistoryPrefix;
use crate::rule::{ProgramReader, Sees};
use machine::TableRow;
use maps::{Seat, Shared};
use std::alloc::{AllocError, Global};
use words::{Route, Second};

// Asks about the next routes by one reading. Returns whether the published programs could be read,
// and aren't older than those that the asker knows; if not, none is asked about.
fn ask_some_by(
    reader: ProgramReader,
    prefix: &mut HistoryPrefix,
    routes: &[Route],
    moment: Second,
    rows: &[TableRow],
    shared: &Shared,
    seat: &mut Seat,
    answers: &mut Vec<VetoAnswer>,
) -> (ProgramReader, bool)
    requires table { IsSeatOf shared.now seat.old }
    requires same { HasSeen prefix.old.seen.book (view reader.place) }
    requires left { vec_len answers.old < length routes.now }
    requires room { length routes.now ≤ vec_capacity answers.old }
    ensures same { (prefix.new.seen.book ≡ prefix.old.seen.book)
        × HasSeen prefix.new.seen.book (view result.0.place) }
    ensures begins { IsPrefix prefix.old.seen.log prefix.new.seen.log }
    ensures answered { (known : List LoaderOperation) (first : SeatView)
        → AreAnswered known prefix.old.seen.log first seat.old moment rows.now
        (take (vec_len answers.old) routes.now) answers.old.items
        → AreAnswered known prefix.new.seen.log first seat.new moment rows.now
        (take (vec_len answers.new) routes.now) answers.new.items }
    ensures more { IsTrue result.1 → vec_len answers.old < vec_len answers.new }
    ensures unread { result.1 ≡ false → vec_len answers.new ≡ vec_len answers.old }
    ensures most { vec_len answers.new ≤ length routes.now }
    ensures room { vec_capacity answers.new ≡ vec_capacity answers.old }
    ensures table { IsSeatOf shared.now seat.new }
{
    let reading = match reader.enter_as::<Sees>() {
        Err(reader) => return (reader, false),
        Ok(reading) => reading,
    };
    let programs = reading.get();
    if !programs.prefix.reaches(prefix) {
        return (reading.leave(), false);
    }
    programs.vetoes(routes, moment, rows, shared, seat, answers);
    *prefix = programs.prefix.copy();
    (reading.leave(), true)
}

impl Asker {
    // The same, by the reader of this asker.
    fn ask_some(
        &mut self,
        routes: &[Route],
        moment: Second,
        rows: &[TableRow],
        shared: &Shared,
        seat: &mut Seat,
        answers: &mut Vec<VetoAnswer>,
    ) -> bool
        requires table { IsSeatOf shared.now seat.old }
        requires left { vec_len answers.old < length routes.now }
        requires room { length routes.now ≤ vec_capacity answers.old }
        ensures history { asker_history self.new ≡ asker_history self.old }
        ensures known { IsPrefix (known_to self.old) (known_to self.new) }
        ensures answered { (known : List LoaderOperation) (first : SeatView)
            → AreAnswered known (known_to self.old) first seat.old moment rows.now
            (take (vec_len answers.old) routes.now) answers.old.items
            → AreAnswered known (known_to self.new) first seat.new moment rows.now
            (take (vec_len answers.new) routes.now) answers.new.items }
        ensures more { IsTrue result → vec_len answers.old < vec_len answers.new }
        ensures unread { result ≡ false → vec_len answers.new ≡ vec_len answers.old }
        ensures most { vec_len answers.new ≤ length routes.now }
        ensures room { vec_capacity answers.new ≡ vec_capacity answers.old }
        ensures table { IsSeatOf shared.now seat.new }
    {
        let Some(reader) = self.reader.take() else {
            unreachable!()
        };
        let prefix = &mut self.prefix;
        let (reader, is_read) = ask_some_by(
            reader, prefix, routes, moment, rows, shared, seat, answers,
        );
        self.reader = Some(reader);
        is_read
    }

    /// Asks `veto` about each of these routes in turn: each answer is one that
    /// [`veto`](Asker::veto) may give then. This takes less time, since the published programs are
    /// read once for 64 questions. An `attach` or `detach` may wait until as many are answered.
    ///
    /// `None` if the published programs can't be read at one of these times: entering was refused,
    /// or they are older than those that the asker knows. The first routes may have been asked
    /// about then. Without a route they aren't read. The seat has to be one of `shared`.
    ///
    /// # Errors
    /// `AllocError` if an allocation is refused, before any question.
    pub fn vetoes(
        &mut self,
        alloc: Global,
        routes: &[Route],
        moment: Second,
        rows: &[TableRow],
        shared: &Shared,
        seat: &mut Seat,
    ) -> Result<Option<Vec<VetoAnswer>>, AllocError>
        requires table { IsSeatOf shared.now seat.old }
        ensures history { asker_history self.new ≡ asker_history self.old }
        ensures known { IsPrefix (known_to self.old) (known_to self.new) }
        ensures unread { IfOk result (λ o. IfNone o (AreAnsweredInPart (known_to self.old)
            (known_to self.new) seat.old seat.new moment rows.now routes.now)) }
        ensures answered { IfOk result (λ o. IfSome o (λ answers.
            AreAnswered (known_to self.old) (known_to self.new) seat.old seat.new moment
            rows.now routes.now answers.items)) }
        ensures short { OnErr result ((known_to self.new ≡ known_to self.old)
            × (seat.new ≡ seat.old)) }
        ensures table { IsSeatOf shared.now seat.new }
    {
        let mut answers = Vec::with_capacity(alloc, routes.len())?;
        let mut asked = 0;
        while asked < routes.len() {
            if !self.ask_some(routes, moment, rows, shared, seat, &mut answers) {
                return Ok(None);
            }
            asked = answers.len();
        }
        Ok(Some(answers))
    }
}
