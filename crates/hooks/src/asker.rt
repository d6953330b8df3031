//! The threads' access to the published programs.
ghost use Rattle.std.specs.Prelude.{◌≡◌, ◌⊎◌, IfSome, IfNone, IsSome};
ghost use Rattle.std.specs.Option.{ForSome};
ghost use mathlib.Core.List.{IsPrefix};
ghost use Rattle.left_right.specs.Sides.{view};
ghost use Rattle.machine.specs.Given.{given_by};
ghost use Rattle.maps.specs.Words.{IsSeatOf};
ghost use Rattle.hooks.specs.Answered.{IsAnswered};
ghost use Rattle.hooks.specs.Operations.{HasHookNumber};
ghost use Rattle.hooks.specs.Rule.{HasSeen};

use crate::history::HistoryPrefix;
use crate::loader::Notice;
use crate::rule::{ProgramReader, Sees};
use machine::Input;
use maps::{Seat, Shared};

/// Runs the published programs in the thread that calls it.
#[derive(Drop)]
pub struct Asker {
    pub(crate) reader: Option<ProgramReader>,
    pub(crate) prefix: HistoryPrefix,
    ghost idle: { IsSome reader },
    ghost same: { ForSome reader (λ r. HasSeen prefix.seen.book (view r.place)) },
}

/// The word of a run, or the default.
#[derive(Clone, Copy)]
pub struct HookAnswer {
    pub(crate) word: u64,
}

impl HookAnswer {
    pub fn word(&self) -> u64
        ensures { result ≡ self.now.word }
    {
        self.word
    }
}

fn ask_by(
    reader: ProgramReader,
    prefix: &mut HistoryPrefix,
    input: &Input,
    shared: &Shared,
    seat: &mut Seat,
) -> (ProgramReader, Option<HookAnswer>)
    requires asked { HasHookNumber (given_by input.now) }
    requires table { IsSeatOf shared.now seat.old }
    requires same { HasSeen prefix.old.seen.book (view reader.place) }
    ensures same { (prefix.new.seen.book ≡ prefix.old.seen.book)
        × HasSeen prefix.new.seen.book (view result.0.place) }
    ensures unread { IfNone result.1 ((prefix.new ≡ prefix.old) × (seat.new ≡ seat.old)) }
    ensures answered { IfSome result.1 (λ a. IsAnswered prefix.old.seen.log prefix.new.seen.log
        seat.old seat.new (given_by input.now) a.word) }
    ensures table { IsSeatOf shared.now seat.new }
{
    let reading = match reader.enter_as::<Sees>() {
        Err(reader) => return (reader, None),
        Ok(reading) => reading,
    };
    let programs = reading.get();
    if !programs.prefix.reaches(prefix) {
        return (reading.leave(), None);
    }
    let word = programs.answer(input, shared, seat);
    *prefix = programs.prefix.copy();
    (reading.leave(), Some(HookAnswer { word }))
}

impl Asker {
    ghost use Rattle.hooks.specs.Known.{known_to, asker_history, told_by, notice_history};

    pub(crate) fn new(reader: ProgramReader, prefix: HistoryPrefix) -> Asker
        requires { HasSeen prefix.seen.book (view reader.place) }
        ensures { result.prefix ≡ prefix }
    {
        Asker {
            reader: Some(reader),
            prefix,
        }
    }

    /// Runs the program that is attached at the input's hook. Never blocks or allocates. `None` if
    /// the published programs can't be read, or are older than those that the asker knows.
    pub fn ask(&mut self, input: &Input, shared: &Shared, seat: &mut Seat) -> Option<HookAnswer>
        requires asked { HasHookNumber (given_by input.now) }
        requires table { IsSeatOf shared.now seat.old }
        ensures history { asker_history self.new ≡ asker_history self.old }
        ensures unread { IfNone result ((known_to self.new ≡ known_to self.old)
            × (seat.new ≡ seat.old)) }
        ensures answered { IfSome result (λ a. IsAnswered (known_to self.old) (known_to self.new)
            seat.old seat.new (given_by input.now) a.word) }
        ensures table { IsSeatOf shared.now seat.new }
    {
        let Some(reader) = self.reader.take() else {
            unreachable!()
        };
        let (reader, answer) = ask_by(reader, &mut self.prefix, input, shared, seat);
        self.reader = Some(reader);
        answer
    }

    /// From now on the asker sees all that the loader had done at the notice.
    pub fn learn(&mut self, notice: Notice)
        requires { asker_history self.old ≡ notice_history notice }
        ensures history { asker_history self.new ≡ asker_history self.old }
        ensures known { IsPrefix (known_to self.old) (known_to self.new)
            × IsPrefix (told_by notice) (known_to self.new) }
        ensures one { (known_to self.new ≡ known_to self.old)
            ⊎ (known_to self.new ≡ told_by notice) }
    {
        if notice.prefix.reaches(&self.prefix) {
            self.prefix = notice.prefix;
        }
    }
}
